// The line and column of a byte of an object's source (document 01, "Line and source tables"; SourceInfo of 001).
#![tactic(auto)]

ghost use Rattle.std.specs.Prelude.{◌≡◌, ◌≤◌};
ghost use Rattle.format.specs.Source.{get_pos_pair};
ghost use Rattle.format.specs.Calls.{query_pos_pair};
ghost use Rattle.object.specs.Texts.{text_bytes};
ghost use Rattle.positions.specs.Pairs.{pair_answer, Passes, pair_in};

use source_info::source_of;
use units::{ByteIndex, Line, Refusal};

// A line, counted from 0, and how far into it.
#[derive(Clone, Copy)]
pub struct PosPair {
    pub line: Line,
    pub column: u64,
}

// How far a source is passed: up to byte `i`, which stands in a line that begins at byte `start`.
#[derive(Clone, Copy)]
struct Passed {
    i: usize,
    line: usize,
    start: usize,
}

// A line, and a place in it.
#[derive(Clone, Copy)]
struct Pair {
    line: usize,
    column: usize,
}

impl Passed {
    // Passed up to an index or the end of the `n` bytes, whichever comes first. The next index goes on from there.
    fn advance(self, ws: &[u32], at: usize, n: usize, index: usize) -> Passed
        requires { (self.i ≤ n) × (self.line ≤ self.i) × (self.start ≤ self.i) }
        ensures { Passes (text_bytes ws.now at n) n index self result }
    {
        let mut line = self.line;
        let mut start = self.start;
        for i in self.i..n {
            if index <= i {
                return Passed { i, line, start };
            }
            if object::text_byte(ws, at, i) == 10 {
                line += 1;
                start = i + 1;
            }
        }
        Passed { i: n, line, start }
    }
}

// The position of an index in a text of `n` bytes.
fn pair_at(ws: &[u32], at: usize, n: usize, index: usize) -> Pair
    ensures { pair_in result ≡ get_pos_pair (text_bytes ws.now at n) index }
{
    let none = Passed {
        i: 0,
        line: 0,
        start: 0,
    };
    let p = none.advance(ws, at, n, index);
    if n < index {
        return Pair {
            line: p.line + 1,
            column: index,
        };
    }
    Pair {
        line: p.line,
        column: index - p.start,
    }
}

// The line in which a byte index stands, and how far it is from the line's start; past the end, the line count and the index.
pub fn get_pos_pair(object: &[u32], index: ByteIndex) -> Result<PosPair, Refusal>
    ensures { pair_answer result ≡ query_pos_pair object.now index.0 }
{
    let source = source_of(object)?;
    let p = pair_at(object, source.at, source.len, index.0 as usize);
    Ok(PosPair {
        line: Line(p.line as u64),
        column: p.column as u64,
    })
}
