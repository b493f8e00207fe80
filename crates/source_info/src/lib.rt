// The source of an object, and how many lines it has (document 01, "Line and source tables"; SourceInfo of 001).
// Each public query checks the object and then asks a function that works on a text or on the records of an object that is well formed.
#![tactic(auto)]

ghost use Rattle.std.specs.Prelude.{◌≡◌, [], ◌∷◌, ◌+◌, ◌*◌, ◌≤◌, drop};
ghost use Rattle.format.specs.Source.{newlines};
ghost use Rattle.format.specs.Calls.{query_count_lines};
ghost use Rattle.object.specs.Texts.{text_bytes, whole_words};
ghost use Rattle.source_info.specs.Sources.{Sourced, SourceIs, count_answer};

use object::Kind;
use units::Refusal;

// The source of an object: where its words begin, and how many bytes it has.
#[derive(Clone, Copy)]
pub struct Source {
    pub at: usize,
    pub len: usize,
}

// Of a well formed object, where the words of its source begin, if it has one.
pub fn source_at(ws: &[u32]) -> Option<usize>
    ensures { Sourced ws.now result }
{
    let mut at = 0;
    while at < ws.len() {
        let body = at + 1;
        if Kind::of(ws[at]) == Kind::Source {
            return Some(body);
        }
        at = object::body_end(ws, body);
    }
    None
}

// What every query asks first: is the object well formed, and has it a source?
pub fn source_of(object: &[u32]) -> Result<Source, Refusal>
    ensures { SourceIs object.now result }
{
    well_formed::check(object)?;
    let Some(at) = source_at(object) else {
        return Err(Refusal::NoSource);
    };
    let end = object::body_end(object, at);
    Ok(Source {
        at,
        len: object::text_len(object, at, end),
    })
}

// 1 for a newline.
fn one_newline(b: u32) -> u32
    ensures { result ≡ newlines (b ∷ []) }
{
    u32::from(b == 10)
}

// The newlines in the first words of a text, counted without an exit from the loop.
fn newlines_in_words(ws: &[u32], at: usize, n: usize, words: usize) -> u64
    requires { words ≡ whole_words ws.now at n }
    ensures { (result ≤ 3 * words)
        × (result + newlines (drop (3 * words) (text_bytes ws.now at n)) ≡ newlines (text_bytes ws.now at n)) }
{
    let mut count: u64 = 0;
    for k in 0..words {
        let w = ws[at + k];
        let here = one_newline(w % 256) + one_newline(w / 256 % 256) + one_newline(w / 65536 % 256);
        count += u64::from(here);
    }
    count
}

// The newlines among the first `n` bytes of a text.
pub fn count_newlines(ws: &[u32], at: usize, n: usize) -> u64
    ensures { (result ≡ newlines (text_bytes ws.now at n)) × (result ≤ n) }
{
    let words = object::whole_words(ws, at, n);
    let mut count = newlines_in_words(ws, at, n, words);
    for i in 3 * words..n {
        if object::text_byte(ws, at, i) == 10 {
            count += 1;
        }
    }
    count
}

// The number of lines of the source.
pub fn count_lines(object: &[u32]) -> Result<u64, Refusal>
    ensures { count_answer result ≡ query_count_lines object.now }
{
    let source = source_of(object)?;
    Ok(count_newlines(object, source.at, source.len) + 1)
}
