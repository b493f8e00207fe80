// Positions in a source that is given as bytes.
#![tactic(auto)]

ghost use Rattle.std.specs.Prelude.{◌≡◌};
ghost use Rattle.format.specs.Source.{get_pos_pair};
ghost use Rattle.byte_positions.specs.Pairs.{pair_of};

// A line, counted from 0, and how many bytes from its start.
#[derive(Clone, Copy)]
pub struct Pair {
    pub line: u64,
    pub column: u64,
}

// The line and the column of an index into the bytes of a source; past the end the line count and the index.
pub fn position_of(source: &[u8], index: u64) -> Pair
    ensures { pair_of result ≡ get_pos_pair source.now index }
{
    let to = index as usize;
    let mut line = 0;
    let mut start = 0;
    for i in 0..to {
        if source.len() <= i {
            return Pair {
                line: line + 1,
                column: index,
            };
        }
        if source[i] == 10 {
            line += 1;
            start = i + 1;
        }
    }
    Pair {
        line,
        column: (to - start) as u64,
    }
}
