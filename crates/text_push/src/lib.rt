// A text written into words byte by byte, as the bytes come: three bytes make a word.
#![tactic(auto)]

ghost use Rattle.std.specs.Prelude.{◌+◌, ◌*◌, [], ◌∷◌};
ghost use Rattle.encode.specs.Scalar.{scalar_bytes};
ghost use Rattle.text_push.specs.Pushes.{state_of, full_word, Stores, Pushes, Flushes};

use encode::encode_scalar;

// The bytes that are held over for a text's next word, at most two.
#[derive(Clone, Copy)]
pub enum Over {
    Nothing,
    One(u8),
    Two(u8, u8),
}

// A text that is being written: the place of its next word, and the bytes that are held over for it.
#[derive(Clone, Copy)]
pub struct Held {
    pub at: usize,
    pub over: Over,
}

// A word of three bytes, where there is room for it; no bytes are held over then.
fn store_word(out: &mut [u32], at: usize, low: u8, mid: u8, high: u8) -> Held
    ensures { Stores (full_word low mid high) at out.old (state_of result) out.new }
{
    let over = Over::Nothing;
    if out.len() <= at {
        return Held { at, over };
    }
    out[at] = 0xE300_0000 + u32::from(low) + 256 * u32::from(mid) + 65536 * u32::from(high);
    Held { at: at + 1, over }
}

// One more byte of a text.
pub fn push(out: &mut [u32], h: Held, b: u8) -> Held
    ensures { Pushes (b ∷ []) (state_of h) out.old (state_of result) out.new }
{
    match h.over {
        Over::Nothing => Held {
            at: h.at,
            over: Over::One(b),
        },
        Over::One(low) => Held {
            at: h.at,
            over: Over::Two(low, b),
        },
        Over::Two(low, mid) => store_word(out, h.at, low, mid, b),
    }
}

// More bytes of a text, word by word where none are held over.
pub fn push_bytes(out: &mut [u32], start: Held, s: &[u8]) -> Held
    ensures { Pushes s.now (state_of start) out.old (state_of result) out.new }
{
    let mut h = start;
    let mut i = 0;
    while i < s.len() {
        match h.over {
            Over::Nothing if 3 <= s.len() - i => {
                h = store_word(out, h.at, s[i], s[i + 1], s[i + 2]);
                i += 3;
            }
            _ => {
                h = push(out, h, s[i]);
                i += 1;
            }
        }
    }
    h
}

// The bytes of a scalar value; none of another number.
pub fn push_scalar(out: &mut [u32], h: Held, v: u32) -> Held
    ensures { Pushes (scalar_bytes v) (state_of h) out.old (state_of result) out.new }
{
    let mut bytes = [0u8; 4];
    let n = encode_scalar(&mut bytes, v);
    push_bytes(out, h, &bytes[0..n])
}

// The word of the bytes that are left over at the end, where there is room for it: the length of all that is written.
pub fn flush(out: &mut [u32], h: Held) -> usize
    ensures { Flushes (state_of h) out.old result out.new }
{
    let at = h.at;
    if out.len() <= at {
        return at;
    }
    match h.over {
        Over::Nothing => return at,
        Over::One(low) => out[at] = 0xE100_0000 + u32::from(low),
        Over::Two(low, mid) => out[at] = 0xE200_0000 + u32::from(low) + 256 * u32::from(mid),
    }
    at + 1
}
