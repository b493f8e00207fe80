// Part writers. Each is lent the unused rest of the output, `&mut out[at..]`, writes at the front of it and returns the length filled.
// Where the room is too short it writes nothing and returns 0.
#![tactic(auto)]

ghost use Rattle.std.specs.Prelude.{◌≡◌, [], ◌∷◌, ◌<◌, get_or};
ghost use Rattle.format.specs.Words.{number_words, text_words};
ghost use Rattle.writing.specs.Written.{Put};

// A part of elements of any type.
pub fn put_all<T: Copy>(out: &mut [T], part: &[T]) -> usize
    ensures { Put part.now out.old result out.new }
{
    if out.len() < part.len() {
        return 0;
    }
    out[..part.len()].copy_from_slice(part);
    part.len()
}

// One byte.
pub fn put_u8(out: &mut [u8], v: u8) -> usize
    ensures { Put (v ∷ []) out.old result out.new }
{
    put_all(out, &[v])
}

// The bytes of `s`.
pub fn put_bytes(out: &mut [u8], s: &[u8]) -> usize
    ensures { Put s.now out.old result out.new }
{
    put_all(out, s)
}

// One word.
pub fn put_word(out: &mut [u32], w: u32) -> usize
    ensures { Put (w ∷ []) out.old result out.new }
{
    put_all(out, &[w])
}

// The three words of a 64-bit number, kind 6: 24, 24 and 16 bits.
pub fn put_number_words(out: &mut [u32], v: u64) -> usize
    ensures { Put (number_words v) out.old result out.new }
{
    let v1 = v / 0x100_0000;
    let v2 = v1 / 0x100_0000;
    let words = [
        0xC000_0000 + (v % 0x100_0000) as u32,
        0xC000_0000 + (v1 % 0x100_0000) as u32,
        0xC000_0000 + (v2 % 0x100_0000) as u32,
    ];
    put_all(out, &words)
}

fn wide(b: u8) -> u32
    ensures { (result ≡ b) × (result < 256) }
{
    b as u32
}

// The word of kind 7 of the first three bytes of `s`, or of all where they are fewer; 0 where there are none.
fn text_word(s: &[u8]) -> u32
    ensures { result ≡ get_or (text_words s.now) 0 0 }
{
    let n = s.len();
    if n == 0 {
        return 0;
    }
    let a = wide(s[0]);
    if n == 1 {
        return 0xE100_0000 + a;
    }
    let b = wide(s[1]);
    if n == 2 {
        return 0xE200_0000 + a + 256 * b;
    }
    let c = wide(s[2]);
    0xE300_0000 + a + 256 * b + 65536 * c
}

// The words of a text, three bytes to a word.
pub fn put_text_words(out: &mut [u32], s: &[u8]) -> usize
    ensures { Put (text_words s.now) out.old result out.new }
{
    if out.len() < (s.len() + 2) / 3 {
        return 0;
    }
    let mut at = 0;
    let mut i = 0;
    while i < s.len() {
        out[at] = text_word(&s[i..]);
        at += 1;
        i += 3;
    }
    at
}
