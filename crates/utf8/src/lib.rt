// UTF-8 in place on bytes: whether they are UTF-8, and the character at a place.
#![tactic(auto)]

ghost use Rattle.std.specs.Prelude.{◌≡◌, true, ◌+◌, ◌≤◌, ◌<◌, length, drop};
ghost use Rattle.format.specs.Utf8.{follow, shortest_form, char_at, is_utf8};
ghost use Rattle.utf8.specs.Chars.{char_of, bits_of};
ghost use Rattle.utf8.specs.Utf8.{Ascii, more, whole, is_whole, step, first_byte};

// Where a reader of UTF-8 stands that is fed a byte at a time, as from text words, whose bytes don't lie side by side: how many bytes of
// the character are still to come, and the bounds of the next of them.
// Between characters none is to come. Where the bytes are no UTF-8, one is to come that has no bounds to lie in.
#[derive(Clone, Copy)]
pub struct Utf8 {
    pub need: u8,
    pub low: u8,
    pub high: u8,
}

// The state that waits for the bytes of the table's row.
fn waiting(need: u8, low: u8, high: u8) -> Utf8
    ensures { result ≡ more need low high }
{
    Utf8 {
        need: need,
        low: low,
        high: high,
    }
}

// The state after the first byte of three.
fn first_of_three(b: u8) -> Utf8
    requires { (0xE0 ≤ b) × (b < 0xF0) }
    ensures { result ≡ first_byte b }
{
    if b == 0xE0 {
        return waiting(2, 0xA0, 0xBF);
    }
    if b == 0xED {
        return waiting(2, 0x80, 0x9F);
    }
    waiting(2, 0x80, 0xBF)
}

// The state after the first byte of four, or one that begins no character.
fn first_of_four(b: u8) -> Utf8
    requires { 0xF0 ≤ b }
    ensures { result ≡ first_byte b }
{
    if b == 0xF0 {
        return waiting(3, 0x90, 0xBF);
    }
    if b < 0xF4 {
        return waiting(3, 0x80, 0xBF);
    }
    if b == 0xF4 {
        return waiting(3, 0x80, 0x8F);
    }
    waiting(1, 1, 0)
}

// The state after the first byte of a character.
pub fn first_byte(b: u8) -> Utf8
    ensures { result ≡ first_byte b }
{
    if b < 0x80 {
        return waiting(0, 0, 0);
    }
    if b < 0xC2 {
        return waiting(1, 1, 0);
    }
    if b < 0xE0 {
        return waiting(1, 0x80, 0xBF);
    }
    if b < 0xF0 {
        return first_of_three(b);
    }
    first_of_four(b)
}

impl Utf8 {
    // The state before the first byte.
    pub fn new() -> Utf8
        ensures { result ≡ whole }
    {
        Utf8 {
            need: 0,
            low: 0,
            high: 0,
        }
    }

    // Between characters: what came so far is UTF-8.
    pub fn is_whole(self) -> bool
        ensures { result ≡ is_whole self }
    {
        self.need == 0
    }

    // The state after one byte more.
    pub fn step(self, b: u8) -> Utf8
        ensures { result ≡ step self b }
    {
        let need = self.need;
        let low = self.low;
        let high = self.high;
        if need == 0 {
            return first_byte(b);
        }
        if b < low {
            return waiting(1, 1, 0);
        }
        if high < b {
            return waiting(1, 1, 0);
        }
        waiting(need - 1, 0x80, 0xBF)
    }
}

// Whether the 64 bytes from a place on are ASCII. The largest of them decides, so that the loop has no exit in the middle and, counting to 64,
// is done by vector instructions.
fn is_ascii_block(s: &[u8], at: usize) -> bool
    requires { at + 64 ≤ length s.now }
    ensures { result ≡ true → Ascii s.now at (at + 64) }
{
    let mut most = 0;
    for k in 0..64 {
        let b = s[at + k];
        if most < b {
            most = b;
        }
    }
    most < 0x80
}

// A place up to which all is ASCII: past the whole blocks.
fn ascii_blocks(s: &[u8], at: usize) -> usize
    requires { at ≤ length s.now }
    ensures { (at ≤ result) × (result ≤ length s.now) × Ascii s.now at result }
{
    let mut i = at;
    while 64 <= s.len() - i && is_ascii_block(s, i) {
        i += 64;
    }
    i
}

// The same, up to the first byte that is not ASCII.
fn ascii_end(s: &[u8], at: usize) -> usize
    requires { at ≤ length s.now }
    ensures { (at ≤ result) × (result ≤ length s.now) × Ascii s.now at result }
{
    for i in ascii_blocks(s, at)..s.len() {
        if 0x80 <= s[i] {
            return i;
        }
    }
    s.len()
}

// A character: its scalar value, and how many bytes follow its first.
#[derive(Clone, Copy)]
pub struct Char {
    pub value: u32,
    pub more: usize,
}

// The bits of the first byte and of the n bytes 10xxxxxx from a place on, if they are there.
fn follow_bits(s: &[u8], at: usize, n: usize, first: u32) -> Option<u32>
    requires { (at ≤ length s.now) × (n ≤ 3) × (first < 32) }
    ensures { bits_of result ≡ follow n first (drop at s.now) }
{
    let mut bits = first;
    for k in 0..n {
        let i = at + k;
        if s.len() <= i {
            return None;
        }
        let b = s[i];
        if b < 0x80 {
            return None;
        }
        if 0xBF < b {
            return None;
        }
        bits = bits * 64 + (b - 0x80) as u32;
    }
    Some(bits)
}

// The character of these bits, if it is a scalar value and needs as many bytes.
fn shortest_form(least: u32, more: usize, bits: Option<u32>) -> Option<Char>
    ensures { char_of result ≡ shortest_form least more (bits_of bits) }
{
    let value = bits?;
    if value < least {
        return None;
    }
    if value < 0xD800 {
        return Some(Char { value, more });
    }
    if value < 0xE000 {
        return None;
    }
    if 0x10FFFF < value {
        return None;
    }
    Some(Char { value, more })
}

// The character at a place; nothing where none begins there, also past the end.
pub fn char_at(s: &[u8], at: usize) -> Option<Char>
    ensures { char_of result ≡ char_at (drop at s.now) }
{
    if s.len() <= at {
        return None;
    }
    let b = s[at] as u32;
    if b < 0x80 {
        return Some(Char { value: b, more: 0 });
    }
    if b < 0xC0 {
        return None;
    }
    let next = at + 1;
    if b < 0xE0 {
        return shortest_form(0x80, 1, follow_bits(s, next, 1, b - 0xC0));
    }
    if b < 0xF0 {
        return shortest_form(0x800, 2, follow_bits(s, next, 2, b - 0xE0));
    }
    if b < 0xF8 {
        return shortest_form(0x10000, 3, follow_bits(s, next, 3, b - 0xF0));
    }
    None
}

// Whether bytes are UTF-8: ASCII stretches in one go, what lies between them a character at a time.
pub fn is_utf8(s: &[u8]) -> bool
    ensures { result ≡ is_utf8 s.now }
{
    let mut i = 0;
    while i < s.len() {
        if s[i] < 0x80 {
            i = ascii_end(s, i + 1);
            continue;
        }
        let Some(c) = char_at(s, i) else {
            return false;
        };
        i += c.more + 1;
    }
    true
}
