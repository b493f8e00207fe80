// An object is a slice of 32-bit words (document 01, "The holding"): access to its records, numbers and texts by their places.
#![tactic(auto)]

ghost use Rattle.std.specs.Prelude.{◌≡◌, true, false, not, ◌+◌, ◌-◌, ◌*◌, ◌/◌, ◌%◌, ◌^◌, ◌≤◌, ◌<◌, length};
ghost use Rattle.format.specs.Basics.{is_empty};
ghost use Rattle.format.specs.Words.{is_head};
ghost use Rattle.writing.specs.Written.{Put};
ghost use Rattle.object.specs.Bodies.{kind_number, body_at, number_at, are_number, Numbered, SameEnd};
ghost use Rattle.object.specs.Texts.{text_len, text_byte, text_bytes, span_bytes, whole_words};

// What a word is: its top 3 bits say it. The heads of the five records, and the words that go on with them.
#[derive(Clone, Copy, Debug, PartialEq, Eq)]
pub enum Kind {
    Block,
    Memory,
    Label,
    LineBlock,
    Source,
    Relocation,
    Number,
    Text,
}

impl Kind {
    // The kind of a word: its top 3 bits.
    pub fn of(w: u32) -> Kind
        ensures { kind_number result ≡ w / 2 ^ 29 }
    {
        match w / 0x2000_0000 {
            0 => Kind::Block,
            1 => Kind::Memory,
            2 => Kind::Label,
            3 => Kind::LineBlock,
            4 => Kind::Source,
            5 => Kind::Relocation,
            6 => Kind::Number,
            _ => Kind::Text,
        }
    }
}

// Whether a word begins a record.
pub fn is_head(w: u32) -> bool
    ensures { result ≡ is_head w }
{
    let k = w / 0x2000_0000;
    if k == 1 {
        return false;
    }
    k < 6
}

// Whether the word at a place goes on with a record.
pub fn goes_on(ws: &[u32], at: usize) -> bool
    ensures { result ≡ not (is_empty (body_at ws.now at)) }
{
    if ws.len() <= at {
        return false;
    }
    if is_head(ws[at]) {
        return false;
    }
    true
}

// Where the record ends whose words go on at a place, word by word.
fn near_end(ws: &[u32], at: usize) -> usize
    ensures { result ≡ at + length (body_at ws.now at) }
{
    for i in at..ws.len() {
        if !goes_on(ws, i) {
            return i;
        }
    }
    at.max(ws.len())
}

// Whether the 16 words from a place on all go on. The loop has no exit in the middle, so that the words can be compared at once.
fn is_body_block(ws: &[u32], at: usize) -> bool
    requires { at + 16 ≤ length ws.now }
    ensures { result ≡ true → SameEnd ws.now at (at + 16) }
{
    let mut all = true;
    for k in 0..16 {
        if is_head(ws[at + k]) {
            all = false;
        }
    }
    all
}

// A place up to which the words go on: past the whole blocks.
fn past_blocks(ws: &[u32], at: usize) -> usize
    requires { at ≤ length ws.now }
    ensures { SameEnd ws.now at result }
{
    let mut i = at;
    while 16 <= ws.len() - i {
        if is_body_block(ws, i) {
            i += 16;
        } else {
            return i;
        }
    }
    i
}

// Past words of numbers and texts, eight at most: one test finds them, and most records have no others.
fn past_high(ws: &[u32], at: usize) -> usize
    ensures { (at ≤ result) × SameEnd ws.now at result }
{
    for i in at..ws.len() {
        if i - at == 8 || ws[i] < 0xC000_0000 {
            return i;
        }
    }
    at.max(ws.len())
}

// Where the record ends whose words go on at a place: most end within a few words, a source is long.
pub fn body_end(ws: &[u32], at: usize) -> usize
    ensures { result ≡ at + length (body_at ws.now at) }
{
    let start = past_high(ws, at);
    for i in start..ws.len() {
        if !goes_on(ws, i) {
            return i;
        }
        if 8 <= i - at {
            return near_end(ws, past_blocks(ws, i));
        }
    }
    start.max(ws.len())
}

// How many words go on at a place: the memory words of the block before it.
pub fn body_len(ws: &[u32], at: usize) -> usize
    ensures { result ≡ length (body_at ws.now at) }
{
    body_end(ws, at) - at
}

// Whether three words are a number's: all of kind 6, and no bits above its 64.
fn is_number(a: u32, b: u32, c: u32) -> bool
    ensures { result ≡ are_number a b c }
{
    if a / 0x100_0000 != 0xC0 {
        return false;
    }
    if b / 0x100_0000 != 0xC0 {
        return false;
    }
    c / 0x1_0000 == 0xC000
}

// The number that they are, of 24, 24 and 16 bits.
fn joined(a: u32, b: u32, c: u32) -> u64
    ensures { result ≡ a % 2 ^ 24 + 0x100_0000 * (b % 2 ^ 24) + 0x1_0000_0000_0000 * (c % 2 ^ 16) }
{
    let x = u64::from(a % 0x100_0000);
    let y = u64::from(b % 0x100_0000);
    let z = u64::from(c % 0x1_0000);
    x + 0x100_0000 * y + 0x1_0000_0000_0000 * z
}

// The number of three words at a place, if it is there.
pub fn read_number(ws: &[u32], at: usize) -> Option<u64>
    ensures { Numbered ws.now at result }
{
    let n = ws.len();
    if n < 3 {
        return None;
    }
    if n - 3 < at {
        return None;
    }
    let a = ws[at];
    let b = ws[at + 1];
    let c = ws[at + 2];
    if is_number(a, b, c) {
        return Some(joined(a, b, c));
    }
    None
}

// The number of three words at a place; 0 where there is none.
pub fn number_at(ws: &[u32], at: usize) -> u64
    ensures { result ≡ number_at ws.now at }
{
    read_number(ws, at).unwrap_or(0)
}

// How many bytes the text has whose words stand from `at` up to `end`; 0 where no words do.
pub fn text_len(ws: &[u32], at: usize, end: usize) -> usize
    ensures { result ≡ text_len ws.now at end }
{
    if end <= at {
        return 0;
    }
    if ws.len() < end {
        return 0;
    }
    let last = ws[end - 1];
    (end - 1 - at) * 3 + (last / 0x100_0000 % 4) as usize
}

// Byte `i` of the text words from a place on; 0 past the last word.
pub fn text_byte(ws: &[u32], at: usize, i: usize) -> u8
    ensures { result ≡ text_byte ws.now at i }
{
    if ws.len() <= at {
        return 0;
    }
    if ws.len() - at <= i / 3 {
        return 0;
    }
    let w = ws[at + i / 3];
    let k = i % 3;
    if k == 0 {
        return (w % 256) as u8;
    }
    if k == 1 {
        return (w / 256 % 256) as u8;
    }
    (w / 65536 % 256) as u8
}

// How many whole words the first `n` bytes have of the text words from a place on.
pub fn whole_words(ws: &[u32], at: usize, n: usize) -> usize
    ensures { result ≡ whole_words ws.now at n }
{
    let wanted = n / 3;
    if ws.len() <= at {
        return 0;
    }
    let here = ws.len() - at;
    if here < wanted {
        return here;
    }
    wanted
}

// The bytes from `start` up to `end` of the text words from a place on, one by one, into a room that suffices.
fn put_each(out: &mut [u8], ws: &[u32], at: usize, start: usize, end: usize) -> usize
    requires { end - start ≤ length out.old }
    ensures { Put (span_bytes ws.now at start end) out.old result out.new }
{
    let mut n = 0;
    for i in start..end {
        out[n] = text_byte(ws, at, i);
        n += 1;
    }
    n
}

// The bytes of the words from the `first` up to the `last`, into a room that suffices.
fn put_words(out: &mut [u8], ws: &[u32], at: usize, first: usize, last: usize) -> usize
    requires { (at + last ≤ length ws.now) × (3 * last - 3 * first ≤ length out.old) }
    ensures { Put (span_bytes ws.now at (3 * first) (3 * last)) out.old result out.new }
{
    let mut n = 0;
    for k in first..last {
        let w = ws[at + k];
        out[n] = (w % 256) as u8;
        n += 1;
        out[n] = (w / 256 % 256) as u8;
        n += 1;
        out[n] = (w / 65536 % 256) as u8;
        n += 1;
    }
    n
}

// The bytes of the words from the `first` up to the `last`, and those past them up to `end`, into a room that suffices.
fn put_to_end(out: &mut [u8], ws: &[u32], at: usize, first: usize, last: usize, end: usize) -> usize
    requires { (first ≤ last) × (3 * last ≤ end) × (at + last ≤ length ws.now) × (end - 3 * first ≤ length out.old) }
    ensures { Put (span_bytes ws.now at (3 * first) end) out.old result out.new }
{
    let n = put_words(out, ws, at, first, last);
    n + put_each(&mut out[n..], ws, at, 3 * last, end)
}

// The bytes from `start` up to `end`, into a room that suffices: whole words where they are.
fn put_within(out: &mut [u8], ws: &[u32], at: usize, start: usize, end: usize) -> usize
    requires { (start ≤ end) × (end - start ≤ length out.old) }
    ensures { Put (span_bytes ws.now at start end) out.old result out.new }
{
    let first = start / 3 + (start % 3 + 2) / 3;
    let last = whole_words(ws, at, end);
    if last <= first {
        return put_each(out, ws, at, start, end);
    }
    let n = put_each(out, ws, at, start, 3 * first);
    n + put_to_end(&mut out[n..], ws, at, first, last, end)
}

// The bytes from `start` up to `end` of the text words from a place on, into the room lent.
pub fn put_span(out: &mut [u8], ws: &[u32], at: usize, start: usize, end: usize) -> usize
    ensures { Put (span_bytes ws.now at start end) out.old result out.new }
{
    if end <= start {
        return 0;
    }
    if out.len() < end - start {
        return 0;
    }
    put_within(out, ws, at, start, end)
}

// The first `n` bytes of the text words from a place on, into the room lent.
pub fn put_text(out: &mut [u8], ws: &[u32], at: usize, n: usize) -> usize
    ensures { Put (text_bytes ws.now at n) out.old result out.new }
{
    put_span(out, ws, at, 0, n)
}
