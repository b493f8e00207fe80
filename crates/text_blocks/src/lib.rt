// The text reader's .TEXT group: its blocks.
#![tactic(auto)]

ghost use Rattle.std.specs.Prelude.{◌≡◌, ◌/◌, ◌<◌, true, false, length, slice_index};
ghost use Rattle.text_blocks.specs.Blocks.{is_table, four_word, short_entry, OneEntry, Entries, BodyIs, NextBlock, is_marked, marked, text_view, BlocksChecked};

use text_cells::{decimal, hex2u16, maybe_hex2u16};
use text_lines::{is_four_long, next_row};
use units::Refusal;

// A block of .TEXT: where its entries start, and the place after them.
#[derive(Clone, Copy)]
pub struct TextBlock {
    pub address: u16,
    pub count: u16,
    pub entries: usize,
    pub next: usize,
}

// What a byte of an entry stands for: a digit for its value, `?` for 61, and any other byte for 255. The sum of four shows whether they are all
// digits, or all `?`.
pub const DIGITS: [u8; 256] = [
    255, 255, 255, 255, 255, 255, 255, 255, 255, 255, 255, 255, 255, 255, 255, 255, 255, 255, 255,
    255, 255, 255, 255, 255, 255, 255, 255, 255, 255, 255, 255, 255, 255, 255, 255, 255, 255, 255,
    255, 255, 255, 255, 255, 255, 255, 255, 255, 255, 0, 1, 2, 3, 4, 5, 6, 7, 8, 9, 255, 255, 255,
    255, 255, 61, 255, 10, 11, 12, 13, 14, 15, 255, 255, 255, 255, 255, 255, 255, 255, 255, 255,
    255, 255, 255, 255, 255, 255, 255, 255, 255, 255, 255, 255, 255, 255, 255, 255, 10, 11, 12, 13,
    14, 15, 255, 255, 255, 255, 255, 255, 255, 255, 255, 255, 255, 255, 255, 255, 255, 255, 255,
    255, 255, 255, 255, 255, 255, 255, 255, 255, 255, 255, 255, 255, 255, 255, 255, 255, 255, 255,
    255, 255, 255, 255, 255, 255, 255, 255, 255, 255, 255, 255, 255, 255, 255, 255, 255, 255, 255,
    255, 255, 255, 255, 255, 255, 255, 255, 255, 255, 255, 255, 255, 255, 255, 255, 255, 255, 255,
    255, 255, 255, 255, 255, 255, 255, 255, 255, 255, 255, 255, 255, 255, 255, 255, 255, 255, 255,
    255, 255, 255, 255, 255, 255, 255, 255, 255, 255, 255, 255, 255, 255, 255, 255, 255, 255, 255,
    255, 255, 255, 255, 255, 255, 255, 255, 255, 255, 255, 255, 255, 255, 255, 255, 255, 255, 255,
    255, 255, 255, 255, 255, 255, 255, 255, 255, 255, 255, 255, 255, 255, 255, 255, 255, 255, 255,
    255, 255, 255,
];

// A byte as a number that has room for sums.
fn wide(b: u8) -> u32
    ensures { (result ≡ b) × (result < 256) }
{
    b as u32
}

// What a table says of a byte.
fn digit_in(digits: &[u8; 256], b: u8) -> u32
    ensures { (result ≡ slice_index digits.now b) × (b < 256) × (result < 256) }
{
    wide(digits[b as usize])
}

// The memory word of an entry whose bytes stand for these numbers: four digits, or ????; 0 for others.
fn four_word(a: u32, b: u32, c: u32, d: u32) -> u32
    requires { (a < 256) × (b < 256) × (c < 256) × (d < 256) }
    ensures { result ≡ four_word a b c d }
{
    let sum = a + b + c + d;
    if sum < 61 {
        return 0x2001_0000 + (((a * 16 + b) * 16 + c) * 16 + d);
    }
    if sum == 244 {
        return 0x2000_0000;
    }
    0
}

// The memory word of an entry of four digits, or ????, with an LF after it; 0 for a row of another form. The table is the caller's, so that it
// is made once for many entries.
pub fn short_entry(t: &[u8], at: usize, digits: &[u8; 256]) -> u32
    ensures { result ≡ short_entry digits.now t.now at }
{
    if !is_four_long(t, at) {
        return 0;
    }
    let a = digit_in(digits, t[at]);
    let b = digit_in(digits, t[at + 1]);
    let c = digit_in(digits, t[at + 2]);
    let d = digit_in(digits, t[at + 3]);
    four_word(a, b, c, d)
}

// Past the entry at a place.
fn pass_entry(t: &[u8], at: usize, digits: &[u8; 256]) -> Option<usize>
    requires { is_table digits.now ≡ true }
    ensures { OneEntry t.now at result }
{
    if short_entry(t, at, digits) != 0 {
        return Some(at + 4 + 1);
    }
    let line = next_row(t, at)?;
    maybe_hex2u16(&t[line.start..line.end])?;
    Some(line.next)
}

// The next n lines of the group, all of them entries, by a table of what bytes stand for.
fn pass_each(t: &[u8], at: usize, n: usize, digits: &[u8; 256]) -> Option<usize>
    requires { is_table digits.now ≡ true }
    ensures { Entries t.now at n result }
{
    let mut i = at;
    for passed in 0..n {
        i = pass_entry(t, i, digits)?;
    }
    Some(i)
}

// The next n lines of the group, all of them entries.
pub fn pass_entries(t: &[u8], at: usize, n: usize) -> Option<usize>
    ensures { Entries t.now at n result }
{
    let digits = DIGITS;
    pass_each(t, at, n, &digits)
}

// What follows a block's address: its count, where its entries start, and the place after them.
#[derive(Clone, Copy)]
pub struct Body {
    pub count: u16,
    pub entries: usize,
    pub next: usize,
}

// A block of .TEXT from its count on.
fn block_body(t: &[u8], at: usize) -> Option<Body>
    ensures { BodyIs t.now at result }
{
    let line = next_row(t, at)?;
    let count = decimal(&t[line.start..line.end], 65535)?;
    let next = pass_entries(t, line.next, count as usize)?;
    Some(Body {
        count: count as u16,
        entries: line.next,
        next,
    })
}

// The next block of .TEXT, if there is one; one that doesn't read is refused.
pub fn next_block(t: &[u8], at: usize) -> Result<Option<TextBlock>, Refusal>
    ensures { NextBlock t.now at result }
{
    let Some(line) = next_row(t, at) else {
        return Ok(None);
    };
    let Some(address) = hex2u16(&t[line.start..line.end]) else {
        return Err(Refusal::BadBlock);
    };
    let Some(body) = block_body(t, line.next) else {
        return Err(Refusal::BadBlock);
    };
    Ok(Some(TextBlock {
        address,
        count: body.count,
        entries: body.entries,
        next: body.next,
    }))
}

// The place after a .TEXT group, and how many words the blocks up to there have, as 64 bits count.
#[derive(Clone, Copy)]
pub struct Text {
    pub next: usize,
    pub words: usize,
}

// Whether an address is marked.
fn is_marked(seen: &[u8], a: usize) -> bool
    requires { a / 8 < length seen.now }
    ensures { result ≡ is_marked seen.now a }
{
    (seen[a / 8] >> (a % 8)) % 2 == 1
}

// Marks an address that has no mark. Its bit is 0, so that adding it changes no other.
fn mark(seen: &mut [u8], a: usize)
    requires { (a / 8 < length seen.old) × (is_marked seen.old a ≡ false) }
    ensures { seen.new ≡ marked seen.old a }
{
    let i = a / 8;
    seen[i] += 1 << (a % 8);
}

// The lines of a .TEXT group, checked; the addresses of its blocks are marked, and their words counted.
pub fn parse_text(t: &[u8], at: usize, words: usize, seen: &mut [u8]) -> Result<Text, Refusal>
    ensures { BlocksChecked t.now at words seen.old seen.new (text_view at result) }
{
    if seen.len() < 8192 {
        return Err(Refusal::ShortBuffer);
    }
    let mut i = at;
    let mut n = words;
    while let Some(block) = next_block(t, i)? {
        let a = block.address as usize;
        if is_marked(seen, a) {
            return Err(Refusal::RepeatedBlock);
        }
        mark(seen, a);
        n = n.wrapping_add(1 + block.count as usize);
        i = block.next;
    }
    Ok(Text { next: i, words: n })
}
