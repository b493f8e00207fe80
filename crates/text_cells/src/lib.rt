// The text reader's cells and numbers.
#![tactic(auto)]

ghost use Rattle.std.specs.Prelude.{◌≡◌, true, [], ◌+◌, ◌-◌, ◌≤◌, ◌<◌, length, take, drop, get_or};
ghost use Rattle.std.proofs.Math.Option.{some};
ghost use Rattle.format.specs.Basics.{eqs};
ghost use Rattle.format.specs.Utf8.{trim};
ghost use Rattle.format.specs.TextReader.{split_once, splitn, parse_decimal, hex2u16, maybe_hex2u16};
ghost use Rattle.trim.specs.Span.{Spans};
ghost use Rattle.text_cells.specs.Cells.{bar_at, digit_or16, number_read, entry_of, Cut};

use text_lines::equals;
use trim::{Span, trim};

// A count of bad digits from which on there is one.
const FIRST_BAD: u64 = 1;

// The digits of an address.
const HEX_DIGITS: usize = 4;

// The digit 0.
const ZERO: u8 = b'0';

// The most that has room for one more digit: a tenth of the largest 64-bit number, rounded down.
const MOST_TENTH: u64 = 1844674407370955161;

// The value of a digit; 16 if it is none. By sums, since no branch foresees the digits of a word: from `0` up to `?` the digits end in 0 to 9
// of 16, and past that the letters in 1 to 6 of 32, which is 9 less than their value.
pub fn digit(b: u8) -> u64
    ensures { (result ≡ digit_or16 b) × (result ≤ 16) }
{
    if b < 48 {
        return 16;
    }
    if 102 < b {
        return 16;
    }
    let letter = b / 64;
    let place = b % 32;
    if place < 16 - 15 * letter {
        return 16;
    }
    if 25 - 19 * letter < place {
        return 16;
    }
    (b % 16 + 9 * letter) as u64
}

// The same by a table: called from one place only, it is put there whole.
fn hex_digit(b: u8) -> u64
    ensures { (result ≡ digit_or16 b) × (result ≤ 16) }
{
    match b {
        0x30 => 0,
        0x31 => 1,
        0x32 => 2,
        0x33 => 3,
        0x34 => 4,
        0x35 => 5,
        0x36 => 6,
        0x37 => 7,
        0x38 => 8,
        0x39 => 9,
        0x41 | 0x61 => 10,
        0x42 | 0x62 => 11,
        0x43 | 0x63 => 12,
        0x44 | 0x64 => 13,
        0x45 | 0x65 => 14,
        0x46 | 0x66 => 15,
        _ => 16,
    }
}

// A decimal number that is at most `max`: digits alone, with leading zeros or without.
pub fn decimal(s: &[u8], max: u64) -> Option<u64>
    ensures { number_read result ≡ parse_decimal (max + 1) s.now }
{
    if s.len() == 0 {
        return None;
    }
    let mut v: u64 = 0;
    for &b in s {
        if b < ZERO {
            return None;
        }
        if b'9' < b {
            return None;
        }
        // Past 64 bits it is past any `max`, whatever follows.
        if MOST_TENTH < v {
            return None;
        }
        let d = (b % 16) as u64;
        if u64::MAX - d < v * 10 {
            return None;
        }
        v = v * 10 + d;
    }
    if max < v {
        return None;
    }
    Some(v)
}

// Four hexadecimal digits, without a branch that a digit decides.
pub fn hex2u16(s: &[u8]) -> Option<u16>
    ensures { number_read result ≡ hex2u16 s.now }
{
    if s.len() != HEX_DIGITS {
        return None;
    }
    let mut v = 0;
    let mut bad = 0;
    for &b in s {
        let d = hex_digit(b);
        bad += d / 16;
        v = v * 16 + d;
    }
    if bad < FIRST_BAD {
        return Some(v as u16);
    }
    None
}

// An entry, if it reads: a word or an address, or ????, which is none of them.
pub fn maybe_hex2u16(s: &[u8]) -> Option<Option<u16>>
    ensures { entry_of result ≡ maybe_hex2u16 s.now }
{
    if equals(s, b"????") {
        return Some(None);
    }
    let word = hex2u16(s)?;
    Some(Some(word))
}

// A ` | ` stands at a place.
pub fn is_divider(s: &[u8], at: usize) -> bool
    ensures { result ≡ bar_at s.now at }
{
    if s.len().saturating_sub(2) <= at {
        return false;
    }
    if s[at] != 0x20 {
        return false;
    }
    if s[at + 1] != 0x7C {
        return false;
    }
    s[at + 2] == 0x20
}

// Where the first ` | ` stands.
fn find_divider(s: &[u8]) -> Option<usize>
    ensures { Cut s.now result }
{
    for i in 0..s.len().saturating_sub(2) {
        if is_divider(s, i) {
            return Some(i);
        }
    }
    None
}

// The first cell of a row from a place on, where it is cut at k dividers at most; past the row's end it is empty.
pub fn first_cell(s: &[u8], at: usize, k: usize) -> Span
    ensures { Spans s.now result.start result.end (get_or (splitn k (drop at s.now)) 0 []) }
{
    let n = s.len();
    if n < at {
        return Span { start: n, end: n };
    }
    if k == 0 {
        return Span { start: at, end: n };
    }
    let Some(p) = find_divider(&s[at..]) else {
        return Span { start: at, end: n };
    };
    Span {
        start: at,
        end: at + p,
    }
}

// Cell i of a row that is cut at its first k dividers at most; a missing cell is empty.
pub fn find_cell(s: &[u8], k: usize, i: usize) -> Span
    ensures { Spans s.now result.start result.end (get_or (splitn k s.now) i []) }
{
    let n = s.len();
    if k < i {
        return Span { start: n, end: n };
    }
    let mut at = 0;
    for _cell in 0..i {
        let Some(p) = find_divider(&s[at..]) else {
            return Span { start: n, end: n };
        };
        at += p + 3;
    }
    first_cell(s, at, k - i)
}

// The same, trimmed.
pub fn trimmed_cell(s: &[u8], k: usize, i: usize) -> Span
    ensures { Spans s.now result.start result.end (trim (get_or (splitn k s.now) i [])) }
{
    let c = find_cell(s, k, i);
    trim(s, c.start, c.end)
}

// Whether a cell of four bytes stands at a place, with a divider after it.
fn is_four_wide(s: &[u8], at: usize) -> bool
    requires { at + 7 ≤ length s.now }
    ensures { result ≡ true → split_once (drop at s.now) ≡ some (take 4 (drop at s.now), drop 7 (drop at s.now)) }
{
    if !is_divider(s, at + 4) {
        return false;
    }
    if s[at + 1] == 0x7C {
        return false;
    }
    if s[at + 2] == 0x7C {
        return false;
    }
    s[at + 3] != 0x7C
}

// The first two cells of a row, from `start` up to `end` and from `from` up to `to`: four numbers, which stay in registers.
#[derive(Clone, Copy)]
pub struct Cells {
    pub start: usize,
    pub end: usize,
    pub from: usize,
    pub to: usize,
}

// The first two cells of a row that is cut at its first two dividers at most, trimmed: at once where each is four bytes wide.
pub fn trimmed_cells(s: &[u8]) -> Cells
    ensures { Spans s.now result.start result.end (trim (get_or (splitn 2 s.now) 0 []))
        × Spans s.now result.from result.to (trim (get_or (splitn 2 s.now) 1 [])) }
{
    if 14 <= s.len() {
        if is_four_wide(s, 0) {
            if is_four_wide(s, 7) {
                let a = trim(s, 0, 4);
                let b = trim(s, 7, 11);
                return Cells {
                    start: a.start,
                    end: a.end,
                    from: b.start,
                    to: b.end,
                };
            }
        }
    }
    let a = trimmed_cell(s, 2, 0);
    let b = trimmed_cell(s, 2, 1);
    Cells {
        start: a.start,
        end: a.end,
        from: b.start,
        to: b.end,
    }
}

// The third cell of a row that is cut at its first two dividers at most, untrimmed: at once where the first two are four bytes wide.
pub fn third_cell(s: &[u8]) -> Span
    ensures { Spans s.now result.start result.end (get_or (splitn 2 s.now) 2 []) }
{
    if 14 <= s.len() {
        if is_four_wide(s, 0) {
            if is_four_wide(s, 7) {
                return Span {
                    start: 14,
                    end: s.len(),
                };
            }
        }
    }
    find_cell(s, 2, 2)
}

// A trimmed cell has these bytes.
pub fn cell_is(l: &[u8], k: usize, i: usize, name: &[u8]) -> bool
    ensures { result ≡ eqs (trim (get_or (splitn k l.now) i [])) name.now }
{
    let c = trimmed_cell(l, k, i);
    equals(&l[c.start..c.end], name)
}
