// The text reader's lines: kept lines, the lines of a group, and the line that opens a group, in place on the input. Positions go by value.
#![tactic(auto)]

ghost use Rattle.std.specs.Prelude.{◌≡◌, true, false, not, ◌+◌, ◌-◌, ◌≤◌, ◌<◌, length, drop, min};
ghost use Rattle.format.specs.Basics.{eqs, is_empty};
ghost use Rattle.format.specs.TextReader.{lines};
ghost use Rattle.text_lines.specs.Lines.{line_length, Lacks, Holds, Next, kept, begins_byte, is_kept, is_four_long};
ghost use Rattle.text_lines.specs.Groups.{parts_from, RowAt, NextRow, ShowsRow, kind_of, number_of_kind, NextHead};

use trim::{is_blank, spaces_end};
use units::Refusal;

// A line's end may have it before the LF.
const CR: u8 = b'\r';

// A line: where it starts and ends, and the place after it.
#[derive(Clone, Copy)]
pub struct Line {
    pub start: usize,
    pub end: usize,
    pub next: usize,
}

// Whether a byte is among the n bytes from a place on, of those that are there. The loop has no exit in the middle, so that the bytes can be compared at once.
pub fn has_byte(s: &[u8], at: usize, n: usize, byte: u8) -> bool
    ensures { (result ≡ false → Lacks byte s.now at (min (at + n) (length s.now)))
        × (result ≡ true → Holds byte s.now at (min (at + n) (length s.now))) }
{
    let end = at.saturating_add(n).min(s.len());
    let mut found = false;
    for i in at..end {
        if s[i] == byte {
            found = true;
        }
    }
    found
}

// Whether an LF is among the n bytes from a place on. They are handed on by themselves, so that the loop over them ends at n whatever follows,
// and 16 of them are one comparison.
fn has_lf(s: &[u8], at: usize, n: usize) -> bool
    requires { at + n ≤ length s.now }
    ensures { (result ≡ false → n + line_length (drop (at + n) s.now) ≡ line_length (drop at s.now))
        × (result ≡ true → line_length (drop at s.now) < n) }
{
    has_byte(&s[at..at + n], 0, n, b'\n')
}

// Past the blocks of 16 bytes without an LF from a place on.
fn line_blocks(s: &[u8], at: usize) -> usize
    requires { at ≤ length s.now }
    ensures { (at ≤ result) × (result ≤ length s.now)
        × (result + line_length (drop result s.now) ≡ at + line_length (drop at s.now))
        × (16 ≤ length s.now - result → line_length (drop result s.now) < 16) }
{
    let mut i = at;
    while 16 <= s.len() - i && !has_lf(s, i, 16) {
        i += 16;
    }
    i
}

// The place of the next LF, which is among the 16 bytes from a place on: no byte's place needs a test.
fn find_lf(s: &[u8], at: usize) -> usize
    requires { (at + 16 ≤ length s.now) × (line_length (drop at s.now) < 16) }
    ensures { result ≡ at + line_length (drop at s.now) }
{
    let mut i = at;
    if !has_lf(s, at, 8) {
        i = at + 8;
    }
    while s[i] != b'\n' {
        i += 1;
    }
    i
}

// The place of the next LF, or the end.
fn line_end(s: &[u8], at: usize) -> usize
    requires { at ≤ length s.now }
    ensures { (at ≤ result) × (result ≤ length s.now) × (result ≡ at + line_length (drop at s.now)) }
{
    let start = line_blocks(s, at);
    if 16 <= s.len() - start {
        return find_lf(s, start);
    }
    for i in start..s.len() {
        if s[i] == b'\n' {
            return i;
        }
    }
    s.len()
}

// The next line of a text, by the rules of `str::lines`.
fn next_line(s: &[u8], at: usize) -> Option<Line>
    ensures { Next lines s.now at result }
{
    if s.len() <= at {
        return None;
    }
    let e = line_end(s, at);
    if e == s.len() {
        return Some(Line {
            start: at,
            end: e,
            next: e,
        });
    }
    if at < e {
        if s[e - 1] == CR {
            return Some(Line {
                start: at,
                end: e - 1,
                next: e + 1,
            });
        }
    }
    Some(Line {
        start: at,
        end: e,
        next: e + 1,
    })
}

// A text begins with the byte.
pub fn begins_with(s: &[u8], b: u8) -> bool
    ensures { result ≡ begins_byte b s.now }
{
    if s.len() == 0 {
        return false;
    }
    b == s[0]
}

// Whether a line is kept and opens no group by its first byte past spaces, where there are spaces or none.
fn shows_row(b: u8, spaced: bool) -> bool
    ensures { result ≡ true → ShowsRow b spaced }
{
    if b < 0x21 {
        return false;
    }
    if 0x7E < b {
        return false;
    }
    if spaced {
        return true;
    }
    if b == b'#' {
        return false;
    }
    b != b'.'
}

// Neither a comment nor blank, by the first byte past spaces where it shows it.
fn is_kept(s: &[u8]) -> bool
    ensures { result ≡ is_kept s.now }
{
    let i = spaces_end(s, 0, s.len());
    if i < s.len() {
        if shows_row(s[i], 0 < i) {
            return true;
        }
    }
    if begins_with(s, b'#') {
        return false;
    }
    if is_blank(s, 0, s.len()) {
        return false;
    }
    true
}

// The next line that is kept.
pub fn next_kept(s: &[u8], from: usize) -> Option<Line>
    ensures { Next kept s.now from result }
{
    let mut at = from;
    loop {
        let line = next_line(s, at)?;
        if is_kept(&s[line.start..line.end]) {
            return Some(line);
        }
        at = line.next;
    }
}

// Two texts are the same. A byte string is lent as a slice here.
pub fn equals(s: &[u8], t: &[u8]) -> bool
    ensures { result ≡ eqs s.now t.now }
{
    s == t
}

// The groups, by their headers, and those of another header.
#[derive(Clone, Copy)]
pub enum GroupKind {
    Text,
    Symbols,
    Linker,
    Debug,
    Unknown,
}

// The line that opens a group: its kind, and the place after it.
#[derive(Clone, Copy)]
pub struct Head {
    pub kind: GroupKind,
    pub next: usize,
}

// Whether an LF stands four bytes after a place.
pub fn is_four_long(t: &[u8], at: usize) -> bool
    ensures { result ≡ is_four_long t.now at }
{
    if t.len() < 5 {
        return false;
    }
    if t.len() - 5 < at {
        return false;
    }
    t[at + 4] == 0x0A
}

// Whether a line of four bytes stands at a place that belongs to the group by its first byte, as the entries of .TEXT do.
fn is_short_row(t: &[u8], at: usize) -> bool
    ensures { result ≡ true → RowAt t.now at at (at + 4) (at + 4 + 1) }
{
    if !is_four_long(t, at) {
        return false;
    }
    if t[at] < 0x2F {
        return false;
    }
    if 0x7E < t[at] {
        return false;
    }
    if t[at + 1] == 0x0A {
        return false;
    }
    if t[at + 2] == 0x0A {
        return false;
    }
    0x0D < t[at + 3]
}

// The next line of the group, past comments and blank lines.
fn find_row(t: &[u8], at: usize) -> Option<Line>
    ensures { NextRow t.now at result }
{
    let line = next_kept(t, at)?;
    if begins_with(&t[line.start..line.end], b'.') {
        return None;
    }
    Some(line)
}

// The next line of the group.
pub fn next_row(t: &[u8], at: usize) -> Option<Line>
    ensures { NextRow t.now at result }
{
    if is_short_row(t, at) {
        return Some(Line {
            start: at,
            end: at + 4,
            next: at + 4 + 1,
        });
    }
    find_row(t, at)
}

// Whether the group has a line left, by the first byte past spaces where it shows it.
pub fn has_row(t: &[u8], at: usize) -> bool
    ensures { result ≡ not (is_empty (parts_from t.now at).before) }
{
    let i = spaces_end(t, at, t.len());
    if i < t.len() {
        if shows_row(t[i], at < i) {
            return true;
        }
    }
    next_row(t, at).is_some()
}

// Which group a line opens.
fn kind_of(l: &[u8]) -> GroupKind
    ensures { number_of_kind result ≡ kind_of l.now }
{
    if equals(l, b".TEXT") {
        return GroupKind::Text;
    }
    if equals(l, b".SYMBOL") {
        return GroupKind::Symbols;
    }
    if equals(l, b".LINKER_INFO") {
        return GroupKind::Linker;
    }
    if equals(l, b".DEBUG") {
        return GroupKind::Debug;
    }
    GroupKind::Unknown
}

// The line that opens the next group, if there is one; a line in no group is refused.
pub fn next_head(t: &[u8], at: usize) -> Result<Option<Head>, Refusal>
    ensures { NextHead t.now at result }
{
    let Some(line) = next_kept(t, at) else {
        return Ok(None);
    };
    if !begins_with(&t[line.start..line.end], b'.') {
        return Err(Refusal::LooseLine);
    }
    Ok(Some(Head {
        kind: kind_of(&t[line.start..line.end]),
        next: line.next,
    }))
}
