// The text reader's rows by kind, in place on the input.
#![tactic(auto)]

ghost use Rattle.std.specs.Prelude.{◌≡◌, true, ◌&&◌, suc, ◌+◌, ◌≤◌, ◌<◌, length, eqb};
ghost use Rattle.format.specs.TextReader.{parse_decimal};
ghost use Rattle.text_lines.specs.Groups.{parts_from, number_of_kind};
ghost use Rattle.text_rows.specs.Rows.{number_of, or_zero, count_in, ends_table};
ghost use Rattle.text_rows.specs.Steps.{Skips, Headless, DotAfter, GroupEnd, FirstRow, NextTable, RowHere, NextPlace, BeginsAt};

use text_cells::decimal;
use text_lines::{GroupKind, begins_with, next_head, next_row};

// The kinds of rows.
#[derive(Clone, Copy, PartialEq, Eq)]
pub enum Kind {
    // A block of .TEXT.
    Block,
    // A row of .SYMBOL: a label's address.
    Symbol,
    // A row of .LINKER_INFO.
    Relocation,
    // A row of .DEBUG's label table: a label's source start.
    Start,
}

// A row of a kind: its place, where its first line starts and ends, and the place after it.
#[derive(Clone, Copy)]
pub struct Row {
    pub at: usize,
    pub start: usize,
    pub end: usize,
    pub next: usize,
}

// A block's count; 0 where it doesn't read.
pub fn count_of(l: &[u8]) -> u64
    ensures { result ≡ or_zero (parse_decimal 65536 l.now) }
{
    decimal(l, 65535).unwrap_or(0)
}

// Past the next n lines of the group.
fn skip_rows(t: &[u8], from: usize, n: u64) -> usize
    ensures { Skips t.now from n result }
{
    let mut at = from;
    for passed in 0..n {
        let Some(line) = next_row(t, at) else {
            return at;
        };
        at = line.next;
    }
    at
}

// Past a block's count and its entries.
fn block_end(t: &[u8], at: usize) -> usize
    ensures { Skips t.now at (suc (count_in (parts_from t.now at).before)) result }
{
    let Some(line) = next_row(t, at) else {
        return at;
    };
    skip_rows(t, line.next, count_of(&t[line.start..line.end]))
}

// An LF before a `.`.
fn is_head(a: u8, b: u8) -> bool
    ensures { result ≡ (eqb a 0x0A && eqb b 0x2E) }
{
    a == b'\n' && b == b'.'
}

// Whether no LF among the 64 bytes from a place on stands before a `.`. They are counted, so that the loop has no exit in the middle.
fn is_headless_block(t: &[u8], at: usize) -> bool
    requires { at + 64 < length t.now }
    ensures { result ≡ true → Headless t.now at (at + 64) }
{
    let mut heads: u8 = 0;
    for k in 0..64 {
        heads += u8::from(is_head(t[at + k], t[at + k + 1]));
    }
    heads == 0
}

// A place up to which no LF stands before a `.`: past the whole blocks.
fn headless_blocks(t: &[u8], at: usize) -> usize
    requires { at ≤ length t.now }
    ensures { (at ≤ result) × (result ≤ length t.now) × Headless t.now at result }
{
    let mut i = at;
    while 64 < t.len() - i {
        if is_headless_block(t, i) {
            i += 64;
        } else {
            return i;
        }
    }
    i
}

// The next line that begins with `.`, after the one at a place; else the end.
fn next_dot(t: &[u8], at: usize) -> usize
    requires { at ≤ length t.now }
    ensures { DotAfter t.now at result }
{
    for i in headless_blocks(t, at) + 1..t.len() {
        if is_head(t[i - 1], t[i]) {
            return i;
        }
    }
    t.len()
}

// Past all lines of the group: kept or not, they begin with no `.`.
fn end_of_group(t: &[u8], from: usize) -> usize
    ensures { GroupEnd t.now from result }
{
    if t.len() <= from || t[from] == b'.' {
        return from;
    }
    next_dot(t, from)
}

impl Kind {
    // Groups of this kind have such rows.
    fn is_of(self, group: GroupKind) -> bool
        ensures { result ≡ eqb (number_of_kind group) (number_of self) }
    {
        match self {
            Kind::Block => matches!(group, GroupKind::Text),
            Kind::Symbol => matches!(group, GroupKind::Symbols),
            Kind::Relocation => matches!(group, GroupKind::Linker),
            Kind::Start => matches!(group, GroupKind::Debug),
        }
    }
}

// Whether a line ends a table of a kind, as the first bar ends .DEBUG's labels.
fn ends_table(kind: Kind, l: &[u8]) -> bool
    ensures { result ≡ ends_table (number_of kind) l.now }
{
    kind == Kind::Start && begins_with(l, b'=')
}

// Past the header of a table; .TEXT has none.
fn first_row(t: &[u8], kind: Kind, at: usize) -> usize
    ensures { FirstRow (number_of kind) t.now at result }
{
    if kind == Kind::Block {
        return at;
    }
    let Some(header) = next_row(t, at) else {
        return at;
    };
    if ends_table(kind, &t[header.start..header.end]) {
        return at;
    }
    header.next
}

// Where the rows of the next table of a kind begin, from within another group.
fn next_table(t: &[u8], kind: Kind, from: usize) -> Option<usize>
    ensures { NextTable (number_of kind) t.now from result }
{
    let mut at = from;
    loop {
        let head = next_head(t, end_of_group(t, at)).ok()??;
        if kind.is_of(head.kind) {
            return Some(first_row(t, kind, head.next));
        }
        at = head.next;
    }
}

// The row that begins at a place of a table, where one does.
fn row_at(t: &[u8], kind: Kind, at: usize) -> Option<Row>
    ensures { RowHere (number_of kind) t.now at result }
{
    let line = next_row(t, at)?;
    if kind == Kind::Block {
        return Some(Row {
            at,
            start: line.start,
            end: line.end,
            next: block_end(t, line.next),
        });
    }
    if ends_table(kind, &t[line.start..line.end]) {
        return None;
    }
    Some(Row {
        at,
        start: line.start,
        end: line.end,
        next: line.next,
    })
}

// The first row of a kind from a place on, where one begins or its table ends.
pub fn next_place(t: &[u8], kind: Kind, from: usize) -> Option<Row>
    ensures { NextPlace (number_of kind) t.now from result }
{
    let mut at = from;
    loop {
        if let Some(row) = row_at(t, kind, at) {
            return Some(row);
        }
        at = next_table(t, kind, at)?;
    }
}

// Where a walk over a text's rows begins: past the lines before the first group.
pub fn first_place(t: &[u8]) -> usize
    ensures { BeginsAt t.now result }
{
    end_of_group(t, 0)
}
