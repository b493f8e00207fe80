// The line table of the text form: its rows in the order of their numbers, what a walk along an object's records knows of them, and the
// functions on them that hold of every input. The walk itself is crate text_write's.
#![tactic(auto)]

ghost use Rattle.std.specs.Prelude.{◌≡◌, ◌+◌, ◌-◌, ◌%◌, ◌^◌, max, length, get_or};
ghost use Rattle.format.specs.TextWriter.{decimal, text_line, line_header};
ghost use Rattle.writing.specs.Written.{Put};
ghost use Rattle.object.specs.Access.{address_in};
ghost use Rattle.measuring.specs.Room.{room_of, less_part};
ghost use Rattle.text_numerals.specs.Memory.{word_of};
ghost use Rattle.text_lines_out.specs.Runs.{addresses_of};
ghost use Rattle.text_lines_out.specs.Merge.{smaller};
ghost use Rattle.text_lines_out.specs.Walk.{LinesAt, WrapsOn, top_at};

use measuring::take;
use object::{Kind, body_len, number_at};
use text_escape::Row;
use text_numerals::{count_digits, put_spaces};
use writing::put_bytes;

// What is the same for all rows of a table: the source of `n` bytes and so many lines in the words from `text` on, the width of the
// column of line numbers, and how many rows wrapped.
#[derive(Clone, Copy)]
pub struct Table {
    pub text: usize,
    pub n: usize,
    pub width: usize,
    pub lines: u64,
    pub wraps: u64,
}

// The rows of `count` lines from line `first` on: with the addresses from a place on, or with none.
#[derive(Clone, Copy)]
pub struct Run {
    pub first: u64,
    pub count: usize,
    pub place: Option<usize>,
}

impl Run {
    // Its row `k`; past the largest 64-bit number of a line is 0.
    pub fn row(self, ws: &[u32], k: usize) -> Row
        ensures { (result.number ≡ (self.first + k) % 2 ^ 64) × (word_of result.address ≡ addresses_of self.place ws.now k) }
    {
        let number = self.first.wrapping_add(k as u64);
        let address = match self.place {
            Some(place) => Some(line_address(ws, place, k)),
            None => None,
        };
        Row { number, address }
    }
}

// What is left of the room after rows, and where the line of the next row starts.
#[derive(Clone, Copy)]
pub struct Rows {
    pub left: usize,
    pub start: usize,
}

// How much rows have filled, and where the line of the next row starts.
#[derive(Clone, Copy)]
pub struct Written {
    pub len: usize,
    pub start: usize,
}

// The line's address in word `k` from a place on; 0 past the last word.
fn line_address(ws: &[u32], place: usize, k: usize) -> u16
    ensures { result ≡ address_in (get_or ws.now (place + k) 0) }
{
    if ws.len() <= place {
        return 0;
    }
    if ws.len() - place <= k {
        return 0;
    }
    (ws[place + k] % 0x1_0000) as u16
}

// How many of the lines of a block don't wrap.
pub fn straight_count(first: u64, count: usize) -> usize
    ensures { result ≡ smaller count (2 ^ 64 - first) }
{
    let last = 0xFFFF_FFFF_FFFF_FFFF - first;
    if count as u64 <= last {
        return count;
    }
    last as usize + 1
}

// How many of the source's lines are done past a block.
pub fn lines_done(first: u64, count: usize, lines: u64) -> u64
    ensures { result ≡ smaller (first + count) lines }
{
    first.saturating_add(count as u64).min(lines)
}

// The rows of a line block: so many of the source before it, and its own. And how many of the source's lines are done then.
#[derive(Clone, Copy)]
pub struct Plan {
    pub gap: usize,
    pub own: Run,
    pub done: u64,
}

// What is left of the room after the rows of a record, where the line of the next row starts, and how many of the source's lines are
// done.
#[derive(Clone, Copy)]
pub struct Passed {
    pub left: usize,
    pub start: usize,
    pub done: u64,
}

// How much they have filled, where the line of the next row starts, and how many of the source's lines are done.
#[derive(Clone, Copy)]
pub struct Progress {
    pub len: usize,
    pub start: usize,
    pub done: u64,
}

// The words that hold addresses whose lines wrap: a place and how many.
#[derive(Clone, Copy)]
pub struct Wrapped {
    pub place: usize,
    pub count: usize,
}

// The last line of so many from a line on; the largest 64-bit value where they wrap.
pub fn last_line(first: u64, count: usize) -> u64
    ensures { result ≡ smaller (first + (count - 1)) (2 ^ 64 - 1) }
{
    first.saturating_add((count as u64).saturating_sub(1))
}

// The lines of a line block: the first, how many, and the place of the first one's word.
#[derive(Clone, Copy)]
pub struct Lines {
    pub first: u64,
    pub count: usize,
    pub place: usize,
}

// Those of the record at a place: none unless it is a line block.
fn lines_at(ws: &[u32], at: usize) -> Lines
    ensures { LinesAt ws.now at result }
{
    if ws.len() <= at {
        return Lines {
            first: 0,
            count: 0,
            place: 0,
        };
    }
    if Kind::of(ws[at]) != Kind::LineBlock {
        return Lines {
            first: 0,
            count: 0,
            place: 0,
        };
    }
    let body = at + 1;
    let place = body + 3;
    let first = number_at(ws, body);
    let count = body_len(ws, place);
    Lines {
        first,
        count,
        place,
    }
}

// The larger of a line number and those of the record at a place.
pub fn top_at(ws: &[u32], at: usize, top: u64) -> u64
    ensures { result ≡ top_at ws.now at top }
{
    let lines = lines_at(ws, at);
    if lines.count == 0 {
        return top;
    }
    last_line(lines.first, lines.count).max(top)
}

// The words found before whose lines wrap; else those of the record at a place.
pub fn wrapped_on(ws: &[u32], at: usize, before: Wrapped) -> Wrapped
    ensures { WrapsOn ws.now at before result }
{
    if before.count > 0 {
        return before;
    }
    let lines = lines_at(ws, at);
    let kept = straight_count(lines.first, lines.count);
    Wrapped {
        place: lines.place + kept,
        count: lines.count - kept,
    }
}

// The width of the column of line numbers up to this one.
pub fn column_width(top: u64) -> usize
    ensures { result ≡ max (length (decimal top)) 4 }
{
    count_digits(top).max(4)
}

// The header of the line table, for a column of this width.
pub fn put_line_header(out: &mut [u8], width: usize) -> usize
    ensures { Put (text_line (line_header width)) out.old result out.new }
{
    if measure_line_header(out.len(), width).is_none() {
        return 0;
    }
    let fill = width.saturating_sub(4);
    let mut k = put_bytes(out, b"LINE");
    k += put_spaces(&mut out[k..], fill);
    k + put_bytes(&mut out[k..], b" | ADDR | SOURCE\n")
}

// The room that the header leaves.
pub fn measure_line_header(room: usize, width: usize) -> Option<usize>
    ensures { room_of result ≡ less_part room (text_line (line_header width)) }
{
    let left = take(room, 21)?;
    take(left, width.saturating_sub(4))
}
