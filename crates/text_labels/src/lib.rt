// The words of a text file's labels, of the rows of their two tables.
#![tactic(auto)]

ghost use Rattle.std.specs.Prelude.{◌≡◌, map, ◌≤◌, ◌<◌, length, get_or, true, []};
ghost use Rattle.format.specs.Sorted.{order};
ghost use Rattle.format.specs.Records.{label};
ghost use Rattle.format.specs.Words.{record_words};
ghost use Rattle.writing.specs.Written.{Put};
ghost use Rattle.text_gather.specs.Keys.{cell_at};
ghost use Rattle.text_words.specs.Room.{room_of, room_for, room_after};
ghost use Rattle.text_words.specs.Written.{PutEach};
ghost use Rattle.label_items.specs.Joins.{tables_of, next_tables, chosen};
ghost use Rattle.text_labels.specs.Labels.{labels_of, left_in, Within, Refilled, next_words, stepped};
ghost use Rattle.format.specs.Sorted.{sorted};
ghost use Rattle.text_rows.specs.Rows.{number_of, row_key, rows_of};

use label_items::Next;
use text_gather::{Sorting, cell_at};
use text_rows::Kind;
use text_words::{number_at, put_row, put_symbol, row_words};

// The rows of a table that are left, in the order of names: the places of a window from i up to n, and the rows after them.
#[derive(Clone, Copy)]
pub struct Stream {
    pub sorting: Sorting,
    pub i: usize,
    pub n: usize,
}

// The next window, where the last one is used up.
fn refill(s: Stream, t: &[u8], win: &mut [usize]) -> Stream
    requires { (0 < length win.old) × Within (number_of s.sorting.kind) win.old s }
    ensures { Refilled (number_of s.sorting.kind) t.now win.old win.new s result }
{
    if s.i < s.n {
        return s;
    }
    let sorting = s.sorting.next_window(t, win);
    Stream {
        sorting,
        i: 0,
        n: sorting.count,
    }
}

// The place of a stream's next row; 0 where its window is used up.
fn place_at(win: &[usize], s: Stream) -> usize
    requires { s.n ≤ length win.now }
    ensures { s.i < s.n → result ≡ get_or win.now s.i 0 }
{
    if s.i < s.n { win[s.i] } else { 0 }
}

// Which tables the next label is from, where there are rows left of .SYMBOL, next at p, and of the label table, next at q; none where neither
// has any.
fn choose(t: &[u8], symbols: bool, p: usize, starts: bool, q: usize) -> Option<Next>
    ensures { next_tables result ≡ chosen symbols starts (order (cell_at 2 t.now p 2) (cell_at 1 t.now q 0)) }
{
    if !symbols {
        return if starts { Some(Next::Start) } else { None };
    }
    if !starts {
        return Some(Next::Symbol);
    }
    Some(Next::of(cell_at(t, 2, p, 2).cmp(cell_at(t, 1, q, 0))))
}

// The next label.
fn put_next(out: &mut [u32], t: &[u8], x: Next, p: usize, q: usize) -> usize
    ensures { Put (next_words (tables_of x) t.now p q) out.old result out.new }
{
    match x {
        Next::Symbol => put_row(out, t, Kind::Symbol, p),
        Next::Start => put_row(out, t, Kind::Start, q),
        Next::Both => {
            let start = number_at(t, 1, q, u64::MAX);
            put_symbol(out, t, p, start)
        }
    }
}

// Past a stream's next row, if that is used.
fn step(s: Stream, used: bool) -> Stream
    requires { used ≡ true → s.i < s.n }
    ensures { result ≡ stepped s used }
{
    if used { Stream { i: s.i + 1, ..s } } else { s }
}

// All rows of a kind.
fn all_rows(t: &[u8], kind: Kind) -> Stream
    ensures { (left_in (number_of kind) t.now [] result ≡ sorted row_key (rows_of (number_of kind) t.now)) × Within (number_of kind) [] result }
{
    Stream {
        sorting: Sorting::new(t, kind),
        i: 0,
        n: 0,
    }
}

// The labels of both tables, in the order of names.
fn put_joined(out: &mut [u32], t: &[u8], symbols: &mut [usize], starts: &mut [usize]) -> usize
    requires { (0 < length symbols.old) × (0 < length starts.old) }
    ensures { PutEach (map record_words (map label (labels_of t.now))) out.old result out.new }
{
    let mut at = 0;
    let mut s = all_rows(t, Kind::Symbol);
    let mut d = all_rows(t, Kind::Start);
    loop {
        s = refill(s, t, symbols);
        d = refill(d, t, starts);
        let p = place_at(symbols, s);
        let q = place_at(starts, d);
        let Some(x) = choose(t, s.i < s.n, p, d.i < d.n, q) else {
            return at;
        };
        at += put_next(&mut out[at..], t, x, p, q);
        s = step(s, x.has_symbol());
        d = step(d, x.has_start());
    }
}

// The labels of a text file, in the order of names.
pub fn put_labels(out: &mut [u32], t: &[u8]) -> usize
    ensures { PutEach (map record_words (map label (labels_of t.now))) out.old result out.new }
{
    let mut symbols = [0usize; 4096];
    let mut starts = [0usize; 4096];
    put_joined(out, t, &mut symbols, &mut starts)
}

// The room after the words of the next label.
fn next_room(t: &[u8], x: Next, p: usize, q: usize, room: usize) -> Option<usize>
    ensures { room_of result ≡ room_for (length (next_words (tables_of x) t.now p q)) room }
{
    let words = if x.has_symbol() {
        row_words(t, Kind::Symbol, p)
    } else {
        row_words(t, Kind::Start, q)
    };
    room.checked_sub(words)
}

// The room after the labels of both tables.
fn joined_room(t: &[u8], symbols: &mut [usize], starts: &mut [usize], room: usize) -> Option<usize>
    requires { (0 < length symbols.old) × (0 < length starts.old) }
    ensures { room_of result ≡ room_after (map record_words (map label (labels_of t.now))) room }
{
    let mut left = room;
    let mut s = all_rows(t, Kind::Symbol);
    let mut d = all_rows(t, Kind::Start);
    loop {
        s = refill(s, t, symbols);
        d = refill(d, t, starts);
        let p = place_at(symbols, s);
        let q = place_at(starts, d);
        let Some(x) = choose(t, s.i < s.n, p, d.i < d.n, q) else {
            return Some(left);
        };
        left = next_room(t, x, p, q, left)?;
        s = step(s, x.has_symbol());
        d = step(d, x.has_start());
    }
}

// The room after the labels of a text file.
pub fn labels_room(t: &[u8], room: usize) -> Option<usize>
    ensures { room_of result ≡ room_after (map record_words (map label (labels_of t.now))) room }
{
    let mut symbols = [0usize; 4096];
    let mut starts = [0usize; 4096];
    joined_room(t, &mut symbols, &mut starts, room)
}
