// The words of a text file's rows.
#![tactic(auto)]

ghost use Rattle.std.specs.Prelude.{◌≡◌, true, map, ◌+◌, ◌*◌, ◌^◌, ◌≤◌, ◌<◌, length, take};
ghost use Rattle.format.specs.Basics.{is_some};
ghost use Rattle.format.specs.TextReader.{parse_decimal, maybe_hex2u16};
ghost use Rattle.format.specs.Records.{label, relocation};
ghost use Rattle.format.specs.Words.{word, flag_bit, memory_word, record_words};
ghost use Rattle.writing.specs.Written.{Put};
ghost use Rattle.text_lines.specs.Groups.{parts_from};
ghost use Rattle.text_blocks.specs.Blocks.{words_in};
ghost use Rattle.text_words.specs.Written.{symbol_words, entry_word, entries_from, EntriesOf, words_at, PutEach};
ghost use Rattle.text_words.specs.Room.{room_of, room_after};
ghost use Rattle.format.specs.Sorted.{sorted};
ghost use Rattle.text_rows.specs.Rows.{number_of, or_zero, row_key, rows_from, rows_of};
ghost use Rattle.text_gather.specs.Keys.{cell_at};
ghost use Rattle.text_gather.specs.Order.{left};

use text_blocks::{DIGITS, pass_entries, short_entry};
use text_cells::{decimal, maybe_hex2u16};
use text_gather::{Rest, Sorting, address_at, cell_at, key_at};
use text_lines::next_row;
use text_rows::{Kind, count_of, first_place, next_place};
use writing::{put_number_words, put_text_words, put_word};

// A relocation: its address and its name.
fn put_relocation(out: &mut [u32], address: u16, name: &[u8]) -> usize
    ensures { Put (record_words (relocation (record { address = address; name = name.now })))
        out.old result out.new }
{
    if out.len() <= name.len().div_ceil(3) {
        return 0;
    }
    let mut at = 0;
    at += put_word(&mut out[at..], 0xA000_0000 + u32::from(address));
    at += put_text_words(&mut out[at..], name);
    at
}

// The first word of a label: its address, and whether it is external.
fn label_word(address: u16, external: bool) -> u32
    ensures { result ≡ word 2 (address + 2 ^ 16 * flag_bit external) }
{
    0x4000_0000 + 0x1_0000 * u32::from(external) + u32::from(address)
}

// A label: its address and whether it is external, its source start and its name.
pub fn put_label(out: &mut [u32], address: u16, external: bool, start: u64, name: &[u8]) -> usize
    ensures { Put (record_words (label (record { name = name.entry.now; address = address; external = external; start = start })))
        out.old result out.new }
{
    if out.len() <= 3 + name.len().div_ceil(3) {
        return 0;
    }
    let head = label_word(address, external);
    let mut at = 0;
    at += put_word(&mut out[at..], head);
    at += put_number_words(&mut out[at..], start);
    at += put_text_words(&mut out[at..], name);
    at
}

// The number in the second cell of the row at a place, which is cut at k dividers; 0 where it doesn't read.
pub fn number_at(t: &[u8], k: usize, p: usize, most: u64) -> u64
    ensures { result ≡ or_zero (parse_decimal (most + 1) (cell_at k t.now p 1)) }
{
    decimal(cell_at(t, k, p, 1), most).unwrap_or(0)
}

// The label of the row of .SYMBOL at a place, with a source start.
pub fn put_symbol(out: &mut [u32], t: &[u8], p: usize, start: u64) -> usize
    ensures { Put (symbol_words t.now p start) out.old result out.new }
{
    put_label(
        out,
        address_at(t, 2, p),
        number_at(t, 2, p, 255) != 0,
        start,
        cell_at(t, 2, p, 2),
    )
}

// The word of an entry.
fn entry_word(l: &[u8]) -> u32
    ensures { result ≡ entry_word (maybe_hex2u16 l.now) }
{
    match maybe_hex2u16(l).flatten() {
        Some(v) => 0x2001_0000 + u32::from(v),
        None => 0x2000_0000,
    }
}

// The words of the next n lines of the group, all of them entries.
fn put_entries(out: &mut [u32], t: &[u8], from: usize, n: usize) -> usize
    requires { (n ≤ length out.old) × (is_some (words_in n (parts_from t.now from).before) ≡ true) }
    ensures { Put (map memory_word (entries_from t.now from n)) out.old result out.new }
{
    let mut at = from;
    let digits = DIGITS;
    for i in 0..n {
        let w = short_entry(t, at, &digits);
        if w != 0 {
            out[i] = w;
            at = at + 4 + 1;
            continue;
        }
        let Some(line) = next_row(t, at) else {
            return i;
        };
        out[i] = entry_word(&t[line.start..line.end]);
        at = line.next;
    }
    n
}

// A block's entries: where they begin, and how many there are; none where they don't all read.
#[derive(Clone, Copy)]
pub struct Entries {
    pub from: usize,
    pub count: usize,
}

// The entries of the block at a place.
fn entries_at(t: &[u8], p: usize) -> Entries
    ensures { EntriesOf t.now p result }
{
    let Some(address) = next_row(t, p) else {
        return Entries { from: p, count: 0 };
    };
    let from = address.next;
    let Some(line) = next_row(t, from) else {
        return Entries { from, count: 0 };
    };
    let from = line.next;
    let n = count_of(&t[line.start..line.end]) as usize;
    match pass_entries(t, from, n) {
        Some(_) => Entries { from, count: n },
        None => Entries { from, count: 0 },
    }
}

// The block at a place: its address and its memory words.
fn put_block(out: &mut [u32], t: &[u8], p: usize) -> usize
    ensures { Put (words_at 0 t.now p) out.old result out.new }
{
    let address = address_at(t, 0, p);
    let e = entries_at(t, p);
    if out.len() <= e.count {
        return 0;
    }
    let mut at = 0;
    at += put_word(&mut out[at..], u32::from(address));
    at += put_entries(&mut out[at..], t, e.from, e.count);
    at
}

// The row of a kind at a place.
pub fn put_row(out: &mut [u32], t: &[u8], kind: Kind, p: usize) -> usize
    ensures { Put (words_at (number_of kind) t.now p) out.old result out.new }
{
    match kind {
        Kind::Block => put_block(out, t, p),
        Kind::Symbol => put_symbol(out, t, p, 0),
        Kind::Relocation => put_relocation(out, address_at(t, 1, p), cell_at(t, 1, p, 1)),
        Kind::Start => {
            let start = number_at(t, 1, p, u64::MAX);
            put_label(out, 0, false, start, cell_at(t, 1, p, 0))
        }
    }
}

// The rows at the places of a window.
fn put_window(out: &mut [u32], t: &[u8], kind: Kind, places: &[usize]) -> usize
    ensures { PutEach (map (words_at (number_of kind) t.now) places.now) out.old result out.new }
{
    let mut at = 0;
    for &p in places {
        at += put_row(&mut out[at..], t, kind, p);
    }
    at
}

// The rows of a kind from a place on, as they come.
fn put_straight(out: &mut [u32], t: &[u8], kind: Kind, from: usize) -> usize
    ensures { PutEach (map record_words (rows_from (number_of kind) t.now from)) out.old result out.new }
{
    let mut at = 0;
    let mut place = from;
    while let Some(row) = next_place(t, kind, place) {
        at += put_row(&mut out[at..], t, kind, row.at);
        place = row.next;
    }
    at
}

// The rows that are left to hand out, window by window.
fn put_windows(out: &mut [u32], t: &[u8], first: Sorting, win: &mut [usize]) -> usize
    requires { 0 < length win.old }
    ensures { PutEach (map record_words (left t.now first)) out.old result out.new }
{
    let kind = first.kind;
    let mut at = 0;
    let mut sorting = first;
    loop {
        sorting = sorting.next_window(t, win);
        at += put_window(&mut out[at..], t, kind, &win[..sorting.count]);
        if sorting.count < win.len() {
            return at;
        }
    }
}

// The same, by way of an array.
fn put_sorted(out: &mut [u32], t: &[u8], sorting: Sorting) -> usize
    ensures { PutEach (map record_words (left t.now sorting)) out.old result out.new }
{
    let mut win = [0usize; 4096];
    put_windows(out, t, sorting, &mut win)
}

// The rows of a kind in the order of their keys: without an array where they come in it.
fn put_ordered(out: &mut [u32], t: &[u8], kind: Kind) -> usize
    ensures { PutEach (map record_words (sorted row_key (rows_of (number_of kind) t.now))) out.old result out.new }
{
    let sorting = Sorting::new(t, kind);
    match sorting.rest {
        Rest::Rising(at) => put_straight(out, t, kind, at),
        Rest::Above(_) => put_sorted(out, t, sorting),
    }
}

// The rows of a kind in the order of their keys. None are in order, and so is one, as most files have one block, without a walk that asks.
pub fn put_rows(out: &mut [u32], t: &[u8], kind: Kind) -> usize
    ensures { PutEach (map record_words (sorted row_key (rows_of (number_of kind) t.now))) out.old result out.new }
{
    let Some(first) = next_place(t, kind, first_place(t)) else {
        return 0;
    };
    match next_place(t, kind, first.next) {
        Some(_) => put_ordered(out, t, kind),
        None => put_row(out, t, kind, first.at),
    }
}

// How many words the row of a kind at a place has.
pub fn row_words(t: &[u8], kind: Kind, p: usize) -> usize
    ensures { result ≡ length (words_at (number_of kind) t.now p) }
{
    match kind {
        Kind::Block => 1 + entries_at(t, p).count,
        Kind::Relocation => 1 + cell_at(t, 1, p, 1).len().div_ceil(3),
        Kind::Symbol | Kind::Start => 4 + key_at(t, kind, p).len().div_ceil(3),
    }
}

// The room after the rows at the places of a window.
fn window_room(t: &[u8], kind: Kind, places: &[usize], room: usize) -> Option<usize>
    ensures { room_of result ≡ room_after (map (words_at (number_of kind) t.now) places.now) room }
{
    let mut left = room;
    for &p in places {
        left = left.checked_sub(row_words(t, kind, p))?;
    }
    Some(left)
}

// The room after the rows of a kind from a place on.
fn straight_room(t: &[u8], kind: Kind, from: usize, room: usize) -> Option<usize>
    ensures { room_of result ≡ room_after (map record_words (rows_from (number_of kind) t.now from)) room }
{
    let mut left = room;
    let mut at = from;
    while let Some(row) = next_place(t, kind, at) {
        left = left.checked_sub(row_words(t, kind, row.at))?;
        at = row.next;
    }
    Some(left)
}

// The room after the rows that are left to hand out, window by window.
fn windows_room(t: &[u8], first: Sorting, win: &mut [usize], room: usize) -> Option<usize>
    requires { 0 < length win.old }
    ensures { room_of result ≡ room_after (map record_words (left t.now first)) room }
{
    let kind = first.kind;
    let mut left = room;
    let mut sorting = first;
    loop {
        sorting = sorting.next_window(t, win);
        left = window_room(t, kind, &win[..sorting.count], left)?;
        if sorting.count < win.len() {
            return Some(left);
        }
    }
}

// The same, by way of an array.
fn sorted_room(t: &[u8], sorting: Sorting, room: usize) -> Option<usize>
    ensures { room_of result ≡ room_after (map record_words (left t.now sorting)) room }
{
    let mut win = [0usize; 4096];
    windows_room(t, sorting, &mut win, room)
}

// The room after the rows of a kind, a later row with the same key replacing; none where it is too short.
pub fn rows_room(t: &[u8], kind: Kind, room: usize) -> Option<usize>
    ensures { room_of result ≡ room_after (map record_words (sorted row_key (rows_of (number_of kind) t.now))) room }
{
    let sorting = Sorting::new(t, kind);
    match sorting.rest {
        Rest::Rising(at) => straight_room(t, kind, at, room),
        Rest::Above(_) => sorted_room(t, sorting, room),
    }
}
