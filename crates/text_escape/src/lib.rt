// `escape_default` of the source, as it lies in text words, and the rows of the line table, whose last cell it is.
#![tactic(auto)]

ghost use Rattle.std.specs.Prelude.{◌≡◌, true, ◌++◌, ◌+◌, ◌-◌, ◌≤◌, ◌<◌, length, leb};
ghost use Rattle.format.specs.TextWriter.{escape_char, decimal, to_right, text_line};
ghost use Rattle.writing.specs.Written.{Put};
ghost use Rattle.measuring.specs.Room.{room_of, less, less_part};
ghost use Rattle.text_numerals.specs.Memory.{word_of};
ghost use Rattle.object.specs.Texts.{EachIn, span_bytes};
ghost use Rattle.word_chars.specs.Stretches.{Stretch};
ghost use Rattle.text_escape.specs.Escaped.{letter_of, Letter, code_text, escaped_in, Itself, Plain};
ghost use Rattle.text_escape.specs.Rows.{line_line, address_cell, row_head, newline_bytes, plain_cell, PlainUpTo};

use measuring::take;
use object::{put_span, text_byte, whole_words};
use text_numerals::{count_digits, count_hex, put_hex, put_memory, put_right};
use utf8::Char;
use writing::{put_bytes, put_u8};

// What a character is escaped with: \u{
const UNICODE: [u8; 3] = [0x5C, 0x75, 0x7B];

// 000's TABLE_DIV.
const TABLE_DIV: [u8; 3] = [0x20, 0x7C, 0x20];

// A newline, escaped, and the end of a row.
const NEWLINE: [u8; 3] = [0x5C, 0x6E, 0x0A];

// The letter after the backslash of a character that has one. Letters pass at the first test.
fn letter(c: u32) -> Option<u8>
    ensures { Letter (letter_of c) result }
{
    if 0x5C < c {
        return None;
    }
    if c == 0x09 {
        return Some(b't');
    }
    if c == 0x0A {
        return Some(b'n');
    }
    if c == 0x0D {
        return Some(b'r');
    }
    if c == 0x22 || c == 0x27 || c == 0x5C {
        return Some(c as u8);
    }
    None
}

// How many bytes a character is escaped as.
fn escaped_len(c: u32) -> usize
    requires { c < 0x110000 }
    ensures { result ≡ length (escape_char c) }
{
    if letter(c).is_some() {
        return 2;
    }
    if c < 0x20 {
        return count_hex(c as u64) + 4;
    }
    if 0x7E < c {
        return count_hex(c as u64) + 4;
    }
    1
}

// A character by its number.
fn put_code(out: &mut [u8], c: u32) -> usize
    ensures { Put (code_text c) out.old result out.new }
{
    let n = c as u64;
    if out.len() < count_hex(n) + 4 {
        return 0;
    }
    let open = UNICODE;
    let mut at = 0;
    at += put_bytes(&mut out[at..], &open);
    at += put_hex(&mut out[at..], n);
    at += put_u8(&mut out[at..], 0x7D);
    at
}

// A character, escaped.
fn put_escaped_char(out: &mut [u8], c: u32) -> usize
    requires { c < 0x110000 }
    ensures { Put (escape_char c) out.old result out.new }
{
    if let Some(l) = letter(c) {
        return put_bytes(out, &[b'\\', l]);
    }
    if c < 0x20 {
        return put_code(out, c);
    }
    if 0x7F <= c {
        return put_code(out, c);
    }
    put_u8(out, c as u8)
}

// Whether a byte is a character that stands for itself; most are, so the walks try this first.
fn is_plain(b: u8) -> bool
    ensures { Plain b result }
{
    if b < 0x20 {
        return false;
    }
    if 0x7E < b {
        return false;
    }
    if b == 0x22 {
        return false;
    }
    if b == 0x27 {
        return false;
    }
    if b == 0x5C {
        return false;
    }
    true
}

// Whether each byte of a text word does.
fn is_plain_word(w: u32) -> bool
    ensures { result ≡ true → EachIn Itself w }
{
    if !is_plain((w % 256) as u8) {
        return false;
    }
    if !is_plain((w / 256 % 256) as u8) {
        return false;
    }
    is_plain((w / 65536 % 256) as u8)
}

// Bytes that stand for themselves from byte `i` on, up to the first byte of a word.
fn plain_head(ws: &[u32], at: usize, end: usize, i: usize) -> usize
    ensures { Stretch Itself ws.now at end i result }
{
    let mut k = i;
    while k % 3 != 0 {
        if end <= k {
            return k;
        }
        if !is_plain(text_byte(ws, at, k)) {
            return k;
        }
        k += 1;
    }
    k
}

// Whole words of them from byte `i` on. Where the walk stops is the answer, which a `for` would have to give in two places.
fn plain_words(ws: &[u32], at: usize, end: usize, i: usize) -> usize
    ensures { Stretch Itself ws.now at end i result }
{
    if i % 3 != 0 {
        return i;
    }
    let words = whole_words(ws, at, end);
    let mut k = i / 3;
    while k < words {
        if !is_plain_word(ws[at + k]) {
            return 3 * k;
        }
        k += 1;
    }
    3 * k
}

// They, byte by byte; likewise.
fn plain_bytes(ws: &[u32], at: usize, end: usize, i: usize) -> usize
    ensures { Stretch Itself ws.now at end i result }
{
    let mut k = i;
    while k < end {
        if !is_plain(text_byte(ws, at, k)) {
            return k;
        }
        k += 1;
    }
    k
}

// Up to where the bytes from byte `i` on stand for themselves.
fn plain_end(ws: &[u32], at: usize, end: usize, i: usize) -> usize
    ensures { Stretch Itself ws.now at end i result }
{
    let head = plain_head(ws, at, end, i);
    let words = plain_words(ws, at, end, head);
    plain_bytes(ws, at, end, words)
}

// The room that the bytes from `start` up to `end` of a text leave, escaped.
pub fn measure_escaped(
    room: usize,
    ws: &[u32],
    at: usize,
    start: usize,
    end: usize,
) -> Option<usize>
    ensures { room_of result ≡ less_part room (escaped_in ws.now at start end) }
{
    let mut left = room;
    let mut i = start;
    while i < end {
        let j = plain_end(ws, at, end, i);
        let rest = take(left, j - i)?;
        let Some(Char { value, more }) = word_chars::char_in(ws, at, j, end) else {
            return Some(rest);
        };
        left = take(rest, escaped_len(value))?;
        i = j + (more + 1);
    }
    Some(left)
}

// They, escaped, into a room that suffices.
fn put_chars(out: &mut [u8], ws: &[u32], at: usize, start: usize, end: usize) -> usize
    requires { length (escaped_in ws.now at start end) ≤ length out.old }
    ensures { Put (escaped_in ws.now at start end) out.old result out.new }
{
    let mut n = 0;
    let mut i = start;
    while i < end {
        let j = plain_end(ws, at, end, i);
        n += put_span(&mut out[n..], ws, at, i, j);
        let Some(Char { value, more }) = word_chars::char_in(ws, at, j, end) else {
            return n;
        };
        n += put_escaped_char(&mut out[n..], value);
        i = j + (more + 1);
    }
    n
}

// Whether they fit, escaped. No character takes more than ten bytes, so that in a wide room nothing is measured.
fn escaped_fits(room: usize, ws: &[u32], at: usize, start: usize, end: usize) -> bool
    ensures { result ≡ leb (length (escaped_in ws.now at start end)) room }
{
    if end <= start {
        return true;
    }
    if end - start <= room / 10 {
        return true;
    }
    measure_escaped(room, ws, at, start, end).is_some()
}

// How wide a number is in a column.
fn column(width: usize, number: u64) -> usize
    ensures { result ≡ length (to_right width (decimal number)) }
{
    count_digits(number).max(width)
}

// A row of the line table up to its last cell: a line number, and its address if it is known.
#[derive(Clone, Copy)]
pub struct Row {
    pub number: u64,
    pub address: Option<u16>,
}

// The room that a row of the line table leaves with the bytes from `start` up to `end` of the source.
pub fn measure_line_row(
    room: usize,
    width: usize,
    row: Row,
    ws: &[u32],
    at: usize,
    start: usize,
    end: usize,
) -> Option<usize>
    ensures { room_of result
        ≡ less_part room (line_line width row.number (word_of row.address) (escaped_in ws.now at start end)) }
{
    let left = take(room, 11)?;
    let rest = take(left, column(width, row.number))?;
    measure_escaped(rest, ws, at, start, end)
}

// Whether it fits: two dividers, an address and a newline take eleven bytes.
fn row_fits(
    room: usize,
    width: usize,
    number: u64,
    ws: &[u32],
    at: usize,
    start: usize,
    end: usize,
) -> bool
    ensures { result
        ≡ leb (11 + length (to_right width (decimal number)) + length (escaped_in ws.now at start end)) room }
{
    if room <= 10 {
        return false;
    }
    let head = column(width, number);
    if room - 11 < head {
        return false;
    }
    escaped_fits(room - 11 - head, ws, at, start, end)
}

// The second cell of a row between two dividers, into a room that suffices: an address, or ???? where it isn't known.
fn put_address_cell(out: &mut [u8], address: Option<u16>) -> usize
    requires { length (address_cell (word_of address)) ≤ length out.old }
    ensures { Put (address_cell (word_of address)) out.old result out.new }
{
    let div = TABLE_DIV;
    let mut k = put_bytes(out, &div);
    k += put_memory(&mut out[k..], address);
    k + put_bytes(&mut out[k..], &div)
}

// A row up to its last cell, into a room that suffices.
fn put_row_head(out: &mut [u8], width: usize, row: Row) -> usize
    requires { length (row_head width row.number (word_of row.address)) ≤ length out.old }
    ensures { Put (row_head width row.number (word_of row.address)) out.old result out.new }
{
    let k = put_right(out, width, row.number);
    k + put_address_cell(&mut out[k..], row.address)
}

// The last cell of a row, escaped, and its newline, into a room that suffices.
fn put_source_cell(out: &mut [u8], ws: &[u32], at: usize, start: usize, end: usize) -> usize
    requires { length (text_line (escaped_in ws.now at start end)) ≤ length out.old }
    ensures { Put (text_line (escaped_in ws.now at start end)) out.old result out.new }
{
    let k = put_chars(out, ws, at, start, end);
    k + put_u8(&mut out[k..], 0x0A)
}

// It, written.
pub fn put_line_row(
    out: &mut [u8],
    width: usize,
    row: Row,
    ws: &[u32],
    at: usize,
    start: usize,
    end: usize,
) -> usize
    ensures { Put (line_line width row.number (word_of row.address) (escaped_in ws.now at start end))
        out.old result out.new }
{
    if !row_fits(out.len(), width, row.number, ws, at, start, end) {
        return 0;
    }
    let k = put_row_head(out, width, row);
    k + put_source_cell(&mut out[k..], ws, at, start, end)
}

// Where the newline is of the line that begins at byte `start` of a text of `n` bytes, if all bytes before it stand for themselves, as
// those of most lines do; else `n`.
pub fn plain_line(ws: &[u32], at: usize, n: usize, start: usize) -> usize
    ensures { PlainUpTo ws.now at n start result }
{
    let j = plain_end(ws, at, n, start);
    if word_chars::byte_in(ws, at, j, n) == 10 {
        return j;
    }
    n
}

// The room that a row of so many bytes that stand for themselves leaves: the newline is two bytes more.
pub fn measure_plain_row(room: usize, width: usize, number: u64, len: usize) -> Option<usize>
    ensures { room_of result ≡ less room (13 + length (to_right width (decimal number)) + len) }
{
    let left = take(room, 13)?;
    let rest = take(left, column(width, number))?;
    take(rest, len)
}

// How many bytes there are from `start` up to `end`.
fn span_len(start: usize, end: usize) -> usize
    ensures { result ≡ end - start }
{
    end.saturating_sub(start)
}

// The last cell of a row whose bytes stand for themselves, and its newline, into a room that suffices.
fn put_plain_cell(out: &mut [u8], ws: &[u32], at: usize, start: usize, end: usize) -> usize
    requires { length (span_bytes ws.now at start end ++ newline_bytes) ≤ length out.old }
    ensures { Put (span_bytes ws.now at start end ++ newline_bytes) out.old result out.new }
{
    let last = NEWLINE;
    let k = put_span(out, ws, at, start, end);
    k + put_bytes(&mut out[k..], &last)
}

// The row of a line whose bytes stand for themselves from `start` up to its newline at `end`.
pub fn put_plain_row(
    out: &mut [u8],
    width: usize,
    row: Row,
    ws: &[u32],
    at: usize,
    start: usize,
    end: usize,
) -> usize
    ensures { Put (line_line width row.number (word_of row.address) (plain_cell ws.now at start end))
        out.old result out.new }
{
    if measure_plain_row(out.len(), width, row.number, span_len(start, end)).is_none() {
        return 0;
    }
    let k = put_row_head(out, width, row);
    k + put_plain_cell(&mut out[k..], ws, at, start, end)
}
