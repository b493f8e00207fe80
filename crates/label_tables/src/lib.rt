// The text writer's two tables of labels, .SYMBOL and .DEBUG's label table: their rows by the labels' places in the words of an object.
#![tactic(auto)]

ghost use Rattle.std.specs.Prelude.{◌≡◌, ◌+◌, ◌-◌, ◌*◌, ◌/◌, ◌%◌, ◌^◌, ◌≤◌, max, length, get_or, leb};
ghost use mathlib.Core.List.{flat_map};
ghost use Rattle.format.specs.Utf8.{characters};
ghost use Rattle.format.specs.TextWriter.{decimal, to_right, text_line, label_header};
ghost use Rattle.format.specs.Words.{flag_bit};
ghost use Rattle.utf8.specs.Chars.{begins};
ghost use Rattle.writing.specs.Written.{Put};
ghost use Rattle.object.specs.Bodies.{number_at};
ghost use Rattle.object.specs.Texts.{text_bytes};
ghost use Rattle.label_tables.specs.Rows.{name_at, symbol_line, label_line};
ghost use Rattle.measuring.specs.Room.{room_of, less, less_part};
ghost use Rattle.label_tables.specs.Tables.{names_width, indices_width, symbols_length, columns_length, line_of};
ghost use Rattle.label_order.specs.Labels.{label_places};

use label_order::next_label;
use measuring::take;
use object::{body_end, number_at, put_text, text_byte, text_len, whole_words};
use text_numerals::{count_digits, put_hex4, put_right, put_spaces};
use writing::put_bytes;

// The largest byte that continues a character.
const LAST_CONTINUATION: u8 = 0xBF;

// A label's name: where its words begin, and how many bytes it has.
#[derive(Clone, Copy)]
struct Name {
    at: usize,
    len: usize,
}

// The name of the label at a place.
fn name_of(ws: &[u32], p: usize) -> Name
    ensures { (text_bytes ws.now result.at result.len ≡ name_at ws.now p)
        × (result.len ≤ 3 * length ws.now) }
{
    if ws.len() <= p {
        return Name { at: 0, len: 0 };
    }
    let body = p + 1;
    let at = body + 3;
    let end = body_end(ws, at);
    Name {
        at: at,
        len: text_len(ws, at, end),
    }
}

// The first word of the label at a place.
fn head_at(ws: &[u32], p: usize) -> u32
    ensures { result ≡ get_or ws.now p 0 }
{
    if ws.len() <= p {
        return 0;
    }
    ws[p]
}

// The source start of the label at a place.
fn start_at(ws: &[u32], p: usize) -> u64
    ensures { result ≡ number_at ws.now (p + 1) }
{
    if ws.len() <= p {
        return 0;
    }
    number_at(ws, p + 1)
}

// EXT: the digit 1 for an external label, else 0.
fn ext_digit(w: u32) -> u8
    ensures { result ≡ 0x30 + flag_bit (leb (2 ^ 16) (w % 2 ^ 29)) }
{
    if w % 0x2000_0000 < 0x1_0000 {
        return 0x30;
    }
    0x31
}

// A row of .SYMBOL: address, EXT and name.
fn put_symbol_row(out: &mut [u8], ws: &[u32], p: usize) -> usize
    ensures { Put (symbol_line ws.now p) out.old result out.new }
{
    let name = name_of(ws, p);
    if out.len() < name.len + 14 {
        return 0;
    }
    let w = head_at(ws, p);
    let ext = ext_digit(w);
    let mut k = put_hex4(out, (w % 0x1_0000) as u16);
    k += put_bytes(
        &mut out[k..],
        &[0x20, 0x7C, 0x20, 0x20, 0x20, ext, 0x20, 0x7C, 0x20],
    );
    k += put_text(&mut out[k..], ws, name.at, name.len);
    out[k] = 0x0A;
    k + 1
}

// 1 for a byte that begins a character.
fn begins(b: u8) -> usize
    ensures { (result ≡ begins b) × (result ≤ 1) }
{
    if b < 0x80 {
        return 1;
    }
    if LAST_CONTINUATION < b {
        return 1;
    }
    0
}

// How many of the three bytes of a word begin a character.
fn word_begins(w: u32) -> usize
    ensures { (result ≡ begins (w % 256) + begins (w / 256 % 256) + begins (w / 65536 % 256)) × (result ≤ 3) }
{
    begins((w % 256) as u8) + begins((w / 256 % 256) as u8) + begins((w / 65536 % 256) as u8)
}

// How many characters the first n bytes of the text words from a place on have: by whole words, then byte by byte.
fn characters(ws: &[u32], at: usize, n: usize) -> usize
    ensures { result ≡ characters (text_bytes ws.now at n) }
{
    let whole = whole_words(ws, at, n);
    let mut count = 0;
    let mut i = 0;
    while i < n {
        if i / 3 < whole {
            count += word_begins(ws[at + i / 3]);
            i += 3;
        } else {
            count += begins(text_byte(ws, at, i));
            i += 1;
        }
    }
    count
}

// How many spaces fill a name to a column: "filled by characters".
fn fill_of(ws: &[u32], at: usize, n: usize, width: usize) -> usize
    ensures { result ≡ width - characters (text_bytes ws.now at n) }
{
    width.saturating_sub(characters(ws, at, n))
}

// How long a number is in its column.
fn right_len(width: usize, n: u64) -> usize
    ensures { result ≡ length (to_right width (decimal n)) }
{
    count_digits(n).max(width)
}

// The room that three parts leave.
fn take_three(room: usize, a: usize, b: usize, c: usize) -> Option<usize>
    ensures { room_of result ≡ less room (a + b + c) }
{
    let x = take(room, a)?;
    let y = take(x, b)?;
    take(y, c)
}

// Whether three parts fit, as whole numbers.
fn is_room(room: usize, a: usize, b: usize, c: usize) -> bool
    ensures { result ≡ leb (a + b + c) room }
{
    take_three(room, a, b, c).is_some()
}

// The widths of the label table's columns.
#[derive(Clone, Copy)]
pub struct Widths {
    pub names: usize,
    pub indices: usize,
}

// A row of the label table, in columns of these widths: name and source start.
fn put_label_row(out: &mut [u8], ws: &[u32], p: usize, widths: Widths) -> usize
    ensures { Put (label_line widths.names widths.indices ws.now p) out.old result out.new }
{
    let name = name_of(ws, p);
    let fill = fill_of(ws, name.at, name.len, widths.names);
    let start = start_at(ws, p);
    let right = right_len(widths.indices, start);
    if !is_room(out.len(), name.len + 4, fill, right) {
        return 0;
    }
    let mut k = put_text(out, ws, name.at, name.len);
    k += put_spaces(&mut out[k..], fill);
    k += put_bytes(&mut out[k..], b" | ");
    k += put_right(&mut out[k..], widths.indices, start);
    out[k] = 0x0A;
    k + 1
}

// The longest name in bytes, at least 5, and the longest index, at least 5.
pub fn column_widths(ws: &[u32]) -> Widths
    ensures { (result.names ≡ names_width ws.now) × (result.indices ≡ indices_width ws.now) }
{
    let mut widths = Widths {
        names: 5,
        indices: 5,
    };
    let mut at = 0;
    while let Some((p, next)) = next_label(ws, at) {
        let name = name_of(ws, p);
        widths = Widths {
            names: name.len.max(widths.names),
            indices: count_digits(start_at(ws, p)).max(widths.indices),
        };
        at = next;
    }
    widths
}

// A table of labels: .SYMBOL, or the label table in columns of these widths.
#[derive(Clone, Copy)]
pub enum Table {
    Symbols,
    Labels(Widths),
}

impl Table {
    // A row, of the label at a place.
    pub fn put_row(self, out: &mut [u8], ws: &[u32], p: usize) -> usize
        ensures { Put (line_of self ws.now p) out.old result out.new }
    {
        match self {
            Table::Symbols => put_symbol_row(out, ws, p),
            Table::Labels(widths) => put_label_row(out, ws, p, widths),
        }
    }

    // The room that it leaves.
    fn row_room(self, ws: &[u32], p: usize, room: usize) -> Option<usize>
        ensures { room_of result ≡ less_part room (line_of self ws.now p) }
    {
        match self {
            Table::Symbols => symbol_row_room(ws, p, room),
            Table::Labels(widths) => label_row_room(ws, p, widths, room),
        }
    }

    // The room that all rows leave, counted down: a sum of columns could pass 64 bits.
    fn rows_room(self, ws: &[u32], room: usize) -> Option<usize>
        ensures { room_of result ≡ less_part room (flat_map (line_of self ws.now) (label_places ws.now)) }
    {
        let mut left = room;
        let mut at = 0;
        while let Some((p, next)) = next_label(ws, at) {
            left = self.row_room(ws, p, left)?;
            at = next;
        }
        Some(left)
    }
}

// The room that a row of .SYMBOL leaves.
fn symbol_row_room(ws: &[u32], p: usize, room: usize) -> Option<usize>
    ensures { room_of result ≡ less_part room (symbol_line ws.now p) }
{
    let name = name_of(ws, p);
    take(room, name.len + 14)
}

// The room that a row of the label table leaves.
fn label_row_room(ws: &[u32], p: usize, widths: Widths, room: usize) -> Option<usize>
    ensures { room_of result ≡ less_part room (label_line widths.names widths.indices ws.now p) }
{
    let name = name_of(ws, p);
    let fill = fill_of(ws, name.at, name.len, widths.names);
    let right = right_len(widths.indices, start_at(ws, p));
    take_three(room, name.len + 4, fill, right)
}

// The room that .SYMBOL's table leaves.
pub fn measure_symbols(ws: &[u32], room: usize) -> Option<usize>
    ensures { room_of result ≡ less room (symbols_length ws.now) }
{
    let Some(_) = next_label(ws, 0) else {
        return Some(room);
    };
    let left = take(room, 19)?;
    Table::Symbols.rows_room(ws, left)
}

// How many characters a column has past those of its header, LABEL or INDEX.
fn past_header(width: usize) -> usize
    ensures { result ≡ width - 5 }
{
    width.saturating_sub(5)
}

// The room that the label table leaves, in columns of these widths.
pub fn measure_labels(ws: &[u32], widths: Widths, room: usize) -> Option<usize>
    ensures { room_of result ≡ less room (columns_length widths.names widths.indices ws.now) }
{
    let Some(_) = next_label(ws, 0) else {
        return Some(room);
    };
    let a = past_header(widths.names);
    let b = past_header(widths.indices);
    let left = take_three(room, 14, a, b)?;
    Table::Labels(widths).rows_room(ws, left)
}

// The header of the label table, in columns of these widths.
pub fn put_label_header(out: &mut [u8], widths: Widths) -> usize
    ensures { Put (text_line (label_header widths.names widths.indices)) out.old result out.new }
{
    let a = past_header(widths.names);
    let b = past_header(widths.indices);
    if !is_room(out.len(), 14, a, b) {
        return 0;
    }
    let mut k = put_bytes(out, b"LABEL");
    k += put_spaces(&mut out[k..], a);
    k += put_bytes(&mut out[k..], b" | INDEX");
    k += put_spaces(&mut out[k..], b);
    out[k] = 0x0A;
    k + 1
}
