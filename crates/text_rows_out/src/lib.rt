// Rows of the text form, with their newlines: the lines of a block, and a row of the linker table. Part writers: each takes the unused
// rest of the output.
#![tactic(auto)]

ghost use Rattle.std.specs.Prelude.{◌≡◌, ◌++◌, ◌≤◌, length};
ghost use Rattle.format.specs.TextWriter.{hex4, decimal, memory_text, text_line, table_div};
ghost use Rattle.writing.specs.Written.{Put};
ghost use Rattle.object.specs.Texts.{text_bytes};
ghost use Rattle.object.specs.Access.{memory_in};
ghost use Rattle.text_numerals.specs.Memory.{word_of};
ghost use Rattle.measuring.specs.Room.{room_of, less_part};
ghost use Rattle.text_rows_out.specs.Rows.{linker_line};

use measuring::take;
use object::put_text;
use text_numerals::{count_digits, put_decimal, put_hex4, put_memory};
use writing::{put_bytes, put_u8};

// The bytes of a linker row beside its name.
const LINKER_ROW: usize = 8;

// 000's TABLE_DIV.
const TABLE_DIV: [u8; 3] = [0x20, 0x7C, 0x20];

// The address of a block.
pub fn put_address_line(out: &mut [u8], address: u16) -> usize
    ensures { Put (text_line (hex4 address)) out.old result out.new }
{
    if out.len() < 5 {
        return 0;
    }
    let mut at = 0;
    at += put_hex4(&mut out[at..], address);
    at += put_u8(&mut out[at..], 0x0A);
    at
}

// The number of a block's words.
pub fn put_count_line(out: &mut [u8], count: u64) -> usize
    ensures { Put (text_line (decimal count)) out.old result out.new }
{
    if out.len() <= count_digits(count) {
        return 0;
    }
    let mut at = 0;
    at += put_decimal(&mut out[at..], count);
    at += put_u8(&mut out[at..], 0x0A);
    at
}

// What a memory word holds, if it is known.
fn memory_in(w: u32) -> Option<u16>
    ensures { word_of result ≡ memory_in w }
{
    (w % 0x2000_0000 != 0).then_some((w % 0x1_0000) as u16)
}

// A memory word.
pub fn put_memory_line(out: &mut [u8], w: u32) -> usize
    ensures { Put (text_line (memory_text (memory_in w))) out.old result out.new }
{
    if out.len() < 5 {
        return 0;
    }
    let k = put_memory(out, memory_in(w));
    k + put_u8(&mut out[k..], b'\n')
}

// The room that a row of the linker table leaves whose name has `n` bytes.
pub fn measure_linker_row(
    room: usize,
    address: u16,
    ws: &[u32],
    at: usize,
    n: usize,
) -> Option<usize>
    ensures { room_of result ≡ less_part room (linker_line address (text_bytes ws.now at n)) }
{
    let left = take(room, LINKER_ROW)?;
    take(left, n)
}

// The address of a row and a divider, into a room that suffices.
fn put_link_address(out: &mut [u8], address: u16) -> usize
    requires { length (hex4 address ++ table_div) ≤ length out.old }
    ensures { Put (hex4 address ++ table_div) out.old result out.new }
{
    let div = TABLE_DIV;
    let k = put_hex4(out, address);
    k + put_bytes(&mut out[k..], &div)
}

// The first `n` bytes of a text and a newline, into a room that suffices.
fn put_name_line(out: &mut [u8], ws: &[u32], at: usize, n: usize) -> usize
    requires { length (text_line (text_bytes ws.now at n)) ≤ length out.old }
    ensures { Put (text_line (text_bytes ws.now at n)) out.old result out.new }
{
    let k = put_text(out, ws, at, n);
    k + put_u8(&mut out[k..], 0x0A)
}

// A row of the linker table: an address, and the name of `n` bytes at a place.
pub fn put_linker_row(out: &mut [u8], address: u16, ws: &[u32], at: usize, n: usize) -> usize
    ensures { Put (linker_line address (text_bytes ws.now at n)) out.old result out.new }
{
    if measure_linker_row(out.len(), address, ws, at, n).is_none() {
        return 0;
    }
    let k = put_link_address(out, address);
    k + put_name_line(&mut out[k..], ws, at, n)
}
