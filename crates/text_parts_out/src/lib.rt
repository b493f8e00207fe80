// .TEXT's blocks and the rows of the linker table, measured and written in a walk from head to head along any words. Where the room is too
// short, each part that still fits is written.
#![tactic(auto)]

ghost use Rattle.std.specs.Prelude.{◌≡◌, ◌+◌, ◌*◌, ◌≤◌, ◌<◌, length};
ghost use mathlib.Core.List.{flat_map, ◌++◌};
ghost use Rattle.format.specs.TextWriter.{hex4, decimal, text_line};
ghost use Rattle.writing.specs.Written.{Put};
ghost use Rattle.object.specs.Bodies.{body_at};
ghost use Rattle.measuring.specs.Room.{room_of, less, less_part};
ghost use Rattle.measuring.specs.Fitting.{fitting};
ghost use Rattle.text_parts_out.specs.Parts.{heads, memory_lines, block_text, block_places, link_text};

use measuring::take;
use object::{Kind, body_end, goes_on, text_len};
use text_numerals::count_digits;
use text_rows_out::{
    measure_linker_row, put_address_line, put_count_line, put_linker_row, put_memory_line,
};

// The memory words that go on at a place, a line each.
fn put_memory_lines(out: &mut [u8], ws: &[u32], at: usize) -> usize
    requires { length (memory_lines (body_at ws.now at)) ≤ length out.old }
    ensures { Put (memory_lines (body_at ws.now at)) out.old result out.new }
{
    let mut n = 0;
    let mut i = at;
    while goes_on(ws, i) {
        n += put_memory_line(&mut out[n..], ws[i]);
        i += 1;
    }
    n
}

// The room that a block of so many words leaves: address, count, and five bytes for each word.
fn block_room(room: usize, count: usize) -> Option<usize>
    ensures { room_of result ≡ less room (length (decimal count) + 6 + 5 * count) }
{
    let left = take(room, count_digits(count as u64) + 6)?;
    let words = count.checked_mul(5)?;
    take(left, words)
}

// The room that .TEXT leaves: the records from the front on, as long as they are blocks.
pub fn measure_blocks(room: usize, ws: &[u32]) -> Option<usize>
    ensures { room_of result ≡ less_part room (flat_map (block_text ws.now) (block_places ws.now)) }
{
    let mut left = room;
    let mut at = 0;
    while at < ws.len() {
        if Kind::of(ws[at]) != Kind::Block {
            return Some(left);
        }
        let body = at + 1;
        let end = body_end(ws, body);
        left = block_room(left, end - body)?;
        at = end;
    }
    Some(left)
}

// The first two lines of a block: address and count.
fn put_block_head(out: &mut [u8], address: u16, count: usize) -> usize
    requires { length (text_line (hex4 address) ++ text_line (decimal count)) ≤ length out.old }
    ensures { Put (text_line (hex4 address) ++ text_line (decimal count)) out.old result out.new }
{
    let n = put_address_line(out, address);
    n + put_count_line(&mut out[n..], count as u64)
}

// The block at a place, whose words are so many.
fn put_block(out: &mut [u8], ws: &[u32], at: usize, count: usize) -> usize
    requires { (at < length ws.now) × (count ≡ length (body_at ws.now (at + 1))) }
    ensures { Put (block_text ws.now at) out.old result out.new }
{
    if block_room(out.len(), count).is_none() {
        return 0;
    }
    let n = put_block_head(out, (ws[at] % 0x1_0000) as u16, count);
    n + put_memory_lines(&mut out[n..], ws, at + 1)
}

// .TEXT: the blocks, each that fits.
pub fn put_blocks(out: &mut [u8], ws: &[u32]) -> usize
    ensures { Put (fitting (block_text ws.now) (length out.old) (block_places ws.now))
        out.old result out.new }
{
    let mut n = 0;
    let mut at = 0;
    while at < ws.len() {
        if Kind::of(ws[at]) != Kind::Block {
            return n;
        }
        let body = at + 1;
        let end = body_end(ws, body);
        n += put_block(&mut out[n..], ws, at, end - body);
        at = end;
    }
    n
}

// The room that the record at a place leaves in .LINKER_INFO, whose body ends at another.
fn measure_relocation(room: usize, ws: &[u32], at: usize, end: usize) -> Option<usize>
    requires { (at < length ws.now) × (end ≡ at + 1 + length (body_at ws.now (at + 1))) }
    ensures { room_of result ≡ less_part room (link_text ws.now at) }
{
    let w = ws[at];
    if Kind::of(w) != Kind::Relocation {
        return Some(room);
    }
    let body = at + 1;
    let n = text_len(ws, body, end);
    measure_linker_row(room, (w % 0x1_0000) as u16, ws, body, n)
}

// The record at a place, if it is a relocation: a row of the linker table.
fn put_relocation(out: &mut [u8], ws: &[u32], at: usize, end: usize) -> usize
    requires { (at < length ws.now) × (end ≡ at + 1 + length (body_at ws.now (at + 1))) }
    ensures { Put (link_text ws.now at) out.old result out.new }
{
    let w = ws[at];
    if Kind::of(w) != Kind::Relocation {
        return 0;
    }
    let body = at + 1;
    let n = text_len(ws, body, end);
    put_linker_row(out, (w % 0x1_0000) as u16, ws, body, n)
}

// The room that the rows of the relocations from a head on leave.
pub fn measure_relocations(room: usize, ws: &[u32], from: usize) -> Option<usize>
    ensures { room_of result ≡ less_part room (flat_map (link_text ws.now) (heads ws.now from)) }
{
    let mut left = room;
    let mut at = from;
    while at < ws.len() {
        let end = body_end(ws, at + 1);
        left = measure_relocation(left, ws, at, end)?;
        at = end;
    }
    Some(left)
}

// The rows of the relocations from a head on, each that fits.
pub fn put_relocations(out: &mut [u8], ws: &[u32], from: usize) -> usize
    ensures { Put (fitting (link_text ws.now) (length out.old) (heads ws.now from))
        out.old result out.new }
{
    let mut n = 0;
    let mut at = from;
    while at < ws.len() {
        let end = body_end(ws, at + 1);
        n += put_relocation(&mut out[n..], ws, at, end);
        at = end;
    }
    n
}
