// The writer of the binary form (document 01, "Binary form"). It asks, measures, and then writes the header and record by record.
#![tactic(auto)]

ghost use Rattle.std.specs.Prelude.{◌≡◌, [], ◌∷◌, ◌++◌, ◌+◌, ◌-◌, ◌%◌, ◌^◌, ◌≤◌, ◌<◌, length, leb};
ghost use Rattle.format.specs.Digits.{digits_of};
ghost use Rattle.format.specs.Words.{flag_bit};
ghost use Rattle.format.specs.Calls.{checked, WritesBinary};
ghost use Rattle.units.specs.Refusal.{filled_of};
ghost use Rattle.writing.specs.Written.{Put};
ghost use Rattle.object.specs.Bodies.{Text, kind_number};
ghost use Rattle.object.specs.Access.{record_at};
ghost use Rattle.binary_measure.specs.Measured.{Stands, text_of, bytes_in};
ghost use Rattle.binary_write.specs.Files.{WritesAfter, flag_of, memory_part, address_part, sized, RoomFor, PutRecord};
ghost use Rattle.binary_write.specs.Files.{start_bytes, content_of, content_place, Content};

use binary_header::file_header;
use binary_measure::{check_write, record_end};
use byte_numbers::{put_u16_le, put_u64_le};
use object::Kind;
use units::Refusal;
use writing::{put_bytes, put_u8};

// The first of a memory word's three bytes.
fn flag(w: u32) -> u8
    ensures { result ≡ flag_of w }
{
    if w % 0x2000_0000 == 0 {
        return 0;
    }
    0xFF
}

// The memory words of a block.
fn put_memory(out: &mut [u8], words: &[u32]) -> usize
    requires { length (memory_part words.now) ≤ length out.old }
    ensures { Put (memory_part words.now) out.old result out.new }
{
    let mut at = 0;
    for &w in words {
        out[at] = flag(w);
        at += 1;
        out[at] = (w % 256) as u8;
        at += 1;
        out[at] = (w / 256 % 256) as u8;
        at += 1;
    }
    at
}

// The addresses of a line block.
fn put_addresses(out: &mut [u8], words: &[u32]) -> usize
    requires { length (address_part words.now) ≤ length out.old }
    ensures { Put (address_part words.now) out.old result out.new }
{
    let mut at = 0;
    for &w in words {
        out[at] = (w % 256) as u8;
        at += 1;
        out[at] = (w / 256 % 256) as u8;
        at += 1;
    }
    at
}

// The bytes of the last word of a text, one to three.
fn put_last(out: &mut [u8], w: u32) -> usize
    requires { Text (w ∷ []) × (length (text_of (w ∷ [])) ≤ length out.old) }
    ensures { Put (text_of (w ∷ [])) out.old result out.new }
{
    let n = w / 0x100_0000 % 4;
    let w1 = w / 256;
    out[0] = (w % 256) as u8;
    if n == 1 {
        return 1;
    }
    out[1] = (w1 % 256) as u8;
    if n == 2 {
        return 2;
    }
    out[2] = (w1 / 256 % 256) as u8;
    3
}

// The bytes of text words: all but the last carry three.
fn put_text(out: &mut [u8], words: &[u32]) -> usize
    requires { Text words.now × (length (text_of words.now) ≤ length out.old) }
    ensures { Put (text_of words.now) out.old result out.new }
{
    if words.len() == 0 {
        return 0;
    }
    let last = words.len() - 1;
    let mut at = 0;
    for i in 0..last {
        let w = words[i];
        let w1 = w / 256;
        out[at] = (w % 256) as u8;
        at += 1;
        out[at] = (w1 % 256) as u8;
        at += 1;
        out[at] = (w1 / 256 % 256) as u8;
        at += 1;
    }
    at += put_last(&mut out[at..], words[last]);
    at
}

// The length of a text, and its bytes.
fn put_sized(out: &mut [u8], words: &[u32]) -> usize
    requires { Text words.now × (length (sized (text_of words.now)) ≤ length out.old) }
    ensures { Put (sized (text_of words.now)) out.old result out.new }
{
    let n = object::text_len(words, 0, words.len());
    let mut o = 0;
    o += put_u64_le(&mut out[o..], n as u64);
    o += put_text(&mut out[o..], words);
    o
}

// Whether a label is external, as a byte.
fn external(w: u32) -> u8
    ensures { result ≡ flag_bit (leb (2 ^ 16) (w % 2 ^ 29)) }
{
    if w % 0x2000_0000 < 0x1_0000 {
        return 0;
    }
    1
}

// How many words there are from a up to e, in two bytes.
fn count(a: usize, e: usize) -> u16
    ensures { result ≡ (e - a) % 2 ^ 16 }
{
    if e < a {
        return 0;
    }
    ((e - a) % 0x1_0000) as u16
}

// A record's kind and address, which blocks, labels and relocations begin with: low byte first in all of them.
fn put_address(out: &mut [u8], kind: u8, address: u16) -> usize
    ensures { Put (kind ∷ digits_of 8 2 address) out.old result out.new }
{
    if out.len() < 3 {
        return 0;
    }
    out[0] = kind;
    out[1] = (address % 256) as u8;
    out[2] = (address / 256 % 256) as u8;
    3
}

// What a block begins with: its kind, address and count.
fn put_block_start(out: &mut [u8], address: u16, count: u16) -> usize
    ensures { Put (0x00 ∷ digits_of 8 2 address ++ digits_of 8 2 count) out.old result out.new }
{
    if out.len() < 5 {
        return 0;
    }
    let mut o = 0;
    o += put_address(&mut out[o..], 0, address);
    o += put_u16_le(&mut out[o..], count);
    o
}

// What a label begins with: its kind, address, whether it is external, and its source start.
fn put_label_start(out: &mut [u8], address: u16, external: u8, start: u64) -> usize
    ensures { Put (0x01 ∷ digits_of 8 2 address ++ external ∷ digits_of 8 8 start) out.old result out.new }
{
    if out.len() < 12 {
        return 0;
    }
    let mut o = 0;
    o += put_address(&mut out[o..], 1, address);
    o += put_u8(&mut out[o..], external);
    o += put_u64_le(&mut out[o..], start);
    o
}

// What a line block begins with: its kind, first line and count.
fn put_lines_start(out: &mut [u8], first: u64, count: u16) -> usize
    ensures { Put (0x02 ∷ digits_of 8 8 first ++ digits_of 8 2 count) out.old result out.new }
{
    if out.len() < 11 {
        return 0;
    }
    out[0] = 2;
    let mut o = 1;
    o += put_u64_le(&mut out[o..], first);
    o += put_u16_le(&mut out[o..], count);
    o
}

// What the record at a place begins with, by its kind.
fn put_start(out: &mut [u8], ws: &[u32], at: usize, end: usize) -> usize
    requires { Stands ws.now at end }
    ensures { Put (start_bytes (record_at ws.now at)) out.old result out.new }
{
    let w = ws[at];
    let body = at + 1;
    let address = (w % 0x1_0000) as u16;
    match Kind::of(w) {
        Kind::Block => put_block_start(out, address, count(body, end)),
        Kind::Label => put_label_start(out, address, external(w), object::number_at(ws, body)),
        Kind::LineBlock => put_lines_start(out, object::number_at(ws, body), count(body + 3, end)),
        Kind::Source => put_u8(out, 3),
        _ => put_address(out, 4, address),
    }
}

// Where the words of a record's list or text begin: past the number of a label or a line block.
fn content_at(kind: Kind, at: usize) -> usize
    requires { at + 4 < 2 ^ 64 }
    ensures { result ≡ content_place (kind_number kind) at }
{
    let body = at + 1;
    match kind {
        Kind::Label | Kind::LineBlock => body + 3,
        _ => body,
    }
}

// The list or the text of a record of this kind: memory words, addresses, or a text with its length.
fn put_content(out: &mut [u8], kind: Kind, words: &[u32]) -> usize
    requires { Content (kind_number kind) words.now × (length (content_of (kind_number kind) words.now) ≤ length out.old) }
    ensures { Put (content_of (kind_number kind) words.now) out.old result out.new }
{
    match kind {
        Kind::Block => put_memory(out, words),
        Kind::LineBlock => put_addresses(out, words),
        _ => put_sized(out, words),
    }
}

// The record at a place.
fn put_record(out: &mut [u8], ws: &[u32], at: usize, end: usize) -> usize
    requires { Stands ws.now at end × RoomFor (record_at ws.now at) out.old }
    ensures { PutRecord (record_at ws.now at) out.old result out.new }
{
    let kind = Kind::of(ws[at]);
    let from = content_at(kind, at);
    let mut o = 0;
    o += put_start(&mut out[o..], ws, at, end);
    o += put_content(&mut out[o..], kind, &ws[from..end]);
    o
}

// The records of a well formed object, one after the other.
fn put_records(out: &mut [u8], object: &[u32]) -> usize
    requires { (checked object.now ≡ 0) × (length (bytes_in object.now) ≤ length out.old) }
    ensures { Put (bytes_in object.now) out.old result out.new }
{
    let mut o = 0;
    let mut at = 0;
    while at < object.len() {
        let end = record_end(object, at);
        o += put_record(&mut out[o..], object, at, end);
        at = end;
    }
    o
}

// The file of an object: the bytes `front`, then its records, in the object's own order.
fn write_file(object: &[u32], front: &[u8], out: &mut [u8]) -> Result<usize, Refusal>
    ensures { WritesAfter front.now object.now out.old (filled_of result out.new) }
{
    check_write(object, front.len(), out.len())?;
    let at = put_bytes(out, front);
    Ok(at + put_records(&mut out[at..], object))
}

// The binary file of an object: how many bytes are filled, or the first question that is answered no, 1 or 2, or 3 where the buffer is too
// short.
pub fn write_binary(object: &[u32], out: &mut [u8]) -> Result<usize, Refusal>
    ensures { WritesBinary object.now out.old (filled_of result out.new) }
{
    let front = file_header();
    write_file(object, &front, out)
}
