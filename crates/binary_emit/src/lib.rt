// The words of a binary file's object, part by part.
#![tactic(auto)]

ghost use Rattle.std.specs.Prelude.{◌≡◌, ◌+◌, ◌-◌, ◌≤◌, ◌<◌, min, length, take};
ghost use mathlib.Core.List.{◌++◌, flat_map};
ghost use Rattle.format.specs.Basics.{given};
ghost use Rattle.format.specs.Words.{text_words};
ghost use Rattle.format.specs.Calls.{fill};
ghost use Rattle.writing.specs.Written.{Put};
ghost use Rattle.units.specs.Refusal.{filled_of};
ghost use Rattle.gather.specs.Kinds.{byte_of};
ghost use Rattle.binary_words.specs.RecordAt.{words_at, part_words};
ghost use Rattle.binary_sizes.specs.ObjectWords.{source_words, relocation_words, object_words};
ghost use Rattle.binary_emit.specs.Chunks.{chunks_of, whole_words, Chunked};

use binary_sizes::{has_room, keeps_relocations};
use binary_words::has_source;
use bytes_at::{bytes_at, u16_at, u64_at};
use gather::{Kind, next_place};
use record_words::{
    label_head, put_address_words, put_memory_words, put_source_words, relocation_head,
};
use sorting::Sorting;
use units::Refusal;
use writing::{put_bytes, put_number_words, put_text_words, put_word};

// The words of the block at a place.
fn put_block(out: &mut [u32], s: &[u8], p: usize) -> usize
    requires { length (words_at 0 s.now p) ≤ length out.old }
    ensures { Put (words_at 0 s.now p) out.old result out.new }
{
    let body = bytes_at(s, p, 5, 3 * u16_at(s, p, 3) as u64);
    let mut at = put_word(out, u16_at(s, p, 1) as u32);
    at += put_memory_words(&mut out[at..], body);
    at
}

// The words of the label at a place.
fn put_label(out: &mut [u32], s: &[u8], p: usize) -> usize
    requires { length (words_at 1 s.now p) ≤ length out.old }
    ensures { Put (words_at 1 s.now p) out.old result out.new }
{
    let body = bytes_at(s, p, 20, u64_at(s, p, 12));
    let mut at = put_word(out, label_head(s, p));
    at += put_number_words(&mut out[at..], u64_at(s, p, 4));
    at += put_text_words(&mut out[at..], body);
    at
}

// The words of the line block at a place.
fn put_lines(out: &mut [u32], s: &[u8], p: usize) -> usize
    requires { length (words_at 2 s.now p) ≤ length out.old }
    ensures { Put (words_at 2 s.now p) out.old result out.new }
{
    let body = bytes_at(s, p, 11, 2 * u16_at(s, p, 9) as u64);
    let mut at = put_word(out, 0x6000_0000);
    at += put_number_words(&mut out[at..], u64_at(s, p, 1));
    at += put_address_words(&mut out[at..], body);
    at
}

// The words of the relocation at a place.
fn put_relocation(out: &mut [u32], s: &[u8], p: usize) -> usize
    requires { length (words_at 4 s.now p) ≤ length out.old }
    ensures { Put (words_at 4 s.now p) out.old result out.new }
{
    let body = bytes_at(s, p, 11, u64_at(s, p, 3));
    let mut at = put_word(out, relocation_head(s, p));
    at += put_text_words(&mut out[at..], body);
    at
}

// The words of the record of a kind at a place.
fn put_record(out: &mut [u32], s: &[u8], kind: Kind, p: usize) -> usize
    requires { length (words_at (byte_of kind) s.now p) ≤ length out.old }
    ensures { Put (words_at (byte_of kind) s.now p) out.old result out.new }
{
    match kind {
        Kind::Block => put_block(out, s, p),
        Kind::Label => put_label(out, s, p),
        Kind::LineBlock => put_lines(out, s, p),
        Kind::Source => 0,
        Kind::Relocation => put_relocation(out, s, p),
    }
}

// The words of the records at these places.
fn put_places(out: &mut [u32], s: &[u8], kind: Kind, places: &[usize]) -> usize
    requires { length (flat_map (words_at (byte_of kind) s.now) places.now) ≤ length out.old }
    ensures { Put (flat_map (words_at (byte_of kind) s.now) places.now) out.old result out.new }
{
    let mut at = 0;
    for p in places {
        at += put_record(&mut out[at..], s, kind, *p);
    }
    at
}

// The words of the records of a kind, window by window.
fn put_windows(out: &mut [u32], s: &[u8], kind: Kind, win: &mut [usize]) -> usize
    requires { (0 < length win.old) × (length (part_words (byte_of kind) s.now) ≤ length out.old) }
    ensures { Put (part_words (byte_of kind) s.now) out.old result out.new }
{
    let mut at = 0;
    let mut sorting = Sorting::new(s, kind);
    loop {
        let n = sorting.next_window(s, win);
        at += put_places(&mut out[at..], s, kind, &win[..n]);
        if n < win.len() {
            return at;
        }
    }
}

// The words of the records of a kind. Labels, of which a file has many in any order, go by larger windows.
fn put_part(out: &mut [u32], s: &[u8], kind: Kind) -> usize
    requires { length (part_words (byte_of kind) s.now) ≤ length out.old }
    ensures { Put (part_words (byte_of kind) s.now) out.old result out.new }
{
    match kind {
        Kind::Label => {
            let mut names = [0usize; 4096];
            put_windows(out, s, kind, &mut names)
        }
        _ => {
            let mut win = [0usize; 1024];
            put_windows(out, s, kind, &mut win)
        }
    }
}

// Bytes go after the n that are held over, until three are held: how many of them.
fn top_up(held: &mut [u8], n: usize, s: &[u8]) -> usize
    requires { (length held.old ≡ 3) × (n ≤ 3) }
    ensures { (result ≡ min (3 - n) (length s.now))
        × (take (n + result) held.new ≡ take n held.old ++ take result s.now) }
{
    let k = 3 - n;
    if s.len() < k {
        return put_bytes(&mut held[n..], s);
    }
    put_bytes(&mut held[n..], &s[0..k])
}

// What a chunk of the source comes to: how many words are written, and how many bytes are held over.
#[derive(Clone, Copy)]
struct Carried {
    at: usize,
    count: usize,
}

// The words of three of a chunk of the source, after the n bytes held over from the chunks before it.
fn put_chunk(out: &mut [u32], s: &[u8], held: &mut [u8], n: usize) -> Carried
    requires { (length held.old ≡ 3) × (n < 3) × (length (whole_words (take n held.old ++ s.now)) ≤ length out.old) }
    ensures { Chunked (take n held.old ++ s.now)
        out.old held.new out.new result.at result.count }
{
    let k = top_up(held, n, s);
    let m = n + k;
    if m < 3 {
        return Carried { at: 0, count: m };
    }
    let mut at = put_text_words(out, held);
    let e = k + (s.len() - k) / 3 * 3;
    at += put_source_words(&mut out[at..], &s[k..e]);
    let c = top_up(held, 0, &s[e..]);
    Carried { at: at, count: c }
}

// The words of the source's text, chunk by chunk.
fn put_chunks(out: &mut [u32], s: &[u8], held: &mut [u8]) -> usize
    requires { (length held.old ≡ 3) × (length (text_words (chunks_of s.now)) ≤ length out.old) }
    ensures { Put (text_words (chunks_of s.now)) out.old result out.new }
{
    let mut at = 0;
    let mut n = 0;
    let mut place = 7;
    while let Some((p, next)) = next_place(s, Kind::Source, place) {
        let chunk = bytes_at(s, p, 9, u64_at(s, p, 1));
        let c = put_chunk(&mut out[at..], chunk, held, n);
        at += c.at;
        n = c.count;
        place = next;
    }
    at += put_text_words(&mut out[at..], &held[0..n]);
    at
}

// The words of the source: none where it does not exist.
fn put_source(out: &mut [u32], s: &[u8]) -> usize
    requires { length (source_words s.now) ≤ length out.old }
    ensures { Put (source_words s.now) out.old result out.new }
{
    if !has_source(s) {
        return 0;
    }
    let mut held = [0u8; 3];
    let mut at = put_word(out, 0x8000_0000);
    at += put_chunks(&mut out[at..], s, &mut held);
    at
}

// The words of the relocations that are not dropped.
fn put_relocations(out: &mut [u32], s: &[u8]) -> usize
    requires { length (relocation_words s.now) ≤ length out.old }
    ensures { Put (relocation_words s.now) out.old result out.new }
{
    if !keeps_relocations(s) {
        return 0;
    }
    put_part(out, s, Kind::Relocation)
}

// The words of the five parts, one after the other.
fn put_object(out: &mut [u32], s: &[u8]) -> usize
    requires { length (object_words s.now) ≤ length out.old }
    ensures { Put (object_words s.now) out.old result out.new }
{
    let mut at = put_part(out, s, Kind::Block);
    at += put_part(&mut out[at..], s, Kind::Label);
    at += put_part(&mut out[at..], s, Kind::LineBlock);
    at += put_source(&mut out[at..], s);
    at += put_relocations(&mut out[at..], s);
    at
}

// The words of the file's object, where the buffer has room for them.
pub fn put_words(s: &[u8], out: &mut [u32]) -> Result<usize, Refusal>
    ensures { filled_of result out.new ≡ fill (given (object_words s.now)) out.old }
{
    if !has_room(s, out.len()) {
        return Err(Refusal::ShortBuffer);
    }
    Ok(put_object(out, s))
}
