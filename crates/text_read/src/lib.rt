// The text reader: how many words a text file makes, and the words.
#![tactic(auto)]

ghost use Rattle.std.specs.Prelude.{◌≡◌, Ok, is_some, true, ◌||◌, not, ◌+◌, ◌^◌, ◌≤◌, ◌<◌, length, take, eqb};
ghost use Rattle.format.specs.Basics.{given};
ghost use Rattle.format.specs.Calls.{read_text, fill, measured};
ghost use Rattle.format.specs.TextReader.{text_object};
ghost use Rattle.units.specs.Refusal.{filled_of, measured_of};
ghost use Rattle.format.specs.Words.{text_words};
ghost use Rattle.writing.specs.Written.{Put};
ghost use Rattle.text_scan.specs.Scan.{Scans, scan_view};
ghost use Rattle.text_scan.specs.Walk.{rows_in, lines_in};
ghost use Rattle.label_cache.specs.Caches.{HoldsLabels};
ghost use Rattle.text_words.specs.Written.{PutEach};
ghost use Rattle.text_words.specs.Room.{room_of, room_after};
ghost use Rattle.known_labels.specs.Known.{label_parts};
ghost use Rattle.text_read.specs.Parts.{joined, line_parts, source_parts, relocation_parts, keeps_relocations, front_parts, back_parts, object_parts, fixed_words, rest_words, debug_words, others_room};
ghost use Rattle.text_read.specs.SourceText.{source_at, Unescapes};

use known_labels::all_labels_room;
use label_cache::gather;
use label_items::{cached_room, put_cached};
use text_debug::SourceRows;
use text_labels::{labels_room, put_labels};
use text_push::{Held, Over, flush, push, push_bytes, push_scalar};
use text_rows::Kind;
use text_runs::put_line_blocks;
use text_scan::{Scanned, scan_text};
use text_source::{Source, Token, next_token};
use text_words::{put_rows, rows_room};
use trim::trim;
use units::Refusal;
use writing::put_word;

// The text of the source, token by token.
fn put_source_text(out: &mut [u32], t: &[u8], rows: usize) -> usize
    requires { Unescapes t.now rows × (length (text_words (source_at t.now rows)) ≤ length out.old) }
    ensures { Put (text_words (source_at t.now rows)) out.old result out.new }
{
    let mut h = Held {
        at: 0,
        over: Over::Nothing,
    };
    let mut cur = Source {
        at: 0,
        end: 0,
        next: rows,
    };
    loop {
        match next_token(t, cur.at, cur.end, cur.next) {
            Ok(Some((token, next))) => {
                h = match token {
                    Token::Plain(b) => push(out, h, b),
                    Token::Scalar(v) => push_scalar(out, h, v),
                    Token::Stretch(a, e) => push_bytes(out, h, &t[a..e]),
                };
                cur = next;
            }
            Ok(None) => return flush(out, h),
            Err(_) => return 0,
        }
    }
}

// The source, if there is one.
fn put_source(out: &mut [u32], t: &[u8], source: Option<SourceRows>) -> usize
    requires { (is_some source ≡ true → Unescapes t.now (rows_in source))
        × (length (joined (source_parts (is_some source) t.now (rows_in source))) ≤ length out.old) }
    ensures { Put (joined (source_parts (is_some source) t.now (rows_in source))) out.old result out.new }
{
    let Some(rows) = source else {
        return 0;
    };
    let mut at = 0;
    at += put_word(&mut out[at..], 0x8000_0000);
    at += put_source_text(&mut out[at..], t, rows.start);
    at
}

// The line blocks, if there are rows of lines.
fn put_lines(out: &mut [u32], t: &[u8], source: Option<SourceRows>) -> usize
    ensures { PutEach (line_parts (is_some source) t.now (rows_in source)) out.old result out.new }
{
    match source {
        Some(rows) => put_line_blocks(out, t, rows.start),
        None => 0,
    }
}

// The relocations, if they are kept.
fn put_relocations(out: &mut [u32], u: &[u8], kept: bool) -> usize
    ensures { PutEach (relocation_parts kept u.now) out.old result out.new }
{
    if !kept {
        return 0;
    }
    put_rows(out, u, Kind::Relocation)
}

// "No label and no source: relocations are dropped", by how many words the labels have.
fn keeps_relocations(sourced: bool, labels: usize) -> bool
    ensures { result ≡ (sourced || not (eqb labels 0)) }
{
    sourced || labels != 0
}

// The blocks and the labels, these from an array if it holds all. The windows are asked for in two places, so that they are not in this frame.
fn put_front(out: &mut [u32], u: &[u8], items: &[usize], cached: Option<usize>) -> usize
    requires { HoldsLabels u.now items.now cached }
    ensures { PutEach (front_parts u.now) out.old result out.new }
{
    let mut at = 0;
    at += put_rows(&mut out[at..], u, Kind::Block);
    if let Some(n) = cached {
        return at + put_cached(&mut out[at..], u, items, n);
    }
    if at == 0 {
        return put_labels(&mut out[at..], u);
    }
    at + put_labels(&mut out[at..], u)
}

// The line blocks, the source and the relocations.
fn put_back(out: &mut [u32], u: &[u8], t: &[u8], source: Option<SourceRows>, kept: bool) -> usize
    requires { (is_some source ≡ true → Unescapes t.now (rows_in source))
        × (length (joined (back_parts u.now t.now (is_some source) (rows_in source) kept)) ≤ length out.old) }
    ensures { Put (joined (back_parts u.now t.now (is_some source) (rows_in source) kept)) out.old result out.new }
{
    let mut at = 0;
    at += put_lines(&mut out[at..], t, source);
    at += put_source(&mut out[at..], t, source);
    at += put_relocations(&mut out[at..], u, kept);
    at
}

// The five parts, one after the other.
fn put_object(
    out: &mut [u32],
    u: &[u8],
    t: &[u8],
    source: Option<SourceRows>,
    kept: bool,
    items: &[usize],
    cached: Option<usize>,
) -> usize
    requires { (is_some source ≡ true → Unescapes t.now (rows_in source))
        × (length (joined (object_parts u.now t.now (is_some source) (rows_in source))) ≤ length out.old)
        × (kept ≡ keeps_relocations (is_some source) u.now)
        × HoldsLabels u.now items.now cached }
    ensures { Put (joined (object_parts u.now t.now (is_some source) (rows_in source))) out.old result out.new }
{
    let mut at = 0;
    at += put_front(&mut out[at..], u, items, cached);
    at += put_back(&mut out[at..], u, t, source, kept);
    at
}

// How many words blocks, line blocks and source have; the blocks have so many.
fn fixed_words(source: Option<SourceRows>, words: usize) -> usize
    requires { (words + debug_words (is_some source) (lines_in source) < 2 ^ 64) × (is_some source ≡ true → (lines_in source).len < 2 ^ 63) }
    ensures { result ≡ words + debug_words (is_some source) (lines_in source) }
{
    match source {
        Some(rows) => words + (rows.lines.words + (1 + rows.lines.len.div_ceil(3))),
        None => words,
    }
}

// The room after so many words, and the relocations if they are kept.
fn others_room(u: &[u8], kept: bool, fixed: usize, room: usize) -> Option<usize>
    ensures { room_of result ≡ others_room fixed (relocation_parts kept u.now) room }
{
    let left = room.checked_sub(fixed)?;
    if !kept {
        return Some(left);
    }
    rows_room(u, Kind::Relocation, left)
}

// How many words an object has, of which blocks, line blocks and source have so many.
fn object_length(u: &[u8], sourced: bool, fixed: usize) -> usize
    requires { fixed + rest_words u.now sourced < 2 ^ 64 }
    ensures { result ≡ fixed + rest_words u.now sourced }
{
    let most = usize::MAX;
    let Some(left) = all_labels_room(u, most) else {
        return 0;
    };
    let kept = keeps_relocations(sourced, most - left);
    let Some(last) = others_room(u, kept, fixed, left) else {
        return 0;
    };
    most - last
}

// How many words a text file makes that was scanned.
fn length_scanned(s: &[u8], scanned: Scanned) -> usize
    requires { Scans (take scanned.end s.now) (text_object s.now) (scan_view (Ok scanned)) }
    ensures { measured_of (Ok result) ≡ measured (read_text s.now) }
{
    let w = trim(s, 0, s.len());
    let fixed = fixed_words(scanned.source, scanned.words);
    object_length(&s[w.start..w.end], scanned.source.is_some(), fixed)
}

// How many words a text file makes, or the first question that is answered no, 20 to 31. The room is never too short: a file has at least as
// many bytes as its object has words.
pub fn text_length(s: &[u8]) -> Result<usize, Refusal>
    ensures { measured_of result ≡ measured (read_text s.now) }
{
    let scanned = scan_text(s)?;
    Ok(length_scanned(s, scanned))
}

// The room after the labels, from an array if it holds all. `many_room` of `known_labels` asks for the windows too: so they are not in this frame.
fn known_room(u: &[u8], items: &[usize], cached: Option<usize>, room: usize) -> Option<usize>
    requires { HoldsLabels u.now items.now cached }
    ensures { room_of result ≡ room_after (label_parts u.now) room }
{
    match cached {
        Some(n) => cached_room(u, items, n, room),
        None => labels_room(u, room),
    }
}

// The words of an object, of which blocks, line blocks and source have so many, with its labels from an array if that holds all.
fn fill_in(
    out: &mut [u32],
    u: &[u8],
    t: &[u8],
    source: Option<SourceRows>,
    fixed: usize,
    items: &[usize],
    cached: Option<usize>,
) -> Result<usize, Refusal>
    requires { (is_some source ≡ true → Unescapes t.now (rows_in source)) × (fixed ≡ fixed_words u.now t.now (is_some source) (rows_in source))
        × HoldsLabels u.now items.now cached }
    ensures { filled_of result out.new ≡ fill (given (joined (object_parts u.now t.now (is_some source) (rows_in source)))) out.old }
{
    let room = out.len();
    let Some(left) = known_room(u, items, cached, room) else {
        return Err(Refusal::ShortBuffer);
    };
    let kept = keeps_relocations(source.is_some(), room - left);
    let Some(_) = others_room(u, kept, fixed, left) else {
        return Err(Refusal::ShortBuffer);
    };
    Ok(put_object(out, u, t, source, kept, items, cached))
}

// The same, with room for many labels.
fn fill_many(
    out: &mut [u32],
    u: &[u8],
    t: &[u8],
    source: Option<SourceRows>,
    fixed: usize,
) -> Result<usize, Refusal>
    requires { (is_some source ≡ true → Unescapes t.now (rows_in source)) × (fixed ≡ fixed_words u.now t.now (is_some source) (rows_in source)) }
    ensures { filled_of result out.new ≡ fill (given (joined (object_parts u.now t.now (is_some source) (rows_in source)))) out.old }
{
    let mut items = [0usize; 16384];
    let cached = gather::<16384, 4096>(u, &mut items);
    fill_in(out, u, t, source, fixed, &items, cached)
}

// The same, with room for few first, unless for many is asked, and once more if they are not enough. It calls itself so that the arrays for
// many are not in its frame.
fn fill_by(
    out: &mut [u32],
    u: &[u8],
    t: &[u8],
    source: Option<SourceRows>,
    fixed: usize,
    many: bool,
) -> Result<usize, Refusal>
    requires { (is_some source ≡ true → Unescapes t.now (rows_in source)) × (fixed ≡ fixed_words u.now t.now (is_some source) (rows_in source)) }
    ensures { filled_of result out.new ≡ fill (given (joined (object_parts u.now t.now (is_some source) (rows_in source)))) out.old }
{
    if many {
        return fill_many(out, u, t, source, fixed);
    }
    let mut items = [0usize; 4096];
    let cached = gather::<2048, 512>(u, &mut items);
    if cached.is_some() {
        return fill_in(out, u, t, source, fixed, &items, cached);
    }
    fill_by(out, u, t, source, fixed, true)
}

// Whether a text of this length is long beside so many words of blocks, line blocks and source, which take five bytes of it or more each: it
// often has many labels then. Either answer is right.
fn is_long(len: usize, fixed: usize) -> bool {
    6553 < (len / 5).saturating_sub(fixed)
}

// The same; a text that is long beside them often has many labels.
fn fill_object(
    out: &mut [u32],
    u: &[u8],
    t: &[u8],
    source: Option<SourceRows>,
    fixed: usize,
) -> Result<usize, Refusal>
    requires { (is_some source ≡ true → Unescapes t.now (rows_in source)) × (fixed ≡ fixed_words u.now t.now (is_some source) (rows_in source)) }
    ensures { filled_of result out.new ≡ fill (given (joined (object_parts u.now t.now (is_some source) (rows_in source)))) out.old }
{
    fill_by(out, u, t, source, fixed, is_long(u.len(), fixed))
}

// The words of a text file that was scanned.
fn read_scanned(s: &[u8], out: &mut [u32], scanned: Scanned) -> Result<usize, Refusal>
    requires { Scans (take scanned.end s.now) (text_object s.now) (scan_view (Ok scanned)) }
    ensures { filled_of result out.new ≡ fill (read_text s.now) out.old }
{
    let w = trim(s, 0, s.len());
    let fixed = fixed_words(scanned.source, scanned.words);
    fill_object(
        out,
        &s[w.start..w.end],
        &s[0..scanned.end],
        scanned.source,
        fixed,
    )
}

// The words of a text file, or the first question that is answered no, 20 to 31; 3 where the buffer is too short.
pub fn read_text(s: &[u8], out: &mut [u32]) -> Result<usize, Refusal>
    ensures { filled_of result out.new ≡ fill (read_text s.now) out.old }
{
    let scanned = scan_text(s)?;
    read_scanned(s, out, scanned)
}
