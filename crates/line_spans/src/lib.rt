// The bytes of a line of an object's source, whole and trimmed (document 01, "Line and source tables"; SourceInfo of 001).
#![tactic(auto)]

ghost use Rattle.std.specs.Prelude.{◌≡◌, ◌-◌, ◌*◌, ◌≤◌, length, drop};
ghost use Rattle.format.specs.Source.{raw_line_span};
ghost use Rattle.format.specs.Calls.{query_raw_line_span, query_line_span};
ghost use Rattle.object.specs.Texts.{text_bytes};
ghost use Rattle.trim.specs.WhiteSpace.{white_at, ends_white, white_before};
ghost use Rattle.line_spans.specs.Spans.{span_in, Within, TrimsStart, TrimsEnd, span_answer};

use source_info::source_of;
use units::{ByteIndex, Line, Refusal};

// The bytes of a line, the end not included.
#[derive(Clone, Copy)]
pub struct LineSpan {
    pub start: ByteIndex,
    pub end: ByteIndex,
}

// Where the bytes of a line begin and end in a text of `n` bytes, with the newline, in one pass up to its end.
fn raw_line(ws: &[u32], at: usize, n: usize, line: u64) -> Result<(usize, usize), Refusal>
    ensures { (span_in result ≡ raw_line_span (text_bytes ws.now at n) line) × Within n result }
{
    let mut left = line;
    let mut start = 0;
    for i in 0..n {
        if object::text_byte(ws, at, i) == 10 {
            if left == 0 {
                return Ok((start, i + 1));
            }
            left -= 1;
            start = i + 1;
        }
    }
    if left == 0 {
        return Ok((start, n));
    }
    Err(Refusal::NoSuchLine)
}

// The bytes of a line, with its newline.
pub fn raw_line_span(object: &[u32], line: Line) -> Result<LineSpan, Refusal>
    ensures { span_answer result ≡ query_raw_line_span object.now line.0 }
{
    let source = source_of(object)?;
    let (a, e) = raw_line(object, source.at, source.len, line.0)?;
    Ok(LineSpan {
        start: ByteIndex(a as u64),
        end: ByteIndex(e as u64),
    })
}

// How many bytes the White_Space character has that begins at byte `p` of the first `end` bytes of a text; 0 if none begins there.
fn white_at(ws: &[u32], at: usize, p: usize, end: usize) -> usize
    requires { end ≤ 3 * length ws.now }
    ensures { result ≡ white_at (text_bytes ws.now at end) p }
{
    if end <= p {
        return 0;
    }
    let a = word_chars::byte_in(ws, at, p, end);
    let b = word_chars::byte_in(ws, at, p + 1, end);
    let c = word_chars::byte_in(ws, at, p + 2, end);
    let d = word_chars::byte_in(ws, at, p + 3, end);
    let four = [a, b, c, d];
    trim::white_at(&four, 0)
}

// Whether a White_Space character of `n` bytes ends before byte `p` of a line that begins at byte `start`.
fn ends_white(ws: &[u32], at: usize, start: usize, p: usize, end: usize, n: usize) -> bool
    requires { (start ≤ p) × (p ≤ end) × (end ≤ 3 * length ws.now) }
    ensures { result ≡ ends_white (drop start (text_bytes ws.now at end)) (p - start) n }
{
    if p - start < n {
        return false;
    }
    white_at(ws, at, p - n, end) == n
}

// How many bytes the White_Space character has that ends before byte `p` of the line; 0 if none does. None has more than three.
fn white_before(ws: &[u32], at: usize, start: usize, p: usize, end: usize) -> usize
    requires { (start ≤ p) × (p ≤ end) × (end ≤ 3 * length ws.now) }
    ensures { result ≡ white_before (drop start (text_bytes ws.now at end)) (p - start) }
{
    if ends_white(ws, at, start, p, end, 1) {
        return 1;
    }
    if ends_white(ws, at, start, p, end, 2) {
        return 2;
    }
    if ends_white(ws, at, start, p, end, 3) {
        return 3;
    }
    0
}

// Where a line goes on after the White_Space at its start.
fn white_start(ws: &[u32], at: usize, start: usize, end: usize) -> usize
    requires { (start ≤ end) × (end ≤ 3 * length ws.now) }
    ensures { TrimsStart (text_bytes ws.now at end) start end result }
{
    let mut p = start;
    loop {
        let n = white_at(ws, at, p, end);
        if n == 0 {
            return p;
        }
        p += n;
    }
}

// Where the White_Space at the end of a line begins: back from the end, a character at a time.
fn white_end(ws: &[u32], at: usize, start: usize, end: usize) -> usize
    requires { (start ≤ end) × (end ≤ 3 * length ws.now) }
    ensures { TrimsEnd (text_bytes ws.now at end) start end result }
{
    let mut p = end;
    loop {
        let n = white_before(ws, at, start, p, end);
        if n == 0 {
            return p;
        }
        p -= n;
    }
}

// The bytes of a line, less White_Space at its end and its start; of a blank line the empty range at its start.
pub fn line_span(object: &[u32], line: Line) -> Result<LineSpan, Refusal>
    ensures { span_answer result ≡ query_line_span object.now line.0 }
{
    let source = source_of(object)?;
    let (a, e) = raw_line(object, source.at, source.len, line.0)?;
    let end = white_end(object, source.at, a, e);
    let start = white_start(object, source.at, a, end);
    Ok(LineSpan {
        start: ByteIndex(start as u64),
        end: ByteIndex(end as u64),
    })
}
