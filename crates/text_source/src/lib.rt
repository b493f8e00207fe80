// The text reader's source: the bytes of the SOURCE cells as one text, unescaped.
#![tactic(auto)]

ghost use Rattle.std.specs.Prelude.{◌≡◌, ◌+◌, ◌<◌, ◌≤◌, false, [], length, slice_index_or};
ghost use Rattle.format.specs.Utf8.{encode_scalar, is_scalar};
ghost use Rattle.format.specs.TextReader.{splitn, unescape};
ghost use Rattle.trim.specs.Span.{Spans};
ghost use Rattle.units.specs.Refusal.{measured_of};
ghost use Rattle.text_source.specs.Stream.{NextPiece, NextByte, bytes_left};
ghost use Rattle.text_source.specs.Unescape.{NextEscape, NextDigits, NextToken, Escapes, Plain, UnescapedIs, LetterIs, ends_escape};

use text_cells::{digit, third_cell};
use text_lines::has_byte;
use text_tables::next_source_line;
use trim::Span;
use units::Refusal;

// The first code after the surrogates.
const SURROGATES_END: u32 = 0xE000;

// A place in the source column: in a cell, and the place of the next line.
#[derive(Clone, Copy)]
pub struct Source {
    pub at: usize,
    pub end: usize,
    pub next: usize,
}

// The SOURCE cell of a row, which is not trimmed.
fn source_cell(l: &[u8]) -> Span
    ensures { Spans l.now result.start result.end (slice_index_or (splitn 2 l.now) 2 []) }
{
    third_cell(l)
}

// The cursor at the next byte of the source column, of whatever cell: a way that stays out of the fast one.
fn find_piece(t: &[u8], from: usize, to: usize, line: usize) -> Option<Source>
    ensures { NextPiece t.now (record { at = from; end = to; next = line }) result }
{
    let mut at = from;
    let mut end = to.min(t.len());
    let mut next = line;
    while end <= at {
        let row = next_source_line(t, next)?;
        let cell = source_cell(&t[row.start..row.end]);
        at = row.start + cell.start;
        end = row.start + cell.end;
        next = row.next;
    }
    Some(Source { at, end, next })
}

// The cursor at the next byte of the source column: as it is where it is at one of its cell, or what is found in later cells.
fn next_piece(t: &[u8], c: Source) -> Option<Source>
    ensures { NextPiece t.now c result }
{
    if c.end <= c.at {
        return find_piece(t, c.at, c.end, c.next);
    }
    if t.len() < c.end {
        return find_piece(t, c.at, c.end, c.next);
    }
    Some(c)
}

// The next byte of the source column, and the cursor after it.
pub fn next_byte(t: &[u8], c: Source) -> Option<(u8, Source)>
    ensures { NextByte t.now c result }
{
    let d = next_piece(t, c)?;
    let rest = Source {
        at: d.at + 1,
        end: d.end,
        next: d.next,
    };
    Some((t[d.at], rest))
}

// A part of the unescaped source: bytes that stand in the text as they are, one byte, or a scalar value.
#[derive(Clone, Copy)]
pub enum Token {
    Plain(u8),
    Scalar(u32),
    Stretch(usize, usize),
}

// Whether it is a scalar value: no surrogate, and not past the last.
fn is_scalar(v: u32) -> bool
    ensures { result ≡ is_scalar v }
{
    if v < 0xD800 {
        return true;
    }
    if v < SURROGATES_END {
        return false;
    }
    v <= 0x10FFFF
}

// Whether a byte after n digits that give v ends an escape.
fn ends_escape(b: u8, n: u32, v: u32) -> bool
    ensures { result ≡ ends_escape b n v }
{
    if b != b'}' {
        return false;
    }
    if n == 0 {
        return false;
    }
    is_scalar(v)
}

// The scalar value of one to six hexadecimal digits and a `}`, after the `{`, and the cursor after them.
fn escaped(t: &[u8], c: Source) -> Option<(u32, Source)>
    ensures { NextDigits t.now c result }
{
    let mut cur = c;
    let mut n: u32 = 0;
    let mut v: u32 = 0;
    loop {
        let (b, d) = next_byte(t, cur)?;
        let x = digit(b);
        if 16 <= x {
            if ends_escape(b, n, v) {
                return Some((v, d));
            }
            return None;
        }
        if n == 6 {
            return None;
        }
        v = v * 16 + x as u32;
        n += 1;
        cur = d;
    }
}

// The scalar value that follows `\u`, and the cursor after it.
fn unicode_escape(t: &[u8], c: Source) -> Option<(u32, Source)>
    ensures { NextEscape t.now c result }
{
    let (b, d) = next_byte(t, c)?;
    if b != b'{' {
        return None;
    }
    escaped(t, d)
}

// What a letter after a backslash stands for.
fn escaped_byte(e: u8) -> Option<u8>
    ensures { LetterIs e result }
{
    match e {
        b't' => Some(b'\t'),
        b'r' => Some(b'\r'),
        b'n' => Some(b'\n'),
        b'\'' => Some(b'\''),
        b'"' => Some(b'"'),
        b'\\' => Some(b'\\'),
        _ => None,
    }
}

// What a backslash before a place escapes, and the cursor after it.
fn escape(t: &[u8], c: Source) -> Option<(Token, Source)>
    ensures { Escapes t.now c result }
{
    let (e, d) = next_byte(t, c)?;
    if let Some(x) = escaped_byte(e) {
        return Some((Token::Plain(x), d));
    }
    if e != b'u' {
        return None;
    }
    let (v, f) = unicode_escape(t, d)?;
    Some((Token::Scalar(v), f))
}

// The next byte of the unescaped source, or the scalar value that is escaped there, and the cursor after it.
fn one_token(t: &[u8], c: Source) -> Result<Option<(Token, Source)>, Refusal>
    ensures { NextToken t.now c result }
{
    let Some((b, d)) = next_byte(t, c) else {
        return Ok(None);
    };
    if b != b'\\' {
        return Ok(Some((Token::Plain(b), d)));
    }
    let Some(token) = escape(t, d) else {
        return Err(Refusal::BadEscape);
    };
    Ok(Some(token))
}

// Past the blocks of n bytes without a backslash from a place on. Each is handed on by itself, so that the loop over it ends at n.
fn plain_blocks(t: &[u8], at: usize, end: usize, n: usize) -> usize
    requires { (at ≤ end) × (end ≤ length t.now) × (0 < n) }
    ensures { (at ≤ result) × (result ≤ end) × Plain t.now at result }
{
    let mut i = at;
    while n <= end - i && !has_byte(&t[i..i + n], 0, n, b'\\') {
        i += n;
    }
    i
}

// Up to the next backslash before the end.
fn plain_end(t: &[u8], at: usize, end: usize) -> usize
    requires { end ≤ length t.now }
    ensures { at < result → (result ≤ end) × Plain t.now at result }
{
    if end <= at {
        return at;
    }
    let block = plain_blocks(t, at, end, 16);
    for i in plain_blocks(t, block, end, 8)..end {
        if t[i] == b'\\' {
            return i;
        }
    }
    end
}

// The next part of the unescaped source, and the cursor after it: what stands as it is in one go. The cursor comes as three numbers, which
// stay in registers.
pub fn next_token(
    t: &[u8],
    at: usize,
    end: usize,
    next: usize,
) -> Result<Option<(Token, Source)>, Refusal>
    ensures { NextToken t.now (record { at = at; end = end; next = next }) result }
{
    let Some(d) = next_piece(t, Source { at, end, next }) else {
        return Ok(None);
    };
    let plain = plain_end(t, d.at, d.end);
    if d.at < plain {
        let rest = Source {
            at: plain,
            end: d.end,
            next: d.next,
        };
        return Ok(Some((Token::Stretch(d.at, plain), rest)));
    }
    one_token(t, d)
}

// How many bytes a scalar value has.
fn scalar_length(v: u32) -> usize
    ensures { result ≡ length (encode_scalar v) }
{
    if v < 0x80 {
        return 1;
    }
    if v < 0x800 {
        return 2;
    }
    if v < 0x10000 {
        return 3;
    }
    4
}

// The length of the source column unescaped, which is not stored, as 64 bits count.
pub fn unescape(t: &[u8], c: Source) -> Result<usize, Refusal>
    ensures { UnescapedIs (unescape (bytes_left t.now c)) (measured_of result) }
{
    let mut cur = c;
    let mut n: usize = 0;
    while let Some((token, next)) = next_token(t, cur.at, cur.end, cur.next)? {
        let len = match token {
            Token::Plain(_) => 1,
            Token::Scalar(v) => scalar_length(v),
            Token::Stretch(a, e) => e - a,
        };
        n = n.wrapping_add(len);
        cur = next;
    }
    Ok(n)
}
