// The bytes and the characters of a text that lies in words, by their places in the text.
#![tactic(auto)]

ghost use Rattle.std.specs.Prelude.{◌≡◌, ◌+◌, drop, get_or, true};
ghost use Rattle.format.specs.Utf8.{char_at};
ghost use Rattle.utf8.specs.Chars.{char_of};
ghost use Rattle.object.specs.Texts.{text_bytes, EachIn};
ghost use Rattle.word_chars.specs.Stretches.{Other, Clear};

use utf8::Char;

// The first byte that is no character by itself.
const ASCII_END: u8 = 0x80;

// Byte `p` of the first `end` bytes of a text; 0 past them.
pub fn byte_in(ws: &[u32], at: usize, p: usize, end: usize) -> u8
    ensures { result ≡ get_or (text_bytes ws.now at end) p 0 }
{
    if end <= p {
        return 0;
    }
    object::text_byte(ws, at, p)
}

// The byte `k` bytes after byte `p`; 0 past the first `end` bytes.
fn byte_after(ws: &[u32], at: usize, p: usize, k: usize, end: usize) -> u8
    ensures { result ≡ get_or (text_bytes ws.now at end) (p + k) 0 }
{
    if end <= p {
        return 0;
    }
    if end - p <= k {
        return 0;
    }
    object::text_byte(ws, at, p + k)
}

// The character that begins at byte `p` of the first `end` bytes of a text, if one does.
pub fn char_in(ws: &[u32], at: usize, p: usize, end: usize) -> Option<Char>
    ensures { char_of result ≡ char_at (drop p (text_bytes ws.now at end)) }
{
    if end <= p {
        return None;
    }
    let a = object::text_byte(ws, at, p);
    if a < ASCII_END {
        return Some(Char {
            value: u32::from(a),
            more: 0,
        });
    }
    let b = byte_after(ws, at, p, 1, end);
    let c = byte_after(ws, at, p, 2, end);
    let d = byte_after(ws, at, p, 3, end);
    let four = [a, b, c, d];
    utf8::char_at(&four, 0)
}

// Whether no byte of a text word is a newline.
fn is_clear(w: u32) -> bool
    ensures { result ≡ true → EachIn Other w }
{
    if w % 256 == 10 {
        return false;
    }
    if w / 256 % 256 == 10 {
        return false;
    }
    if w / 65536 % 256 == 10 {
        return false;
    }
    true
}

// Bytes without a newline from byte `i` on, up to the first byte of a word.
fn clear_head(ws: &[u32], at: usize, n: usize, i: usize) -> usize
    ensures { Clear ws.now at n i result }
{
    for k in i..n {
        if k % 3 == 0 || object::text_byte(ws, at, k) == 10 {
            return k;
        }
    }
    i.max(n)
}

// Whole words without a newline from byte `i` on.
fn clear_words(ws: &[u32], at: usize, n: usize, i: usize) -> usize
    ensures { Clear ws.now at n i result }
{
    if i % 3 != 0 {
        return i;
    }
    let words = object::whole_words(ws, at, n);
    for k in i / 3..words {
        if !is_clear(ws[at + k]) {
            return 3 * k;
        }
    }
    i.max(3 * words)
}

// A place up to which there is no newline, from byte `i` of a text of `n` bytes on: at most two bytes before the next one.
pub fn clear_end(ws: &[u32], at: usize, n: usize, i: usize) -> usize
    ensures { Clear ws.now at n i result }
{
    clear_words(ws, at, n, clear_head(ws, at, n, i))
}
