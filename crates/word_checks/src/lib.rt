// Where the words of a record end, if they are as they should be.
#![tactic(auto)]

ghost use Rattle.std.specs.Prelude.{◌≡◌, ◌+◌, ◌<◌, ◌≤◌, true, length, nat_le};
ghost use Rattle.format.specs.Basics.{is_given};
ghost use Rattle.format.specs.Digits.{digits_of};
ghost use Rattle.format.specs.Words.{memory_of, text_part};
ghost use Rattle.utf8.specs.Utf8.{run};
ghost use Rattle.object.specs.Bodies.{body_at, counted, good_memory, good_text, good_addresses, rank_of};
ghost use Rattle.word_checks.specs.Walks.{Walked, AsciiWord};

use object::goes_on;
use utf8::Utf8;

fn is_memory(w: u32) -> bool
    ensures { result ≡ is_given (memory_of w) }
{
    if w == 0x2000_0000 {
        return true;
    }
    w / 0x1_0000 == 0x2001
}

// Where the memory words of a block end, if they are as they should be.
pub fn memory_end(ws: &[u32], at: usize) -> Option<usize>
    ensures { Walked good_memory ws.now at result }
{
    for i in at..ws.len() {
        if !goes_on(ws, i) {
            return Some(i);
        }
        if !is_memory(ws[i]) {
            return None;
        }
    }
    Some(at.max(ws.len()))
}

// Where the addresses of a line block end, if they are as they should be.
pub fn addresses_end(ws: &[u32], at: usize) -> Option<usize>
    ensures { Walked good_addresses ws.now at result }
{
    let mut last = 0;
    for i in at..ws.len() {
        if !goes_on(ws, i) {
            return Some(i);
        }
        let w = ws[i];
        if w / 0x1_0000 != 0x2001 {
            return None;
        }
        let a = w % 0x1_0000;
        if a < last {
            return None;
        }
        last = a;
    }
    Some(at.max(ws.len()))
}

// Whether a line block may begin at the line `next` after one of `count` lines from `first` on: that one ends at or before it, as whole
// numbers. A sum that wraps is past every line.
pub fn is_apart(first: u64, count: usize, next: u64) -> bool
    ensures { result ≡ nat_le (first + count) next }
{
    match first.checked_add(count as u64) {
        Some(end) => end <= next,
        None => false,
    }
}

// How many bytes a text word carries; 0 for a word that is none.
fn text_count(w: u32) -> u32
    ensures { (result ≤ 3) × (text_part w ≡ counted result w) }
{
    let top = w / 0x100_0000;
    if top == 0xE3 {
        return 3;
    }
    if top == 0xE2 {
        if w % 0x100_0000 < 0x1_0000 {
            return 2;
        }
        return 0;
    }
    if top == 0xE1 {
        if w % 0x100_0000 < 0x100 {
            return 1;
        }
        return 0;
    }
    0
}

// The bytes of a text word, taken in.
fn text_step(u: Utf8, w: u32, n: u32) -> Utf8
    requires { (0 < n) × (n ≤ 3) }
    ensures { result ≡ run u (digits_of 8 n w) }
{
    let first = u.step((w % 256) as u8);
    if n == 1 {
        return first;
    }
    let second = first.step((w / 256 % 256) as u8);
    if n == 2 {
        return second;
    }
    second.step((w / 65536 % 256) as u8)
}

// Whether a word carries three bytes of text, all ASCII.
fn is_ascii_word(w: u32) -> bool
    ensures { result ≡ true → AsciiWord w }
{
    if w / 0x100_0000 != 0xE3 {
        return false;
    }
    if 0x80 <= w % 256 {
        return false;
    }
    if 0x80 <= w / 256 % 256 {
        return false;
    }
    w / 65536 % 256 < 0x80
}

// Past the words of a text that carry three ASCII bytes each: the text from there on is as good.
fn ascii_end(ws: &[u32], at: usize) -> usize
    ensures { (result + length (body_at ws.now result) ≡ at + length (body_at ws.now at))
        × (good_text (body_at ws.now result) ≡ good_text (body_at ws.now at)) }
{
    for i in at..ws.len() {
        if !is_ascii_word(ws[i]) {
            return i;
        }
    }
    at.max(ws.len())
}

// Where the words of a text end, if they are as they should be.
pub fn text_end(ws: &[u32], at: usize) -> Option<usize>
    ensures { Walked good_text ws.now at result }
{
    let mut u = Utf8::new();
    let mut full = true;
    let start = ascii_end(ws, at);
    for i in start..ws.len() {
        if !goes_on(ws, i) {
            return u.is_whole().then_some(i);
        }
        if !full {
            return None;
        }
        let w = ws[i];
        let n = text_count(w);
        if n == 0 {
            return None;
        }
        u = text_step(u, w, n);
        full = n == 3;
    }
    u.is_whole().then_some(start.max(ws.len()))
}

// A text word as a number that is larger for the later of two words: its bytes, the first highest, and their count.
pub fn rank(w: u32) -> u32
    ensures { result ≡ rank_of w }
{
    (w % 256) * 0x100_0000
        + (w / 256 % 256) * 0x1_0000
        + (w / 65536 % 256) * 256
        + w / 0x100_0000 % 4
}
