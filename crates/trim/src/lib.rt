// White_Space and trimming, in place on the bytes of a text.
#![tactic(auto)]

ghost use Rattle.std.specs.Prelude.{◌≡◌, ℕ, ◌≤◌, ◌<◌, length, take, drop, get_or};
ghost use Rattle.format.specs.Utf8.{is_between, is_white_space, trim_start, trim_end, trim, is_blank};
ghost use Rattle.trim.specs.Span.{part, clipped, trim_start_span, trim_end_span, trim_span, Trimmed};
ghost use Rattle.trim.specs.WhiteSpace.{ShownIs, white_at, ends_white, white_before};

// A control character that is White_Space and no ASCII.
const NEXT_LINE: u32 = 0x85;

// From a byte to a byte, the second left out.
#[derive(Clone, Copy)]
pub struct Span {
    pub start: usize,
    pub end: usize,
}

// Whether a number lies between two, both included.
fn is_between(low: u32, high: u32, x: u32) -> bool
    ensures { result ≡ is_between low high x }
{
    if x < low {
        return false;
    }
    x <= high
}

// The Unicode property White_Space, by comparisons: those of its definition, in their order, with no list behind them; ASCII leaves
// early. U+2028 and U+2029 are one test, since four single ones so close are compiled to a mask with a bit for each.
pub fn is_white_space(c: u32) -> bool
    ensures { result ≡ is_white_space c }
{
    if is_between(0x9, 0xD, c) {
        return true;
    }
    if c == 0x20 {
        return true;
    }
    if c < 0x85 {
        return false;
    }
    if c == NEXT_LINE {
        return true;
    }
    if c == 0xA0 {
        return true;
    }
    if c == 0x1680 {
        return true;
    }
    if is_between(0x2000, 0x200A, c) {
        return true;
    }
    if is_between(0x2028, 0x2029, c) {
        return true;
    }
    if c == 0x202F {
        return true;
    }
    if c == 0x205F {
        return true;
    }
    c == 0x3000
}

// How many bytes of White_Space stand at a byte of ASCII from the space up to `~`, by that byte alone: 1, or 0; other bytes don't show it.
fn shown_white(b: u8) -> Option<usize>
    ensures { ShownIs b result }
{
    if b == 0x20 {
        return Some(1);
    }
    if b < 0x20 {
        return None;
    }
    if 0x7E < b {
        return None;
    }
    Some(0)
}

// How many bytes the White_Space character at a place has, of whatever bytes; 0 if none begins there.
fn find_white(s: &[u8], at: usize) -> usize
    ensures { result ≡ white_at s.now at }
{
    let Some(c) = utf8::char_at(s, at) else {
        return 0;
    };
    if is_white_space(c.value) {
        return c.more + 1;
    }
    0
}

// How many bytes the White_Space character at a place has; 0 if none begins there.
pub fn white_at(s: &[u8], at: usize) -> usize
    ensures { result ≡ white_at s.now at }
{
    if at < s.len() {
        if let Some(n) = shown_white(s[at]) {
            return n;
        }
    }
    find_white(s, at)
}

// Whether a White_Space character of n bytes ends at a place.
fn ends_white(s: &[u8], end: usize, n: usize) -> bool
    ensures { result ≡ ends_white s.now end n }
{
    if end < n {
        return false;
    }
    white_at(s, end - n) == n
}

// How many bytes the White_Space character has that ends at a place, of whatever bytes; 0 if none ends there.
fn find_white_before(s: &[u8], end: usize) -> usize
    ensures { result ≡ white_before s.now end }
{
    if ends_white(s, end, 1) {
        return 1;
    }
    if ends_white(s, end, 2) {
        return 2;
    }
    if ends_white(s, end, 3) {
        return 3;
    }
    0
}

// How many bytes the White_Space character has that ends at a place; 0 if none ends there. No character of more bytes ends in ASCII.
fn white_before(s: &[u8], end: usize) -> usize
    ensures { result ≡ white_before s.now end }
{
    if 0 < end {
        if end <= s.len() {
            if let Some(n) = shown_white(s[end - 1]) {
                return n;
            }
        }
    }
    find_white_before(s, end)
}

// Where a text goes on after the White_Space at its start.
fn white_start(s: &[u8]) -> usize
    ensures { (result ≤ length s.now) × (drop result s.now ≡ trim_start s.now) }
{
    let mut at = 0;
    loop {
        let n = white_at(s, at);
        if n == 0 {
            return at;
        }
        at += n;
    }
}

// Where the White_Space at the end of a text begins: back from the end, a character at a time.
fn white_end(s: &[u8]) -> usize
    ensures { (result ≤ length s.now) × (take result s.now ≡ trim_end s.now) }
{
    let mut end = s.len();
    loop {
        let n = white_before(s, end);
        if n == 0 {
            return end;
        }
        end -= n;
    }
}

// A range within a text: what lies past its end is left out.
fn clip(s: &[u8], start: usize, end: usize) -> Span
    ensures { result ≡ clipped (length s.now) start end }
{
    let n = s.len();
    let e = if end < n { end } else { n };
    let a = if start < e { start } else { e };
    Span { start: a, end: e }
}

// A range less the White_Space at its start.
pub fn trim_start(s: &[u8], start: usize, end: usize) -> Span
    ensures { Trimmed trim_start trim_start_span s.now start end result }
{
    let c = clip(s, start, end);
    let a = c.start;
    let e = c.end;
    let n = white_start(&s[a..e]);
    Span {
        start: a + n,
        end: e,
    }
}

// A range less the White_Space at its end.
pub fn trim_end(s: &[u8], start: usize, end: usize) -> Span
    ensures { Trimmed trim_end trim_end_span s.now start end result }
{
    let c = clip(s, start, end);
    let a = c.start;
    let e = c.end;
    let n = white_end(&s[a..e]);
    Span {
        start: a,
        end: a + n,
    }
}

// A range less the White_Space at both ends, of whatever bytes. Called from more than one place, it stays out of what is fast.
fn trim_any(s: &[u8], start: usize, end: usize) -> Span
    ensures { Trimmed trim trim_span s.now start end result }
{
    let c = trim_start(s, start, end);
    let a = c.start;
    let e = c.end;
    trim_end(s, a, e)
}

// Past the spaces from a place on, up to an end.
pub fn spaces_end(s: &[u8], at: usize, end: usize) -> usize
    ensures { (at ≤ result) × (at ≤ end → result ≤ end) × ((i : ℕ) → at ≤ i → i < result → get_or s.now i 0 ≡ 0x20) }
{
    let last = end.min(s.len());
    for i in at..last {
        if s[i] != b' ' {
            return i;
        }
    }
    last.max(at)
}

// A range less the White_Space at both ends: where bytes of ASCII show what is left, by them.
pub fn trim(s: &[u8], start: usize, end: usize) -> Span
    ensures { Trimmed trim trim_span s.now start end result }
{
    if end <= start {
        return trim_any(s, start, end);
    }
    if s.len() < end {
        return trim_any(s, start, end);
    }
    let a = spaces_end(s, start, end);
    if a < end {
        if let Some(0) = shown_white(s[a]) {
            if let Some(0) = shown_white(s[end - 1]) {
                return Span { start: a, end: end };
            }
        }
    }
    trim_any(s, start, end)
}

// Whether a range is White_Space alone.
pub fn is_blank(s: &[u8], start: usize, end: usize) -> bool
    ensures { result ≡ is_blank (part start end s.now) }
{
    let c = trim_start(s, start, end);
    let a = c.start;
    let e = c.end;
    a == e
}
