// The text writer's numerals and columns: `{:04X}`, `{}`, ????, and spaces. Part writers: each takes the unused rest of the output.
#![tactic(auto)]

ghost use Rattle.std.specs.Prelude.{◌≡◌, [], ◌+◌, ◌-◌, ◌^◌, ◌≤◌, ◌<◌, length, drop, ltb, if◌then◌else◌};
ghost use Rattle.format.specs.TextWriter.{hex4, numeral, decimal, spaces, to_right, memory_text};
ghost use Rattle.writing.specs.Written.{Put};
ghost use Rattle.text_numerals.specs.Memory.{word_of};

use writing::{put_all, put_bytes};

// A numeral's digits: those from `start` on.
#[derive(Clone, Copy)]
struct Digits {
    bytes: [u8; 20],
    start: usize,
}

// A digit: past nine come the letters from `ten` on.
fn digit(d: u64, ten: u8) -> u8
    requires { (d < 16) × (10 ≤ ten) × (ten < 0x70) }
    ensures { result ≡ (if ltb d 10 then 48 + d else ten - 10 + d) }
{
    if d < 10 {
        return b'0' + d as u8;
    }
    ten - 10 + d as u8
}

// Four upper-case hexadecimal digits. Of 16-bit numbers, of which more go into a vector than of wider ones.
pub fn put_hex4(out: &mut [u8], v: u16) -> usize
    ensures { Put (hex4 v) out.old result out.new }
{
    let v1 = v / 16;
    let v2 = v1 / 16;
    let v3 = v2 / 16;
    let a = digit((v3 % 16) as u64, b'A');
    let b = digit((v2 % 16) as u64, b'A');
    let c = digit((v1 % 16) as u64, b'A');
    let d = digit((v % 16) as u64, b'A');
    put_all(out, &[a, b, c, d])
}

// A memory word or an address, or ???? where it isn't known.
pub fn put_memory(out: &mut [u8], word: Option<u16>) -> usize
    ensures { Put (memory_text (word_of word)) out.old result out.new }
{
    match word {
        Some(value) => put_hex4(out, value),
        None => put_bytes(out, b"????"),
    }
}

// The digits of `n`, filled from the last.
fn digits_of(n: u64, base: u64) -> Digits
    requires { (2 ≤ base) × (base ≤ 16) × (n < base ^ 20) }
    ensures { (result.start < 20) × (length result.bytes ≡ 20) × (drop result.start result.bytes ≡ numeral 19 base n []) }
{
    let mut bytes = [0u8; 20];
    let mut i: usize = 20;
    let mut v = n;
    while base <= v {
        let d = digit(v % base, b'a');
        i -= 1;
        bytes[i] = d;
        v = v / base;
    }
    let d = digit(v, b'a');
    i -= 1;
    bytes[i] = d;
    Digits {
        bytes: bytes,
        start: i,
    }
}

// How many digits the decimal numeral of `n` has; most numbers are short, and these are compared.
pub fn count_digits(n: u64) -> usize
    ensures { result ≡ length (decimal n) }
{
    if n < 10 {
        return 1;
    }
    if n < 100 {
        return 2;
    }
    if n < 1000 {
        return 3;
    }
    if n < 10000 {
        return 4;
    }
    if n < 100000 {
        return 5;
    }
    let m = digits_of(n, 10);
    20 - m.start
}

// The decimal numeral of `n`.
pub fn put_decimal(out: &mut [u8], n: u64) -> usize
    ensures { Put (decimal n) out.old result out.new }
{
    let m = digits_of(n, 10);
    let bytes = m.bytes;
    let start = m.start;
    put_bytes(out, &bytes[start..])
}

// How many digits the lower-case hexadecimal numeral of `n` has.
pub fn count_hex(n: u64) -> usize
    ensures { result ≡ length (numeral 19 16 n []) }
{
    let m = digits_of(n, 16);
    let start = m.start;
    20 - start
}

// The lower-case hexadecimal numeral of `n`.
pub fn put_hex(out: &mut [u8], n: u64) -> usize
    ensures { Put (numeral 19 16 n []) out.old result out.new }
{
    let m = digits_of(n, 16);
    let bytes = m.bytes;
    let start = m.start;
    put_bytes(out, &bytes[start..])
}

// As many spaces.
pub fn put_spaces(out: &mut [u8], n: usize) -> usize
    ensures { Put (spaces n) out.old result out.new }
{
    if out.len() < n {
        return 0;
    }
    out[..n].fill(b' ');
    n
}

// The decimal numeral of `n`, filled to the right of a column.
pub fn put_right(out: &mut [u8], width: usize, n: u64) -> usize
    ensures { Put (to_right width (decimal n)) out.old result out.new }
{
    let len = count_digits(n);
    if width <= len {
        return put_decimal(out, n);
    }
    if out.len() < width {
        return 0;
    }
    let fill = width - len;
    let mut at = 0;
    at += put_spaces(&mut out[at..], fill);
    at += put_decimal(&mut out[at..], n);
    at
}
