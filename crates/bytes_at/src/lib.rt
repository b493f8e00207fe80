// Numbers and bytes of an input at its places, for every place: of bytes past the end of the input there are none.
#![tactic(auto)]

ghost use Rattle.std.specs.Prelude.{◌≡◌, ◌+◌, ◌≤◌, min, length, leb};
ghost use Rattle.format.specs.Digits.{value_of};
ghost use Rattle.format.specs.Binary.{bytes_at, number_at};

// The number whose bytes are `s`, low byte first.
fn value_le(s: &[u8]) -> u64
    requires { length s.now ≤ 8 }
    ensures { result ≡ value_of 8 s.now }
{
    let mut v = 0;
    for i in (0..s.len()).rev() {
        let b = u64::from(s[i]);
        v = v * 256 + b;
    }
    v
}

// k bytes past a place, at most the end of the input. By tests, which a processor guesses: a walk along records would wait for a least of two.
fn offset(s: &[u8], p: usize, k: usize) -> usize
    ensures { result ≡ min (p + k) (length s.now) }
{
    if s.len() < k {
        return s.len();
    }
    if s.len() - k < p {
        return s.len();
    }
    p + k
}

// n bytes past a place of the input, at most its end.
fn end_of(s: &[u8], a: usize, n: u64) -> usize
    requires { a ≤ length s.now }
    ensures { result ≡ min (a + n) (length s.now) }
{
    if ((s.len() - a) as u64) < n {
        return s.len();
    }
    a + n as usize
}

// k and n bytes past a place, at most the end of the input.
pub fn past(s: &[u8], p: usize, k: usize, n: u64) -> usize
    ensures { result ≡ min (p + k + n) (length s.now) }
{
    let a = offset(s, p, k);
    end_of(s, a, n)
}

// Whether n bytes are there k bytes past a place.
fn is_there(s: &[u8], p: usize, k: usize, n: usize) -> bool
    ensures { result ≡ leb (p + k + n) (length s.now) }
{
    if s.len() < p {
        return false;
    }
    let rest = s.len() - p;
    if rest < k {
        return false;
    }
    n <= rest - k
}

// The number of the two bytes at a place, low byte first.
fn two_at(s: &[u8], a: usize) -> u16
    requires { a + 2 ≤ length s.now }
    ensures { result ≡ number_at a 2 s.now }
{
    match s[a..].first_chunk::<2>() {
        Some(bytes) => u16::from_le_bytes(*bytes),
        None => 0,
    }
}

// That of eight.
fn eight_at(s: &[u8], a: usize) -> u64
    requires { a + 8 ≤ length s.now }
    ensures { result ≡ number_at a 8 s.now }
{
    match s[a..].first_chunk::<8>() {
        Some(bytes) => u64::from_le_bytes(*bytes),
        None => 0,
    }
}

// The number k bytes past a place of the at most n bytes that are there.
fn clipped_value(s: &[u8], p: usize, k: usize, n: u64) -> u64
    requires { n ≤ 8 }
    ensures { result ≡ number_at (p + k) n s.now }
{
    let a = offset(s, p, k);
    let e = end_of(s, a, n);
    value_le(&s[a..e])
}

// The 2-byte number k bytes past a place, low byte first: of the bytes that are there, where one is missing. That all are there is a test of
// its own, so that a walk along records goes on before it is done.
pub fn u16_at(s: &[u8], p: usize, k: usize) -> u16
    ensures { result ≡ number_at (p + k) 2 s.now }
{
    if is_there(s, p, k, 2) {
        return two_at(s, p + k);
    }
    clipped_value(s, p, k, 2) as u16
}

// The 8-byte number k bytes past a place, low byte first: of the bytes that are there, where some are missing.
pub fn u64_at(s: &[u8], p: usize, k: usize) -> u64
    ensures { result ≡ number_at (p + k) 8 s.now }
{
    if is_there(s, p, k, 8) {
        return eight_at(s, p + k);
    }
    clipped_value(s, p, k, 8)
}

// The n bytes k bytes past a place, less those that are not there.
pub fn bytes_at<'a>(s: &'a [u8], p: usize, k: usize, n: u64) -> &'a [u8]
    ensures { result.now ≡ bytes_at (p + k) n s.now }
{
    let a = offset(s, p, k);
    let e = end_of(s, a, n);
    &s[a..e]
}
