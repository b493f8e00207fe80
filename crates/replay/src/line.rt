// Reading a line, and the fields in it. A place past the end reads as 0.
ghost use Rattle.std.specs.Prelude.{◌≡◌, ◌≤◌, length, take};
ghost use Rattle.io.specs.Counts.{IsPrefixLen};

// The next line of standard input, at the front of the buffer, followed by a space; 0 where the input has ended.
pub(crate) fn read_line(buffer: &mut [u8]) -> usize {
    for n in 0..buffer.len() {
        let mut one = [0u8; 1];
        let got = io::read_full(0, &mut one);
        let b = one[0];
        if got == 0 || b == 10 {
            buffer[n] = 32;
            return n;
        }
        buffer[n] = b;
    }
    buffer.len()
}

pub(crate) fn byte_at(text: &[u8], at: usize) -> u8 {
    text.get(at).copied().unwrap_or(0)
}

// Where the field that begins at a place ends: at the next space.
pub(crate) fn field_end(text: &[u8], at: usize) -> usize {
    for i in at..text.len() {
        if text[i] == 32 {
            return i;
        }
    }
    if at < text.len() { text.len() } else { at }
}

// The value of a hexadecimal digit.
fn digit(b: u8) -> u64 {
    match b {
        b'0'..=b'9' => (b - b'0') as u64,
        b'A'..=b'F' => (b - b'A') as u64 + 10,
        _ => 0,
    }
}

// The number in up to 16 hexadecimal digits at a place.
pub(crate) fn number_at(text: &[u8], at: usize, digits: usize) -> u64 {
    let mut v = 0u64;
    for i in 0..digits {
        let place = at.wrapping_add(i);
        v = v % 0x1000_0000_0000_0000 * 16 + digit(byte_at(text, place)) % 16;
    }
    v
}

// The same, so many places behind another.
pub(crate) fn number_behind(text: &[u8], end: usize, places: usize, digits: usize) -> u64 {
    number_at(text, end.wrapping_add(places), digits)
}

// The numbers of so many hexadecimal digits each between two places, as `made` has them, at the front of the buffer; how many they are.
fn numbers_between<T: Copy, F: Fn(u64) -> T>(
    text: &[u8],
    from: usize,
    to: usize,
    digits: usize,
    made: F,
    out: &mut [T],
) -> usize
    requires { F.IsAlwaysCallable made }
    ensures { (result ≤ length out.new) × (result ≡ length (take result out.new)) }
{
    let mut at = from;
    for n in 0..out.len() {
        if to <= at {
            return n;
        }
        out[n] = made(number_at(text, at, digits));
        at = at.wrapping_add(digits);
    }
    out.len()
}

// The words written in hexadecimal between two places, at the front of the buffer; how many they are.
pub(crate) fn words_between(text: &[u8], from: usize, to: usize, out: &mut [u32]) -> usize
    ensures { IsPrefixLen result out.new }
{
    numbers_between(text, from, to, 8, |v| (v % 0x1_0000_0000) as u32, out)
}

// The bytes written in hexadecimal between two places, at the front of the buffer; how many they are.
pub(crate) fn bytes_between(text: &[u8], from: usize, to: usize, out: &mut [u8]) -> usize
    ensures { IsPrefixLen result out.new }
{
    numbers_between(text, from, to, 2, |v| (v % 0x100) as u8, out)
}
