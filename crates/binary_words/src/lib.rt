// The words of the records of a binary file, part by part.
#![tactic(auto)]

ghost use Rattle.std.specs.Prelude.{◌≡◌, ◌+◌, ◌≤◌, ◌<◌, length, take, leb, not};
ghost use mathlib.Core.List.{flat_map};
ghost use Rattle.format.specs.Basics.{is_empty, is_some};
ghost use Rattle.format.specs.Records.{source_records};
ghost use Rattle.format.specs.Words.{record_words};
ghost use Rattle.gather.specs.Kinds.{byte_of};
ghost use Rattle.gather.specs.Places.{places_of};
ghost use Rattle.format.specs.ObjectFile.{line_end, apart};
ghost use Rattle.binary_words.specs.RecordAt.{line_block_at, chunk_at, source_of, object_at, body_length, words_at, part_words};
ghost use Rattle.binary_words.specs.Apart.{place_of, follows_at, apart_from};

use bytes_at::{bytes_at, u16_at, u64_at};
use gather::{Kind, next_place};
use sorting::Sorting;

// How many bytes the body of the record of a kind has at a place, less those that are not there.
fn body_length(s: &[u8], kind: Kind, p: usize) -> usize
    ensures { result ≡ body_length (byte_of kind) s.now p }
{
    let body = match kind {
        Kind::Block => bytes_at(s, p, 5, 3 * u64::from(u16_at(s, p, 3))),
        Kind::Label => bytes_at(s, p, 20, u64_at(s, p, 12)),
        Kind::LineBlock => bytes_at(s, p, 11, 2 * u64::from(u16_at(s, p, 9))),
        Kind::Source | Kind::Relocation => bytes_at(s, p, 11, u64_at(s, p, 3)),
    };
    body.len()
}

// How many words the record of a kind at a place has.
fn words_at(s: &[u8], kind: Kind, p: usize) -> usize
    ensures { result ≡ length (words_at (byte_of kind) s.now p) }
{
    let n = body_length(s, kind, p);
    match kind {
        Kind::Block => 1 + n / 3,
        Kind::Label => 4 + n / 3 + (n % 3 + 2) / 3,
        Kind::LineBlock => 4 + n / 2,
        Kind::Source => 0,
        Kind::Relocation => 1 + n / 3 + (n % 3 + 2) / 3,
    }
}

// How many words the records at these places have.
fn places_length(s: &[u8], kind: Kind, places: &[usize]) -> usize
    requires { length (flat_map (words_at (byte_of kind) s.now) places.now) ≤ length s.now + 3 }
    ensures { result ≡ length (flat_map (words_at (byte_of kind) s.now) places.now) }
{
    let mut sum = 0;
    for p in places {
        sum += words_at(s, kind, *p);
    }
    sum
}

// How many words the records of a kind have, window by window.
fn windows_length(s: &[u8], kind: Kind, win: &mut [usize]) -> usize
    requires { 0 < length win.old }
    ensures { result ≡ length (part_words (byte_of kind) s.now) }
{
    let mut sum = 0;
    let mut sorting = Sorting::new(s, kind);
    loop {
        let n = sorting.next_window(s, win);
        sum += places_length(s, kind, &win[..n]);
        if n < win.len() {
            return sum;
        }
    }
}

// How many words the records of a kind have, by windows of N places.
fn length_by<const N: usize>(s: &[u8], kind: Kind) -> usize
    requires { (0 < N) × (N ≤ 4096) }
    ensures { result ≡ length (part_words (byte_of kind) s.now) }
{
    let mut win = [0usize; N];
    windows_length(s, kind, &mut win)
}

// How many words the records of a kind have; a byte that is no kind's has none. Labels, of which a file has many in any order, go by larger
// windows. The two arrays are of two functions: those of one would both be on the stack.
pub fn part_length(s: &[u8], kind: u8) -> usize
    ensures { result ≡ length (part_words kind s.now) }
{
    match Kind::of(kind) {
        Some(Kind::Label) => length_by::<4096>(s, Kind::Label),
        Some(k) => length_by::<1024>(s, k),
        None => 0,
    }
}

// How many words the records of a kind have as they come, those that later ones replace too.
pub fn all_length(s: &[u8], kind: Kind) -> usize
    ensures { result ≡ length (flat_map (words_at (byte_of kind) s.now) (places_of (byte_of kind) s.now)) }
{
    let mut all = 0;
    let mut at = 7;
    while let Some((p, next)) = next_place(s, kind, at) {
        all += words_at(s, kind, p);
        at = next;
    }
    all
}

// The line block at q ends at or before the first line of the one at p, as whole numbers.
fn ends_before(s: &[u8], q: usize, p: usize) -> bool
    ensures { result ≡ leb (line_end (line_block_at s.now q)) (line_block_at s.now p).first }
{
    let n = (body_length(s, Kind::LineBlock, q) / 2) as u64;
    let a = u64_at(s, q, 1);
    let b = u64_at(s, p, 1);
    if b < a {
        return false;
    }
    n <= b - a
}

// The line block at p follows the one before it, if there is one.
fn follows(s: &[u8], last: Option<usize>, p: usize) -> bool
    ensures { result ≡ follows_at s.now (place_of last) p }
{
    match last {
        Some(q) => ends_before(s, q, p),
        None => true,
    }
}

// The line blocks at these places follow one another, and the one before them.
fn places_apart(s: &[u8], before: Option<usize>, places: &[usize]) -> bool
    ensures { result ≡ apart_from s.now (place_of before) places.now }
{
    let mut last = before;
    for p in places {
        if !follows(s, last, *p) {
            return false;
        }
        last = Some(*p);
    }
    true
}

// Each line block ends at or before the next, window by window.
fn windows_apart(s: &[u8], win: &mut [usize]) -> bool
    requires { 0 < length win.old }
    ensures { result ≡ apart (object_at s.now).line_blocks }
{
    let mut last = None;
    let mut sorting = Sorting::new(s, Kind::LineBlock);
    loop {
        let n = sorting.next_window(s, win);
        if !places_apart(s, last, &win[..n]) {
            return false;
        }
        if n < win.len() {
            return true;
        }
        last = Some(win[n - 1]);
    }
}

// Each line block that is left ends at or before the next.
pub fn lines_apart(s: &[u8]) -> bool
    ensures { result ≡ apart (object_at s.now).line_blocks }
{
    let mut win = [0usize; 1024];
    windows_apart(s, &mut win)
}

// There are records of a kind.
pub fn has_records(s: &[u8], kind: Kind) -> bool
    ensures { result ≡ not (is_empty (places_of (byte_of kind) s.now)) }
{
    next_place(s, kind, 7).is_some()
}

// "02 or 03 makes the source exist".
pub fn has_source(s: &[u8]) -> bool
    ensures { result ≡ is_some (source_of s.now) }
{
    has_records(s, Kind::LineBlock) || has_records(s, Kind::Source)
}

// How many bytes the chunks of the source have.
fn chunks_length(s: &[u8]) -> usize
    ensures { (result ≡ length (flat_map (chunk_at s.now) (places_of 3 s.now))) × (result ≤ length s.now) }
{
    let mut sum = 0;
    let mut at = 7;
    while let Some((p, next)) = next_place(s, Kind::Source, at) {
        sum += bytes_at(s, p, 9, u64_at(s, p, 1)).len();
        at = next;
    }
    sum
}

// How many words the source has: none where it does not exist.
pub fn source_length(s: &[u8]) -> usize
    ensures { result ≡ length (flat_map record_words (source_records (source_of s.now))) }
{
    if has_source(s) {
        let n = chunks_length(s);
        return 1 + n / 3 + (n % 3 + 2) / 3;
    }
    0
}
