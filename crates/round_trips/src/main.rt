// Demand 3 (document 01, "Trips") over the public calls: one trip, and lists of trips with short, exact and long buffers from two fair
// objects. Prints each trip's form and number, and at the end of a list the words that stand.
#![tactic(auto)]

mod print;

ghost use Rattle.std.specs.Prelude.{◌≡◌, [], ◌∷◌, ◌≤◌, length, map, take};
ghost use Rattle.io.specs.Counts.{IsPrefixLen};
ghost use Rattle.object_format.specs.TripSteps.{len_in, Step};
ghost use Rattle.round_trips.specs.Rows.{form_of, row, Ran};

use binary_format::BinaryFormat;
use object_format::trip_in;
use text_format::TextFormat;
use units::Refusal;

// The form of a trip.
#[derive(Clone, Copy)]
enum Form {
    Binary,
    Text,
}

// A trip of a list: its form, and how many bytes and words it is lent, of the program's own at most.
#[derive(Clone, Copy)]
struct Row {
    form: Form,
    bytes: usize,
    words: usize,
}

// Document 01's 18 words; 77 bytes in binary, 297 in text.
const PAPER: [u32; 18] = [
    0x00003000, 0x20011234, 0x20000000, 0x40003001, 0xC0000005, 0xC0000000, 0xC0000000, 0xE1000041,
    0x60000000, 0xC0000001, 0xC0000000, 0xC0000000, 0x20013000, 0x80000000, 0xE3620A61, 0xE100000A,
    0xA0000130, 0xE1000041,
];

// A block, a source, and two relocations, whose addresses would change places if their bytes did: 8 words; 51 bytes in
// binary, 206 in text.
const RELOCATED: [u32; 8] = [
    0x00004000, 0x2001F025, 0x80000000, 0xE2006968, 0xA0000130, 0xE1000041, 0xA0000201, 0xE2004342,
];

// A trip of the form; prints its name.
fn trip(form: Form, object: &[u32], bytes: &mut [u8], words: &mut [u32]) -> Result<usize, Refusal>
    ensures step { Step (form_of form) object.now bytes.old words.old result words.new }
    ensures prefix_len { IsPrefixLen (len_in result) words.new }
{
    match form {
        Form::Binary => {
            io::write_all(1, b"binary ");
            trip_in(BinaryFormat::new(), object, bytes, words)
        }
        Form::Text => {
            io::write_all(1, b"text ");
            trip_in(TextFormat::new(), object, bytes, words)
        }
    }
}

// The words at the front of a buffer that has room for them.
fn put_front(to: &mut [u32], from: &[u32])
    requires { length from.now ≤ length to.old }
    ensures { (take (length from.now) to.new ≡ from.now) × IsPrefixLen (length from.now) to.new }
{
    to[..from.len()].copy_from_slice(from);
}

// Buffers that are not empty. Their length is all that is told of them: a trip is lent any contents.
fn used_bytes() -> [u8; 1024]
    ensures { 1024 ≡ length result }
{
    [0xEE; 1024]
}

fn used_words() -> [u32; 64]
    ensures { 64 ≡ length result }
{
    [0xEEEE_EEEE; 64]
}

// A trip from the `n` words at the front of `stands`; how many words stand there after it.
fn next(stands: &mut [u32], n: usize, trip_row: Row) -> usize
    requires prefix_len { IsPrefixLen n stands.old }
    requires in_bounds { 64 ≤ length stands.old }
    ensures ran { Ran (row trip_row ∷ []) (take n stands.old) (take result stands.new) }
    ensures prefix_len_2 { IsPrefixLen result stands.new }
{
    let mut bytes = used_bytes();
    let mut words = used_words();
    let b = trip_row.bytes.min(1024);
    let w = trip_row.words.min(64);
    let r = trip(
        trip_row.form,
        &stands[..n],
        &mut bytes[..b],
        &mut words[..w],
    );
    print::outcome(r);
    let Ok(len) = r else {
        return n;
    };
    put_front(stands, &words[..len]);
    len
}

// The trips of a list from the `n` words at the front of `stands`; how many words stand there at the end.
fn run(stands: &mut [u32], n: usize, list: &[Row]) -> usize
    requires prefix_len { IsPrefixLen n stands.old }
    requires in_bounds { 64 ≤ length stands.old }
    ensures ran { Ran (map row list.now) (take n stands.old) (take result stands.new) }
    ensures prefix_len_2 { IsPrefixLen result stands.new }
{
    let mut m = n;
    for trip_row in list {
        m = next(stands, m, *trip_row);
    }
    m
}

// A binary trip of a list.
fn binary(bytes: usize, words: usize) -> Row {
    Row {
        form: Form::Binary,
        bytes,
        words,
    }
}

// A text trip.
fn text(bytes: usize, words: usize) -> Row {
    Row {
        form: Form::Text,
        bytes,
        words,
    }
}

// The trips of a list from an object, and then the words that stand.
fn show(object: &[u32], list: &[Row])
    requires { length object.now ≤ 64 }
{
    let mut stands = [0u32; 64];
    put_front(&mut stands, object);
    let m = run(&mut stands, object.len(), list);
    print::words(&stands[..m]);
}

// Lists from document 01's words: none at all, and refused trips alone.
fn show_paper_refused() {
    let paper = PAPER;
    let refused = [
        binary(76, 64),
        binary(77, 17),
        text(296, 64),
        text(297, 17),
        text(0, 0),
    ];
    show(&paper, &refused[..0]);
    show(&paper, &refused);
}

// Lists from them with completed trips: one in binary, two in text, and both forms mixed, with refused ones among them.
fn show_paper() {
    let paper = PAPER;
    let binary_list = [binary(77, 18)];
    show(&paper, &binary_list);
    let text_list = [text(1024, 18), text(297, 64)];
    show(&paper, &text_list);
    let mixed = [
        text(297, 18),
        binary(77, 18),
        text(1024, 64),
        binary(77, 17),
        text(297, 0),
        binary(1024, 64),
    ];
    show(&paper, &mixed);
}

// Lists from an object with two relocations: three completed binary trips, and two with a text trip between them.
fn show_relocated() {
    let relocated = RELOCATED;
    let binary_list = [
        binary(50, 64),
        binary(51, 8),
        binary(51, 8),
        binary(1024, 64),
    ];
    show(&relocated, &binary_list);
    let mixed = [
        binary(51, 64),
        text(205, 8),
        text(206, 7),
        text(206, 8),
        binary(51, 7),
        binary(1024, 8),
    ];
    show(&relocated, &mixed);
}

fn main() {
    show_paper_refused();
    show_paper();
    show_relocated();
}
