// The calls that fill a buffer, each with no room, one element too little, just enough and more. A line is `CALL INPUT NUMBER OUTPUT`; a
// refusal has no output. What stands in a buffer before a call must be there past the length filled.
use crate::line;
use binary_format::BinaryFormat;
use object_format::ObjectFormat;
use text_format::TextFormat;
use units::Refusal;

// The elements that buffers hold before a call.
const FRESH_BYTE: u8 = 0xA5;

const FRESH_WORD: u32 = 0xA5C3_5A3C;

// Are all elements from a place on as they were?
fn is_fresh<T: PartialEq + Copy>(out: &[T], from: usize, fresh: T) -> bool {
    out.iter().skip(from).all(|x| *x == fresh)
}

// Number and length, with so much room for an answer of so many elements: 3 where it is too little.
fn told(r: Result<usize, Refusal>, number: u8, len: usize, room: usize) -> bool {
    if room < len {
        return r == Err(Refusal::ShortBuffer);
    }
    match r {
        Ok(filled) => number == 0 && filled == len,
        Err(refusal) => refusal.number() == number && len == 0,
    }
}

// A read with so much room.
fn reads<F: ObjectFormat>(format: F, input: &[u8], room: usize, number: u8, want: &[u32]) -> bool {
    let mut out = [FRESH_WORD; 1024];
    let Some(front) = out.get_mut(..room) else {
        return false;
    };
    let r = format.deserialize(input, front);
    if room < want.len() {
        return told(r, number, want.len(), room) && is_fresh(&out, 0, FRESH_WORD);
    }
    told(r, number, want.len(), room)
        && out.starts_with(want)
        && is_fresh(&out, want.len(), FRESH_WORD)
}

// The same records, of labels and of relocations in whatever order: both binary files read as the same words.
fn same_records(file: &[u8], other: &[u8]) -> bool {
    let mut out = [FRESH_WORD; 1024];
    let mut again = [FRESH_WORD; 1024];
    let r = BinaryFormat::new().deserialize(file, &mut out);
    let s = BinaryFormat::new().deserialize(other, &mut again);
    r.is_ok() && s.is_ok() && out == again
}

// Is the file wanted at the front, byte for byte? One that need not be exact may be another file of the same records.
fn is_written(exact: bool, want: &[u8], out: &[u8]) -> bool {
    out.starts_with(want)
        || !exact
            && out
                .get(..want.len())
                .is_some_and(|file| same_records(file, want))
}

// A write with so much room.
fn writes<F: ObjectFormat>(
    format: F,
    exact: bool,
    object: &[u32],
    room: usize,
    number: u8,
    want: &[u8],
) -> bool {
    let mut out = [FRESH_BYTE; 4096];
    let Some(front) = out.get_mut(..room) else {
        return false;
    };
    let r = format.serialize(object, front);
    if room < want.len() {
        return told(r, number, want.len(), room) && is_fresh(&out, 0, FRESH_BYTE);
    }
    told(r, number, want.len(), room)
        && is_fresh(&out, want.len(), FRESH_BYTE)
        && is_written(exact, want, &out)
}

fn read_agrees<F: ObjectFormat>(format: F, l: &[u8], end: usize) -> bool {
    let mut input = [0u8; 4096];
    let n = line::bytes_between(l, 2, end, &mut input);
    let number = (line::number_behind(l, end, 1, 2) % 256) as u8;
    let from = end.wrapping_add(4);
    let mut words = [0u32; 1024];
    let k = line::words_between(l, from, line::field_end(l, from), &mut words);
    let want = &words[..k];
    let file = &input[..n];
    told(format.length(file), number, k, k)
        && reads(format, file, 0, number, want)
        && reads(format, file, k.saturating_sub(1), number, want)
        && reads(format, file, k, number, want)
        && reads(format, file, k.wrapping_add(9), number, want)
}

fn write_agrees<F: ObjectFormat>(format: F, exact: bool, l: &[u8], end: usize) -> bool {
    let mut words = [0u32; 1024];
    let n = line::words_between(l, 2, end, &mut words);
    let number = (line::number_behind(l, end, 1, 2) % 256) as u8;
    let from = end.wrapping_add(4);
    let mut bytes = [0u8; 4096];
    let k = line::bytes_between(l, from, line::field_end(l, from), &mut bytes);
    let want = &bytes[..k];
    let object = &words[..n];
    writes(format, exact, object, 0, number, want)
        && writes(format, exact, object, k.saturating_sub(1), number, want)
        && writes(format, exact, object, k, number, want)
        && writes(format, exact, object, k.wrapping_add(9), number, want)
}

// Does the call's answer agree with the line?
pub(crate) fn agrees(l: &[u8], call: u8, end: usize) -> bool {
    match call {
        b'B' => read_agrees(BinaryFormat::new(), l, end),
        b'b' => write_agrees(BinaryFormat::new(), false, l, end),
        b'T' => read_agrees(TextFormat::new(), l, end),
        b't' => write_agrees(TextFormat::new(), true, l, end),
        _ => false,
    }
}
