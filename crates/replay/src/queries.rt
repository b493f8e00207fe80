// The queries' answers, and `check`'s: a letter for each call.
use crate::line;
use units::{Address, ByteIndex, Line, Refusal};

// The number, which no call gives, that stands for a letter that is none.
const NO_CALL: u64 = 255;

// The values that the call hands back, 0 where there is none; nothing where the letter is no call's.
fn answer(object: &[u32], call: u8, arg: u64) -> Option<Result<(u64, u64), Refusal>> {
    let r = match call {
        b'k' => well_formed::check(object).map(|_| (0, 0)),
        b'c' => source_info::count_lines(object).map(|lines| (lines, 0)),
        b'r' => line_spans::raw_line_span(object, Line(arg)).map(|span| (span.start.0, span.end.0)),
        b's' => line_spans::line_span(object, Line(arg)).map(|span| (span.start.0, span.end.0)),
        b'p' => positions::get_pos_pair(object, ByteIndex(arg)).map(|pair| (
            pair.line.0,
            pair.column,
        )),
        b'g' => line_tables::get(object, Line(arg)).map(|address| (u64::from(address.0), 0)),
        b'f' => line_tables::find(object, Address((arg % 65536) as u16)).map(|line| (line.0, 0)),
        _ => return None,
    };
    Some(r)
}

// Does the call's answer agree with the line? The fields after the input begin at known places behind its end.
pub(crate) fn agrees(text: &[u8], call: u8, end: usize) -> bool {
    let mut words = [0u32; 1024];
    let n = line::words_between(text, 2, end, &mut words);
    let arg = line::number_behind(text, end, 1, 16);
    let (number, values) = match answer(&words[..n], call, arg) {
        Some(Ok(values)) => (0, values),
        Some(Err(refusal)) => (u64::from(refusal.number()), (0, 0)),
        None => (NO_CALL, (0, 0)),
    };
    number == line::number_behind(text, end, 18, 2)
        && values.0 == line::number_behind(text, end, 21, 16)
        && values.1 == line::number_behind(text, end, 38, 16)
}
