// Replays a list of answers on standard input, one case to a line, and prints how many lines there were and how many answers differ.
// A line is `CALL INPUT ARG NUMBER FIRST SECOND` for a query: a letter, the input in hexadecimal, and numbers of 16, 2, 16 and 16
// hexadecimal digits; with two values more, of 16 digits each, for the lending fee; `CALL INPUT NUMBER OUTPUT` for a call that fills a
// buffer. Then prints what the clerk's programs make of some files.
#![tactic(auto)]

mod conversions;
mod fees;
mod files;
mod line;
mod queries;

// The most lines that are read.
const TURNS: u64 = 1_000_000;

// How one line came out: its answer is right, or it differs.
fn is_right(text: &[u8]) -> bool {
    let call = line::byte_at(text, 0);
    let end = line::field_end(text, 2);
    match call {
        b'B' | b'b' | b'T' | b't' => files::agrees(text, call, end),
        b'l' => fees::agrees(text, end),
        _ => queries::agrees(text, call, end),
    }
}

// The lines of the list, one by one; a list ends with its input.
fn main() {
    let mut lines = 0u64;
    let mut wrong = 0u64;
    for _ in 0..TURNS {
        let mut buffer = io::buffer();
        if line::read_line(&mut buffer) == 0 {
            break;
        }
        lines = lines.wrapping_add(1);
        if !is_right(&buffer) {
            wrong = wrong.wrapping_add(1);
        }
    }
    io::print_decimal(1, lines);
    io::write_all(1, b" lines, ");
    io::print_decimal(1, wrong);
    io::write_all(1, b" differ\n");
    conversions::show_all();
}
