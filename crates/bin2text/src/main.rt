// The clerk's program (document 01, "A holding in three dresses"): a binary file on standard input becomes a text file on standard output.
// Of a file that is refused the number and a newline are printed, and 3 where it is longer than the buffer, or its object or the text than
// theirs.
#![tactic(auto)]

use printing::read_input;

fn main() {
    let mut input = io::large_buffer();
    let Ok(n) = read_input(&mut input) else {
        io::write_all(1, b"3\n");
        return;
    };
    let mut out = io::large_buffer();
    let len = binary_to_text::bin2text(&input[..n], &mut out);
    io::write_all(1, &out[..len]);
}
