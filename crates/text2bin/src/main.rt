// The clerk's way back: a text file on standard input becomes a binary file on standard output. Of a file that is refused the number and a
// newline are printed, and 3 where it is longer than the buffer, or its object or the binary file than theirs.
#![tactic(auto)]

use printing::read_input;

fn main() {
    let mut input = io::large_buffer();
    let Ok(n) = read_input(&mut input) else {
        io::write_all(1, b"3\n");
        return;
    };
    let mut out = io::large_buffer();
    let len = text_to_binary::text2bin(&input[..n], &mut out);
    io::write_all(1, &out[..len]);
}
