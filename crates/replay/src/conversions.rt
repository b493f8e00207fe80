// What `bin2text` and `text2bin` print of files that one case of standard input doesn't show: refusals, the header alone, an input that
// just fills its buffer, and an output that is a byte longer than its own.
use binary_to_text::bin2text;
use text_to_binary::text2bin;
use writing::put_bytes;

// What `bin2text` prints of a file.
fn show_text(file: &[u8]) {
    let mut out = io::large_buffer();
    let n = bin2text(file, &mut out);
    io::write_all(1, &out[..n]);
}

// How many bytes `text2bin` prints of a file: a binary file isn't text.
fn show_length(file: &[u8]) {
    let mut out = io::large_buffer();
    io::print_decimal(1, text2bin(file, &mut out) as u64);
    io::write_all(1, b"\n");
}

// What `text2bin` prints of a file where its output has six bytes.
fn show_in_six(file: &[u8]) {
    let mut out = [0u8; 6];
    let n = text2bin(file, &mut out);
    io::write_all(1, &out[..n]);
}

// All of these cases, one after the other.
pub(crate) fn show_all() {
    let header = [0x6Fu8, 0x62, 0x6A, 0x21, 0x10, 0x00, 0x01];
    let text = b"LC-3 OBJ FILE";
    show_text(&header[..6]);
    show_text(&header);
    show_in_six(&header);
    show_in_six(&header[..0]);
    show_in_six(text);
    show_length(text);
    let mut whole = [10u8; 65536];
    put_bytes(&mut whole, text);
    show_length(&whole);
}
