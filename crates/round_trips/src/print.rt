// What the program prints.

use units::Refusal;

// The number of a trip, which ends its line: 0 where it isn't refused.
pub(crate) fn outcome(r: Result<usize, Refusal>) {
    let number = match r {
        Ok(_) => 0,
        Err(refusal) => u64::from(refusal.number()),
    };
    io::print_decimal(1, number);
    io::write_all(1, b"\n");
}

// Eight hexadecimal digits.
fn word(w: u32) {
    io::print_hex(1, w as u64, 8);
}

// The words that stand, on one line.
pub(crate) fn words(object: &[u32]) {
    for (i, w) in object.iter().enumerate() {
        if i > 0 {
            io::write_all(1, b" ");
        }
        word(*w);
    }
    io::write_all(1, b"\n");
}
