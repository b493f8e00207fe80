// Counts over all numbers below x110000, the scalar values among them, those that `is_white_space` says yes to, and prints each of them
// and how many they are. That they are 25 is proved of the code that counts; what is printed is what the code does.
#![tactic(auto)]

ghost use Rattle.std.specs.Prelude.{◌≡◌};
ghost use Rattle.format.specs.Basics.{how_many};
ghost use Rattle.format.specs.Utf8.{is_white_space};

use trim::is_white_space;

// One more than the largest scalar value.
const END: u32 = 0x110000;

// How many of the numbers below an end get yes.
fn count_white_space(end: u32) -> u32
    ensures { result ≡ how_many is_white_space end }
{
    let mut n = 0;
    for c in 0..end {
        if is_white_space(c) {
            n += 1;
        }
    }
    n
}

// "Exactly 25 characters get its yes": the law of `format`, about the code.
fn count_characters() -> u32
    ensures { result ≡ 25 }
{
    count_white_space(END)
}

fn main() {
    for c in 0..END {
        if is_white_space(c) {
            io::print_hex(1, c as u64, 4);
            io::write_all(1, b"\n");
        }
    }
    io::print_decimal(1, count_characters() as u64);
    io::write_all(1, b" characters\n");
}
