// What the clerk's programs share: reading an input that fits its buffer, room for the object between the two forms, and printing what a
// call that fills the output hands back.
#![tactic(auto)]

ghost use Rattle.std.specs.Prelude.{◌≡◌, replicate, IfOk};
ghost use Rattle.io.specs.Counts.{IsPrefixLen};
ghost use Rattle.printing.specs.Printed.{PrintsFilled};

use text_rows_out::put_count_line;
use units::Refusal;

// The longest input, in bytes.
pub const INPUT: usize = 65536;

// Room for the words of an object: 64 KiB.
pub fn object_room() -> [u32; 16384]
    ensures { result ≡ replicate 16384 0 }
{
    [0; 16384]
}

// Does standard input go on after what was read of it?
fn goes_on() -> bool {
    let mut next = [0u8; 1];
    io::read_full(0, &mut next) != 0
}

// The whole of standard input, at the front of the buffer: how many bytes it has, or that it has more than the buffer.
pub fn read_input(input: &mut [u8]) -> Result<usize, Refusal>
    ensures { IfOk result (λ n. IsPrefixLen n input.new) }
{
    let n = io::read_full(0, input);
    if n == input.len() && goes_on() {
        return Err(Refusal::ShortBuffer);
    }
    Ok(n)
}

// How many bytes of the output are printed after a call that filled it: for a refusal its number and a newline, written over its front;
// none where they don't fit.
pub fn print_filled(filled: Result<usize, Refusal>, out: &mut [u8]) -> usize
    ensures { PrintsFilled filled out.old result out.new }
{
    match filled {
        Ok(len) => len,
        Err(refusal) => put_count_line(out, u64::from(refusal.number())),
    }
}
