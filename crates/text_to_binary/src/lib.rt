// What `text2bin` prints: a text file as a binary file, by way of an object in 16,384 words. An input of more than 65,536 bytes is refused
// with 3, and a refusal is printed as its number and a newline.
#![tactic(auto)]

ghost use Rattle.units.specs.Refusal.{filled_of};
ghost use Rattle.printing.specs.Printed.{Counts};
ghost use Rattle.text_to_binary.specs.ToBinary.{ConvertsText, PrintsBinary};

use binary_write::write_binary;
use printing::{INPUT, object_room, print_filled};
use text_read::read_text;
use units::Refusal;

// The binary file of a text file, into the buffer lent.
fn binary_of_text(input: &[u8], out: &mut [u8]) -> Result<usize, Refusal>
    ensures { ConvertsText input.now out.old (filled_of result out.new) }
{
    if INPUT < input.len() {
        return Err(Refusal::ShortBuffer);
    }
    let mut words = object_room();
    let n = read_text(input, &mut words)?;
    write_binary(&words[..n], out)
}

// What `text2bin` prints of its standard input, into the buffer lent: how many bytes that is, none where they don't fit.
pub fn text2bin(input: &[u8], out: &mut [u8]) -> usize
    ensures prints_binary { PrintsBinary input.now out.old result out.new }
    ensures counts { Counts result out.new }
{
    let b = binary_of_text(input, out);
    print_filled(b, out)
}
