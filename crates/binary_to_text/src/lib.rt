// What `bin2text` prints: a binary file as a text file, by way of an object in 16,384 words. An input of more than 65,536 bytes is refused
// with 3, and a refusal is printed as its number and a newline.
#![tactic(auto)]

ghost use Rattle.std.specs.Prelude.{◌≡◌};
ghost use Rattle.format.specs.Calls.{fill};
ghost use Rattle.units.specs.Refusal.{filled_of};
ghost use Rattle.printing.specs.Printed.{Counts};
ghost use Rattle.binary_to_text.specs.ToText.{binary_to_text, PrintsText};

use binary_read::read_binary;
use printing::{INPUT, object_room, print_filled};
use text_write::write_text;
use units::Refusal;

// The most bytes that are taken.
const MOST_INPUT: usize = INPUT;

// The text file of a binary file, into the buffer lent.
fn text_of_binary(input: &[u8], out: &mut [u8]) -> Result<usize, Refusal>
    ensures { filled_of result out.new ≡ fill (binary_to_text input.now) out.old }
{
    if MOST_INPUT < input.len() {
        return Err(Refusal::ShortBuffer);
    }
    let mut words = object_room();
    let n = read_binary(input, &mut words)?;
    write_text(&words[..n], out)
}

// What `bin2text` prints of its standard input, into the buffer lent: how many bytes that is, none where they don't fit.
pub fn bin2text(input: &[u8], out: &mut [u8]) -> usize
    ensures prints_text { PrintsText input.now out.old result out.new }
    ensures counts { Counts result out.new }
{
    let t = text_of_binary(input, out);
    print_filled(t, out)
}
