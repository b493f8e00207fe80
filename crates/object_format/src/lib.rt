// What an object's file forms have in common: the calls that write and read it, and a trip through them.
#![tactic(auto)]

ghost use Rattle.std.specs.Prelude.{◌≡◌};
ghost use Rattle.format.specs.Calls.{measured};
ghost use Rattle.format.specs.Trips.{Form, Writes, Reads};
ghost use Rattle.units.specs.Refusal.{filled_of, measured_of};
ghost use Rattle.object_format.specs.Forms.{given_by};
ghost use Rattle.object_format.specs.TripSteps.{len_in, Counted, Step};

use units::Refusal;

// A file form of objects. Each call asks nothing of its caller; a refusal leaves the buffer lent as it was.
pub trait ObjectFormat: Copy {
    ghost form: { Form };

    // The file of an object, into the buffer lent: the length filled.
    fn serialize(self, object: &[u32], out: &mut [u8]) -> Result<usize, Refusal>
        ensures { Writes form object.now out.old (filled_of result out.new) };

    // Whether a file reads, and how many words its object has; nothing is written.
    fn length(self, file: &[u8]) -> Result<usize, Refusal>
        ensures { measured_of result ≡ measured (given_by form file.now) };

    // The object of a file, into the buffer lent: the length filled.
    fn deserialize(self, file: &[u8], out: &mut [u32]) -> Result<usize, Refusal>
        ensures { Reads form file.now out.old (filled_of result out.new) };
}

// A trip in a form: a write of the object and, if that gives 0, a read of exactly the length filled.
pub fn trip_in<F: ObjectFormat>(
    format: F,
    object: &[u32],
    bytes: &mut [u8],
    words: &mut [u32],
) -> Result<usize, Refusal>
    ensures step { Step F.form object.now bytes.old words.old result words.new }
    ensures prefix_len { Counted (len_in result) words.new }
{
    let n = format.serialize(object, bytes)?;
    format.deserialize(&bytes[..n], words)
}
