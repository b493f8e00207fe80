// The binary format (document 01, "Binary form"; BinaryFormat of 000): its magic and version, and the calls that write and read it.
#![tactic(auto)]

ghost use Rattle.std.specs.Prelude.{◌≡◌};
ghost use Rattle.format.specs.Trips.{binary};
ghost use Rattle.binary_format.specs.Formats.{binary_format};

use binary_read::{binary_length, read_binary};
use binary_write::write_binary;
use object_format::ObjectFormat;
use units::Refusal;

// The binary format. Its magic and its version are those of the header that the calls write and ask for.
#[derive(Clone, Copy)]
pub struct BinaryFormat;

impl BinaryFormat {
    pub const MAGIC: [u8; 5] = binary_header::MAGIC;

    pub const VERSION: [u8; 2] = binary_header::VERSION;

    // The format.
    pub fn new() -> Self
        ensures { result ≡ binary_format }
    {
        BinaryFormat
    }
}

impl ObjectFormat for BinaryFormat {
    ghost form = { binary };

    fn serialize(self, object: &[u32], out: &mut [u8]) -> Result<usize, Refusal> {
        write_binary(object, out)
    }

    fn length(self, file: &[u8]) -> Result<usize, Refusal> {
        binary_length(file)
    }

    fn deserialize(self, file: &[u8], out: &mut [u32]) -> Result<usize, Refusal> {
        read_binary(file, out)
    }
}
