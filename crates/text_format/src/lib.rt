// The text format (document 01, "Text form"; TextFormat of 000): the calls that write and read it.
#![tactic(auto)]

ghost use Rattle.std.specs.Prelude.{◌≡◌};
ghost use Rattle.format.specs.Trips.{text};
ghost use Rattle.text_format.specs.Formats.{text_format};

use object_format::ObjectFormat;
use text_read::{read_text, text_length};
use text_write::write_text;
use units::Refusal;

// The text format: it has no version, and its first line is part of its grammar.
#[derive(Clone, Copy)]
pub struct TextFormat;

impl TextFormat {
    // The format.
    pub fn new() -> Self
        ensures { result ≡ text_format }
    {
        TextFormat
    }
}

impl ObjectFormat for TextFormat {
    ghost form = { text };

    fn serialize(self, object: &[u32], out: &mut [u8]) -> Result<usize, Refusal> {
        write_text(object, out)
    }

    fn length(self, file: &[u8]) -> Result<usize, Refusal> {
        text_length(file)
    }

    fn deserialize(self, file: &[u8], out: &mut [u32]) -> Result<usize, Refusal> {
        read_text(file, out)
    }
}
