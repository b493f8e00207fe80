// Why a call refuses, of which each question has one name and one number.

ghost use Rattle.std.specs.Prelude.{◌≡◌};
ghost use Rattle.units.specs.Refusal.{number_of};

use std::error::Error;
use std::fmt;

// The question that was answered no.
#[derive(Clone, Copy, Debug, PartialEq, Eq)]
pub enum Refusal {
    // Is the object well formed?
    NotWellFormed,
    // At most 65,535 addresses per line block?
    TooManyAddresses,
    // Is the buffer at least as long as the answer?
    ShortBuffer,
    // Is there a source?
    NoSource,
    // Is the line below the line count?
    NoSuchLine,
    // Is there an address for the line, or a line for the address?
    NotMapped,
    // Do the seven header bytes come first?
    NoHeader,
    // Of each record: is its kind 0 to 4?
    UnknownRecord,
    // Are all its bytes there?
    MissingBytes,
    // Is its name or source chunk UTF-8?
    RecordNotUtf8,
    // Do its line addresses rise strictly?
    UnsortedAddresses,
    // Does each line block that is left end at or before the next?
    OverlappingLines,
    // Is it UTF-8?
    FileNotUtf8,
    // Is the first kept line `LC-3 OBJ FILE`?
    NoMagicLine,
    // Is every later kept line in a group?
    LooseLine,
    // Of each group: is its header known?
    UnknownGroup,
    // `.TEXT`, block by block: do address, count and all entries read?
    BadBlock,
    // Is that block's address new in the file?
    RepeatedBlock,
    // `.SYMBOL`, `.LINKER_INFO`, the debug label table: do header and rows read?
    BadLabels,
    // `.DEBUG` with lines: is there a first line beginning `=`, does the last line begin `=`, and do these differ?
    NoDivider,
    // Line table: do header and rows read, with line numbers 0, 1, 2 ..?
    BadLines,
    // If this line table has rows: had none before it?
    SecondLineTable,
    // Does the joined source unescape?
    BadEscape,
    // Do the addresses in each kept run never fall?
    FallingAddresses,
    // Has the object at most 16,777,216 words?
    TooManyWords,
}

impl Refusal {
    // Its number, by document 01.
    pub const fn number(self) -> u8
        ensures { result ≡ number_of self }
    {
        match self {
            Refusal::NotWellFormed => 1,
            Refusal::TooManyAddresses => 2,
            Refusal::ShortBuffer => 3,
            Refusal::NoSource => 4,
            Refusal::NoSuchLine => 5,
            Refusal::NotMapped => 6,
            Refusal::NoHeader => 10,
            Refusal::UnknownRecord => 11,
            Refusal::MissingBytes => 12,
            Refusal::RecordNotUtf8 => 13,
            Refusal::UnsortedAddresses => 14,
            Refusal::OverlappingLines => 15,
            Refusal::FileNotUtf8 => 20,
            Refusal::NoMagicLine => 21,
            Refusal::LooseLine => 22,
            Refusal::UnknownGroup => 23,
            Refusal::BadBlock => 24,
            Refusal::RepeatedBlock => 25,
            Refusal::BadLabels => 26,
            Refusal::NoDivider => 27,
            Refusal::BadLines => 28,
            Refusal::SecondLineTable => 29,
            Refusal::BadEscape => 30,
            Refusal::FallingAddresses => 31,
            Refusal::TooManyWords => 38,
        }
    }
}

// Its number in decimal digits.
impl fmt::Display for Refusal {
    fn fmt<W: fmt::Write>(&self, f: &mut fmt::Formatter<W>) -> fmt::Result {
        write!(f, "{}", self.number())
    }
}

impl Error for Refusal {}
