// How many words the object of a binary file has, and whether a buffer has room for them.
#![tactic(auto)]

ghost use Rattle.std.specs.Prelude.{◌≡◌, ◌≤◌, length, leb};
ghost use Rattle.binary_sizes.specs.ObjectWords.{keeps_relocations, object_words};

use binary_words::{all_length, has_records, has_source, part_length, source_length};
use gather::Kind;

// "No label and no source: relocations are dropped."
pub fn keeps_relocations(s: &[u8]) -> bool
    ensures { result ≡ keeps_relocations s.now }
{
    has_records(s, Kind::Label) || has_source(s)
}

// How many words the five parts have.
pub fn words_length(s: &[u8]) -> usize
    ensures { result ≡ length (object_words s.now) }
{
    let n = part_length(s, Kind::Block.byte())
        + part_length(s, Kind::Label.byte())
        + part_length(s, Kind::LineBlock.byte())
        + source_length(s);
    if keeps_relocations(s) {
        return n + part_length(s, Kind::Relocation.byte());
    }
    n
}

// How many words all records have, those too that are replaced or dropped: the object has no more.
fn most_words(s: &[u8]) -> usize
    ensures { length (object_words s.now) ≤ result }
{
    all_length(s, Kind::Block)
        + all_length(s, Kind::Label)
        + all_length(s, Kind::LineBlock)
        + all_length(s, Kind::Relocation)
        + source_length(s)
}

// The words of the file fit into so much room. Where all its records do, none need be sorted to tell.
pub fn has_room(s: &[u8], room: usize) -> bool
    ensures { result ≡ leb (length (object_words s.now)) room }
{
    most_words(s) <= room || words_length(s) <= room
}
