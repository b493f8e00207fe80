// The host's three calls (document 01, "Rust to be recast"): byte slices and numbers in, structs of numbers out, and no buffer. None
// asks anything of its caller.
#![tactic(auto)]

ghost use Rattle.std.specs.Prelude.{◌≡◌};
ghost use Rattle.format.specs.Calls.{measured, read_binary, read_text};
ghost use Rattle.format.specs.Source.{get_pos_pair};
ghost use Rattle.units.specs.Told.{measured_told};
ghost use Rattle.host.specs.Answers.{position_of};

use binary_read::binary_length;
use byte_positions::position_of;
use text_read::text_length;
use units::Filled;

// A line, counted from 0, and how many bytes from its start.
#[repr(C)]
#[derive(Clone, Copy)]
pub struct Position {
    pub line: u64,
    pub column: u64,
}

// Does this read as binary? The number of the question that was answered no, or 0; and how many words the file's object has.
#[unsafe(no_mangle)]
pub extern "C" fn lc3_binary_length(bytes: &[u8]) -> Filled
    ensures { measured_told result ≡ measured (read_binary bytes.now) }
{
    binary_length(bytes).into()
}

// Does this read as text?
#[unsafe(no_mangle)]
pub extern "C" fn lc3_text_length(bytes: &[u8]) -> Filled
    ensures { measured_told result ≡ measured (read_text bytes.now) }
{
    text_length(bytes).into()
}

// The line and the column of an index into the bytes of a source; past the end the line count and the index.
#[unsafe(no_mangle)]
pub extern "C" fn lc3_get_pos_pair(source: &[u8], index: u64) -> Position
    ensures { position_of result ≡ get_pos_pair source.now index }
{
    let p = position_of(source, index);
    Position {
        line: p.line,
        column: p.column,
    }
}
