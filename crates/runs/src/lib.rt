// Exports for the differential runs: test-only, never linked by the host, so it may go beyond byte slices and numbers. Each is one call.
#![tactic(auto)]

mod answers;

ghost use Rattle.std.specs.Prelude.{◌≡◌};
ghost use Rattle.format.specs.Calls.{checked, query_count_lines, query_raw_line_span, query_line_span, query_pos_pair, query_get, query_find};
ghost use Rattle.format.specs.Calls.{fair_answer, measured, read_binary, ReadsBinary, WritesBinary, read_text, ReadsText, WritesText};
ghost use Rattle.format.specs.Utf8.{is_white_space};
ghost use Rattle.format.specs.Words.{object_of};
ghost use Rattle.tariff.specs.Tariff.{lending_fee};
ghost use Rattle.units.specs.Told.{filled_told, measured_told};
ghost use Rattle.runs.specs.Answers.{value_of, span_of, position_of, fair_of, fee_of};

use answers::{Fair, Fee, Position, Span, Value};
use binary_format::BinaryFormat;
use object_format::ObjectFormat;
use text_format::TextFormat;
use units::{Address, ByteIndex, Filled, Line};

// Is the number a White_Space character?
#[unsafe(no_mangle)]
pub extern "C" fn runs_is_white_space(c: u32) -> bool
    ensures { result ≡ is_white_space c }
{
    trim::is_white_space(c)
}

// Is the object well formed?
#[unsafe(no_mangle)]
pub extern "C" fn runs_check(object: &[u32]) -> u8
    ensures { result ≡ checked object.now }
{
    match well_formed::check(object) {
        Ok(()) => 0,
        Err(refusal) => refusal.number(),
    }
}

// The number of lines of the source.
#[unsafe(no_mangle)]
pub extern "C" fn runs_count_lines(object: &[u32]) -> Value
    ensures { value_of result ≡ query_count_lines object.now }
{
    source_info::count_lines(object).into()
}

// The bytes of a line, with its newline.
#[unsafe(no_mangle)]
pub extern "C" fn runs_raw_line_span(object: &[u32], line: u64) -> Span
    ensures { span_of result ≡ query_raw_line_span object.now line }
{
    line_spans::raw_line_span(object, Line(line)).into()
}

// The bytes of a line, less White_Space.
#[unsafe(no_mangle)]
pub extern "C" fn runs_line_span(object: &[u32], line: u64) -> Span
    ensures { span_of result ≡ query_line_span object.now line }
{
    line_spans::line_span(object, Line(line)).into()
}

// The line and the column of a source byte index.
#[unsafe(no_mangle)]
pub extern "C" fn runs_get_pos_pair(object: &[u32], index: u64) -> Position
    ensures { position_of result ≡ query_pos_pair object.now index }
{
    positions::get_pos_pair(object, ByteIndex(index)).into()
}

// Line to address.
#[unsafe(no_mangle)]
pub extern "C" fn runs_get(object: &[u32], line: u64) -> Value
    ensures { value_of result ≡ query_get object.now line }
{
    line_tables::get(object, Line(line)).into()
}

// Address to line.
#[unsafe(no_mangle)]
pub extern "C" fn runs_find(object: &[u32], address: u16) -> Value
    ensures { value_of result ≡ query_find object.now address }
{
    line_tables::find(object, Address(address)).into()
}

// Is the object fair?
#[unsafe(no_mangle)]
pub extern "C" fn runs_is_fair(object: &[u32]) -> Fair
    ensures { fair_of result ≡ fair_answer (object_of object.now) }
{
    fair::is_fair(object).into()
}

// What lending the object costs a member college, or another one.
#[unsafe(no_mangle)]
pub extern "C" fn runs_tariff(object: &[u32], member: bool) -> Fee
    ensures { fee_of result ≡ lending_fee object.now member }
{
    tariff::lending_fee(object, member).into()
}

// Does this read as binary? Number, and length in words.
#[unsafe(no_mangle)]
pub extern "C" fn runs_binary_length(bytes: &[u8]) -> Filled
    ensures { measured_told result ≡ measured (read_binary bytes.now) }
{
    BinaryFormat::new().length(bytes).into()
}

// Binary read.
#[unsafe(no_mangle)]
pub extern "C" fn runs_binary_read(bytes: &[u8], out: &mut [u32]) -> Filled
    ensures { ReadsBinary bytes.now out.old (filled_told result out.new) }
{
    BinaryFormat::new().deserialize(bytes, out).into()
}

// Binary write.
#[unsafe(no_mangle)]
pub extern "C" fn runs_binary_write(object: &[u32], out: &mut [u8]) -> Filled
    ensures { WritesBinary object.now out.old (filled_told result out.new) }
{
    BinaryFormat::new().serialize(object, out).into()
}

// Does this read as text? Number, and length in words.
#[unsafe(no_mangle)]
pub extern "C" fn runs_text_length(bytes: &[u8]) -> Filled
    ensures { measured_told result ≡ measured (read_text bytes.now) }
{
    TextFormat::new().length(bytes).into()
}

// Text read.
#[unsafe(no_mangle)]
pub extern "C" fn runs_text_read(bytes: &[u8], out: &mut [u32]) -> Filled
    ensures { ReadsText bytes.now out.old (filled_told result out.new) }
{
    TextFormat::new().deserialize(bytes, out).into()
}

// Text write.
#[unsafe(no_mangle)]
pub extern "C" fn runs_text_write(object: &[u32], out: &mut [u8]) -> Filled
    ensures { WritesText object.now out.old (filled_told result out.new) }
{
    TextFormat::new().serialize(object, out).into()
}
