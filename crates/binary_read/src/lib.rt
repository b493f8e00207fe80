// The reader of the binary form (document 01, "Binary form"): the header, then the records.
#![tactic(auto)]

ghost use Rattle.std.specs.Prelude.{◌≡◌};
ghost use Rattle.format.specs.Calls.{read_binary, measured, fill, ReadsBinary};
ghost use Rattle.units.specs.Refusal.{number_in, measured_of, filled_of};
ghost use Rattle.binary_sizes.specs.ObjectWords.{object_words};
ghost use Rattle.binary_read.specs.AfterHeader.{after_header, answer_of};

use binary_emit::put_words;
use binary_header::has_header;
use binary_scan::scan;
use binary_sizes::words_length;
use binary_words::lines_apart;
use units::Refusal;

// The questions after the header: the first that is answered no.
fn check_records(s: &[u8]) -> Result<(), Refusal>
    ensures { after_header s.now ≡ answer_of (number_in result) (object_words s.now) }
{
    scan(s)?;
    if !lines_apart(s) {
        return Err(Refusal::OverlappingLines);
    }
    Ok(())
}

// How many words the file gives, or the first question after the header that is answered no.
fn records_length(s: &[u8]) -> Result<usize, Refusal>
    ensures { measured_of result ≡ measured (after_header s.now) }
{
    check_records(s)?;
    Ok(words_length(s))
}

// The words of the file, or the first question after the header that is answered no, or that of the buffer.
fn read_records(s: &[u8], out: &mut [u32]) -> Result<usize, Refusal>
    ensures { filled_of result out.new ≡ fill (after_header s.now) out.old }
{
    check_records(s)?;
    put_words(s, out)
}

// How many words a binary file makes, or the first question that is answered no, 10 to 15.
pub fn binary_length(s: &[u8]) -> Result<usize, Refusal>
    ensures { measured_of result ≡ measured (read_binary s.now) }
{
    if has_header(s) {
        records_length(s)
    } else {
        Err(Refusal::NoHeader)
    }
}

// The words of a binary file, or the first question that is answered no, 10 to 15; 3 where the buffer is too short.
pub fn read_binary(s: &[u8], out: &mut [u32]) -> Result<usize, Refusal>
    ensures { ReadsBinary s.now out.old (filled_of result out.new) }
{
    if !has_header(s) {
        return Err(Refusal::NoHeader);
    }
    read_records(s, out)
}
