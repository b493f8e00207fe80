// The grammar of the binary form: the questions 11 to 14, record by record.
#![tactic(auto)]

ghost use Rattle.std.specs.Prelude.{◌≡◌, ◌+◌, drop, IfSome};
ghost use Rattle.format.specs.ObjectFile.{strictly_rise};
ghost use Rattle.format.specs.Tokens.{tokens};
ghost use Rattle.format.specs.Binary.{bytes_at, record_at, addresses_from};
ghost use Rattle.format.specs.Calls.{refusal_of};
ghost use Rattle.cursor.specs.Taken.{taken_bytes};
ghost use Rattle.units.specs.Refusal.{number_in};
ghost use Rattle.binary_scan.specs.Scan.{fixed_bytes, body_bytes, take_record, body_number};

use bytes_at::{u16_at, u64_at};
use cursor::Cursor;
use units::Refusal;
use utf8::is_utf8;

// Records are of kinds 0 to this.
const LAST_KIND: u8 = 4;

// How many bytes every record of a kind has after its kind byte.
fn fixed_bytes(k: u8) -> u64
    ensures { result ≡ fixed_bytes k }
{
    match k {
        0 => 4,
        1 => 19,
        3 => 8,
        _ => 10,
    }
}

// How many bytes the body of a record has, by its count or its length; the record's bytes after its kind byte start at a place.
fn body_bytes(s: &[u8], k: u8, at: usize) -> u64
    ensures { result ≡ body_bytes k (drop at s.now) }
{
    match k {
        0 => 3 * u64::from(u16_at(s, at, 2)),
        1 => u64_at(s, at, 11),
        2 => 2 * u64::from(u16_at(s, at, 8)),
        3 => u64_at(s, at, 0),
        _ => u64_at(s, at, 2),
    }
}

// Takes a record after its kind byte: its body, where all its bytes are there.
pub fn take_record(s: &[u8], c: Cursor, k: u8) -> Option<(&[u8], Cursor)>
    ensures places { taken_bytes result ≡ take_record k s.now c.at }
    ensures body { IfSome result (λ p. p.0.now ≡ bytes_at (c.at + fixed_bytes k) (body_bytes k (drop c.at s.now)) s.now) }
{
    let (_, body) = c.take_bytes(s, fixed_bytes(k))?;
    body.take_bytes(s, body_bytes(s, k, c.at))
}

// The addresses of a line block rise strictly. The loop asks for four bytes, so that reading them asks no more; a `for` over places does.
fn rises(s: &[u8]) -> bool
    ensures { result ≡ strictly_rise (addresses_from s.now) }
{
    let mut i = 0;
    let n = s.len();
    while 4 <= n - i {
        if u16_at(s, i, 2) <= u16_at(s, i, 0) {
            return false;
        }
        i += 2;
    }
    true
}

// Whether the body of a record is in order: its addresses rise, or its text is UTF-8.
pub fn check_body(body: &[u8], k: u8) -> Result<(), Refusal>
    ensures { number_in result ≡ body_number k body.now }
{
    match k {
        0 => Ok(()),
        2 => {
            if rises(body) {
                Ok(())
            } else {
                Err(Refusal::UnsortedAddresses)
            }
        }
        _ => {
            if is_utf8(body) {
                Ok(())
            } else {
                Err(Refusal::RecordNotUtf8)
            }
        }
    }
}

// The questions after the header, record by record: the first that is answered no.
pub fn scan(s: &[u8]) -> Result<(), Refusal>
    ensures { number_in result ≡ refusal_of (tokens record_at 0 (drop 7 s.now)) }
{
    let mut at = 7;
    while at < s.len() {
        let k = s[at];
        if LAST_KIND < k {
            return Err(Refusal::UnknownRecord);
        }
        let first = Cursor { at: at + 1 };
        let Some((body, next)) = take_record(s, first, k) else {
            return Err(Refusal::MissingBytes);
        };
        check_body(body, k)?;
        at = next.at;
    }
    Ok(())
}
