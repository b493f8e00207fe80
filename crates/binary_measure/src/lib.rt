// What is asked of an object before it is written in the binary form, and where its records end.
#![tactic(auto)]

ghost use Rattle.std.specs.Prelude.{◌≡◌, length};
ghost use Rattle.format.specs.Binary.{record_bytes};
ghost use Rattle.format.specs.Calls.{checked};
ghost use Rattle.units.specs.Refusal.{number_in};
ghost use Rattle.object.specs.Access.{record_at};
ghost use Rattle.binary_measure.specs.Measured.{EndsText, EndsRecord, Stands, count_fits, room_number, write_number};
ghost use Rattle.binary_measure.specs.Rooms.{Takes};

use object::Kind;
use units::Refusal;

// What is left of a room of which `n` more is taken; nothing once it is too short.
fn take(room: Option<usize>, n: usize) -> Option<usize>
    ensures { Takes room n result }
{
    let left = room?;
    left.checked_sub(n)
}

// Where the words of a text end. Its words are of one kind, so a single test a word serves.
fn text_end(ws: &[u32], at: usize) -> usize
    ensures { EndsText ws.now at result }
{
    for i in at..ws.len() {
        if ws[i] < 0xE000_0000 {
            return i;
        }
    }
    at.max(ws.len())
}

// Where a record ends. The source may be most of an object, so it is passed by the shorter test.
pub fn record_end(ws: &[u32], at: usize) -> usize
    ensures { EndsRecord ws.now at result }
{
    if ws.len() <= at {
        return at;
    }
    let body = at + 1;
    if Kind::of(ws[at]) == Kind::Source {
        return text_end(ws, body);
    }
    object::body_end(ws, body)
}

// How many bytes a record has.
fn record_len(ws: &[u32], at: usize, end: usize) -> usize
    requires { Stands ws.now at end }
    ensures { result ≡ length (record_bytes (record_at ws.now at)) }
{
    let body = at + 1;
    let rest = body + 3;
    match Kind::of(ws[at]) {
        Kind::Block => 5 + 3 * (end - body),
        Kind::Label => 20 + object::text_len(ws, rest, end),
        Kind::Source => 9 + object::text_len(ws, body, end),
        Kind::Relocation => 11 + object::text_len(ws, body, end),
        _ => 11 + 2 * (end - rest),
    }
}

// Of a line block, whether it has at most 65,535 addresses.
fn count_fits(ws: &[u32], at: usize, end: usize) -> bool
    requires { Stands ws.now at end }
    ensures { result ≡ count_fits (record_at ws.now at) }
{
    if Kind::of(ws[at]) != Kind::LineBlock {
        return true;
    }
    let body = at + 1;
    let addresses = body + 3;
    end - addresses <= 0xFFFF
}

// What is asked of a well formed object before it is written after `used` bytes into a buffer of length `room`: 2, then 3.
fn measure(ws: &[u32], used: usize, room: usize) -> Result<(), Refusal>
    requires { checked ws.now ≡ 0 }
    ensures { number_in result ≡ room_number ws.now used room }
{
    let mut space = take(Some(room), used);
    let mut at = 0;
    while at < ws.len() {
        let end = record_end(ws, at);
        if !count_fits(ws, at, end) {
            return Err(Refusal::TooManyAddresses);
        }
        let n = record_len(ws, at, end);
        space = take(space, n);
        at = end;
    }
    match space {
        Some(_) => Ok(()),
        None => Err(Refusal::ShortBuffer),
    }
}

// What is asked of a write: is the object well formed, do its counts fit, and does its file fit after `used` bytes into a buffer of length
// `room`?
pub fn check_write(object: &[u32], used: usize, room: usize) -> Result<(), Refusal>
    ensures { number_in result ≡ write_number object.now used room }
{
    well_formed::check(object)?;
    measure(object, used, room)
}
