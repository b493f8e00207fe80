// Whether an object is fair (document 01, "Fair"): what the trips keep is said of fair objects alone, so the clerk has to be able to ask.
#![tactic(auto)]

ghost use Rattle.std.specs.Prelude.{◌≡◌, true, [], ◌∷◌, map, ◌+◌, ◌^◌, ◌<◌, length, get_or};
ghost use Rattle.format.specs.Basics.{given, every};
ghost use Rattle.format.specs.Utf8.{is_utf8};
ghost use Rattle.format.specs.ObjectFile.{strictly_rise, names_of};
ghost use Rattle.format.specs.Records.{placed};
ghost use Rattle.format.specs.Words.{object_of, record_from};
ghost use Rattle.format.specs.Fair.{no_white_space, is_fair_name};
ghost use Rattle.format.specs.Calls.{checked, fair_answer};
ghost use Rattle.object.specs.Bodies.{body_at, text_at, Text};
ghost use Rattle.object.specs.Texts.{text_bytes};
ghost use Rattle.object.specs.Access.{address_in, line_block_at, record_at};
ghost use Rattle.fair.specs.FairRecords.{answer_of, fair_lines, fair_step, step_of, FairIn, BlocksIn};

use object::Kind;
use units::Refusal;

// A fair name doesn't begin with it, since a line that does is a comment.
const HASH: u8 = b'#';

// The most addresses of a fair line block.
const MOST_ADDRESSES: usize = 65535;

// None of the characters of a text is White_Space.
fn has_no_white_space(ws: &[u32], at: usize, n: usize) -> bool
    requires { is_utf8 (text_bytes ws.now at n) ≡ true }
    ensures { result ≡ no_white_space (text_bytes ws.now at n) }
{
    let mut p = 0;
    loop {
        let Some(c) = word_chars::char_in(ws, at, p, n) else {
            return true;
        };
        if trim::is_white_space(c.value) {
            return false;
        }
        p += c.more + 1;
    }
}

// "every name has at least one character, no Unicode White_Space, and does not begin with `.`, `#` or `=`"
fn is_fair_name(ws: &[u32], at: usize) -> bool
    requires { Text (body_at ws.now at) × (is_utf8 (text_at ws.now at) ≡ true) }
    ensures { result ≡ is_fair_name (text_at ws.now at) }
{
    let n = object::text_len(ws, at, object::body_end(ws, at));
    if n == 0 {
        return false;
    }
    let first = object::text_byte(ws, at, 0);
    if first == b'.' {
        return false;
    }
    if first == HASH {
        return false;
    }
    if first == b'=' {
        return false;
    }
    has_no_white_space(ws, at, n)
}

// The addresses of a line block from a place on rise strictly.
fn rises(ws: &[u32], at: usize) -> bool
    ensures { result ≡ strictly_rise (map address_in (body_at ws.now at)) }
{
    let mut least = 0;
    for i in at..ws.len() {
        if !object::goes_on(ws, i) {
            return true;
        }
        let a = ws[i] % 0x1_0000;
        if a < least {
            return false;
        }
        least = a + 1;
    }
    true
}

// A line block that begins at line `least` or later, in a source whose last line has the number `last`.
fn is_fair_line_block(ws: &[u32], at: usize, last: u64, least: u64) -> bool
    requires { at < length ws.now }
    ensures { result ≡ fair_lines last least (line_block_at ws.now at) }
{
    let body = at + 1;
    let first = object::number_at(ws, body);
    let n = object::body_len(ws, body + 3);
    if first < least {
        return false;
    }
    if n < 1 {
        return false;
    }
    if MOST_ADDRESSES < n {
        return false;
    }
    if !rises(ws, body + 3) {
        return false;
    }
    if last < first {
        return false;
    }
    n as u64 <= last - first
}

// Where the next line block may begin at the earliest after a record of a well formed object, if the record is fair.
fn fair_record(ws: &[u32], at: usize, last: u64, least: u64) -> Option<u64>
    requires { (at < length ws.now) × (last + 1 < 2 ^ 64) × (body_at ws.now at ≡ [])
        × (record_from (get_or ws.now at 0, body_at ws.now (at + 1)) ≡ given (record_at ws.now at))
        × (every is_utf8 (names_of (placed (record_at ws.now at ∷ []))) ≡ true) }
    ensures { step_of result ≡ fair_step last least (record_at ws.now at) }
{
    let body = at + 1;
    match Kind::of(ws[at]) {
        Kind::Label => is_fair_name(ws, body + 3).then_some(least),
        Kind::Relocation => is_fair_name(ws, body).then_some(least),
        Kind::LineBlock => {
            if !is_fair_line_block(ws, at, last, least) {
                return None;
            }
            let n = object::body_len(ws, body + 3);
            Some(object::number_at(ws, body) + n as u64 + 1)
        }
        _ => Some(least),
    }
}

// The records of a well formed object that has a source, whose last line has the number `last`.
fn fair_records(ws: &[u32], last: u64) -> bool
    requires { (checked ws.now ≡ 0) × (last + 1 < 2 ^ 64) }
    ensures { FairIn ws.now last result }
{
    let mut at = 0;
    let mut least = 0;
    while at < ws.len() {
        let body = at + 1;
        let Some(next) = fair_record(ws, at, last, least) else {
            return false;
        };
        least = next;
        at = object::body_end(ws, body);
    }
    true
}

// "blocks only"
fn has_blocks_only(ws: &[u32]) -> bool
    ensures { BlocksIn ws.now result }
{
    let mut at = 0;
    while at < ws.len() {
        let body = at + 1;
        if Kind::of(ws[at]) != Kind::Block {
            return false;
        }
        at = object::body_end(ws, body);
    }
    true
}

// Whether the object is fair.
pub fn is_fair(object: &[u32]) -> Result<bool, Refusal>
    ensures { answer_of result ≡ fair_answer (object_of object.now) }
{
    match source_info::count_lines(object) {
        Ok(lines) => Ok(fair_records(object, lines - 1)),
        Err(refusal) => match refusal {
            Refusal::NoSource => Ok(has_blocks_only(object)),
            _ => Err(refusal),
        },
    }
}
