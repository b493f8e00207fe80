// Whether a slice of words is a well formed object (document 01, "The holding"), in one walk along its records.
#![tactic(auto)]

ghost use Rattle.std.specs.Prelude.{◌≡◌, true, ◌<◌, length, get_or, nat_le};
ghost use Rattle.format.specs.Sorted.{order, is_less};
ghost use Rattle.format.specs.Words.{is_head};
ghost use Rattle.format.specs.Calls.{checked};
ghost use Rattle.units.specs.Refusal.{number_in};
ghost use Rattle.object.specs.Bodies.{body_at, text_at, Text};
ghost use Rattle.well_formed.specs.Steps.{part_of, key_in, end_of, Known, At, Moved, Stepped};

use object::{Kind, goes_on, read_number};
use units::Refusal;
use word_checks::{addresses_end, is_apart, memory_end, rank, text_end};

// What a record is sorted by: its part, and in it an address, a first line, or where its name starts. `Start` comes before every record.
#[derive(Clone, Copy)]
enum Key {
    Start,
    Block(u32),
    Label(usize),
    LineBlock(u64),
    Source,
    Relocation(u32),
}

// A line block's first line, and how many it has.
#[derive(Clone, Copy)]
struct Lines {
    first: u64,
    count: usize,
}

// What the records so far leave to check: the last record's key, the last line block, and whether there was a source.
#[derive(Clone, Copy)]
struct Seen {
    key: Key,
    lines: Option<Lines>,
    sourced: bool,
}

impl Key {
    // How many parts come before its own.
    fn part(self) -> u8
        ensures { result ≡ part_of self }
    {
        match self {
            Key::Start => 0,
            Key::Block(_) => 1,
            Key::Label(_) => 2,
            Key::LineBlock(_) => 3,
            Key::Source => 4,
            Key::Relocation(_) => 5,
        }
    }
}

// Whether the text at `a` comes before that at `b`. Both are walked at once, each up to its own end: a `for` over one of them would count the
// other by hand.
fn text_below(ws: &[u32], a: usize, b: usize) -> bool
    requires { Text (body_at ws.now a) × Text (body_at ws.now b) }
    ensures { result ≡ is_less (order (text_at ws.now a) (text_at ws.now b)) }
{
    let mut i = a;
    let mut j = b;
    while goes_on(ws, j) {
        if !goes_on(ws, i) {
            return true;
        }
        let v = ws[i];
        let w = ws[j];
        if v != w {
            return rank(v) < rank(w);
        }
        i += 1;
        j += 1;
    }
    false
}

// Whether a record with the key `b` may follow one with the key `a`.
fn rises(ws: &[u32], a: Key, b: Key) -> bool
    requires { Known ws.now a × Known ws.now b }
    ensures { result ≡ is_less (order (key_in ws.now a) (key_in ws.now b)) }
{
    match (a, b) {
        (Key::Label(x), Key::Label(y)) => text_below(ws, x, y),
        (Key::Block(x), Key::Block(y)) => x < y,
        (Key::LineBlock(x), Key::LineBlock(y)) => x < y,
        (Key::Relocation(x), Key::Relocation(y)) => x < y,
        _ => a.part() < b.part(),
    }
}

impl Seen {
    // The same past a record with a key, if the key may follow. Put into its callers: a copy of what was seen for each record is dear.
    #[inline(always)]
    fn past(self, ws: &[u32], key: Key) -> Option<Seen>
        requires { Known ws.now self.key × Known ws.now key }
        ensures { Moved ws.now self key result }
    {
        if !rises(ws, self.key, key) {
            return None;
        }
        Some(Seen { key, ..self })
    }
}

// Whether a line block may begin at the line `next`, by the one before it.
fn is_free(lines: Option<Lines>, next: u64) -> bool
    ensures { result ≡ nat_le (end_of lines) next }
{
    match lines {
        Some(last) => is_apart(last.first, last.count, next),
        None => true,
    }
}

// A record of each kind: where it ends, and what the records up to it leave to check.
fn block(ws: &[u32], at: usize, seen: Seen) -> Option<(usize, Seen)>
    requires { At 0 ws.now at seen }
    ensures { Stepped ws.now at seen result }
{
    let w = ws[at];
    if w / 0x1_0000 != 0 {
        return None;
    }
    let n = memory_end(ws, at + 1)?;
    if 65536 < n - at {
        return None;
    }
    let past = seen.past(ws, Key::Block(w))?;
    Some((n, past))
}

fn label(ws: &[u32], at: usize, seen: Seen) -> Option<(usize, Seen)>
    requires { At 2 ws.now at seen }
    ensures { Stepped ws.now at seen result }
{
    let w = ws[at];
    if w / 0x2_0000 != 0x2000 {
        return None;
    }
    let body = at + 1;
    let _ = read_number(ws, body)?;
    let text = body + 3;
    let n = text_end(ws, text)?;
    let past = seen.past(ws, Key::Label(text))?;
    Some((n, past))
}

fn line_block(ws: &[u32], at: usize, seen: Seen) -> Option<(usize, Seen)>
    requires { At 3 ws.now at seen }
    ensures { Stepped ws.now at seen result }
{
    let w = ws[at];
    if w != 0x6000_0000 {
        return None;
    }
    let body = at + 1;
    let first = read_number(ws, body)?;
    let addresses = body + 3;
    let n = addresses_end(ws, addresses)?;
    if !is_free(seen.lines, first) {
        return None;
    }
    let past = seen.past(ws, Key::LineBlock(first))?;
    let lines = Lines {
        first,
        count: n - addresses,
    };
    Some((
        n,
        Seen {
            lines: Some(lines),
            ..past
        },
    ))
}

fn source(ws: &[u32], at: usize, seen: Seen) -> Option<(usize, Seen)>
    requires { At 4 ws.now at seen }
    ensures { Stepped ws.now at seen result }
{
    let w = ws[at];
    if w != 0x8000_0000 {
        return None;
    }
    let n = text_end(ws, at + 1)?;
    let past = seen.past(ws, Key::Source)?;
    Some((
        n,
        Seen {
            sourced: true,
            ..past
        },
    ))
}

fn relocation(ws: &[u32], at: usize, seen: Seen) -> Option<(usize, Seen)>
    requires { At 5 ws.now at seen }
    ensures { Stepped ws.now at seen result }
{
    let w = ws[at];
    if w / 0x1_0000 != 0xA000 {
        return None;
    }
    let n = text_end(ws, at + 1)?;
    let past = seen.past(ws, Key::Relocation(w % 0x1_0000))?;
    Some((n, past))
}

// The record at a place, which begins one.
fn advance(ws: &[u32], at: usize, seen: Seen) -> Option<(usize, Seen)>
    requires { (at < length ws.now) × (is_head (get_or ws.now at 0) ≡ true) × Known ws.now seen.key }
    ensures { Stepped ws.now at seen result }
{
    match Kind::of(ws[at]) {
        Kind::Block => block(ws, at, seen),
        Kind::Label => label(ws, at, seen),
        Kind::LineBlock => line_block(ws, at, seen),
        Kind::Source => source(ws, at, seen),
        _ => relocation(ws, at, seen),
    }
}

// Whether an object is well formed.
pub fn check(object: &[u32]) -> Result<(), Refusal>
    ensures { number_in result ≡ checked object.now }
{
    if goes_on(object, 0) {
        return Err(Refusal::NotWellFormed);
    }
    let mut seen = Seen {
        key: Key::Start,
        lines: None,
        sourced: false,
    };
    let mut at = 0;
    while at < object.len() {
        let Some((n, s)) = advance(object, at, seen) else {
            return Err(Refusal::NotWellFormed);
        };
        seen = s;
        at = n;
    }
    if seen.lines.is_some() && !seen.sourced {
        return Err(Refusal::NotWellFormed);
    }
    Ok(())
}
