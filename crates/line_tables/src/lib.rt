// Line blocks asked by line and by address (document 01, "Line and source tables"; LineSymbolMap of 001).
#![tactic(auto)]

ghost use Rattle.std.specs.Prelude.{◌≡◌, map, ◌<◌, length};
ghost use Rattle.std.proofs.Math.Option.{some};
ghost use Rattle.format.specs.Source.{offset_of};
ghost use Rattle.format.specs.Calls.{query_get, query_find};
ghost use Rattle.object.specs.Bodies.{body_at};
ghost use Rattle.object.specs.Access.{address_in, line_block_at};
ghost use Rattle.line_tables.specs.Tables.{line_answer, address_answer, offset_in, line_found, address_found, line_by, address_by, Begins, FoundIn, LastIn};

use object::Kind;
use source_info::source_of;
use units::{Address, Line, Refusal};

// How many address words from a place on come before the first that has the address, if one has.
fn offset_of(ws: &[u32], at: usize, a: u16) -> Option<usize>
    ensures { offset_in result ≡ offset_of a (map address_in (body_at ws.now at)) }
{
    let wanted = a as u32;
    for i in at..ws.len() {
        if !object::goes_on(ws, i) {
            return None;
        }
        if ws[i] % 0x1_0000 == wanted {
            return Some(i - at);
        }
    }
    None
}

// The line of an address by the line block at a place, if it has the address; past the largest 64-bit value it comes wrapped.
fn line_in(ws: &[u32], at: usize, a: u16) -> Option<Line>
    requires { at < length ws.now }
    ensures { line_found result ≡ line_by (line_block_at ws.now at) a }
{
    let body = at + 1;
    let offset = offset_of(ws, body + 3, a)?;
    Some(Line(object::number_at(ws, body)).wrapping_add(offset as u64))
}

// Of a well formed object, the line of an address by the first line block that has it.
fn find_in(ws: &[u32], a: u16) -> Result<Line, Refusal>
    ensures { FoundIn ws.now a result }
{
    let mut at = 0;
    while at < ws.len() {
        let body = at + 1;
        if Kind::of(ws[at]) == Kind::LineBlock {
            if let Some(line) = line_in(ws, at, a) {
                return Ok(line);
            }
        }
        at = object::body_end(ws, body);
    }
    Err(Refusal::NotMapped)
}

// The line of an address: the lowest of the first line block that has it.
pub fn find(object: &[u32], address: Address) -> Result<Line, Refusal>
    ensures { line_answer result ≡ query_find object.now address.0 }
{
    source_of(object)?;
    find_in(object, address.0)
}

// Of a well formed object, the place of the last line block that begins at or before a line, if one does.
fn last_starting(ws: &[u32], line: u64) -> Option<usize>
    ensures { LastIn ws.now line result }
{
    let mut last = None;
    let mut at = 0;
    while at < ws.len() {
        let body = at + 1;
        if Kind::of(ws[at]) == Kind::LineBlock && object::number_at(ws, body) <= line {
            last = Some(at);
        }
        at = object::body_end(ws, body);
    }
    last
}

// The address of a line by the line block at a place, which begins at or before the line.
fn address_in(ws: &[u32], at: usize, line: u64) -> Option<Address>
    requires { Begins ws.now at line }
    ensures { address_found result ≡ address_by (some (line_block_at ws.now at)) line }
{
    let body = at + 1;
    let words = body + 3;
    let offset = (line - object::number_at(ws, body)) as usize;
    if object::body_len(ws, words) <= offset {
        return None;
    }
    Some(Address((ws[words + offset] % 0x1_0000) as u16))
}

// The address of a line.
pub fn get(object: &[u32], line: Line) -> Result<Address, Refusal>
    ensures { address_answer result ≡ query_get object.now line.0 }
{
    source_of(object)?;
    let Some(at) = last_starting(object, line.0) else {
        return Err(Refusal::NotMapped);
    };
    address_in(object, at, line.0).ok_or(Refusal::NotMapped)
}
