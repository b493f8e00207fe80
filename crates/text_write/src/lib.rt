// Writing the text form: its parts, each a walk along the records of an object that is well formed. Rooms are measured first, so that
// what is written fits.
#![tactic(auto)]

mod lines;

ghost use Rattle.std.specs.Prelude.{◌≡◌, false, not, ◌||◌, eqb, ◌≤◌, length};
ghost use Rattle.object.specs.Bodies.{kind_number};
ghost use Rattle.format.specs.Calls.{checked, fill, write_text};
ghost use Rattle.units.specs.Refusal.{filled_of};
ghost use Rattle.format.specs.TextWriter.{bar_line, blocks_only};
ghost use Rattle.writing.specs.Written.{Put};
ghost use Rattle.measuring.specs.Room.{room_of, less_part};
ghost use Rattle.text_write.specs.Groups.{linker_text, links_text, names_text, lines_text, debug_text};
ghost use Rattle.text_write.specs.Groups.{groups_text, rest_text, file_text};
ghost use Rattle.text_write.specs.Layouts.{Links, SourceOf, Planned, PlanOf};
ghost use Rattle.text_write.specs.Tables.{object_in};

use label_tables::{measure_labels, measure_symbols};
use label_windows::{put_label_table, put_symbol_table};
use lines::{Plan, Source, measure_source, plan_source, put_line_table};
use measuring::take;
use object::{Kind, body_end};
use text_parts_out::{measure_blocks, measure_relocations, put_blocks, put_relocations};
use units::Refusal;
use writing::{put_bytes, put_u8};

// The room that the linker table leaves: its header needs room only if there are rows.
fn measure_linker(room: usize, ws: &[u32], from: usize) -> Option<usize>
    requires { Links ws.now from }
    ensures { room_of result ≡ less_part room (linker_text ws.now) }
{
    let left = measure_relocations(room, ws, from)?;
    if left == room {
        return Some(room);
    }
    take(left, 13)
}

// Whether a record of this kind is neither a block nor a line block.
fn is_symbolic(k: Kind) -> bool
    ensures { result ≡ not (eqb (kind_number k) 0 || eqb (kind_number k) 3) }
{
    match k {
        Kind::Block | Kind::LineBlock => false,
        _ => true,
    }
}

// Whether an object has blocks only: line blocks need a source, so they don't count.
fn blocks_only(ws: &[u32]) -> bool
    requires { checked ws.now ≡ 0 }
    ensures { result ≡ blocks_only (object_in ws.now) }
{
    let mut at = 0;
    while at < ws.len() {
        if is_symbolic(Kind::of(ws[at])) {
            return false;
        }
        at = body_end(ws, at + 1);
    }
    true
}

// The room that the groups past .TEXT leave: their 81 bytes of fixed lines first, then the tables.
fn measure_groups(room: usize, ws: &[u32], plan: Option<Plan>) -> Option<usize>
    requires { (checked ws.now ≡ 0) × PlanOf ws.now plan }
    ensures { room_of result ≡ less_part room (groups_text ws.now) }
{
    let Some(p) = plan else {
        return Some(room);
    };
    let a = take(room, 81)?;
    let b = measure_symbols(ws, a)?;
    let c = measure_linker(b, ws, p.links)?;
    let d = measure_labels(ws, p.widths, c)?;
    measure_source(d, ws, p.source)
}

// The room that the text file leaves: 22 bytes of fixed lines, the blocks, and the groups.
fn measure_file(room: usize, ws: &[u32], plan: Option<Plan>) -> Option<usize>
    requires { (checked ws.now ≡ 0) × PlanOf ws.now plan }
    ensures { room_of result ≡ less_part room (file_text ws.now) }
{
    let a = take(room, 22)?;
    let b = measure_blocks(a, ws)?;
    measure_groups(b, ws, plan)
}

// .LINKER_INFO after an empty line; its table has a header only if there are rows.
fn put_links(out: &mut [u8], ws: &[u32], from: usize) -> usize
    requires { (length (links_text ws.now) ≤ length out.old) × Links ws.now from }
    ensures { Put (links_text ws.now) out.old result out.new }
{
    if ws.len() <= from {
        return put_bytes(out, b"\n.LINKER_INFO\n");
    }
    let n = put_bytes(out, b"\n.LINKER_INFO\nADDR | LABEL\n");
    n + put_relocations(&mut out[n..], ws, from)
}

// After an empty line, .SYMBOL and .LINKER_INFO.
fn put_names(out: &mut [u8], ws: &[u32], from: usize) -> usize
    requires { (checked ws.now ≡ 0) × (length (names_text ws.now) ≤ length out.old) × Links ws.now from }
    ensures { Put (names_text ws.now) out.old result out.new }
{
    let mut n = put_bytes(out, b"\n.SYMBOL\n");
    n += put_symbol_table(&mut out[n..], ws);
    n + put_links(&mut out[n..], ws, from)
}

// A divider line.
fn put_bar(out: &mut [u8]) -> usize
    ensures { Put bar_line out.old result out.new }
{
    put_bytes(out, b"====================\n")
}

// A divider line, and with a source the line table and another one.
fn put_lines(out: &mut [u8], ws: &[u32], source: Option<Source>) -> usize
    requires { (checked ws.now ≡ 0) × (length (lines_text ws.now) ≤ length out.old) × SourceOf ws.now source }
    ensures { Put (lines_text ws.now) out.old result out.new }
{
    let mut n = put_bar(out);
    let Some(p) = source else {
        return n;
    };
    n += put_line_table(&mut out[n..], ws, p);
    n + put_bar(&mut out[n..])
}

// .DEBUG after an empty line: its fixed lines, the label table, and the line table.
fn put_debug(out: &mut [u8], ws: &[u32], p: Plan) -> usize
    requires { (checked ws.now ≡ 0) × (length (debug_text ws.now) ≤ length out.old) × Planned ws.now p }
    ensures { Put (debug_text ws.now) out.old result out.new }
{
    let mut n = put_bytes(out, b"\n.DEBUG\n# DEBUG SYMBOLS FOR LC3TOOLS\n\n");
    n += put_label_table(&mut out[n..], ws, p.widths);
    n + put_lines(&mut out[n..], ws, p.source)
}

// An empty line, and the groups past .TEXT; none where the object has blocks only.
fn put_rest(out: &mut [u8], ws: &[u32], plan: Option<Plan>) -> usize
    requires { (checked ws.now ≡ 0) × (length (rest_text ws.now) ≤ length out.old) × PlanOf ws.now plan }
    ensures { Put (rest_text ws.now) out.old result out.new }
{
    let Some(p) = plan else {
        return put_u8(out, 0x0A);
    };
    let n = put_names(out, ws, p.links);
    n + put_debug(&mut out[n..], ws, p)
}

// The text file of a well formed object: the fixed lines at the front, the blocks, and the rest.
fn put_file(out: &mut [u8], ws: &[u32], plan: Option<Plan>) -> usize
    requires { (checked ws.now ≡ 0) × (length (file_text ws.now) ≤ length out.old) × PlanOf ws.now plan }
    ensures { Put (file_text ws.now) out.old result out.new }
{
    let mut n = put_bytes(out, b"LC-3 OBJ FILE\n\n.TEXT\n");
    n += put_blocks(&mut out[n..], ws);
    n + put_rest(&mut out[n..], ws, plan)
}

// The plan of a well formed object; none where it has blocks only.
fn plan_of(ws: &[u32]) -> Option<Plan>
    requires { checked ws.now ≡ 0 }
    ensures { PlanOf ws.now result }
{
    if blocks_only(ws) {
        return None;
    }
    Some(plan_source(ws))
}

// Writes the text file of an object. Every check comes before the first byte.
pub fn write_text(object: &[u32], out: &mut [u8]) -> Result<usize, Refusal>
    ensures { filled_of result out.new ≡ fill (write_text object.now) out.old }
{
    well_formed::check(object)?;
    let plan = plan_of(object);
    if measure_file(out.len(), object, plan).is_none() {
        return Err(Refusal::ShortBuffer);
    }
    Ok(put_file(out, object, plan))
}
