// The line table of the text form: what is found of it in one walk along the line blocks and one along the source, and its parts.
ghost use Rattle.std.specs.Prelude.{◌≡◌, false, ◌+◌, ◌≤◌, ◌<◌, length, ltb};
ghost use Rattle.object.specs.Bodies.{kind_number};
ghost use Rattle.format.specs.Calls.{checked};
ghost use Rattle.format.specs.TextWriter.{line_table, line_width, add_blocks, plain_rows, blocks_only};
ghost use Rattle.writing.specs.Written.{Put};
ghost use Rattle.measuring.specs.Room.{room_of, less_part};
ghost use Rattle.text_lines_out.specs.Merge.{wrapped};
ghost use Rattle.text_lines_out.specs.Walk.{line_blocks_in, Wraps, source_table};
ghost use Rattle.text_write.specs.Tables.{object_in};
ghost use Rattle.text_write.specs.Layouts.{planned_text, Past, First, Tabled, SourceOf, Planned};

use label_tables::{Widths, column_widths};
use measuring::take;
use object::{Kind, body_end, text_len};
use source_info::count_newlines;
use text_lines_out::{
    Run, Table, Wrapped, column_width, measure_line_header, put_line_header, top_at, wrapped_on,
};
use text_runs_out::{measure_line_records, measure_run, put_line_records, put_run};

// What all rows of an object's line table stand by: the width of the column of line numbers, and the words whose lines wrap.
#[derive(Clone, Copy)]
pub struct Layout {
    pub width: usize,
    pub wrapped: Wrapped,
}

// That for a source of so many lines, in one walk. Only the last line block can have lines that wrap.
fn lay_out(ws: &[u32], lines: u64, from: usize) -> Layout
    requires { (checked ws.now ≡ 0) × (1 ≤ lines) × Past ws.now from }
    ensures { (result.width ≡ line_width (add_blocks (line_blocks_in ws.now) (plain_rows 0 lines)))
        × Wraps ws.now (wrapped (line_blocks_in ws.now)) result.wrapped }
{
    let mut top = lines - 1;
    let mut wrapped = Wrapped { place: 0, count: 0 };
    let mut at = from;
    while at < ws.len() {
        top = top_at(ws, at, top);
        wrapped = wrapped_on(ws, at, wrapped);
        at = body_end(ws, at + 1);
    }
    let width = column_width(top);
    Layout { width, wrapped }
}

// What is found once of an object's source for measuring and writing: the source of `n` bytes and so many lines in the words from `text`
// on, the width of the column of line numbers, the words whose lines wrap, and where its line blocks may begin.
#[derive(Clone, Copy)]
pub struct Source {
    pub first: usize,
    pub text: usize,
    pub n: usize,
    pub lines: u64,
    pub width: usize,
    pub place: usize,
    pub count: usize,
}

// What is found once of an object that has more than blocks: where its relocations begin, the widths of its label table, and its source.
#[derive(Clone, Copy)]
pub struct Plan {
    pub links: usize,
    pub widths: Widths,
    pub source: Option<Source>,
}

// Whether a record of this kind comes past the labels.
fn is_past_labels(k: Kind) -> bool
    ensures { result ≡ ltb 2 (kind_number k) }
{
    match k {
        Kind::Block | Kind::Memory | Kind::Label => false,
        _ => true,
    }
}

// Where a well formed object goes on past its blocks and labels.
fn past_labels(ws: &[u32]) -> usize
    requires { checked ws.now ≡ 0 }
    ensures { Past ws.now result }
{
    let mut at = 0;
    while at < ws.len() {
        if is_past_labels(Kind::of(ws[at])) {
            return at;
        }
        at = body_end(ws, at + 1);
    }
    at
}

// Where its first record of a kind begins, its source or relocations, from there on; the end where it has none.
fn find(ws: &[u32], from: usize, k: Kind) -> usize
    requires { Past ws.now from }
    ensures { First ws.now (kind_number k) result }
{
    let mut at = from;
    while at < ws.len() {
        if Kind::of(ws[at]) == k {
            return at;
        }
        at = body_end(ws, at + 1);
    }
    at
}

// The source of a well formed object, whose source and line blocks lie from a place on.
fn source_in(ws: &[u32], first: usize) -> Option<Source>
    requires { (checked ws.now ≡ 0) × Past ws.now first }
    ensures { SourceOf ws.now result }
{
    let source = find(ws, first, Kind::Source);
    if ws.len() <= source {
        return None;
    }
    let at = source + 1;
    let end = body_end(ws, at);
    let n = text_len(ws, at, end);
    let lines = count_newlines(ws, at, n) + 1;
    let layout = lay_out(ws, lines, first);
    let wrapped = layout.wrapped;
    Some(Source {
        first,
        text: at,
        n,
        lines,
        width: layout.width,
        place: wrapped.place,
        count: wrapped.count,
    })
}

// The plan of a well formed object that has more than blocks.
pub(crate) fn plan_source(ws: &[u32]) -> Plan
    requires { (checked ws.now ≡ 0) × (false ≡ blocks_only (object_in ws.now)) }
    ensures { Planned ws.now result }
{
    let first = past_labels(ws);
    let links = find(ws, first, Kind::Relocation);
    let widths = column_widths(ws);
    let source = source_in(ws, first);
    Plan {
        links,
        widths,
        source,
    }
}

// The room that the line table leaves.
fn measure_line_table(room: usize, ws: &[u32], p: Source) -> Option<usize>
    requires { (checked ws.now ≡ 0) × Tabled ws.now p }
    ensures { room_of result
        ≡ less_part room (line_table (planned_text ws.now p) (line_blocks_in ws.now)) }
{
    let t = Table {
        text: p.text,
        n: p.n,
        width: p.width,
        lines: p.lines,
        wraps: p.count as u64,
    };
    let early = Run {
        first: 0,
        count: p.count,
        place: Some(p.place),
    };
    let left = measure_line_header(room, p.width)?;
    let rows = measure_run(left, ws, t, early, 0)?;
    measure_line_records(rows.left, ws, t, rows.start, p.first)
}

// The line table, written into a room that suffices.
pub(crate) fn put_line_table(out: &mut [u8], ws: &[u32], p: Source) -> usize
    requires { (checked ws.now ≡ 0) × Tabled ws.now p
        × (length (line_table (planned_text ws.now p) (line_blocks_in ws.now)) ≤ length out.old) }
    ensures { Put (line_table (planned_text ws.now p) (line_blocks_in ws.now)) out.old result
        out.new }
{
    let t = Table {
        text: p.text,
        n: p.n,
        width: p.width,
        lines: p.lines,
        wraps: p.count as u64,
    };
    let early = Run {
        first: 0,
        count: p.count,
        place: Some(p.place),
    };
    let mut len = put_line_header(out, p.width);
    let rows = put_run(&mut out[len..], ws, t, early, 0);
    len += rows.len;
    len + put_line_records(&mut out[len..], ws, t, rows.start, p.first)
}

// The room that the line table and the divider line after it leave; all of it without a source.
pub(crate) fn measure_source(room: usize, ws: &[u32], source: Option<Source>) -> Option<usize>
    requires { (checked ws.now ≡ 0) × SourceOf ws.now source }
    ensures { room_of result ≡ less_part room (source_table ws.now) }
{
    let Some(p) = source else {
        return Some(room);
    };
    let left = measure_line_table(room, ws, p)?;
    take(left, 21)
}
