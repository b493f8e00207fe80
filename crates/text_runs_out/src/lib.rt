// Rows of the line table with the lines of the source from a byte on, measured and written for any words: row by row, run by run, and in a
// walk from head to head along the line blocks. Where the room is too short, each row that still fits is written.
#![tactic(auto)]

ghost use Rattle.std.specs.Prelude.{◌≡◌, ◌<◌, length};
ghost use Rattle.writing.specs.Written.{Put};
ghost use Rattle.object.specs.Texts.{text_bytes};
ghost use Rattle.text_numerals.specs.Memory.{word_of};
ghost use Rattle.measuring.specs.Room.{room_of, less_part};
ghost use Rattle.measuring.specs.Fitting.{fitting};
ghost use Rattle.text_parts_out.specs.Parts.{heads};
ghost use Rattle.text_lines_out.specs.Merge.{smaller};
ghost use Rattle.text_lines_out.specs.Runs.{Planned, source_of, rows_of};
ghost use Rattle.text_lines_out.specs.Walk.{record_rows, record_done};
ghost use Rattle.text_runs_out.specs.Lines.{next_start, line_at, row_lines, start_past, itself, joined, placed_rows, Leaves, Passed-on};

use object::{Kind, body_end, body_len, number_at, text_byte};
use text_escape::{
    Row, measure_line_row, measure_plain_row, plain_line, put_line_row, put_plain_row,
};
use text_lines_out::{
    Passed, Plan, Progress, Rows, Run, Table, Written, lines_done, straight_count,
};
use word_chars::clear_end;

// Where the line after the one that starts at byte `start` of a source of `n` bytes starts; past the last line, one byte past the
// source, as far as 64 bits go.
fn next_line(ws: &[u32], at: usize, n: usize, start: usize) -> usize
    ensures { result ≡ next_start (text_bytes ws.now at n) start }
{
    for i in clear_end(ws, at, n, start)..n {
        if text_byte(ws, at, i) == b'\n' {
            return i + 1;
        }
    }
    n.saturating_add(1)
}

// The room that a row leaves, whatever the bytes of its line.
fn measure_any_row(room: usize, ws: &[u32], t: Table, row: Row, start: usize) -> Option<Rows>
    ensures { Leaves room (line_at ws.now t row.number (word_of row.address) start)
        (next_start (source_of ws.now t) start) result }
{
    let next = next_line(ws, t.text, t.n, start);
    let end = next.min(t.n);
    let left = measure_line_row(room, t.width, row, ws, t.text, start, end)?;
    Some(Rows { left, start: next })
}

// The room that a row leaves: a number, its address if it is known, and the line that starts at byte `start`. Most lines have only bytes
// that stand for themselves: one walk finds where such a line ends, and how long it is.
fn measure_row(room: usize, ws: &[u32], t: Table, row: Row, start: usize) -> Option<Rows>
    ensures { Leaves room (line_at ws.now t row.number (word_of row.address) start)
        (next_start (source_of ws.now t) start) result }
{
    let end = plain_line(ws, t.text, t.n, start);
    if t.n <= end {
        return measure_any_row(room, ws, t, row, start);
    }
    let left = measure_plain_row(room, t.width, row.number, end - start)?;
    Some(Rows {
        left,
        start: end + 1,
    })
}

// A row, written, whatever the bytes of its line.
fn put_any_row(out: &mut [u8], ws: &[u32], t: Table, row: Row, start: usize) -> Written
    ensures { Put (line_at ws.now t row.number (word_of row.address) start) out.old result.len out.new
        × (result.start ≡ next_start (source_of ws.now t) start) }
{
    let next = next_line(ws, t.text, t.n, start);
    let end = next.min(t.n);
    let len = put_line_row(out, t.width, row, ws, t.text, start, end);
    Written { len, start: next }
}

// A row, written.
fn put_row(out: &mut [u8], ws: &[u32], t: Table, row: Row, start: usize) -> Written
    ensures { Put (line_at ws.now t row.number (word_of row.address) start) out.old result.len out.new
        × (result.start ≡ next_start (source_of ws.now t) start) }
{
    let end = plain_line(ws, t.text, t.n, start);
    if t.n <= end {
        return put_any_row(out, ws, t, row, start);
    }
    let len = put_plain_row(out, t.width, row, ws, t.text, start, end);
    Written {
        len,
        start: end + 1,
    }
}

// The room that a run of rows leaves, with the lines from a byte on.
pub fn measure_run(room: usize, ws: &[u32], t: Table, run: Run, start: usize) -> Option<Rows>
    ensures { Leaves room (joined (row_lines ws.now t (rows_of ws.now run) start))
        (start_past ws.now t (rows_of ws.now run) start) result }
{
    let mut rows = Rows { left: room, start };
    for k in 0..run.count {
        rows = measure_row(rows.left, ws, t, run.row(ws, k), rows.start)?;
    }
    Some(rows)
}

// They, written: each that fits.
pub fn put_run(out: &mut [u8], ws: &[u32], t: Table, run: Run, start: usize) -> Written
    ensures { Put (fitting itself (length out.old) (row_lines ws.now t (rows_of ws.now run) start))
        out.old result.len out.new
        × (result.start ≡ start_past ws.now t (rows_of ws.now run) start) }
{
    let mut len = 0;
    let mut next = start;
    for k in 0..run.count {
        let row = put_row(&mut out[len..], ws, t, run.row(ws, k), next);
        len += row.len;
        next = row.start;
    }
    Written { len, start: next }
}

// The rows of the line block at a place of the object, after those that wrapped and those of the lines that are done.
fn plan_block(ws: &[u32], at: usize, lines: u64, wraps: u64, done: u64) -> Plan
    requires { at < length ws.now }
    ensures { Planned ws.now at lines wraps done result }
{
    let body = at + 1;
    let words = body + 3;
    let first = number_at(ws, body);
    let count = body_len(ws, words);
    let gap = first.min(lines).saturating_sub(done) as usize;
    let kept = straight_count(first, count);
    let skip = (wraps.saturating_sub(first) as usize).min(kept);
    let own = Run {
        first: first.max(wraps),
        count: kept - skip,
        place: Some(words + skip),
    };
    Plan {
        gap,
        own,
        done: lines_done(first, count, lines).max(done),
    }
}

// The room that the rows of the record at a place leave.
fn measure_line_record(
    room: usize,
    ws: &[u32],
    at: usize,
    t: Table,
    done: u64,
    start: usize,
) -> Option<Passed>
    requires { at < length ws.now }
    ensures { Passed-on room
        (joined (row_lines ws.now t (record_rows ws.now at t.lines t.wraps done) start))
        (start_past ws.now t (record_rows ws.now at t.lines t.wraps done) start)
        (record_done ws.now at t.lines t.wraps done) result }
{
    if Kind::of(ws[at]) != Kind::LineBlock {
        return Some(Passed {
            left: room,
            start,
            done,
        });
    }
    let plan = plan_block(ws, at, t.lines, t.wraps, done);
    let gap = Run {
        first: done,
        count: plan.gap,
        place: None,
    };
    let before = measure_run(room, ws, t, gap, start)?;
    let block = measure_run(before.left, ws, t, plan.own, before.start)?;
    Some(Passed {
        left: block.left,
        start: block.start,
        done: plan.done,
    })
}

// They, written: each that fits.
fn put_line_record(
    out: &mut [u8],
    ws: &[u32],
    at: usize,
    t: Table,
    done: u64,
    start: usize,
) -> Progress
    requires { at < length ws.now }
    ensures { Put (fitting itself (length out.old)
        (row_lines ws.now t (record_rows ws.now at t.lines t.wraps done) start))
        out.old result.len out.new
        × (result.start ≡ start_past ws.now t (record_rows ws.now at t.lines t.wraps done) start)
        × (result.done ≡ record_done ws.now at t.lines t.wraps done) }
{
    if Kind::of(ws[at]) != Kind::LineBlock {
        let len = 0;
        return Progress { len, start, done };
    }
    let plan = plan_block(ws, at, t.lines, t.wraps, done);
    let gap = Run {
        first: done,
        count: plan.gap,
        place: None,
    };
    let before = put_run(out, ws, t, gap, start);
    let len = before.len;
    let block = put_run(&mut out[len..], ws, t, plan.own, before.start);
    Progress {
        len: len + block.len,
        start: block.start,
        done: plan.done,
    }
}

// The room that the rows of the records from a head on leave, and of the source's lines past them.
pub fn measure_line_records(
    room: usize,
    ws: &[u32],
    t: Table,
    start: usize,
    from: usize,
) -> Option<usize>
    ensures { room_of result ≡ less_part room (joined (row_lines ws.now t
        (placed_rows ws.now t.lines t.wraps (smaller t.wraps t.lines) (heads ws.now from)) start)) }
{
    let mut passed = Passed {
        left: room,
        start,
        done: t.wraps.min(t.lines),
    };
    let mut at = from;
    while at < ws.len() {
        passed = measure_line_record(passed.left, ws, at, t, passed.done, passed.start)?;
        at = body_end(ws, at + 1);
    }
    let others = Run {
        first: passed.done,
        count: t.lines.saturating_sub(passed.done) as usize,
        place: None,
    };
    let rows = measure_run(passed.left, ws, t, others, passed.start)?;
    Some(rows.left)
}

// They, written: each that fits.
pub fn put_line_records(out: &mut [u8], ws: &[u32], t: Table, start: usize, from: usize) -> usize
    ensures { Put (fitting itself (length out.old) (row_lines ws.now t
        (placed_rows ws.now t.lines t.wraps (smaller t.wraps t.lines) (heads ws.now from)) start))
        out.old result out.new }
{
    let mut len = 0;
    let mut next = start;
    let mut done = t.wraps.min(t.lines);
    let mut at = from;
    while at < ws.len() {
        let rows = put_line_record(&mut out[len..], ws, at, t, done, next);
        len += rows.len;
        next = rows.start;
        done = rows.done;
        at = body_end(ws, at + 1);
    }
    let others = Run {
        first: done,
        count: t.lines.saturating_sub(done) as usize,
        place: None,
    };
    let last = put_run(&mut out[len..], ws, t, others, next);
    len + last.len
}
