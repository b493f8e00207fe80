// The text reader's .DEBUG group, whole: questions 27, 26, 28, 29 and 30.
#![tactic(auto)]

ghost use Rattle.std.specs.Prelude.{◌≡◌, ◌^◌, ◌<◌, not, ◌&&◌, ◌||◌, map, nat_lt};
ghost use Rattle.format.specs.Utf8.{trim};
ghost use Rattle.format.specs.TextReader.{splitn, same_cells};
ghost use Rattle.text_tables.specs.Debug.{line_view};
ghost use Rattle.text_cells.specs.Cells.{number_read};
ghost use Rattle.text_debug.specs.LineRuns.{run_on, words_after, run_end, run_next, rows_view, LineRowsAre};
ghost use Rattle.text_debug.specs.LineTable.{line_columns, no_lines, table_view, RowTableIs, LineTableIs};
ghost use Rattle.text_debug.specs.DebugGroup.{LastBar, FirstRow, group_view, Barred, DebugChecked};

use text_cells::cell_is;
use text_lines::{begins_with, has_row, next_row};
use text_source::{Source, unescape};
use text_tables::{first_bar, next_source_line, parse_label_table, parse_line_row};
use units::Refusal;

// LINE, ADDR and SOURCE.
fn parse_line_header(l: &[u8]) -> bool
    ensures { result ≡ same_cells (map trim (splitn 2 l.now)) line_columns }
{
    if !cell_is(l, 2, 0, b"LINE") {
        return false;
    }
    if !cell_is(l, 2, 1, b"ADDR") {
        return false;
    }
    cell_is(l, 2, 2, b"SOURCE")
}

// The runs of rows with an address up to a row: of the run that it may go on, how many rows, the last address and whether it fell; of
// those before, the words of their line blocks, as 64 bits count, and whether they rise.
#[derive(Clone, Copy)]
pub struct Runs {
    pub count: usize,
    pub last: u16,
    pub fell: bool,
    pub words: usize,
    pub rise: bool,
}

// After a row with an address.
fn run_on(s: Runs, address: u16) -> Runs
    requires { s.count < 2 ^ 63 }
    ensures { result ≡ run_on s address }
{
    Runs {
        count: s.count + 1,
        last: address,
        fell: s.fell || address < s.last,
        words: s.words,
        rise: s.rise,
    }
}

// The words after the line block of a run, if it has rows.
fn words_after(words: usize, count: usize) -> usize
    requires { count < 2 ^ 63 }
    ensures { result ≡ words_after words count }
{
    if count == 0 {
        return words;
    }
    words.wrapping_add(4 + count)
}

// After a row without an address, which ends a run.
fn run_end(s: Runs) -> Runs
    requires { s.count < 2 ^ 63 }
    ensures { result ≡ run_end s }
{
    Runs {
        count: 0,
        last: 0,
        fell: false,
        words: words_after(s.words, s.count),
        rise: s.rise && !s.fell,
    }
}

// After a row, by whether it has an address.
fn run_next(s: Runs, address: Option<u16>) -> Runs
    requires { s.count < 2 ^ 63 }
    ensures { result ≡ run_next s (number_read address) }
{
    match address {
        Some(a) => run_on(s, a),
        None => run_end(s),
    }
}

// How many words the line blocks of a line table's rows have, as 64 bits count, and whether the addresses in each kept run never fall. A run
// that reaches the last row is not asked.
#[derive(Clone, Copy)]
pub struct LineRows {
    pub words: usize,
    pub rise: bool,
}

// The rows of the line table, checked, from the place after its header.
fn parse_line_rows(t: &[u8], from: usize) -> Result<LineRows, Refusal>
    ensures { LineRowsAre (line_view t.now from).0 (rows_view result) }
{
    let mut at = from;
    let mut i: u64 = 0;
    let mut s = Runs {
        count: 0,
        last: 0,
        fell: false,
        words: 0,
        rise: true,
    };
    while let Some(line) = next_source_line(t, at) {
        let Some(row) = parse_line_row(&t[line.start..line.end]) else {
            return Err(Refusal::BadLines);
        };
        if row.number != i {
            return Err(Refusal::BadLines);
        }
        s = run_next(s, row.address);
        i += 1;
        at = line.next;
    }
    Ok(LineRows {
        words: s.words,
        rise: s.rise,
    })
}

// What the rows of a line table make: how many bytes of source, and how many words of line blocks, as 64 bits count, and whether these
// rise.
#[derive(Clone, Copy)]
pub struct Lines {
    pub len: usize,
    pub words: usize,
    pub rise: bool,
}

// What no rows make.
pub fn no_lines() -> Lines
    ensures { result ≡ no_lines }
{
    Lines {
        len: 0,
        words: 0,
        rise: true,
    }
}

// What the rows from a place on make under a header, where a source stands already or none does: 28, 29, 30.
fn parse_rows(t: &[u8], from: usize, sourced: bool) -> Result<Lines, Refusal>
    ensures { RowTableIs (line_view t.now from).0 sourced (table_view result) }
{
    let n = parse_line_rows(t, from)?;
    if next_source_line(t, from).is_none() {
        return Ok(no_lines());
    }
    if sourced {
        return Err(Refusal::SecondLineTable);
    }
    let start = Source {
        at: 0,
        end: 0,
        next: from,
    };
    let len = unescape(t, start)?;
    Ok(Lines {
        len,
        words: n.words,
        rise: n.rise,
    })
}

// What the rows of the line table that starts at a place make, where a source stands already or none does: 28, 29, 30.
pub fn parse_line_table(t: &[u8], from: usize, sourced: bool) -> Result<Lines, Refusal>
    ensures { LineTableIs (line_view t.now from).0 sourced (table_view result) }
{
    let Some(header) = next_source_line(t, from) else {
        return Ok(no_lines());
    };
    if !parse_line_header(&t[header.start..header.end]) {
        return Err(Refusal::BadLines);
    }
    parse_rows(t, header.next, sourced)
}

// The rows of a line table: where they start, and what they make.
#[derive(Clone, Copy)]
pub struct SourceRows {
    pub start: usize,
    pub lines: Lines,
}

// The place after a .DEBUG group, and the rows of its line table, if there are any.
#[derive(Clone, Copy)]
pub struct DebugGroup {
    pub next: usize,
    pub rows: Option<SourceRows>,
}

// The place after the group, if its last line begins with `=`.
fn last_bar(t: &[u8], from: usize) -> Option<usize>
    ensures { LastBar t.now from result }
{
    let mut at = from;
    let mut bar = false;
    while let Some(line) = next_row(t, at) {
        bar = begins_with(&t[line.start..line.end], b'=');
        at = line.next;
    }
    if bar { Some(at) } else { None }
}

// The place of the line table's first row, if there is one.
fn first_line_row(t: &[u8], from: usize) -> Option<usize>
    ensures { FirstRow t.now from result }
{
    let header = next_source_line(t, from)?;
    next_source_line(t, header.next)?;
    Some(header.next)
}

// A .DEBUG group whose label table reads, by the places after its bars: 28, 29, 30.
fn line_group(
    t: &[u8],
    at: usize,
    bar: usize,
    next: usize,
    sourced: bool,
) -> Result<DebugGroup, Refusal>
    requires { Barred t.now at bar next }
    ensures { DebugChecked t.now at sourced (group_view at result) }
{
    let lines = parse_line_table(t, bar, sourced)?;
    let Some(start) = first_line_row(t, bar) else {
        return Ok(DebugGroup { next, rows: None });
    };
    Ok(DebugGroup {
        next,
        rows: Some(SourceRows { start, lines }),
    })
}

// The lines of a .DEBUG group, checked, where a source stands already or none does: 27, then 26, then 28, 29, 30. The label table is read
// first all the same, since it ends at the first bar.
pub fn parse_debug(t: &[u8], at: usize, sourced: bool) -> Result<DebugGroup, Refusal>
    ensures { DebugChecked t.now at sourced (group_view at result) }
{
    if !has_row(t, at) {
        return Ok(DebugGroup {
            next: at,
            rows: None,
        });
    }
    let labels = parse_label_table(t, at);
    let Some(bar) = first_bar(t, labels.unwrap_or(at)) else {
        return Err(Refusal::NoDivider);
    };
    let Some(next) = last_bar(t, bar) else {
        return Err(Refusal::NoDivider);
    };
    labels?;
    line_group(t, at, bar, next, sourced)
}
