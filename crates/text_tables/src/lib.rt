// The text reader's tables: a function per table for the closures of `parse_table`.
#![tactic(auto)]

ghost use Rattle.std.specs.Prelude.{◌≡◌, true, map, ◌+◌, ◌≤◌, ◌<◌, length};
ghost use Rattle.format.specs.Utf8.{trim};
ghost use Rattle.format.specs.TextReader.{splitn, same_cells};
ghost use Rattle.text_tables.specs.Debug.{FirstBar, NextIn, label_view, line_view};
ghost use Rattle.text_tables.specs.Labels.{LabelIs, NextLabel, LabelsChecked, label_columns};
ghost use Rattle.units.specs.Refusal.{number_in};
ghost use Rattle.text_tables.specs.LineRows.{line_in, line_of};
ghost use Rattle.text_tables.specs.RowCells.{CellAt, DigitCell, FourVisible, Aligned, Run, BarAfter, WrittenIs};
ghost use Rattle.format.proofs.TrimLaws.{Visible};
ghost use Rattle.text_tables.specs.Symbols.{SymIs, NextSymbol, place_or, SymbolsChecked, symbol_columns};

use text_cells::{cell_is, decimal, first_cell, hex2u16, is_divider, maybe_hex2u16, trimmed_cells};
use text_lines::{Line, begins_with, has_row, next_row};
use trim::{spaces_end, trim};
use units::Refusal;

// A row of .SYMBOL, and where its name stands.
#[derive(Clone, Copy)]
pub struct SymbolRow {
    pub address: u16,
    pub external: bool,
    pub start: usize,
    pub end: usize,
}

// ADDR, EXT and LABEL.
pub fn parse_symbol_header(l: &[u8]) -> bool
    ensures { result ≡ same_cells (map trim (splitn 2 l.now)) symbol_columns }
{
    if !cell_is(l, 2, 0, b"ADDR") {
        return false;
    }
    if !cell_is(l, 2, 1, b"EXT") {
        return false;
    }
    cell_is(l, 2, 2, b"LABEL")
}

// A cell, trimmed, and where the row goes on after its divider; its end where there is none.
#[derive(Clone, Copy)]
pub struct Cell {
    pub start: usize,
    pub end: usize,
    pub next: usize,
}

// The first cell of a row from a place on.
fn next_cell(l: &[u8], at: usize) -> Cell
    requires { at ≤ length l.now }
    ensures { CellAt l.now at result }
{
    let c = first_cell(l, at, 1);
    let n = c.end - c.start;
    let s = trim(l, c.start, c.end);
    if l.len() - at - n < 3 {
        return Cell {
            start: s.start,
            end: s.end,
            next: l.len(),
        };
    }
    Cell {
        start: s.start,
        end: s.end,
        next: at + n + 3,
    }
}

// What a row of .SYMBOL says, cell by cell.
fn find_symbol_row(l: &[u8]) -> Option<SymbolRow>
    ensures { SymIs l.now result }
{
    let c = next_cell(l, 0);
    let address = hex2u16(&l[c.start..c.end])?;
    let d = next_cell(l, c.next);
    let external = decimal(&l[d.start..d.end], 255)?;
    let n = trim(l, d.next, l.len());
    Some(SymbolRow {
        address,
        external: external != 0,
        start: n.start,
        end: n.end,
    })
}

// From `!` up to `~`.
fn is_visible(b: u8) -> bool
    ensures { result ≡ true → Visible b }
{
    if b < 0x21 {
        return false;
    }
    b < 0x7F
}

// Whether two spaces and a digit stand where a row of .SYMBOL has them.
fn has_digit(l: &[u8]) -> bool
    requires { 13 ≤ length l.now }
    ensures { result ≡ true → DigitCell l.now }
{
    if l[7] != 0x20 {
        return false;
    }
    if l[8] != 0x20 {
        return false;
    }
    if l[9] < 0x30 {
        return false;
    }
    l[9] <= 0x39
}

// Whether the first four bytes of a row are visible.
fn shows_four(l: &[u8]) -> bool
    requires { 13 ≤ length l.now }
    ensures { result ≡ true → FourVisible l.now }
{
    if !is_visible(l[0]) {
        return false;
    }
    if !is_visible(l[1]) {
        return false;
    }
    if !is_visible(l[2]) {
        return false;
    }
    is_visible(l[3])
}

// Whether a row of .SYMBOL has its cells where they are written: four visible bytes, and two spaces and a digit.
fn is_aligned(l: &[u8]) -> bool
    ensures { result ≡ true → Aligned l.now }
{
    if l.len() < 13 {
        return false;
    }
    if !is_divider(l, 4) {
        return false;
    }
    if !is_divider(l, 10) {
        return false;
    }
    if !has_digit(l) {
        return false;
    }
    shows_four(l)
}

// What a row of .SYMBOL says: in place where the cells are as wide as they are written.
pub fn parse_symbol_row(l: &[u8]) -> Option<SymbolRow>
    ensures { SymIs l.now result }
{
    if !is_aligned(l) {
        return find_symbol_row(l);
    }
    let address = hex2u16(&l[0..4])?;
    let external = decimal(&l[9..10], 255)?;
    let n = trim(l, 13, l.len());
    Some(SymbolRow {
        address,
        external: external != 0,
        start: n.start,
        end: n.end,
    })
}

// The next row of .SYMBOL, and the place after it, if there is one; a row that doesn't read is refused.
pub fn next_symbol(t: &[u8], at: usize) -> Result<Option<(SymbolRow, usize)>, Refusal>
    ensures { NextSymbol t.now at result }
{
    let Some(line) = next_row(t, at) else {
        return Ok(None);
    };
    let Some(row) = parse_symbol_row(&t[line.start..line.end]) else {
        return Err(Refusal::BadLabels);
    };
    let placed = SymbolRow {
        address: row.address,
        external: row.external,
        start: line.start + row.start,
        end: line.start + row.end,
    };
    Ok(Some((placed, line.next)))
}

// The lines of a .SYMBOL group, checked: the place after them.
pub fn parse_symbol_table(t: &[u8], at: usize) -> Result<usize, Refusal>
    ensures { SymbolsChecked t.now at (number_in result) (place_or at result) }
{
    let Some(header) = next_row(t, at) else {
        return Ok(at);
    };
    if !parse_symbol_header(&t[header.start..header.end]) {
        return Err(Refusal::BadLabels);
    }
    let mut i = header.next;
    while let Some((_, next)) = next_symbol(t, i)? {
        i = next;
    }
    Ok(i)
}

// The place after the first line of the group that begins with `=`.
pub fn first_bar(t: &[u8], from: usize) -> Option<usize>
    ensures { FirstBar t.now from result }
{
    let mut at = from;
    loop {
        let line = next_row(t, at)?;
        if begins_with(&t[line.start..line.end], b'=') {
            return Some(line.next);
        }
        at = line.next;
    }
}

// The next line of the label table.
pub fn next_label_line(t: &[u8], at: usize) -> Option<Line>
    ensures { NextIn (label_view t.now) t.now at result }
{
    let line = next_row(t, at)?;
    if begins_with(&t[line.start..line.end], b'=') {
        return None;
    }
    Some(line)
}

// The next line of the line table: every line of the group but the last.
pub fn next_source_line(t: &[u8], at: usize) -> Option<Line>
    ensures { NextIn (line_view t.now) t.now at result }
{
    let line = next_row(t, at)?;
    if has_row(t, line.next) {
        return Some(line);
    }
    None
}

// A row of the label table: where its name stands, and its index.
#[derive(Clone, Copy)]
pub struct LabelRow {
    pub start: usize,
    pub end: usize,
    pub index: u64,
}

// LABEL and INDEX.
pub fn parse_label_header(l: &[u8]) -> bool
    ensures { result ≡ same_cells (map trim (splitn 1 l.now)) label_columns }
{
    if !cell_is(l, 1, 0, b"LABEL") {
        return false;
    }
    cell_is(l, 1, 1, b"INDEX")
}

// Past the visible bytes from a place on.
fn visible_end(l: &[u8], at: usize) -> usize
    requires { at ≤ length l.now }
    ensures { Run Visible l.now at result }
{
    for i in at..l.len() {
        if !is_visible(l[i]) {
            return i;
        }
    }
    l.len()
}

// Where the name of a row of the label table ends, and where its index begins; in a row that is as it is written.
#[derive(Clone, Copy)]
pub struct Written {
    pub name_end: usize,
    pub index: usize,
}

// Whether a bar and a space stand at a place, after a space or more.
fn has_bar(l: &[u8], from: usize, at: usize) -> bool
    requires { (from ≤ at) × (at ≤ length l.now) }
    ensures { result ≡ true → BarAfter l.now from at }
{
    if at == from {
        return false;
    }
    if l.len() - at < 2 {
        return false;
    }
    if l[at] != 0x7C {
        return false;
    }
    l[at + 1] == 0x20
}

// A row of visible bytes, spaces, a divider, spaces, and visible bytes.
fn find_written(l: &[u8]) -> Option<Written>
    ensures { WrittenIs l.now result }
{
    let n = visible_end(l, 0);
    let p = spaces_end(l, n, l.len());
    if !has_bar(l, n, p) {
        return None;
    }
    let d = spaces_end(l, p + 2, l.len());
    if visible_end(l, d) != l.len() {
        return None;
    }
    Some(Written {
        name_end: n,
        index: d,
    })
}

// What a row of the label table says, cell by cell.
fn find_label_row(l: &[u8]) -> Option<LabelRow>
    ensures { LabelIs l.now result }
{
    let n = next_cell(l, 0);
    let d = trim(l, n.next, l.len());
    let index = decimal(&l[d.start..d.end], u64::MAX)?;
    Some(LabelRow {
        start: n.start,
        end: n.end,
        index,
    })
}

// What a row of the label table says: in place where it is as it is written.
pub fn parse_label_row(l: &[u8]) -> Option<LabelRow>
    ensures { LabelIs l.now result }
{
    let Some(written) = find_written(l) else {
        return find_label_row(l);
    };
    let index = decimal(&l[written.index..], u64::MAX)?;
    Some(LabelRow {
        start: 0,
        end: written.name_end,
        index,
    })
}

// The next row of the label table, and the place after it, if there is one; a row that doesn't read is refused.
pub fn next_label(t: &[u8], at: usize) -> Result<Option<(LabelRow, usize)>, Refusal>
    ensures { NextLabel t.now at result }
{
    let Some(line) = next_label_line(t, at) else {
        return Ok(None);
    };
    let Some(row) = parse_label_row(&t[line.start..line.end]) else {
        return Err(Refusal::BadLabels);
    };
    let placed = LabelRow {
        start: line.start + row.start,
        end: line.start + row.end,
        index: row.index,
    };
    Ok(Some((placed, line.next)))
}

// The label table, checked: the place where it ends.
pub fn parse_label_table(t: &[u8], at: usize) -> Result<usize, Refusal>
    ensures { LabelsChecked t.now at (number_in result) (place_or at result) }
{
    let Some(header) = next_label_line(t, at) else {
        return Ok(at);
    };
    if !parse_label_header(&t[header.start..header.end]) {
        return Err(Refusal::BadLabels);
    }
    let mut i = header.next;
    while let Some((_, next)) = next_label(t, i)? {
        i = next;
    }
    Ok(i)
}

// A row of the line table: its number, and its address if it has one.
#[derive(Clone, Copy)]
pub struct LineRow {
    pub number: u64,
    pub address: Option<u16>,
}

// What a row of the line table says.
pub fn parse_line_row(l: &[u8]) -> Option<LineRow>
    ensures { line_of result ≡ line_in l.now }
{
    let cells = trimmed_cells(l);
    let number = decimal(&l[cells.start..cells.end], u64::MAX)?;
    let address = maybe_hex2u16(&l[cells.from..cells.to])?;
    Some(LineRow { number, address })
}
