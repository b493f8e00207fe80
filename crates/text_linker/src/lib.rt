// The text reader's .LINKER_INFO table.
#![tactic(auto)]

ghost use Rattle.std.specs.Prelude.{◌≡◌, map};
ghost use Rattle.format.specs.Utf8.{trim};
ghost use Rattle.format.specs.TextReader.{splitn, same_cells};
ghost use Rattle.units.specs.Refusal.{number_in};
ghost use Rattle.text_tables.specs.Symbols.{place_or};
ghost use Rattle.text_linker.specs.Linker.{LinkerIs, NextLinker, LinkerChecked, linker_columns};

use text_cells::{cell_is, hex2u16, trimmed_cell};
use text_lines::next_row;
use units::Refusal;

// A row of .LINKER_INFO, and where its name stands.
#[derive(Clone, Copy)]
pub struct LinkerRow {
    pub address: u16,
    pub start: usize,
    pub end: usize,
}

// ADDR and LABEL.
fn parse_linker_header(l: &[u8]) -> bool
    ensures { result ≡ same_cells (map trim (splitn 1 l.now)) linker_columns }
{
    if !cell_is(l, 1, 0, b"ADDR") {
        return false;
    }
    cell_is(l, 1, 1, b"LABEL")
}

// What a row says.
fn parse_linker_row(l: &[u8]) -> Option<LinkerRow>
    ensures { LinkerIs l.now result }
{
    let c = trimmed_cell(l, 1, 0);
    let address = hex2u16(&l[c.start..c.end])?;
    let n = trimmed_cell(l, 1, 1);
    Some(LinkerRow {
        address,
        start: n.start,
        end: n.end,
    })
}

// The next row, and the place after it, if there is one; a row that doesn't read is refused.
pub fn next_linker(t: &[u8], at: usize) -> Result<Option<(LinkerRow, usize)>, Refusal>
    ensures { NextLinker t.now at result }
{
    let Some(line) = next_row(t, at) else {
        return Ok(None);
    };
    let Some(row) = parse_linker_row(&t[line.start..line.end]) else {
        return Err(Refusal::BadLabels);
    };
    let placed = LinkerRow {
        address: row.address,
        start: line.start + row.start,
        end: line.start + row.end,
    };
    Ok(Some((placed, line.next)))
}

// The lines of the group, checked: the place after them.
pub fn parse_linker_table(t: &[u8], at: usize) -> Result<usize, Refusal>
    ensures { LinkerChecked t.now at (number_in result) (place_or at result) }
{
    let Some(header) = next_row(t, at) else {
        return Ok(at);
    };
    if !parse_linker_header(&t[header.start..header.end]) {
        return Err(Refusal::BadLabels);
    }
    let mut i = header.next;
    while let Some((_, next)) = next_linker(t, i)? {
        i = next;
    }
    Ok(i)
}
