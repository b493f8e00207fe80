// The two tables of labels, written: their rows window by window, in the order of addresses and of source starts. Where the room is too
// short, each part that still fits.
#![tactic(auto)]

ghost use Rattle.std.specs.Prelude.{◌≡◌, ◌<◌, length};
ghost use Rattle.format.specs.TextWriter.{symbol_header, label_header};
ghost use Rattle.writing.specs.Written.{Put};
ghost use Rattle.measuring.specs.Fitting.{fitting};
ghost use Rattle.label_order.specs.Labels.{label_places};
ghost use Rattle.label_tables.specs.Rows.{symbol_line, label_line};
ghost use Rattle.label_tables.specs.Tables.{by_address, by_start, line_of};
ghost use Rattle.label_windows.specs.Fits.{by_of, places_of, table_fitting};

use label_order::{By, Labels, next_label};
use label_tables::{Table, Widths, put_label_header};
use writing::put_bytes;

// What a table's labels are sorted by before their names.
fn order(t: Table) -> By
    ensures { result ≡ by_of t }
{
    match t {
        Table::Symbols => By::Address,
        Table::Labels(_) => By::Start,
    }
}

// The rows at the places of a window.
fn put_rows(out: &mut [u8], ws: &[u32], t: Table, win: &[usize]) -> usize
    ensures { Put (fitting (line_of t ws.now) (length out.old) win.now)
        out.old result out.new }
{
    let mut at = 0;
    for p in win {
        at += t.put_row(&mut out[at..], ws, *p);
    }
    at
}

// The rows of all labels, window by window.
fn put_windows(out: &mut [u8], ws: &[u32], t: Table, win: &mut [usize]) -> usize
    requires { 0 < length win.old }
    ensures { Put (fitting (line_of t ws.now) (length out.old) (places_of t ws.now))
        out.old result out.new }
{
    let mut at = 0;
    let mut labels = Labels::new(ws, order(t));
    loop {
        let n = labels.next_window(ws, win);
        at += put_rows(&mut out[at..], ws, t, &win[..n]);
        if n < win.len() {
            return at;
        }
    }
}

// They, with the array for a window.
fn put_all(out: &mut [u8], ws: &[u32], t: Table) -> usize
    ensures { Put (fitting (line_of t ws.now) (length out.old) (places_of t ws.now))
        out.old result out.new }
{
    let mut win = [0usize; 4096];
    put_windows(out, ws, t, &mut win)
}

// The table of .SYMBOL: header and rows, each that fits; nothing without labels.
pub fn put_symbol_table(out: &mut [u8], ws: &[u32]) -> usize
    ensures { Put (table_fitting symbol_header (symbol_line ws.now) (label_places ws.now)
        (by_address ws.now) (length out.old)) out.old result out.new }
{
    let Some(_) = next_label(ws, 0) else {
        return 0;
    };
    let at = put_bytes(out, b"ADDR | EXT | LABEL\n");
    at + put_all(&mut out[at..], ws, Table::Symbols)
}

// The label table, in columns of these widths: header and rows, each that fits; nothing without labels.
pub fn put_label_table(out: &mut [u8], ws: &[u32], widths: Widths) -> usize
    ensures { Put (table_fitting (label_header widths.names widths.indices) (label_line widths.names widths.indices ws.now)
        (label_places ws.now) (by_start ws.now) (length out.old)) out.old result out.new }
{
    let Some(_) = next_label(ws, 0) else {
        return 0;
    };
    let at = put_label_header(out, widths);
    at + put_all(&mut out[at..], ws, Table::Labels(widths))
}
