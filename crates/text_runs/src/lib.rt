// The line blocks of a text file, run by run, from the rows of its line table.
#![tactic(auto)]

ghost use Rattle.std.specs.Prelude.{◌≡◌, map, ◌+◌, ◌^◌, ◌≤◌, ◌<◌, length, take};
ghost use Rattle.format.specs.Words.{memory_word};
ghost use Rattle.writing.specs.Written.{Put};
ghost use Rattle.text_tables.specs.Debug.{line_view};
ghost use Rattle.text_debug.specs.LineRuns.{address_in};
ghost use Rattle.text_debug.specs.DebugGroup.{line_blocks_in};
ghost use Rattle.text_words.specs.Written.{PutEach};
ghost use Rattle.text_runs.specs.Runs.{addresses_from, KeepsWord, Kept, NextRun, block_words, run_parts};

use text_tables::{next_source_line, parse_line_row};
use writing::{put_number_words, put_word};

// The word of an address that is not known.
const UNKNOWN: u32 = 0x2000_0000;

// A run of rows with an address that a row without one ends: how many, and the place after that row.
#[derive(Clone, Copy)]
struct Run {
    count: usize,
    next: usize,
}

// The memory word of a row's address.
fn address_word(l: &[u8]) -> u32
    ensures { result ≡ memory_word (address_in l.now) }
{
    let Some(row) = parse_line_row(l) else {
        return UNKNOWN;
    };
    match row.address {
        Some(a) => 0x2001_0000 + u32::from(a),
        None => UNKNOWN,
    }
}

// One more of the words that are kept, as many as there is room for: how many there would be.
fn keep_word(kept: &mut [u32], n: usize, w: u32) -> usize
    requires { n < 2 ^ 63 }
    ensures { (result ≡ n + 1) × KeepsWord n w kept.old kept.new }
{
    if kept.len() <= n {
        return n + 1;
    }
    kept[n] = w;
    n + 1
}

// The run of rows that begins at a place; none where it reaches the last row. The memory words of its addresses are kept, if there is room for
// them all.
fn next_run(t: &[u8], from: usize, kept: &mut [u32]) -> Option<Run>
    ensures { NextRun t.now from kept.new result }
{
    let mut at = from;
    let mut n = 0;
    loop {
        let Some(line) = next_source_line(t, at) else {
            return None;
        };
        let w = address_word(&t[line.start..line.end]);
        if w == UNKNOWN {
            return Some(Run {
                count: n,
                next: line.next,
            });
        }
        n = keep_word(kept, n, w);
        at = line.next;
    }
}

// The words of others.
fn put_words(out: &mut [u32], s: &[u32]) -> usize
    ensures { Put s.now out.old result out.new }
{
    if out.len() < s.len() {
        return 0;
    }
    out[..s.len()].copy_from_slice(s);
    s.len()
}

// The memory words of the addresses of the next n rows.
fn put_addresses(out: &mut [u32], t: &[u8], from: usize, n: usize) -> usize
    requires { (n ≤ length out.old) × (n ≤ length (addresses_from t.now from)) }
    ensures { Put (map memory_word (take n (addresses_from t.now from))) out.old result out.new }
{
    let mut at = from;
    for i in 0..n {
        let Some(line) = next_source_line(t, at) else {
            return i;
        };
        out[i] = address_word(&t[line.start..line.end]);
        at = line.next;
    }
    n
}

// The same, from the words that are kept if these are all.
fn put_run_words(out: &mut [u32], t: &[u8], from: usize, n: usize, kept: &[u32]) -> usize
    requires { (n ≤ length out.old) × (n ≤ length (addresses_from t.now from)) × Kept t.now from n kept.now }
    ensures { Put (map memory_word (take n (addresses_from t.now from))) out.old result out.new }
{
    if n <= kept.len() {
        return put_words(out, &kept[0..n]);
    }
    put_addresses(out, t, from, n)
}

// The line block of the next n rows, the first of which is line `first`; none of no rows.
fn put_run(out: &mut [u32], t: &[u8], from: usize, first: u64, n: usize, kept: &[u32]) -> usize
    requires { (n ≤ length (addresses_from t.now from)) × Kept t.now from n kept.now }
    ensures { PutEach (run_parts first (take n (addresses_from t.now from))) out.old result out.new }
{
    if n == 0 {
        return 0;
    }
    if out.len() < 4 {
        return 0;
    }
    if out.len() - 4 < n {
        return 0;
    }
    let mut at = 0;
    at += put_word(&mut out[at..], 0x6000_0000);
    at += put_number_words(&mut out[at..], first);
    at += put_run_words(&mut out[at..], t, from, n, kept);
    at
}

// The same, by way of an array for the words of a run.
fn put_runs(out: &mut [u32], t: &[u8], rows: usize, kept: &mut [u32]) -> usize
    ensures { PutEach (block_words (line_blocks_in (line_view t.now rows).0)) out.old result out.new }
{
    let mut at = 0;
    let mut row = rows;
    let mut line: u64 = 0;
    while let Some(run) = next_run(t, row, kept) {
        at += put_run(&mut out[at..], t, row, line, run.count, kept);
        line += run.count as u64 + 1;
        row = run.next;
    }
    at
}

// The line blocks of the rows from a place on.
pub fn put_line_blocks(out: &mut [u32], t: &[u8], rows: usize) -> usize
    ensures { PutEach (block_words (line_blocks_in (line_view t.now rows).0)) out.old result out.new }
{
    let mut kept = [0u32; 256];
    put_runs(out, t, rows, &mut kept)
}
