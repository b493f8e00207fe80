// The text reader's questions, 20 to 31, on a file's bytes in place; what it reads is not stored.
#![tactic(auto)]

ghost use Rattle.std.specs.Prelude.{◌≡◌, ◌||◌, not, is_some, ◌≤◌, length, take};
ghost use Rattle.format.specs.Records.{empty_object};
ghost use Rattle.format.specs.TextReader.{text_object};
ghost use Rattle.text_blocks.specs.Blocks.{Seen};
ghost use Rattle.text_lines.specs.Groups.{number_of_kind};
ghost use Rattle.text_scan.specs.Walk.{rows_in, lines_in, walk_view, DebugWalked, GroupChecked, GroupsWalked};
ghost use Rattle.text_scan.specs.Scan.{groups_object, trimmed_object, scan_view, Scans};

use text_blocks::parse_text;
use text_debug::{SourceRows, parse_debug};
use text_lines::{GroupKind, equals, next_head, next_kept};
use text_linker::parse_linker_table;
use text_tables::parse_symbol_table;
use trim::trim;
use units::Refusal;
use utf8::is_utf8;

// What the groups up to a place come to: the place after them, the rows that the source is from, if there is one, and how many words the
// blocks have.
#[derive(Clone, Copy)]
pub struct Walked {
    pub next: usize,
    pub source: Option<SourceRows>,
    pub words: usize,
}

// A .DEBUG group, after the groups before it: 26 to 30.
fn parse_debug_group(t: &[u8], at: usize, w: Walked) -> Result<Walked, Refusal>
    ensures { DebugWalked t.now at (is_some w.source) (rows_in w.source) (lines_in w.source) w.words (walk_view at w.words result) }
{
    let g = parse_debug(t, at, w.source.is_some())?;
    Ok(Walked {
        next: g.next,
        source: g.rows.or(w.source),
        words: w.words,
    })
}

// A group of any kind, after groups that marked their blocks, and counted their words: 23 to 30.
fn parse_group(
    t: &[u8],
    kind: GroupKind,
    at: usize,
    w: Walked,
    seen: &mut [u8],
) -> Result<Walked, Refusal>
    requires { 8192 ≤ length seen.old }
    ensures { GroupChecked t.now (number_of_kind kind) at (is_some w.source) (rows_in w.source) (lines_in w.source) w.words seen.old seen.new
        (walk_view at w.words result) }
{
    match kind {
        GroupKind::Text => {
            let text = parse_text(t, at, w.words, seen)?;
            Ok(Walked {
                next: text.next,
                source: w.source,
                words: text.words,
            })
        }
        GroupKind::Symbols => {
            let next = parse_symbol_table(t, at)?;
            Ok(Walked {
                next,
                source: w.source,
                words: w.words,
            })
        }
        GroupKind::Linker => {
            let next = parse_linker_table(t, at)?;
            Ok(Walked {
                next,
                source: w.source,
                words: w.words,
            })
        }
        GroupKind::Debug => parse_debug_group(t, at, w),
        GroupKind::Unknown => Err(Refusal::UnknownGroup),
    }
}

// All groups from a place on, where no block is marked: 22 to 30.
fn parse_groups(t: &[u8], first: usize, seen: &mut [u8]) -> Result<Walked, Refusal>
    requires { (8192 ≤ length seen.old) × Seen empty_object seen.old }
    ensures { GroupsWalked t.now first (walk_view first 0 result) }
{
    let mut w = Walked {
        next: first,
        source: None,
        words: 0,
    };
    while let Some(head) = next_head(t, w.next)? {
        w = parse_group(t, head.kind, head.next, w, seen)?;
    }
    Ok(w)
}

// The places in a file that reads: after its first kept line, the end of what trimming leaves, and the rows that its source is from, if there
// is one; and how many words its blocks have.
#[derive(Clone, Copy)]
pub struct Scanned {
    pub first: usize,
    pub end: usize,
    pub source: Option<SourceRows>,
    pub words: usize,
}

// Whether the addresses in each kept run of a source's rows never fall.
fn lines_rise(source: Option<SourceRows>) -> bool
    ensures { result ≡ (not (is_some source) || (lines_in source).rise) }
{
    match source {
        Some(rows) => rows.lines.rise,
        None => true,
    }
}

// The groups of a file, from the place after its first kept line: 22 to 31.
fn scan_groups(t: &[u8], first: usize) -> Result<Scanned, Refusal>
    requires { first ≤ length t.now }
    ensures { Scans t.now (groups_object t.now first) (scan_view result) }
{
    let mut seen = [0u8; 8192];
    let w = parse_groups(t, first, &mut seen)?;
    if !lines_rise(w.source) {
        return Err(Refusal::FallingAddresses);
    }
    Ok(Scanned {
        first,
        end: t.len(),
        source: w.source,
        words: w.words,
    })
}

// A file that was trimmed, which starts at a place: 21 to 31.
fn scan_trimmed(t: &[u8], start: usize) -> Result<Scanned, Refusal>
    ensures { Scans t.now (trimmed_object t.now start) (scan_view result) }
{
    let Some(line) = next_kept(t, start) else {
        return Err(Refusal::NoMagicLine);
    };
    if !equals(&t[line.start..line.end], b"LC-3 OBJ FILE") {
        return Err(Refusal::NoMagicLine);
    }
    scan_groups(t, line.next)
}

// A text file's scan: the places that a reader of its words goes on from, or the first of the questions 20 to 31 that is answered no.
pub fn scan_text(s: &[u8]) -> Result<Scanned, Refusal>
    ensures { Scans (take (scan_view result).end s.now) (text_object s.now) (scan_view result) }
{
    if !is_utf8(s) {
        return Err(Refusal::FileNotUtf8);
    }
    let c = trim(s, 0, s.len());
    scan_trimmed(&s[..c.end], c.start)
}
