// How many records of each kind an object has.
#![tactic(auto)]

ghost use Rattle.std.specs.Prelude.{◌≡◌};
ghost use Rattle.object.specs.Bodies.{kind_number};
ghost use Rattle.part_counts.specs.Parts.{indicator, part_counts};

use object::Kind;

// The counts of the five parts; an object has at most one source.
#[derive(Clone, Copy)]
pub struct PartCounts {
    pub blocks: u64,
    pub labels: u64,
    pub line_blocks: u64,
    pub sources: u64,
    pub relocations: u64,
}

// 1 for a word of this kind, and 0 for another: a sum of these has no branch.
fn indicator(kind: Kind, w: u32) -> u64
    ensures { result ≡ indicator (kind_number kind) w }
{
    u64::from(Kind::of(w) == kind)
}

// How many words there are of each kind that begins a record. Of a well formed object, these are its records.
pub fn count_parts(object: &[u32]) -> PartCounts
    ensures { result ≡ part_counts object.now }
{
    let mut blocks = 0;
    let mut labels = 0;
    let mut line_blocks = 0;
    let mut sources = 0;
    let mut relocations = 0;
    for &w in object {
        blocks += indicator(Kind::Block, w);
        labels += indicator(Kind::Label, w);
        line_blocks += indicator(Kind::LineBlock, w);
        sources += indicator(Kind::Source, w);
        relocations += indicator(Kind::Relocation, w);
    }
    PartCounts {
        blocks,
        labels,
        line_blocks,
        sources,
        relocations,
    }
}
