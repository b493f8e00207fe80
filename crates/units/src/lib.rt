// The three units of the tables, why a call refuses, and what C is handed of a call that fills a buffer or tells a length.
#![tactic(auto)]

ghost use Rattle.std.specs.Prelude.{◌≡◌, ◌+◌, ◌%◌, ◌^◌};
ghost use Rattle.units.specs.Told.{told};

pub mod refusal;

pub use refusal::Refusal;

// A line number. 64 bits, as both forms and the number words hold it.
#[derive(Clone, Copy)]
pub struct Line(pub u64);

// An index of a byte of the source. 64 bits, as both forms and the number words hold it.
#[derive(Clone, Copy)]
pub struct ByteIndex(pub u64);

// An address of the memory, which has 65,536 words.
#[derive(Clone, Copy)]
pub struct Address(pub u16);

// What C is handed of a call that fills a buffer or tells a length: the number of the question that was answered no, or 0; and the length,
// 0 where it is refused.
#[repr(C)]
#[derive(Clone, Copy)]
pub struct Filled {
    pub number: u8,
    pub len: usize,
}

impl Line {
    // The line `offset` lines on; past the largest 64-bit value it wraps to 0.
    pub fn wrapping_add(self, offset: u64) -> Self
        ensures { result.0 ≡ (self.0 + offset) % 2 ^ 64 }
    {
        Line(self.0.wrapping_add(offset))
    }
}

impl From<Result<usize, Refusal>> for Filled {
    ghost from_gives = { λ r f. f ≡ told r };

    fn from(r: Result<usize, Refusal>) -> Filled {
        match r {
            Ok(len) => Filled { number: 0, len },
            Err(refusal) => Filled {
                number: refusal.number(),
                len: 0,
            },
        }
    }
}
