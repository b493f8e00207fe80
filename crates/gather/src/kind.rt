// The kinds of the binary form's records.

ghost use Rattle.std.specs.Prelude.{◌≡◌, ◌<◌, MatchOption};
ghost use Rattle.gather.specs.Kinds.{byte_of};

// What a record is: its first byte says it.
#[derive(Clone, Copy, PartialEq, Eq)]
pub enum Kind {
    Block,
    Label,
    LineBlock,
    Source,
    Relocation,
}

impl Kind {
    // The kind of the records that begin with this byte.
    pub const fn of(byte: u8) -> Option<Kind>
        ensures { MatchOption result (4 < byte) (λ k. byte_of k ≡ byte) }
    {
        match byte {
            0 => Some(Kind::Block),
            1 => Some(Kind::Label),
            2 => Some(Kind::LineBlock),
            3 => Some(Kind::Source),
            4 => Some(Kind::Relocation),
            _ => None,
        }
    }

    // The byte that its records begin with.
    pub const fn byte(self) -> u8
        ensures { result ≡ byte_of self }
    {
        match self {
            Kind::Block => 0,
            Kind::Label => 1,
            Kind::LineBlock => 2,
            Kind::Source => 3,
            Kind::Relocation => 4,
        }
    }
}
