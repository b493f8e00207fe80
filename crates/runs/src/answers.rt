// What C is handed of the queries: a number and values, all values 0 on a refusal.

ghost use Rattle.std.specs.Prelude.{◌≡◌};
ghost use Rattle.source_info.specs.Sources.{count_answer};
ghost use Rattle.line_spans.specs.Spans.{span_answer};
ghost use Rattle.line_tables.specs.Tables.{line_answer, address_answer};
ghost use Rattle.positions.specs.Pairs.{pair_answer};
ghost use Rattle.fair.specs.FairRecords.{answer_of};
ghost use Rattle.tariff.specs.Tariff.{fee_told};
ghost use Rattle.runs.specs.Answers.{value_of, span_of, position_of, fair_of, fee_of};

use line_spans::LineSpan;
use positions::PosPair;
use units::{Address, Line, Refusal};

// A line count, an address or a line.
#[repr(C)]
#[derive(Clone, Copy)]
pub struct Value {
    pub number: u8,
    pub value: u64,
}

impl From<Result<u64, Refusal>> for Value {
    ghost from_gives = { λ r v. value_of v ≡ count_answer r };

    fn from(r: Result<u64, Refusal>) -> Value {
        match r {
            Ok(value) => Value { number: 0, value },
            Err(refusal) => Value {
                number: refusal.number(),
                value: 0,
            },
        }
    }
}

impl From<Result<Address, Refusal>> for Value {
    ghost from_gives = { λ r v. value_of v ≡ address_answer r };

    fn from(r: Result<Address, Refusal>) -> Value {
        r.map(|address| u64::from(address.0)).into()
    }
}

impl From<Result<Line, Refusal>> for Value {
    ghost from_gives = { λ r v. value_of v ≡ line_answer r };

    fn from(r: Result<Line, Refusal>) -> Value {
        r.map(|line| line.0).into()
    }
}

// A range of source byte indices.
#[repr(C)]
#[derive(Clone, Copy)]
pub struct Span {
    pub number: u8,
    pub start: u64,
    pub end: u64,
}

impl From<Result<LineSpan, Refusal>> for Span {
    ghost from_gives = { λ r v. span_of v ≡ span_answer r };

    fn from(r: Result<LineSpan, Refusal>) -> Span {
        match r {
            Ok(span) => Span {
                number: 0,
                start: span.start.0,
                end: span.end.0,
            },
            Err(refusal) => Span {
                number: refusal.number(),
                start: 0,
                end: 0,
            },
        }
    }
}

// A line and a column.
#[repr(C)]
#[derive(Clone, Copy)]
pub struct Position {
    pub number: u8,
    pub line: u64,
    pub column: u64,
}

impl From<Result<PosPair, Refusal>> for Position {
    ghost from_gives = { λ r v. position_of v ≡ pair_answer r };

    fn from(r: Result<PosPair, Refusal>) -> Position {
        match r {
            Ok(pair) => Position {
                number: 0,
                line: pair.line.0,
                column: pair.column,
            },
            Err(refusal) => Position {
                number: refusal.number(),
                line: 0,
                column: 0,
            },
        }
    }
}

// Whether the object is fair.
#[repr(C)]
#[derive(Clone, Copy)]
pub struct Fair {
    pub number: u8,
    pub fair: bool,
}

impl From<Result<bool, Refusal>> for Fair {
    ghost from_gives = { λ r v. fair_of v ≡ answer_of r };

    fn from(r: Result<bool, Refusal>) -> Fair {
        match r {
            Ok(fair) => Fair { number: 0, fair },
            Err(refusal) => Fair {
                number: refusal.number(),
                fair: false,
            },
        }
    }
}

// What lending costs, and its three addends.
#[repr(C)]
#[derive(Clone, Copy)]
pub struct Fee {
    pub number: u8,
    pub fee: u64,
    pub base: u64,
    pub words: u64,
    pub labels: u64,
}

impl From<Result<tariff::Fee, Refusal>> for Fee {
    ghost from_gives = { λ r v. fee_of v ≡ fee_told r };

    fn from(r: Result<tariff::Fee, Refusal>) -> Fee {
        match r {
            Ok(fee) => Fee {
                number: 0,
                fee: fee.fee,
                base: fee.base,
                words: fee.words,
                labels: fee.labels,
            },
            Err(refusal) => Fee {
                number: refusal.number(),
                fee: 0,
                base: 0,
                words: 0,
                labels: 0,
            },
        }
    }
}
