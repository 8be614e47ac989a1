// The refusals that are listed by number: what the program can't use, each as a case of one type, and its number.

#![tactic(auto)]

ghost use Rattle.std.specs.Prelude.{◌≡◌};
ghost use Rattle.refusals.specs.Numbers.{number, answered};

use std::fmt;

#[derive(Clone, Copy, Debug, PartialEq, Eq, Hash)]
pub enum Refusal {
    // 1: n, m, K, L or S out of range
    OutOfRange,
    // 2: the order is not each variable once
    NotEachOnce,
    // 3: the sheet's length is no multiple of 8, or over 2,048
    SheetLength,
    // 4: a malformed record
    Malformed,
    // 5: two records force one output both ways
    Clash,
    // 6: an output depends on an input below it
    Depends,
    // 7: too many columns at some height
    TooWide,
    // 8: no cut list
    NoCutList,
    // 9: the node table is short
    NodesShort,
    // 10: the record memory is short
    RecordsShort,
    // 11: the row memory is short
    RowsShort,
    // 12: not well formed
    NotFormed,
    // 13: the bank is full
    BankFull,
    // 14: cells in all would exceed S
    OverLimit,
    // 15: a cell has more outputs than a row of one byte
    OverEight,
    // 16: a period or phase that is none
    NotTimed,
}

impl From<Refusal> for u8 {
    ghost from_gives = { λ refusal x. x ≡ number refusal };

    fn from(refusal: Refusal) -> u8 {
        match refusal {
            Refusal::OutOfRange => 1,
            Refusal::NotEachOnce => 2,
            Refusal::SheetLength => 3,
            Refusal::Malformed => 4,
            Refusal::Clash => 5,
            Refusal::Depends => 6,
            Refusal::TooWide => 7,
            Refusal::NoCutList => 8,
            Refusal::NodesShort => 9,
            Refusal::RecordsShort => 10,
            Refusal::RowsShort => 11,
            Refusal::NotFormed => 12,
            Refusal::BankFull => 13,
            Refusal::OverLimit => 14,
            Refusal::OverEight => 15,
            Refusal::NotTimed => 16,
        }
    }
}

impl fmt::Display for Refusal {
    fn fmt<W: fmt::Write>(&self, f: &mut fmt::Formatter<W>) -> fmt::Result {
        write!(f, "refused {}", u8::from(*self))
    }
}

// 0 where nothing is refused, else the refusal's number.
pub fn answer(outcome: Result<(), Refusal>) -> u8
    ensures { result ≡ answered outcome }
{
    match outcome {
        Ok(()) => 0,
        Err(refusal) => u8::from(refusal),
    }
}
