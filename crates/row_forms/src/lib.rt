// Moves a stored cascade from one byte a row to two, for panels of today, and back, for old panels (document 02, §7).

#![tactic(auto)]

mod narrowing;
mod widening;

ghost use Rattle.std.specs.Prelude.{◌≡◌};
ghost use Rattle.refusals.specs.Numbers.{answered};
ghost use Rattle.stored_spec.specs.ReadWrite.{written_as};
ghost use Rattle.row_forms_spec.specs.Moves.{widen, narrow};

use refusals::Refusal;

// To two bytes a row, from the records and row bytes given to the memories lent: both hold the cascade at their front, or nothing is changed: 12,
// 10 or 11.
pub fn widen(
    stored: &[u8],
    bytes: &[u8],
    records: &mut [u8],
    rows: &mut [u8],
) -> Result<(), Refusal>
    ensures { written_as (answered result) records.new rows.new
        ≡ widen stored.now bytes.now records.old rows.old }
{
    widening::widen(stored, bytes, records, rows)
}

// To one byte a row: both hold the cascade at their front, or nothing is changed: 12, 10, 11 or 15.
pub fn narrow(
    stored: &[u8],
    bytes: &[u8],
    records: &mut [u8],
    rows: &mut [u8],
) -> Result<(), Refusal>
    ensures { written_as (answered result) records.new rows.new
        ≡ narrow stored.now bytes.now records.old rows.old }
{
    narrowing::narrow(stored, bytes, records, rows)
}
