// The bank layer: admission, latch and step, on a bank and a scan state by value and a lent row memory; latch and step also on a scan
// state that is lent.

#![tactic(auto)]

mod admitting;
mod blocks;
mod formed;
mod latching;
mod stepping;
mod timing;

ghost use Rattle.std.specs.Prelude.{◌≡◌, List, ℕ};
ghost use Rattle.refusals.specs.Numbers.{answered};
ghost use Rattle.bank_spec.specs.State.{empty_bank, at_rest, formed, state_of};
ghost use Rattle.bank_spec.specs.Calls.{handed, every_scan, admit, latch, step};
ghost use Rattle.bank.specs.Given.{given_number, given_answer, admission_given, latch_given, started, started_given};

use bank_spec::{Bank, MOST_BLOCKS, Scan, StepAnswer};
use refusals::Refusal;

// What a step answers, and the scan state after.
#[derive(Clone, Copy)]
pub struct Stepped {
    pub answer: StepAnswer,
    pub scan: Scan,
}

// No block is held; the scan limit is not tested.
pub fn empty_bank(limit: u16) -> Bank
    ensures { result ≡ empty_bank limit }
{
    admitting::empty_bank(limit)
}

// No scan, nothing set; the first latch starts scan 0.
pub fn at_rest() -> Scan
    ensures { result ≡ at_rest }
{
    admitting::at_rest()
}

// A new bank with the scan limit S, and its fresh scan state; OutOfRange where S is out of range.
pub fn start(limit: u16) -> Result<(Bank, Scan), Refusal>
    ensures { started_given result ≡ started limit }
{
    admitting::start(limit)
}

// Bank and scan state hold nothing that gives 12.
pub fn well_formed(bank: Bank, scan: Scan) -> bool
    ensures { result ≡ formed bank scan }
{
    formed::state_formed(&bank, &scan)
}

// Admits a block with its period and phase: 12, 16, 13, 14 or 11 and nothing changes; else its records are copied and its rows appended to the row
// memory, all set outputs are cleared, no scan runs, and the next one is number 0.
pub fn admit_every(
    bank: Bank,
    scan: Scan,
    records: &[u8],
    bytes: &[u8],
    period: usize,
    phase: usize,
    rows: &mut [u8],
) -> Result<(Bank, Scan), Refusal>
    ensures { admission_given result bank scan rows.new
        ≡ admit (state_of bank scan rows.old) (handed records.now bytes.now period phase) }
{
    admitting::admit_block(&bank, &scan, records, bytes, period, phase, rows)
}

// Admits a block that is due in every scan.
pub fn admit(
    bank: Bank,
    scan: Scan,
    records: &[u8],
    bytes: &[u8],
    rows: &mut [u8],
) -> Result<(Bank, Scan), Refusal>
    ensures { admission_given result bank scan rows.new
        ≡ admit (state_of bank scan rows.old) (every_scan records.now bytes.now) }
{
    admitting::admit_block(&bank, &scan, records, bytes, 1, 0, rows)
}

// Latches eight words: each block that is due in the next scan takes its word and its set outputs are cleared, and that scan starts; or 12 and nothing
// changes. The row memory takes no part.
pub fn latch(bank: Bank, scan: Scan, words: [u16; MOST_BLOCKS]) -> Result<Scan, Refusal>
    ensures { (rows : List ℕ) → latch_given result bank scan rows ≡ latch (state_of bank scan rows) words }
{
    latching::latch_words(&bank, &scan, &words)
}

// The same on a scan state that is lent.
pub fn latch_lent(bank: Bank, scan: &mut Scan, words: [u16; MOST_BLOCKS]) -> Result<(), Refusal>
    ensures { (rows : List ℕ) → given_number (answered result) bank scan.new rows
        ≡ latch (state_of bank scan.old rows) words }
{
    *scan = latch(bank, *scan, words)?;
    Ok(())
}

// Moves the scan on by one read of the rows: 12, then Idle, then 11, else the block and cell that were read.
pub fn step(bank: Bank, scan: Scan, rows: &[u8]) -> Stepped
    ensures { given_answer result.answer bank result.scan rows.now ≡ step (state_of bank scan rows.now) }
{
    stepping::step_once(&bank, &scan, rows)
}

// The same on a scan state that is lent.
pub fn step_lent(bank: Bank, scan: &mut Scan, rows: &[u8]) -> StepAnswer
    ensures { given_answer result bank scan.new rows.now
        ≡ step (state_of bank scan.old rows.now) }
{
    let out = step(bank, *scan, rows);
    *scan = out.scan;
    out.answer
}
