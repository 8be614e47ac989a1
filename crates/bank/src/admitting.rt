// A new bank, and admission.
ghost use Rattle.std.specs.Prelude.{◌≡◌, ◌+◌, ◌≤◌, ◌<◌, List, ℕ, length};
ghost use Rattle.laws.specs.Lists.{written};
ghost use Rattle.bank_spec.specs.State.{empty_bank, at_rest, state_of};
ghost use Rattle.bank_spec.specs.Calls.{handed, with_block, admit};
ghost use Rattle.bank.specs.Given.{admission_given, started, started_given};

use crate::blocks::Blocks;
use crate::formed::state_formed;
use crate::timing::Timing;
use bank_spec::{BANK_OUTPUTS, BANK_RECORD_BYTES, Bank, MOST_BLOCKS, MOST_SCAN, Scan};
use refusals::Refusal;
use stored_spec::{MOST_RECORD_BYTES, MOST_ROWS};

pub fn empty_bank(limit: u16) -> Bank
    ensures { result ≡ empty_bank limit }
{
    Bank {
        limit,
        count: 0,
        lengths: [0u8; MOST_BLOCKS],
        records: [0u8; BANK_RECORD_BYTES],
        periods: [0u8; MOST_BLOCKS],
        phases: [0u8; MOST_BLOCKS],
    }
}

// No scan, nothing set.
pub fn at_rest() -> Scan
    ensures { result ≡ at_rest }
{
    Scan {
        running: false,
        block: 0,
        cell: 0,
        rail: 0,
        number: 7,
        words: [0u16; MOST_BLOCKS],
        outputs: [2u8; BANK_OUTPUTS],
    }
}

#[tactic(auto, unfolding(crate::specs::Given::started, bank_spec::specs::State::limit_refused))]
pub fn start(limit: u16) -> Result<(Bank, Scan), Refusal>
    ensures { started_given result ≡ started limit }
{
    if limit < 1 || MOST_SCAN < limit {
        return Err(Refusal::OutOfRange);
    }
    Ok((empty_bank(limit), at_rest()))
}

// Stores the bytes of from in to, from place at on. A loop, for it is compiled to a call of memcpy: copy_from_slice between slices that are both lent is
// one of memmove, and the archive for C needs none.
fn copy_at(from: &[u8], at: usize, to: &mut [u8])
    requires { at + length from.now ≤ length to.old }
    ensures { to.new ≡ written to.old at from.now }
{
    for i in 0..from.len() {
        to[at + i] = from[i];
    }
}

// The bank with one block more, of 1 to 20 records.
fn with_block(bank: &Bank, records: &[u8], timing: Timing) -> Bank
    requires { (bank.now.count < 8) × (length records.now ≤ 80) }
    ensures { (bytes : List ℕ) → result ≡ with_block bank.now (handed records.now bytes timing.period timing.phase) }
{
    let b = usize::from(bank.count);
    let start = b * MOST_RECORD_BYTES;
    let mut more = *bank;
    more.count += 1;
    more.lengths[b] = (records.len() / 4) as u8;
    more.records[start..start + records.len()].copy_from_slice(records);
    more.periods[b] = timing.period;
    more.phases[b] = timing.phase;
    more
}

pub fn admit_block(
    bank: &Bank,
    scan: &Scan,
    records: &[u8],
    bytes: &[u8],
    period: usize,
    phase: usize,
    rows: &mut [u8],
) -> Result<(Bank, Scan), Refusal>
    ensures { admission_given result bank.now scan.now rows.new
        ≡ admit (state_of bank.now scan.now rows.old) (handed records.now bytes.now period phase) }
{
    if !state_formed(bank, scan) {
        return Err(Refusal::NotFormed);
    }
    if !stored::well_formed(records, bytes) {
        return Err(Refusal::NotFormed);
    }
    let timing = Timing::new(period, phase).ok_or(Refusal::NotTimed)?;
    let blocks = Blocks { bank };
    if MOST_BLOCKS <= blocks.count() {
        return Err(Refusal::BankFull);
    }
    if !blocks.cells_fit(timing, stored::cell_count(records)) {
        return Err(Refusal::OverLimit);
    }
    let at = blocks.rows_before(blocks.count());
    let total = at + stored::row_count(records);
    if (rows.len() < total * 2) | (MOST_ROWS < total) {
        return Err(Refusal::RowsShort);
    }
    copy_at(bytes, at * 2, rows);
    Ok((with_block(bank, records, timing), at_rest()))
}
