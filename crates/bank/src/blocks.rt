// The blocks of a bank, and what is counted of them.
ghost use Rattle.std.specs.Prelude.{◌≡◌, true, cond, ℕ, ◌≤◌, ◌<◌, ◌+◌, leb, ltb, get_or};
ghost use Rattle.laws.specs.Lists.{tab};
ghost use Rattle.laws.specs.Tests.{every};
ghost use Rattle.stored_spec.specs.StoredForm.{cell_count, row_count};
ghost use Rattle.bank_spec.specs.Due.{due};
ghost use Rattle.bank_spec.specs.State.{records_of, period_of, phase_of, due_at, cells_due, next_due, block_formed, cells_before, rows_before};

use crate::timing::Timing;
use bank_spec::{Bank, MOST_BLOCKS, SCAN_NUMBERS};
use stored_spec::MOST_RECORD_BYTES;

// The records of the block at place b.
pub fn records_at(bank: &Bank, b: usize) -> &[u8]
    requires { (b < 8) × (get_or bank.now.lengths b 0 ≤ 20) }
    ensures { result.now ≡ records_of bank.now b }
{
    let start = b * MOST_RECORD_BYTES;
    &bank.records[start..start + usize::from(bank.lengths[b]) * 4]
}

// A bank whose blocks have 1 to 20 records that are well formed, and no wrong period or phase.
#[derive(Clone, Copy)]
pub struct Blocks<'a> {
    pub bank: &'a Bank,
    ghost few: { bank.now.count ≤ 8 },
    ghost formed: { every bank.now.count (block_formed bank.now) ≡ true },
}

impl<'a> Blocks<'a> {
    pub fn count(self) -> usize
        ensures { result ≡ self.entry.bank.now.count }
    {
        usize::from(self.bank.count)
    }

    pub fn records(self, b: usize) -> &'a [u8]
        requires { b < self.bank.now.count }
        ensures { result.now ≡ records_of self.entry.bank.now b }
    {
        records_at(self.bank, b)
    }

    pub fn timing(self, b: usize) -> Timing
        requires { b < self.bank.now.count }
        ensures { (result.period ≡ period_of self.entry.bank.now b) × (result.phase ≡ phase_of self.entry.bank.now b) }
    {
        Timing {
            period: self.bank.periods[b],
            phase: self.bank.phases[b],
        }
    }

    // The block at place b is due in the scan.
    pub fn due(self, number: u8, b: usize) -> bool
        requires { b < self.bank.now.count }
        ensures { result ≡ due_at self.entry.bank.now number b }
    {
        self.timing(b).due(number)
    }

    // The first place from b on whose block is due in the scan; the number of blocks where there is none.
    pub fn next_due(self, number: u8, b: usize) -> usize
        requires { b ≤ self.bank.now.count }
        ensures { result ≡ next_due self.entry.bank.now number b }
    {
        for i in b..self.count() {
            if self.due(number, i) {
                return i;
            }
        }
        self.count()
    }

    pub fn cells(self, b: usize) -> usize
        requires { b < self.bank.now.count }
        ensures { (result ≡ cell_count (records_of self.entry.bank.now b)) × (result ≤ 20) }
    {
        stored::cell_count(self.records(b))
    }

    fn rows(self, b: usize) -> usize
        requires { b < self.bank.now.count }
        ensures { (result ≡ row_count (records_of self.entry.bank.now b)) × (result ≤ 32768) }
    {
        stored::row_count(self.records(b))
    }

    // The rows of the blocks before place n.
    pub fn rows_before(self, n: usize) -> usize
        requires { n ≤ self.bank.now.count }
        ensures { (result ≡ rows_before self.entry.bank.now n) × (result ≤ 262144) }
    {
        let mut rows = 0;
        for b in 0..n {
            rows += self.rows(b);
        }
        rows
    }

    // The cells of each block.
    fn cell_counts(self) -> [u8; MOST_BLOCKS]
        ensures { result ≡ tab 8 (λ b. cond (ltb b self.entry.bank.now.count) (cell_count (records_of self.entry.bank.now b)) 0) }
    {
        let mut counts = [0u8; MOST_BLOCKS];
        for b in 0..self.count() {
            counts[b] = self.cells(b) as u8;
        }
        counts
    }

    // The cells that the scan reads of all blocks, the cells of each counted.
    fn cells_due(self, counts: &[u8; MOST_BLOCKS], number: u8) -> usize
        requires { counts.now ≡ tab 8 (λ b. cond (ltb b self.bank.now.count) (cell_count (records_of self.bank.now b)) 0) }
        ensures { (result ≡ cells_before self.entry.bank.now number self.entry.bank.now.count) × (result ≤ 160) }
    {
        let mut cells = 0;
        for b in 0..self.count() {
            cells += self.timing(b).cells_due(number, usize::from(counts[b]));
        }
        cells
    }

    // With cells more in the scans in which they are due, no scan of the eight reads over limit cells.
    pub fn cells_fit(self, timing: Timing, cells: usize) -> bool
        requires { cells ≤ 40 }
        ensures { result
            ≡ every 8 (λ i. leb (cells_before self.entry.bank.now i self.entry.bank.now.count + cond (due timing.period timing.phase i) cells 0) self.entry.bank.now.limit) }
    {
        let limit = usize::from(self.bank.limit);
        let counts = self.cell_counts();
        let mut good = true;
        for number in 0u8..SCAN_NUMBERS {
            good = good
                & (self.cells_due(&counts, number) + timing.cells_due(number, cells) <= limit);
        }
        good
    }
}
