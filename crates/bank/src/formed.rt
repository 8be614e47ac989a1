// The test for 12: the bank and the scan state.
ghost use Rattle.std.specs.Prelude.{◌≡◌, true, ◌&&◌, ◌≤◌, ◌<◌, ◌^◌, ltb};
ghost use Rattle.laws.specs.Tests.{every};
ghost use Rattle.stored_spec.specs.StoredForm.{cell_count, cell_at};
ghost use Rattle.bank_spec.specs.State.{records_of, block_formed, bank_formed, scan_formed, formed};

use crate::blocks::{Blocks, records_at};
use crate::timing::{Timing, timed};
use bank_spec::{Bank, MOST_BLOCKS, MOST_SCAN, Scan};
use sheet_spec::MOST_VARIABLES;
use stored_spec::MOST_ROWS;

// The block at place b has 1 to 20 records, they are well formed, and its period and phase are not wrong.
fn block_formed(bank: &Bank, b: usize) -> bool
    requires { b < 8 }
    ensures { result ≡ block_formed bank.now b }
{
    let n = usize::from(bank.lengths[b]);
    if n < 1 {
        return false;
    }
    if MOST_VARIABLES < n {
        return false;
    }
    if !timed(usize::from(bank.periods[b]), usize::from(bank.phases[b])) {
        return false;
    }
    stored::records_formed(records_at(bank, b))
}

fn blocks_formed(bank: &Bank, count: usize) -> bool
    requires { count ≤ 8 }
    ensures { result ≡ every count (block_formed bank.now) }
{
    let mut good = true;
    for b in 0..count {
        good = good & block_formed(bank, b);
    }
    good
}

fn bank_formed(bank: &Bank) -> bool
    ensures { result ≡ bank_formed bank.now }
{
    let limit = bank.limit;
    let count = usize::from(bank.count);
    if limit < 1 {
        return false;
    }
    if MOST_SCAN < limit {
        return false;
    }
    if MOST_BLOCKS < count {
        return false;
    }
    if blocks_formed(bank, count) {
        let blocks = Blocks { bank };
        let every_scan = Timing {
            period: 1,
            phase: 0,
        };
        let fit = blocks.cells_fit(every_scan, 0);
        return fit & (blocks.rows_before(count) <= MOST_ROWS);
    }
    false
}

// The cell and the rail word are among those of the block at place b.
fn read_formed(blocks: Blocks<'_>, b: usize, cell: usize, rail: usize) -> bool
    requires { b < blocks.bank.now.count }
    ensures { result ≡ (ltb cell (cell_count (records_of blocks.entry.bank.now b)) && ltb rail (2 ^ (cell_at (records_of blocks.entry.bank.now b) cell).upper)) }
{
    if cell < blocks.cells(b) {
        let rails = stored::cell_rails(blocks.records(b), cell);
        return rail < 1 << usize::from(rails.upper);
    }
    false
}

// Of a formed bank: a scan number up to 7, and with reads left a block that is due, and a cell and a rail word among those held.
fn scan_formed(blocks: Blocks<'_>, scan: &Scan) -> bool
    ensures { result ≡ scan_formed blocks.entry.bank.now scan.now }
{
    if 7 < scan.number {
        return false;
    }
    if !scan.running {
        return true;
    }
    let b = usize::from(scan.block);
    if blocks.count() <= b {
        return false;
    }
    if blocks.due(scan.number, b) {
        return read_formed(blocks, b, usize::from(scan.cell), usize::from(scan.rail));
    }
    false
}

// Bank and scan state hold nothing that gives 12.
pub fn state_formed(bank: &Bank, scan: &Scan) -> bool
    ensures { result ≡ formed bank.now scan.now }
{
    if bank_formed(bank) {
        return scan_formed(Blocks { bank }, scan);
    }
    false
}
