// The step: one read.
ghost use Rattle.std.specs.Prelude.{◌≡◌, true, ◌≤◌, ◌+◌, ◌*◌, ◌%◌, ◌^◌, ltb, length, take, drop};
ghost use Rattle.laws.specs.Lists.{written};
ghost use Rattle.stored_spec.specs.RowBytes.{two_bytes, room};
ghost use Rattle.stored_spec.specs.StoredForm.{cell_count, cell_at};
ghost use Rattle.stored_spec.specs.Run.{outputs_after, rail_after};
ghost use Rattle.bank_spec.specs.State.{records_of, rows_held, bank_formed, formed, state_of};
ghost use Rattle.bank_spec.specs.Calls.{next_row, moved, step};
ghost use Rattle.bank.specs.Given.{given_answer};

use crate::Stepped;
use crate::blocks::Blocks;
use crate::formed::state_formed;
use crate::latching::scan_from;
use bank_spec::{BANK_OUTPUTS, Bank, Scan, StepAnswer};
use numbers::pair;
use refusals::Refusal;
use sheet_spec::MOST_OUTPUTS;

// A scan that runs, of a formed bank and scan state.
#[derive(Clone, Copy)]
struct Running<'a> {
    blocks: Blocks<'a>,
    scan: &'a Scan,
    ghost formed: { formed blocks.bank.now scan.now ≡ true },
    ghost runs: { scan.now.running ≡ true },
}

impl Running<'_> {
    // The row that the next cell reads.
    fn row(&self, rows: &[u8]) -> u16
        requires { room two_bytes (rows_held self.now.blocks.bank.now) ≤ length rows.now }
        ensures { result ≡ next_row self.now.blocks.bank.now self.now.scan.now rows.now }
    {
        let b = usize::from(self.scan.block);
        let place = stored::row_read(
            self.blocks.records(b),
            usize::from(self.scan.cell),
            self.scan.rail,
            self.scan.words[b],
        );
        let at = (self.blocks.rows_before(b) + place) * 2;
        pair(rows[at], rows[at + 1])
    }

    // The cell of the next read is not the last of its block.
    fn more_cells(&self) -> bool
        ensures { result ≡ ltb (self.now.scan.now.cell + 1) (cell_count (records_of self.now.blocks.bank.now self.now.scan.now.block)) }
    {
        usize::from(self.scan.cell) + 1 < self.blocks.cells(usize::from(self.scan.block))
    }

    // The rail word after the row x is read.
    fn rail_after(&self, x: u16) -> u16
        ensures { result ≡ rail_after (cell_at (records_of self.now.blocks.bank.now self.now.scan.now.block) self.now.scan.now.cell) x }
    {
        let records = self.blocks.records(usize::from(self.scan.block));
        let rails = stored::cell_rails(records, usize::from(self.scan.cell));
        lowest(x, rails.lower)
    }

    // Among all outputs, those of the block after the row x is read.
    fn put_outputs(&self, x: u16, outputs: &mut [u8; BANK_OUTPUTS])
        ensures { outputs.new
            ≡ written outputs.old (self.now.scan.now.block * 8)
            (outputs_after (cell_at (records_of self.now.blocks.bank.now self.now.scan.now.block) self.now.scan.now.cell) (take 8 (drop (self.now.scan.now.block * 8) outputs.old)) x) }
    {
        let b = usize::from(self.scan.block);
        stored::set_outputs(
            self.blocks.records(b),
            usize::from(self.scan.cell),
            x,
            &mut outputs[b * MOST_OUTPUTS..b * MOST_OUTPUTS + MOST_OUTPUTS],
        );
    }

    // The scan state moved on by one read, of the row x.
    fn moved_on(&self, x: u16) -> Scan
        ensures { result ≡ moved self.now.blocks.bank.now self.now.scan.now x }
    {
        let scan = self.scan;
        let mut outputs = scan.outputs;
        self.put_outputs(x, &mut outputs);
        if self.more_cells() {
            return Scan {
                running: true,
                block: scan.block,
                cell: scan.cell + 1,
                rail: self.rail_after(x),
                number: scan.number,
                words: scan.words,
                outputs,
            };
        }
        scan_from(
            self.blocks,
            scan.number,
            usize::from(scan.block) + 1,
            scan.words,
            outputs,
        )
    }
}

// The lowest bits of x.
fn lowest(x: u16, bits: u8) -> u16
    requires { bits ≤ 16 }
    ensures { result ≡ x % 2 ^ bits }
{
    (u32::from(x) % (1 << bits)) as u16
}

pub fn step_once<'a>(bank: &'a Bank, scan: &'a Scan, rows: &[u8]) -> Stepped
    ensures { given_answer result.answer bank.now result.scan rows.now ≡ step (state_of bank.now scan.now rows.now) }
{
    if !state_formed(bank, scan) {
        return Stepped {
            answer: StepAnswer::Refused(Refusal::NotFormed),
            scan: *scan,
        };
    }
    if !scan.running {
        return Stepped {
            answer: StepAnswer::Idle,
            scan: *scan,
        };
    }
    let blocks = Blocks { bank };
    if rows.len() < blocks.rows_before(blocks.count()) * 2 {
        return Stepped {
            answer: StepAnswer::Refused(Refusal::RowsShort),
            scan: *scan,
        };
    }
    let next = Running { blocks, scan };
    let x = next.row(rows);
    Stepped {
        answer: StepAnswer::Went(scan.block, scan.cell),
        scan: next.moved_on(x),
    }
}
