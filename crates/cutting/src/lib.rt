// The cutting layer: the chosen cut list, rows, the stored form and the whole compiler.

#![tactic(auto)]

mod cell_rows;
mod cells;
mod choice;
mod diagram;
mod levels;
mod plan;
mod records;
mod row_bytes;

ghost use Rattle.std.specs.Prelude.{◌≡◌, ◌≤◌};
ghost use Rattle.refusals.specs.Numbers.{answered};
ghost use Rattle.sheet_spec.specs.Given.{job_given};
ghost use Rattle.stored_spec.specs.Rails.{rails};
ghost use Rattle.cutting.specs.Outcome.{compilation_given, outcome_of, outcome, memory_refusal};

use crate::diagram::Diagram;
use crate::plan::plan_cells;
use crate::records::{write_records, write_words};
use crate::row_bytes::write_row_bytes;
use reduction::reduce;
use reduction_spec::{NODE_WORDS, Widths};
use refusals::Refusal;
use sheet_spec::{Job, MOST_VARIABLES};

// The totals of a compiled job. widths[h] is the width at height h, for 0 to t - 1, and 0 above.
#[derive(Clone, Copy)]
pub struct Compilation {
    pub nodes: u16,
    pub cells: u8,
    pub rows: u16,
    pub bits: u32,
    pub widths: Widths,
}

// Refusals 9 to 11, of a plan of so many nodes, variables and rows for memories of these lengths.
fn refuse_short(
    made: u16,
    t: usize,
    total: usize,
    nodes: usize,
    records: usize,
    rows: usize,
) -> Result<(), Refusal>
    requires { t ≤ 20 }
    ensures { answered result ≡ memory_refusal made t total nodes records rows }
{
    if nodes < usize::from(made) * 3 {
        return Err(Refusal::NodesShort);
    }
    if records < t * 4 {
        return Err(Refusal::RecordsShort);
    }
    if rows / 2 < total {
        return Err(Refusal::RowsShort);
    }
    Ok(())
}

// The compiler: the cascade of a job and its sheet. Where nothing is refused nodes holds three words a node (height, child for 0, child for 1),
// records the stored records and rows the row tables, each kept past its written part; on a refusal all three are as they were. Every refusal is
// ruled out before anything is written.
pub fn compile(
    job: &Job<'_>,
    sheet: &[u8],
    nodes: &mut [u16],
    records: &mut [u8],
    rows: &mut [u8],
) -> Result<Compilation, Refusal>
    ensures { outcome_of (compilation_given result) nodes.new records.new rows.new
        ≡ outcome nodes.old records.old rows.old (job_given job.now) sheet.now }
{
    let mut widths = [0u16; MOST_VARIABLES];
    let mut words = [0u16; NODE_WORDS];
    let made = reduce(job, sheet, &mut widths, &mut words)?;
    let plan = plan_cells(job, &widths)?;
    refuse_short(
        made,
        job.order.len(),
        plan.rows,
        nodes.len(),
        records.len(),
        rows.len(),
    )?;
    write_words(usize::from(made) * 3, &words, nodes);
    write_records(job.order, &plan, records);
    let diagram = Diagram {
        order: job.order,
        widths: &widths,
        words: &words,
    };
    write_row_bytes(&diagram, &plan, rows);
    Ok(Compilation {
        nodes: made,
        cells: plan.cells,
        rows: plan.rows as u16,
        bits: plan.bits,
        widths,
    })
}

// The rails at a cut of this width: the least r with 2^r at least w.
pub fn rails(w: u16) -> u8
    ensures { result ≡ rails w }
{
    if w < 2 {
        return 0;
    }
    ((w - 1).ilog2() + 1) as u8
}
