// The listing: a job out of input bytes, and what programs `cascade_list` and `list_jobs` print of it. Also the job's cascade evaluated, and as a line.

#![tactic(auto)]

mod block;
mod cascade;
mod lists;
pub mod nodes;

ghost use Rattle.std.specs.Prelude.{◌≡◌, ◌+◌, ◌≤◌};
ghost use Rattle.evaluation.specs.Answer.{evaluation_given, evaluation_of};
ghost use Rattle.cutting.specs.Outcome.{compilation_given};
ghost use Rattle.node_table.specs.Nodes.{whole_outcome_of, whole_outcome};
ghost use Rattle.sheet_spec.specs.Given.{job_given};
ghost use Rattle.listing.specs.Known.{evaluate_input};
ghost use Rattle.listing.specs.Split.{job_of, sheet_of};

pub use crate::block::block_input;
use crate::cascade::cascade_in;
pub use crate::lists::{list, list_input, list_jobs};
use cutting::Compilation;
use numbers::byte_at;
use printing::{behind, front, zeros};
use refusals::Refusal;
use sheet_spec::{Job, MOST_OUTPUTS};
use stored_spec::{MOST_RECORD_BYTES, MOST_ROW_BYTES};

// The job of the input: n, m, K and L, a byte each, 0 where input has ended; then the order, as much of it as there is. And the sheet: all that is left.
pub fn job_in(input: &[u8]) -> (Job<'_>, &[u8])
    ensures job { job_given result.0 ≡ job_of input.now }
    ensures sheet { result.1.now ≡ sheet_of input.now }
    ensures few { result.0.n + result.0.m ≤ 510 }
{
    let n = usize::from(byte_at(input, 0));
    let m = usize::from(byte_at(input, 1));
    let k = usize::from(byte_at(input, 2));
    let l = usize::from(byte_at(input, 3));
    let order = front(behind(input, 4), n + m);
    (Job { n, m, k, l, order }, behind(input, 4 + (n + m)))
}

// The compiler on the job and the sheet of the input, over node records.
pub fn compile_input(
    input: &[u8],
    records: &mut [u8],
    rows: &mut [u8],
) -> Result<Compilation, Refusal>
    ensures { whole_outcome_of (compilation_given result) records.new rows.new
        ≡ whole_outcome records.old rows.old (job_of input.now) (sheet_of input.now) }
{
    let (job, sheet) = job_in(input);
    node_table::compile_whole(&job, sheet, records, rows)
}

// Which outputs of the input's job are certain where the inputs of the mask are known and are those of the word; nothing is where the job is refused.
pub fn evaluate_input(input: &[u8], known: u16, word: u16) -> Result<[u8; MOST_OUTPUTS], Refusal>
    ensures { evaluation_given result ≡ evaluation_of (evaluate_input input.now known word) }
{
    let mut records: [u8; MOST_RECORD_BYTES] = zeros();
    let mut rows: [u8; MOST_ROW_BYTES] = zeros();
    let cascade = cascade_in(input, &mut records, &mut rows)?;
    evaluation::evaluate(cascade.records, cascade.rows, known, word)
}
