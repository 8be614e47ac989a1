// The cascade of the input's job.
ghost use Rattle.std.specs.Prelude.{◌≡◌, Ok, IfOk, replicate};
ghost use Rattle.refusals.specs.Numbers.{answered};
ghost use Rattle.cutting.specs.Outcome.{compilation_given};
ghost use Rattle.listing.specs.Block.{compiled_input, input_records, input_rows};

use crate::{compile_input, job_in};
use cutting::Compilation;
use printing::front;
use refusals::Refusal;

// The totals, and the records and the rows that the compiler wrote.
#[derive(Clone, Copy)]
pub struct Cascade<'a> {
    pub totals: Compilation,
    pub records: &'a [u8],
    pub rows: &'a [u8],
}

// Compiles the input's job into memories that are enough for every job.
pub fn cascade_in<'a>(
    input: &[u8],
    records: &'a mut [u8],
    rows: &'a mut [u8],
) -> Result<Cascade<'a>, Refusal>
    requires { (records.old ≡ replicate 80 0) × (rows.old ≡ replicate 65536 0) }
    ensures refused { answered result ≡ (compiled_input input.now).answer.refusal }
    ensures totals { IfOk result (λ c. compilation_given (Ok c.totals) ≡ (compiled_input input.now).answer) }
    ensures written { IfOk result (λ c. (c.records.now ≡ input_records input.now) × (c.rows.now ≡ input_rows input.now)) }
{
    let (job, _) = job_in(input);
    let totals = compile_input(input, records, rows)?;
    let records = front(records, 4 * (job.n + job.m));
    let rows = front(rows, usize::from(totals.rows) * 2);
    Ok(Cascade {
        totals,
        records,
        rows,
    })
}
