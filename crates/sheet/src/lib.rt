// The sheet layer: refusals 1 to 6 of a job and its sheet, and the table of the function.

#![tactic(auto)]

mod depends;
mod lines;
mod order;
mod pairs;
mod planes;
mod records;

ghost use Rattle.std.specs.Prelude.{◌≡◌, MatchResult};
ghost use Rattle.refusals.specs.Numbers.{number, answered};
ghost use Rattle.sheet_spec.specs.Given.{job_given};
ghost use Rattle.sheet_spec.specs.Refusals.{sheet_refusal};
ghost use Rattle.sheet_spec.specs.Table.{tabled, fill_table};
ghost use Rattle.sheet.specs.Depends.{first_five};

use planes::Planes;
use records::{Accepted, Sheet};
use refusals::Refusal;
use sheet_spec::{Job, MOST_VARIABLES, TABLE_BYTES, Table};

// The job and its sheet, or the least of refusals 1 to 5.
fn first_five<'a>(job: &Job<'a>, sheet: &'a [u8]) -> Result<Accepted<'a>, Refusal>
    ensures { MatchResult result
        (λ a. (first_five (job_given job.now) sheet.now ≡ 0) × (a.n ≡ job.now.n) × (a.m ≡ job.now.m) × (a.order.now ≡ job.now.order.now)
        × (a.sheet.bytes.now ≡ sheet.now))
        (λ r. number r ≡ first_five (job_given job.now) sheet.now) }
{
    if order::out_of_range(job.n, job.m, job.k, job.l) {
        return Err(Refusal::OutOfRange);
    }
    if order::not_each_once(job.n, job.m, job.order) {
        return Err(Refusal::NotEachOnce);
    }
    if records::length_refused(sheet) {
        return Err(Refusal::SheetLength);
    }
    if records::any_malformed(job.n, job.m, sheet) {
        return Err(Refusal::Malformed);
    }
    let sheet = Sheet { bytes: sheet };
    if pairs::any_hit(&sheet) {
        return Err(Refusal::Clash);
    }
    Ok(Accepted {
        n: job.n,
        m: job.m,
        order: job.order,
        sheet,
    })
}

// The least of refusals 1 to 6 that the job and its sheet are given; where there is none the table of the function is written to the front of the
// lent one: 6 and the table are both found from the planes.
pub fn fill_table(job: &Job<'_>, sheet: &[u8], table: &mut Table) -> Result<(), Refusal>
    ensures { tabled (answered result) table.new ≡ fill_table (job_given job.now) sheet.now table.old }
{
    let job = first_five(job, sheet)?;
    let mut inputs = [0u8; MOST_VARIABLES];
    lines::list_of(&job, false, &mut inputs);
    let mut planes = Planes {
        zeros: [0; 4096],
        ones: [0; 4096],
    };
    lines::fill_planes(&job, &inputs, &mut planes);
    if depends::any_depends(&job, &inputs, &planes) {
        return Err(Refusal::Depends);
    }
    lines::write(&job, &planes, table);
    Ok(())
}

// The refusal alone.
pub fn refusal(job: &Job<'_>, sheet: &[u8]) -> Result<(), Refusal>
    ensures { answered result ≡ sheet_refusal (job_given job.now) sheet.now }
{
    let mut table = [0u8; TABLE_BYTES];
    fill_table(job, sheet, &mut table)
}
