// The compiler over words that serve a table of so many nodes.
ghost use Rattle.std.specs.Prelude.{◌≡◌, ◌≤◌, length, take};
ghost use Rattle.sheet_spec.specs.Given.{job_given};
ghost use Rattle.cutting.specs.Outcome.{compilation_given, outcome_of, outcome};
ghost use Rattle.node_table.specs.Nodes.{words_for};

use cutting::Compilation;
use reduction_spec::{MOST_NODES, NODE_WORDS};
use refusals::Refusal;
use sheet_spec::Job;

fn words_for(lent: usize) -> usize
    ensures { (result ≡ words_for lent) × (result ≤ 30720) }
{
    if lent < MOST_NODES {
        return lent * 3;
    }
    NODE_WORDS
}

// The words past those that serve the table are left as they are.
pub fn compile_words(
    job: &Job<'_>,
    sheet: &[u8],
    lent: usize,
    words: &mut [u16],
    records: &mut [u8],
    rows: &mut [u8],
) -> Result<Compilation, Refusal>
    requires { length words.old ≡ 30720 }
    ensures { outcome_of (compilation_given result) (take (words_for lent) words.new) records.new rows.new
        ≡ outcome (take (words_for lent) words.old) records.old rows.old (job_given job.now) sheet.now }
{
    let size = words_for(lent);
    cutting::compile(job, sheet, &mut words[..size], records, rows)
}
