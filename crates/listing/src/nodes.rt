// The compiler on a job out of input bytes, which leaves the diagram too: its nodes, three words each.
ghost use Rattle.std.specs.Prelude.{◌≡◌};
ghost use Rattle.cutting.specs.Outcome.{compilation_given, outcome_of, outcome};
ghost use Rattle.listing.specs.Split.{job_of, sheet_of};

use crate::job_in;
use cutting::Compilation;
use refusals::Refusal;

// The compiler on the job and the sheet of the input, over lent words for the nodes.
pub fn compile_nodes(
    input: &[u8],
    nodes: &mut [u16],
    records: &mut [u8],
    rows: &mut [u8],
) -> Result<Compilation, Refusal>
    ensures { outcome_of (compilation_given result) nodes.new records.new rows.new
        ≡ outcome nodes.old records.old rows.old (job_of input.now) (sheet_of input.now) }
{
    let (job, sheet) = job_in(input);
    cutting::compile(&job, sheet, nodes, records, rows)
}
