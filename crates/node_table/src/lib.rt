// The compiler over a node table of node records. It makes them as cutting's compiler does, in words, three a node.

#![tactic(auto)]

mod nodes;
mod words;

ghost use Rattle.std.specs.Prelude.{◌≡◌, get_or};
ghost use Rattle.sheet_spec.specs.Given.{job_given};
ghost use Rattle.cutting.specs.Outcome.{compilation_given};
ghost use Rattle.node_table.specs.Nodes.{no_node, node_outcome_of, node_outcome, whole_outcome_of, whole_outcome};

use crate::nodes::fill;
use crate::words::compile_words;
use cutting::Compilation;
use reduction_spec::{MOST_NODES, NODE_WORDS, Node};
use refusals::Refusal;
use sheet_spec::Job;

// Where a table has no node.
const NO_NODE: Node = Node {
    height: 0,
    low: 0,
    high: 0,
};

// The compiler over a table of node records: as cutting's, which has three words a node.
pub fn compile(
    job: &Job<'_>,
    sheet: &[u8],
    nodes: &mut [Node],
    records: &mut [u8],
    rows: &mut [u8],
) -> Result<Compilation, Refusal>
    ensures { node_outcome_of (compilation_given result) nodes.new records.new rows.new
        ≡ node_outcome nodes.old records.old rows.old (job_given job.now) sheet.now }
{
    let mut words = [0u16; NODE_WORDS];
    let made = compile_words(job, sheet, nodes.len(), &mut words, records, rows)?;
    fill(&words, nodes, usize::from(made.nodes));
    Ok(made)
}

// The same over a node table of its own, which has room for every diagram.
pub fn compile_whole(
    job: &Job<'_>,
    sheet: &[u8],
    records: &mut [u8],
    rows: &mut [u8],
) -> Result<Compilation, Refusal>
    ensures { whole_outcome_of (compilation_given result) records.new rows.new
        ≡ whole_outcome records.old rows.old (job_given job.now) sheet.now }
{
    let mut nodes = [NO_NODE; MOST_NODES];
    compile(job, sheet, &mut nodes, records, rows)
}

// One node of a table; past its end, zeros.
pub fn read_node(nodes: &[Node], i: usize) -> Node
    ensures { result ≡ get_or nodes.now i no_node }
{
    nodes.get(i).copied().unwrap_or(NO_NODE)
}
