// The reduction layer: columns, compatibility, cover, merging and the diagram.

#![tactic(auto)]

mod cover;
mod distinct;
mod heights;
mod links;
mod merging;
mod node_words;
mod packed;
mod pass;
mod state;

ghost use Rattle.std.specs.Prelude.{◌≡◌};
ghost use Rattle.sheet_spec.specs.Given.{job_given};
ghost use Rattle.reduction_spec.specs.Reduction.{reduced_of, reduce_as};
ghost use Rattle.reduction_spec.specs.Given.{reduction_given};

use crate::pass::reduce_all;
use reduction_spec::{NODE_WORDS, NodeWords, Widths};
use refusals::Refusal;
use sheet_spec::{Job, MOST_VARIABLES};

// The reduction of a job and its sheet: the least of refusals 1 to 7, or the number of nodes. Where nothing is refused widths[h] is the
// width at height h, for 0 to t - 1, and words holds three words a node; else both are as they were.
pub fn reduce(
    job: &Job<'_>,
    sheet: &[u8],
    widths: &mut Widths,
    words: &mut NodeWords,
) -> Result<u16, Refusal>
    ensures { reduced_of (reduction_given result) widths.new words.new
        ≡ reduce_as (job_given job.now) sheet.now widths.old words.old }
{
    let mut made_widths = [0u16; MOST_VARIABLES];
    let mut made_words = [0u16; NODE_WORDS];
    let nodes = reduce_all(job, sheet, &mut made_widths, &mut made_words)?;
    let height = job.n + job.m;
    widths[..height].copy_from_slice(&made_widths[..height]);
    let count = usize::from(nodes) * 3;
    words[..count].copy_from_slice(&made_words[..count]);
    Ok(nodes)
}
