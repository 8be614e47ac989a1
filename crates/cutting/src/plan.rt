// The plan of a cascade: what stands at each height, the chosen cuts and the totals.
ghost use Rattle.std.specs.Prelude.{◌≡◌, ℕ, ◌≤◌, ◌<◌, ◌+◌, length, get_or};
ghost use Rattle.sheet_spec.specs.Limits.{largest_inputs, largest_outputs};
ghost use Rattle.cutting.specs.Levels.{rails_of, inputs_of};
ghost use Rattle.cutting.specs.Ways.{nexts_of};
ghost use Rattle.cutting.specs.Plan.{bytes21, cut_in, rows_to, planned, listed};

use crate::choice::{Ways, best_ways};
use crate::levels::{HEIGHTS, Levels, cell_at, levels_of};
use reduction_spec::Widths;
use refusals::Refusal;
use sheet_spec::Job;

// What stands at each height, the cuts, top first, cells + 1 of them, and the totals.
#[derive(Clone, Copy)]
pub struct Plan {
    pub levels: Levels,
    pub cuts: [u8; HEIGHTS],
    pub cells: u8,
    pub bits: u32,
    pub rows: usize,
}

// The cuts from t on, by the next cut below each height.
fn follow(t: usize, cells: usize, ways: &Ways) -> [u8; HEIGHTS]
    requires { (t ≤ 20) × (cells ≤ 20) × ((h : ℕ) → h ≤ 20 → get_or (nexts_of ways.now) h 0 ≤ 20) }
    ensures { result ≡ bytes21 (cells + 1) (cut_in (nexts_of ways.now) t) }
{
    let mut cuts = [0u8; HEIGHTS];
    let mut cut = t as u8;
    for i in 0..cells {
        cuts[i] = cut;
        cut = match ways[usize::from(cut)] {
            Some(way) => way.next,
            None => 0,
        };
    }
    cuts[cells] = cut;
    cuts
}

// The rows of all cells.
fn row_total(cells: usize, levels: &Levels, cuts: &[u8; HEIGHTS]) -> usize
    requires { (cells ≤ 20) × ((i : ℕ) → i ≤ 20 → get_or cuts.now i 0 ≤ 20) }
    ensures { result ≡ rows_to (rails_of levels.now) (inputs_of levels.now) cuts.now cells }
{
    let mut rows = 0;
    for i in 0..cells {
        let top = usize::from(cuts[i]);
        let bottom = usize::from(cuts[i + 1]);
        rows += cell_at(levels, top, bottom).rows();
    }
    rows
}

// The plan of a job by the widths at the heights below its order's.
pub fn plan_cells(job: &Job<'_>, widths: &Widths) -> Result<Plan, Refusal>
    requires { (1 ≤ length job.now.order.now) × (length job.now.order.now ≤ 20) × (job.now.k ≤ largest_inputs) × (job.now.l ≤ largest_outputs) }
    ensures { result ≡ listed (planned (length job.now.order.now) job.now.k job.now.l job.now.order.now widths.now) }
{
    let t = job.order.len();
    let levels = levels_of(job.order, widths);
    let ways = best_ways(t, job.k, job.l, &levels);
    let way = ways[t].ok_or(Refusal::NoCutList)?;
    let cells = usize::from(way.cells);
    let cuts = follow(t, cells, &ways);
    let rows = row_total(cells, &levels, &cuts);
    Ok(Plan {
        levels,
        cuts,
        cells: way.cells,
        bits: way.bits,
        rows,
    })
}
