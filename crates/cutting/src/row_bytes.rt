// The rows of all cells as bytes, two a row, low byte first.
ghost use Rattle.std.specs.Prelude.{◌≡◌, ℕ, ◌≤◌, ◌<◌, ◌+◌, ◌*◌, length, get_or, replicate};
ghost use Rattle.laws.specs.Lists.{puts};
ghost use Rattle.cutting.specs.Levels.{rails_of, inputs_of};
ghost use Rattle.cutting.specs.Plan.{rows_to, row_byte};
ghost use Rattle.cutting.specs.Spans.{CellWritable, cells_stored};

use crate::cells::write_cells;
use crate::diagram::Diagram;
use crate::plan::Plan;

// No cascade of a job has more rows.
const MADE_ROWS: usize = 12288;

// The first count rows.
fn store_rows(count: usize, from: &[u16; MADE_ROWS], to: &mut [u8])
    requires { (count ≤ 12288) × (count * 2 ≤ length to.old) }
    ensures { to.new ≡ puts (count * 2) (row_byte from.now) to.old }
{
    for i in 0..count {
        let x = from[i];
        to[i * 2] = (x % 256) as u8;
        to[i * 2 + 1] = (x / 256 % 256) as u8;
    }
}

// The rows of all cells of a plan, one after another.
pub fn write_row_bytes(diagram: &Diagram<'_>, plan: &Plan, rows: &mut [u8])
    requires { (plan.now.cells ≤ 20)
        × ((i : ℕ) → i < plan.now.cells → CellWritable diagram.now plan.now.levels (get_or plan.now.cuts i 0) (get_or plan.now.cuts (i + 1) 0))
        × (rows_to (rails_of plan.now.levels) (inputs_of plan.now.levels) plan.now.cuts plan.now.cells ≤ 12288)
        × (plan.now.rows ≤ 12288) × (plan.now.rows * 2 ≤ length rows.old) }
    ensures { rows.new
        ≡ puts (plan.now.rows * 2) (row_byte (cells_stored diagram.now plan.now.levels plan.now.cuts plan.now.cells (replicate 12288 0))) rows.old }
{
    let mut made = [0u16; MADE_ROWS];
    write_cells(diagram, plan, &mut made);
    store_rows(plan.rows, &made, rows);
}
