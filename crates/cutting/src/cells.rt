// The rows of all cells of a cascade.
ghost use Rattle.std.specs.Prelude.{◌≡◌, ℕ, ◌≤◌, ◌<◌, ◌+◌, length, get_or};
ghost use Rattle.laws.specs.Lists.{puts_at};
ghost use Rattle.stored_spec.specs.Cells.{usable_rows};
ghost use Rattle.cutting.specs.Levels.{rails_of, inputs_of};
ghost use Rattle.cutting.specs.Ways.{list_cell};
ghost use Rattle.cutting.specs.Plan.{rows_to};
ghost use Rattle.cutting.specs.Spans.{CellWritable, cell_row, cells_stored};

use crate::cell_rows::{Span, write_rows};
use crate::diagram::{Diagram, first_node, width_at};
use crate::levels::{Levels, cell_at};
use crate::plan::Plan;

// The rows of the cell between the cuts top and bottom, from at on; answers their number.
fn write_cell(
    diagram: &Diagram<'_>,
    levels: &Levels,
    top: usize,
    bottom: usize,
    at: usize,
    rows: &mut [u16],
) -> usize
    requires { CellWritable diagram.now levels.now top bottom
        × (at + usable_rows (list_cell (rails_of levels.now) (inputs_of levels.now) top bottom) ≤ length rows.old) }
    ensures value { result ≡ usable_rows (list_cell (rails_of levels.now) (inputs_of levels.now) top bottom) }
    ensures rows_after { rows.new
        ≡ puts_at at (usable_rows (list_cell (rails_of levels.now) (inputs_of levels.now) top bottom)) (cell_row diagram.now levels.now top bottom)
        rows.old }
{
    let size = cell_at(levels, top, bottom).rows();
    let span = Span {
        diagram: *diagram,
        top: top as u8,
        bottom: bottom as u8,
        upper: first_node(diagram, top) as u16,
        width: width_at(diagram, top),
        lower: first_node(diagram, bottom) as u16,
        rails: levels[bottom].rails,
        count: levels[top].inputs.saturating_sub(levels[bottom].inputs),
    };
    write_rows(&span, at, size, rows);
    size
}

// The rows of all cells, one after another.
pub fn write_cells(diagram: &Diagram<'_>, plan: &Plan, rows: &mut [u16])
    requires { (plan.now.cells ≤ 20)
        × ((i : ℕ) → i < plan.now.cells → CellWritable diagram.now plan.now.levels (get_or plan.now.cuts i 0) (get_or plan.now.cuts (i + 1) 0))
        × (rows_to (rails_of plan.now.levels) (inputs_of plan.now.levels) plan.now.cuts plan.now.cells ≤ length rows.old) }
    ensures { rows.new ≡ cells_stored diagram.now plan.now.levels plan.now.cuts plan.now.cells rows.old }
{
    let mut at = 0;
    for i in 0..usize::from(plan.cells) {
        let top = usize::from(plan.cuts[i]);
        let bottom = usize::from(plan.cuts[i + 1]);
        at += write_cell(diagram, &plan.levels, top, bottom, at, rows);
    }
}
