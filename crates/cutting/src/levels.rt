// What stands at each height of a job: the rails of a cut there, and the inputs below it.
ghost use Rattle.std.specs.Prelude.{◌≡◌, ◌≤◌, ◌+◌, ◌-◌, length};
ghost use Rattle.stored_spec.specs.Cells.{cell};
ghost use Rattle.cutting.specs.Levels.{rails_of, inputs_of, levelled};
ghost use Rattle.cutting.specs.Ways.{list_cell};

use crate::rails;
use reduction_spec::Widths;
use sheet_spec::MOST_VARIABLES;
use stored_spec::Cell;

// The heights from 0 to that of a cut above all variables.
pub const HEIGHTS: usize = MOST_VARIABLES + 1;

#[derive(Clone, Copy)]
pub struct Level {
    pub rails: u8,
    pub inputs: u8,
}

pub const NO_LEVEL: Level = Level {
    rails: 0,
    inputs: 0,
};

pub type Levels = [Level; HEIGHTS];

// The levels from 0 to the height of the order, by the widths at the heights below that.
pub fn levels_of(order: &[u8], widths: &Widths) -> Levels
    requires { length order.now ≤ 20 }
    ensures { result ≡ levelled (length order.now) order.now widths.now }
{
    let t = order.len();
    let mut levels = [NO_LEVEL; HEIGHTS];
    let mut inputs = 0;
    for h in 0..t {
        levels[h] = Level {
            rails: rails(widths[h]),
            inputs,
        };
        inputs += u8::from(order[t - 1 - h] < 128);
    }
    levels[t] = Level { rails: 0, inputs };
    levels
}

// The cell between the cuts at the heights a and b, which have these levels.
fn cell_of(a: usize, above: Level, b: usize, below: Level) -> Cell
    requires { a ≤ 20 }
    ensures { result ≡ cell (above.rails + (above.inputs - below.inputs)) (a - above.inputs - (b - below.inputs) + below.rails) }
{
    let outputs_above = a.saturating_sub(usize::from(above.inputs));
    let outputs_below = b.saturating_sub(usize::from(below.inputs));
    Cell {
        inputs: usize::from(above.rails) + usize::from(above.inputs.saturating_sub(below.inputs)),
        outputs: outputs_above.saturating_sub(outputs_below) + usize::from(below.rails),
    }
}

// The cell between the cuts a and b.
pub fn cell_at(levels: &Levels, a: usize, b: usize) -> Cell
    requires { (a ≤ 20) × (b ≤ 20) }
    ensures { result ≡ list_cell (rails_of levels.now) (inputs_of levels.now) a b }
{
    cell_of(a, levels[a], b, levels[b])
}
