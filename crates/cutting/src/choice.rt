// The chosen cut list, by the best way from each height down to 0.
ghost use Rattle.std.specs.Prelude.{◌≡◌, cond, ℕ, Some, None, ◌≤◌, ◌<◌, ◌+◌, get_or};
ghost use Rattle.sheet_spec.specs.Limits.{largest_inputs, largest_outputs};
ghost use Rattle.cutting.specs.Levels.{rails_of, inputs_of};
ghost use Rattle.cutting.specs.Ways.{fewer, with_cut_at, list_way, way_given, ways_given, ways_to};

use crate::levels::{HEIGHTS, Levels, cell_at};
use stored_spec::Cell;

// A way from a height down to 0: the number of its cells, their bits, and the next cut below.
#[derive(Clone, Copy)]
pub struct Way {
    pub cells: u8,
    pub bits: u32,
    pub next: u8,
}

// The best way from each height, where there is one.
pub type Ways = [Option<Way>; HEIGHTS];

// The way of fewer cells, or as many and fewer bits; else v.
fn better_of(u: Way, v: Option<Way>) -> Way
    ensures { way_given (Some result) ≡ cond (fewer (way_given (Some u)) (way_given v)) (way_given (Some u)) (way_given v) }
{
    match v {
        Some(v) if (v.cells, v.bits) <= (u.cells, u.bits) => v,
        _ => u,
    }
}

// The better of v and the cell c down to g with the way w from there.
fn with_cut(k: usize, l: usize, c: Cell, g: u8, w: Option<Way>, v: Option<Way>) -> Option<Way>
    requires { (k ≤ largest_inputs) × (l ≤ largest_outputs) × ((way_given w).cuts ≤ 21) × ((way_given w).bits ≤ 1310720) }
    ensures { way_given result ≡ with_cut_at k l c g (way_given w) (way_given v) }
{
    if !c.fits(k, l) {
        return v;
    }
    let Some(w) = w else {
        return v;
    };
    let u = Way {
        cells: w.cells + 1,
        bits: c.bits() as u32 + w.bits,
        next: g,
    };
    Some(better_of(u, v))
}

// The best way from h by those from the lower heights.
fn way_from(k: usize, l: usize, h: usize, levels: &Levels, ways: &Ways) -> Option<Way>
    requires { (k ≤ largest_inputs) × (l ≤ largest_outputs) × (h ≤ 20)
        × ((g : ℕ) → g < h → way_given (get_or ways.now g None) ≡ list_way k l (rails_of levels.now) (inputs_of levels.now) g) }
    ensures { way_given result ≡ list_way k l (rails_of levels.now) (inputs_of levels.now) h }
{
    if h == 0 {
        return Some(Way {
            cells: 0,
            bits: 0,
            next: 0,
        });
    }
    let mut best = None;
    for g in 0..h {
        best = with_cut(k, l, cell_at(levels, h, g), g as u8, ways[g], best);
    }
    best
}

// The best ways from the heights 0 to t; none from those above.
pub fn best_ways(t: usize, k: usize, l: usize, levels: &Levels) -> Ways
    requires { (t ≤ 20) × (k ≤ largest_inputs) × (l ≤ largest_outputs) }
    ensures { ways_given result ≡ ways_to t k l (rails_of levels.now) (inputs_of levels.now) }
{
    let mut ways = [None; HEIGHTS];
    for h in 0..t + 1 {
        ways[h] = way_from(k, l, h, levels, &ways);
    }
    ways
}
