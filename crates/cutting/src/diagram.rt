// The reduced diagram of a job, as the rows of its cells are read from it.
ghost use Rattle.std.specs.Prelude.{◌≡◌, ℕ, ◌≤◌, length};
ghost use Rattle.cutting.specs.Plan.{width_up, first_in};

use reduction_spec::{NodeWords, Widths};

// The order of its variables, top first, the widths at the heights below the top, and its node words. Each height has few columns.
#[derive(Clone, Copy)]
pub struct Diagram<'a> {
    pub order: &'a [u8],
    pub widths: &'a Widths,
    pub words: &'a NodeWords,
    pub ghost variables: { length order.now ≤ 20 },
    pub ghost columns: { (g : ℕ) → g ≤ length order.now → width_up (length order.now) widths.now g ≤ 512 },
}

// The width at height h, which is 1 at the top.
pub fn width_at(diagram: &Diagram<'_>, h: usize) -> usize
    ensures { result ≡ width_up (length diagram.now.order.now) diagram.now.widths.now h }
{
    if h < diagram.order.len() {
        return usize::from(diagram.widths[h]);
    }
    1
}

// The node of column 0 at height h.
pub fn first_node(diagram: &Diagram<'_>, h: usize) -> usize
    requires { h ≤ length diagram.now.order.now }
    ensures { (result ≡ first_in (length diagram.now.order.now) diagram.now.widths.now h) × (result ≤ 10242) }
{
    if h == 0 {
        return 1;
    }
    let t = diagram.order.len();
    let mut first = 2;
    for i in 0..t - h {
        first += width_at(diagram, t - i);
    }
    first
}
