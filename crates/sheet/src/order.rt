// The job's numbers and its order: refusals 1 and 2, and where a variable stands.
ghost use Rattle.std.specs.Prelude.{◌≡◌, ◌≤◌, ◌<◌, ◌+◌, length};
ghost use Rattle.sheet_spec.specs.Refusals.{out_of_range, times, each_once, not_each_once, place_of};

use sheet_spec::{MOST_INPUTS, MOST_OUTPUTS};
use stored_spec::Cell;

pub fn out_of_range(n: usize, m: usize, k: usize, l: usize) -> bool
    ensures { result ≡ out_of_range n m k l }
{
    let inputs = (1 <= n) & (n <= MOST_INPUTS);
    let outputs = (1 <= m) & (m <= MOST_OUTPUTS);
    let cell_inputs = (2 <= k) & (k <= Cell::MAX_INPUTS);
    let cell_outputs = (1 <= l) & (l <= Cell::MAX_OUTPUTS);
    !(inputs & outputs & cell_inputs & cell_outputs)
}

// How often the byte v stands in the order.
fn times(order: &[u8], v: usize) -> usize
    requires { length order.now ≤ 20 }
    ensures { result ≡ times order.now v }
{
    let mut found = 0;
    for x in order {
        if usize::from(*x) == v {
            found += 1;
        }
    }
    found
}

// Whether each of the k variables from v on stands in the order once.
fn each_once(order: &[u8], v: usize, k: usize) -> bool
    requires { (length order.now ≤ 20) × (v ≤ 128) × (k ≤ 12) }
    ensures { result ≡ each_once order.now v k }
{
    let mut all = true;
    for i in 0..k {
        all = all & (times(order, v + i) == 1);
    }
    all
}

pub fn not_each_once(n: usize, m: usize, order: &[u8]) -> bool
    requires { (n ≤ 12) × (m ≤ 8) }
    ensures { result ≡ not_each_once n m order.now }
{
    if order.len() != n + m {
        return true;
    }
    let inputs = each_once(order, 0, n);
    let outputs = each_once(order, 128, m);
    !(inputs & outputs)
}

// The place of the variable v from the top; the order's length where it has none.
pub fn place_of(order: &[u8], v: usize) -> usize
    ensures { result ≡ place_of order.now v }
{
    order
        .iter()
        .position(|x| usize::from(*x) == v)
        .unwrap_or(order.len())
}
