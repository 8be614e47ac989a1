// One node of the diagram's words, and what stands at a height of an order: what every walk asks.
ghost use Rattle.std.specs.Prelude.{◌≡◌, suc, cond, ◌-◌, ◌+◌, ◌*◌, ◌<◌, ltb, length, get_or};
ghost use Rattle.sheet_spec.specs.Job.{is_input};
ghost use Rattle.reduction_spec.specs.Walk.{low_of, high_of};

use reduction_spec::NodeWords;

// Word i of node v: its height, its child for 0 and its child for 1. A constant has the words of node 2.
fn word_of(words: &NodeWords, v: u16, i: usize) -> u16
    requires { i < 3 }
    ensures { result ≡ cond (ltb v 10242) (get_or words.now ((v - 2) * 3 + i) 0) 0 }
{
    if v < 10242 {
        return words[usize::from(v.saturating_sub(2)) * 3 + i];
    }
    0
}

// The child of node v for 0; for 1.
pub fn low_of(words: &NodeWords, v: u16) -> u16
    ensures { result ≡ low_of words.now v }
{
    word_of(words, v, 1)
}

pub fn high_of(words: &NodeWords, v: u16) -> u16
    ensures { result ≡ high_of words.now v }
{
    word_of(words, v, 2)
}

// The variable at height h + 1 of an order is an input.
pub fn is_input_at(order: &[u8], h: usize) -> bool
    ensures { result ≡ is_input (get_or order.now (length order.now - suc h) 0) }
{
    let t = order.len();
    if t == 0 {
        return true;
    }
    if h < t {
        return order[t - 1 - h] < 128;
    }
    order[0] < 128
}
