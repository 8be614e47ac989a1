// Walks over the node words, and the comparison of two columns: recursive, measured by the height, down to the constant children.
ghost use Rattle.std.specs.Prelude.{◌≡◌, ◌≤◌, ◌<◌, ◌-◌, ◌^◌};
ghost use Rattle.laws.specs.Bits.{has};
ghost use Rattle.reduction_spec.specs.Walk.{child, walk};
ghost use Rattle.reduction_spec.specs.Compare.{neither_zero, same_nodes, compatible_nodes};
ghost use Rattle.reduction_spec.specs.Descent.{descend};

use crate::nodes::{high_of, is_input_at, low_of};
use reduction_spec::{NodeWords, Reached};

// Bit h of bits is 1.
fn bit_at(bits: u32, h: u8) -> bool
    ensures { result ≡ has bits h }
{
    h < 32 && (bits >> h) % 2 == 1
}

// The child of node v that bit h chooses.
fn child_of(words: &NodeWords, bits: u32, h: u8, v: u16) -> u16
    requires { 2 ≤ v }
    ensures { result ≡ child words.now bits h v }
{
    if bit_at(bits, h) {
        return high_of(words, v);
    }
    low_of(words, v)
}

// Where a walk from the node v at height h ends.
pub fn walk_to(words: &NodeWords, bits: u32, h: u8, v: u16) -> u16
    ensures { result ≡ walk words.now bits h v }
{
    if h == 0 || v < 2 {
        return v;
    }
    walk_to(words, bits, h - 1, child_of(words, bits, h - 1, v))
}

// The nodes v and u at height h have the same column.
pub fn same_nodes(words: &NodeWords, h: u8, v: u16, u: u16) -> bool
    ensures { result ≡ same_nodes words.now h v u }
{
    if v == u {
        return true;
    }
    if h == 0 || v < 2 || u < 2 {
        return false;
    }
    same_nodes(words, h - 1, low_of(words, v), low_of(words, u))
        && same_nodes(words, h - 1, high_of(words, v), high_of(words, u))
}

// Neither node is constant 0.
fn is_open(v: u16, u: u16) -> bool
    ensures { result ≡ neither_zero v u }
{
    v != 0 && u != 0
}

// The nodes v and u at height h have compatible columns.
pub fn compatible_nodes(words: &NodeWords, h: u8, v: u16, u: u16) -> bool
    ensures { result ≡ compatible_nodes words.now h v u }
{
    if h == 0 || v < 2 || u < 2 {
        return is_open(v, u);
    }
    let low_v = low_of(words, v);
    let low_u = low_of(words, u);
    let high_v = high_of(words, v);
    let high_u = high_of(words, u);
    let low_open = is_open(low_v, low_u);
    let high_open = is_open(high_v, high_u);
    if low_open {
        return compatible_nodes(words, h - 1, low_v, low_u)
            && (!high_open || compatible_nodes(words, h - 1, high_v, high_u));
    }
    high_open && compatible_nodes(words, h - 1, high_v, high_u)
}

// k heights down from the node v at height bottom + k; o are the outputs met so far.
pub fn descend(
    words: &NodeWords,
    order: &[u8],
    bottom: u8,
    k: u8,
    v: u16,
    x: u16,
    count: u8,
    o: u32,
) -> Reached
    requires { (k ≤ 20) × (o < 2 ^ (20 - k)) }
    ensures { result ≡ descend words.now order.now bottom k v x count o }
{
    if k == 0 || v < 2 {
        return Reached {
            node: v,
            outputs: o,
        };
    }
    if is_input_at(order, usize::from(bottom) + usize::from(k) - 1) {
        let left = count.saturating_sub(1);
        let next = child_of(words, u32::from(x), left, v);
        return descend(words, order, bottom, k - 1, next, x, left, o);
    }
    let low = low_of(words, v);
    if low == 0 {
        let high = high_of(words, v);
        return descend(words, order, bottom, k - 1, high, x, count, o * 2 + 1);
    }
    descend(words, order, bottom, k - 1, low, x, count, o * 2)
}
