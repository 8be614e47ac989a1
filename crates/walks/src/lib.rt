// Walks over the diagram, and the comparison of two columns by it.

#![tactic(auto)]

pub mod nodes;
mod walks;

ghost use Rattle.std.specs.Prelude.{◌≡◌};
ghost use Rattle.reduction_spec.specs.Walk.{walk};
ghost use Rattle.reduction_spec.specs.Compare.{same_columns, compatible_columns};
ghost use Rattle.reduction_spec.specs.Descent.{descent};

use crate::walks::{compatible_nodes, descend, same_nodes, walk_to};
use reduction_spec::{NodeWords, Reached};

// Where a walk from the node at the height ends; bit g of bits is the value of the variable at height g + 1.
pub fn walk(words: &NodeWords, bits: u32, height: u8, node: u16) -> u16
    ensures { result ≡ walk words.now bits height node }
{
    walk_to(words, bits, height, node)
}

// The columns of the nodes v and u at one height are the same.
pub fn same_columns(words: &NodeWords, height: u8, v: u16, u: u16) -> bool
    ensures { result ≡ same_columns words.now height v u }
{
    height <= 20 && same_nodes(words, height, v, u)
}

// The columns of the nodes v and u at one height are compatible.
pub fn compatible_columns(words: &NodeWords, height: u8, v: u16, u: u16) -> bool
    ensures { result ≡ compatible_columns words.now height v u }
{
    height <= 20 && compatible_nodes(words, height, v, u)
}

// From the node at the cut top down to the cut bottom; inputs are the values of the count inputs between, topmost most significant.
pub fn descent(
    words: &NodeWords,
    order: &[u8],
    top: u8,
    bottom: u8,
    node: u16,
    inputs: u16,
    count: u8,
) -> Reached
    ensures { result ≡ descent words.now order.now top bottom node inputs count }
{
    if top <= 20 {
        return descend(
            words,
            order,
            bottom,
            top.saturating_sub(bottom),
            node,
            inputs,
            count,
            0,
        );
    }
    Reached { node, outputs: 0 }
}
