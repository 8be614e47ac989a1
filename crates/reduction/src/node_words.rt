// The words of the nodes of one height.
ghost use Rattle.std.specs.Prelude.{◌≡◌, cond, [], ◌∷◌, ℕ, ◌≤◌, ◌<◌, ◌+◌, ◌*◌, eqb, get_or};
ghost use Rattle.std.proofs.lemmas.List.Edits.{sets};
ghost use Rattle.laws.specs.Lists.{tab, puts};
ghost use Rattle.reduction.specs.Packed.{value_in};
ghost use Rattle.reduction.specs.Lowering.{first_node, node_over};
ghost use Rattle.reduction_spec.specs.Diagram.{node_words};

use crate::state::{Height, Planes};
use reduction_spec::{MOST_COLUMNS, Node, NodeWords};

// The value of line b at the first place of a column whose first words are z and o.
fn value_in(z: u64, o: u64, b: usize) -> u8
    requires { b ≤ 8 }
    ensures { result ≡ value_in z o b }
{
    if (z >> b) % 2 == 1 {
        return 0;
    }
    if (o >> b) % 2 == 1 {
        return 1;
    }
    2
}

// The value of line b at the first place of each of w columns of size words.
pub fn top_values(w: usize, size: usize, b: usize, planes: &Planes, values: &mut [u8; MOST_COLUMNS])
    requires { (w ≤ 512) × (1 ≤ size) × (w * size ≤ 1024) × (b ≤ 8) }
    ensures { values.new
        ≡ puts w (λ c. value_in (get_or planes.now.zero (c * size) 0) (get_or planes.now.one (c * size) 0) b) values.old }
{
    for c in 0..w {
        values[c] = value_in(planes.zero[c * size], planes.one[c * size], b);
    }
}

// Node i of the table, counted from 0.
fn store_node(i: usize, node: Node, words: &mut NodeWords)
    requires { i < 10240 }
    ensures { words.new ≡ sets words.old (i * 3) (node.height ∷ node.low ∷ node.high ∷ []) }
{
    let k = i * 3;
    words[k] = node.height;
    words[k + 1] = node.low;
    words[k + 2] = node.high;
}

// The child for a value: 0 where the output's value v is the other one.
fn allowed(v: u8, other: u8, next: u16) -> u16
    ensures { result ≡ cond (eqb v other) 0 next }
{
    if v == other {
        return 0;
    }
    next
}

// The node of column c: at an input its children are the candidates c * 2 and c * 2 + 1, at an output the candidate c, and 0 for a
// forbidden value.
fn node_over(
    input: bool,
    height: u16,
    base: u16,
    values: &[u8; MOST_COLUMNS],
    below: &[u16; 1024],
    c: usize,
) -> Node
    requires { (c < 512) × (base ≤ 20000) × ((q : ℕ) → q < cond input (c * 2 + 2) (c + 1) → get_or below.now q 0 < 512) }
    ensures { result ≡ node_over input height base values.now below.now c }
{
    if input {
        return Node {
            height,
            low: base + below[c * 2],
            high: base + below[c * 2 + 1],
        };
    }
    let next = base + below[c];
    Node {
        height,
        low: allowed(values[c], 1, next),
        high: allowed(values[c], 0, next),
    }
}

// The number of the first node at a height, where count nodes stand above it.
fn first_node(height: usize, count: usize) -> u16
    requires { count ≤ 10240 }
    ensures { (result ≡ first_node height count) × (result ≤ 20000) }
{
    if height == 0 {
        return 1;
    }
    2 + count as u16
}

// The words of the nodes of the columns above a height: values has their outputs' values, below the numbers of the candidates.
pub fn store_nodes(
    here: &Height,
    values: &[u8; MOST_COLUMNS],
    below: &[u16; 1024],
    words: &mut NodeWords,
)
    requires { (here.now.a ≤ 12) × (here.now.b ≤ 8) × (here.now.w ≤ 512) × (here.now.at + here.now.w ≤ 10240) × ((q : ℕ) → q < cond here.now.input (here.now.w * 2) here.now.w → get_or below.now q 0 < 512) }
    ensures { words.new
        ≡ sets words.old (here.now.at * 3)
        (node_words
        (tab here.now.w
        (node_over here.now.input (here.now.a + here.now.b + 1) (first_node (here.now.a + here.now.b) (here.now.at + here.now.w)) values.now below.now))) }
{
    let height = (here.a + here.b + 1) as u16;
    let base = first_node(here.a + here.b, here.at + here.w);
    for c in 0..here.w {
        let node = node_over(here.input, height, base, values, below, c);
        store_node(here.at + c, node, words);
    }
}
