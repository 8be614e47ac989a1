// One height further down: the columns below, their cliques, the cliques' products and the nodes above them.
ghost use Rattle.std.specs.Prelude.{◌≡◌, true, false, cond, ℕ, ◌≤◌, ◌<◌, ◌+◌, ◌*◌, length, get_or, OnOk};
ghost use Rattle.std.proofs.lemmas.List.Edits.{sets};
ghost use Rattle.laws.specs.Lists.{puts};
ghost use Rattle.reduction_spec.specs.Cover.{is_in, cover};
ghost use Rattle.reduction_spec.specs.Diagram.{node_words};
ghost use Rattle.reduction.specs.Lowering.{narrow_or, first_node, clique_firsts, clique_of, candidate_count, firsts_below, cliques_below, number_below, product_below, nodes_over};

use crate::cover::cover;
use crate::distinct::number;
use crate::links::link_columns;
use crate::merging::{add_columns, apart, children, renumber};
use crate::node_words::{store_nodes, top_values};
use crate::packed::candidates;
use crate::state::{Height, Planes};
use reduction_spec::{Links, MOST_COLUMNS, NodeWords};
use refusals::Refusal;

// The clique of each of w columns. Where none are linked each is a clique of its own, and the cover would only say so.
fn own(linked: bool, w: usize, link: &Links, owner: &mut [u16; MOST_COLUMNS])
    requires { (w ≤ 512) × ((c d : ℕ) → c < w → d < w → is_in link.now (c * w + d) ≡ is_in link.now (d * w + c)) }
    ensures { owner.new
        ≡ cond linked (puts w (λ c. get_or (cover w link.now) c 0) owner.old) (puts w (λ c. c) owner.old) }
{
    if linked {
        cover(w, link, owner);
        return;
    }
    apart(w, owner);
}

// The cliques of the w columns firsts of the planes, numbered by their first columns: each column's number; answers how many there are.
fn group(
    w: usize,
    size: usize,
    planes: &Planes,
    firsts: &[u16; MOST_COLUMNS],
    link: &mut Links,
    nums: &mut [u16; MOST_COLUMNS],
) -> usize
    requires { (w ≤ 512) × (1 ≤ size) × (length link.old ≡ 262144) × ((c : ℕ) → c < w → get_or firsts.now c 0 * size + size ≤ 1024) }
    ensures value { result ≡ length (clique_firsts size planes.now.zero planes.now.one w firsts.now) }
    ensures nums_after { nums.new ≡ puts w (clique_of size planes.now.zero planes.now.one w firsts.now) nums.old }
    ensures link_len { length link.new ≡ 262144 }
{
    let linked = link_columns(w, size, planes, firsts, link);
    let mut owner = [0u16; MOST_COLUMNS];
    own(linked, w, link, &mut owner);
    renumber(w, &owner, nums)
}

// How many columns below are looked at.
fn candidate_count(input: bool, w: usize) -> usize
    requires { w ≤ 512 }
    ensures { result ≡ cond input (w * 2) w }
{
    if input {
        return w * 2;
    }
    w
}

// The planes of the columns above become those of the columns below after the merge there; answers how many there are, unless more than 512
// stand below before the merge. below gets the number of each candidate.
fn lower(
    here: &Height,
    planes: &mut Planes,
    link: &mut Links,
    below: &mut [u16; 1024],
) -> Result<usize, Refusal>
    requires { (here.now.b ≤ 8) × (here.now.w ≤ 512) × (1 ≤ here.now.size) × (here.now.w * 2 * here.now.size ≤ 1024) × (length link.old ≡ 262144) }
    ensures value { result
        ≡ narrow_or (length (firsts_below here.now.input here.now.a here.now.b here.now.size here.now.w planes.old.zero planes.old.one)) (length (cliques_below here.now.input here.now.a here.now.b here.now.size here.now.w planes.old.zero planes.old.one)) }
    ensures zero_after { OnOk result (planes.new.zero ≡ product_below here.now.input here.now.a here.now.b here.now.size here.now.w planes.old.zero planes.old.one planes.old.zero planes.old.zero) }
    ensures one_after { OnOk result (planes.new.one ≡ product_below here.now.input here.now.a here.now.b here.now.size here.now.w planes.old.zero planes.old.one planes.old.one planes.old.one) }
    ensures below_after { OnOk result (below.new ≡ puts (candidate_count here.now.input here.now.a here.now.b here.now.size here.now.w planes.old.zero planes.old.one)
        (number_below here.now.input here.now.a here.now.b here.now.size here.now.w planes.old.zero planes.old.one) below.old) }
    ensures link_len { OnOk result (length link.new ≡ 262144) }
{
    let mut split = Planes {
        zero: [0; 1024],
        one: [0; 1024],
    };
    candidates(here, &planes.zero, &mut split.zero);
    candidates(here, &planes.one, &mut split.one);
    let cands = candidate_count(here.input, here.w);
    let mut firsts = [0u16; MOST_COLUMNS];
    let mut numbers = [0u16; 1024];
    let count = number(cands, here.size, &split, &mut firsts, &mut numbers)?;
    let mut nums = [0u16; MOST_COLUMNS];
    let cliques = group(count, here.size, &split, &firsts, link, &mut nums);
    add_columns(
        count,
        here.size,
        &firsts,
        &nums,
        &split.zero,
        &mut planes.zero,
    );
    add_columns(
        count,
        here.size,
        &firsts,
        &nums,
        &split.one,
        &mut planes.one,
    );
    children(cands, &numbers, &nums, below);
    Ok(cliques)
}

// One height further down: the same, and the words of the nodes of the columns above are stored.
pub fn step(
    here: &Height,
    planes: &mut Planes,
    link: &mut Links,
    words: &mut NodeWords,
) -> Result<usize, Refusal>
    requires { (here.now.b ≤ 8) × (here.now.w ≤ 512) × (1 ≤ here.now.size) × (here.now.w * 2 * here.now.size ≤ 1024) × (length link.old ≡ 262144) × (here.now.a ≤ 12) × (here.now.at + here.now.w ≤ 10240) }
    ensures value { result
        ≡ narrow_or (length (firsts_below here.now.input here.now.a here.now.b here.now.size here.now.w planes.old.zero planes.old.one)) (length (cliques_below here.now.input here.now.a here.now.b here.now.size here.now.w planes.old.zero planes.old.one)) }
    ensures zero_after { OnOk result (planes.new.zero ≡ product_below here.now.input here.now.a here.now.b here.now.size here.now.w planes.old.zero planes.old.one planes.old.zero planes.old.zero) }
    ensures one_after { OnOk result (planes.new.one ≡ product_below here.now.input here.now.a here.now.b here.now.size here.now.w planes.old.zero planes.old.one planes.old.one planes.old.one) }
    ensures words_after { OnOk result (words.new ≡ sets words.old (here.now.at * 3)
        (node_words (nodes_over here.now.input here.now.a here.now.b here.now.size here.now.w planes.old.zero planes.old.one (here.now.a + here.now.b + 1) (first_node (here.now.a + here.now.b) (here.now.at + here.now.w))))) }
    ensures link_len { OnOk result (length link.new ≡ 262144) }
{
    let mut values = [0u8; MOST_COLUMNS];
    top_values(here.w, here.size, here.b, planes, &mut values);
    let mut below = [0u16; 1024];
    let cliques = lower(here, planes, link, &mut below)?;
    store_nodes(here, &values, &below, words);
    Ok(cliques)
}
