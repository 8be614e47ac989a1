// The cover of columns by cliques. Each column that is left has a key, its edges * 512 + its number: the least key is the column with
// fewest edges, ties to the lowest number. Edges are counted once; when a clique leaves, the keys of the others are lowered by its members.
ghost use Rattle.std.specs.Prelude.{◌≡◌, ℕ, ◌≤◌, ◌<◌, ◌+◌, ◌*◌, ◌%◌, eqb, get_or};
ghost use Rattle.laws.specs.Bits.{flag};
ghost use Rattle.laws.specs.Lists.{puts};
ghost use Rattle.reduction_spec.specs.Cover.{is_in, cover};
ghost use Rattle.reduction.specs.RunningKeys.{Growth, Stand, degree, fewer_by, first_key, growing, joining, keeping, least_key, lowered_keys, stored_for, turn, turns};

use reduction_spec::{Links, MOST_COLUMNS};

// The key of a column that is not left.
const GONE: u32 = u32::MAX;

// The least of the first w keys.
fn least_key(w: usize, keys: &[u32; MOST_COLUMNS]) -> u32
    requires { w ≤ 512 }
    ensures { result ≡ least_key keys.now w }
{
    let mut k = GONE;
    for i in 0..w {
        k = keys[i].min(k);
    }
    k
}

// An edge counted, where the flag x is 1.
fn one(x: u8) -> u16
    ensures { (result ≡ flag (eqb x 1)) × (result ≤ 1) }
{
    u16::from(x == 1)
}

// The edges of column c when all columns are left. A column is not its own neighbour, whatever its flag.
fn degree(w: usize, link: &Links, c: usize) -> u16
    requires { (w ≤ 512) × (c < w) }
    ensures { (result ≡ degree w link.now c) × (result ≤ 512) }
{
    let base = c * w;
    let mut n: u16 = 0;
    for d in 0..w {
        n += one(link[base + d]);
    }
    n - one(link[base + c])
}

// The keys when all columns are left.
fn first_keys(w: usize, link: &Links, keys: &mut [u32; MOST_COLUMNS])
    requires { w ≤ 512 }
    ensures { keys.new ≡ puts w (first_key w link.now) keys.old }
{
    for c in 0..w {
        keys[c] = u32::from(degree(w, link, c)) * 512 + (c as u32);
    }
}

// The key k with j edges fewer, never below 0; what is gone stays so.
fn fewer_by(j: u16, k: u32) -> u32
    ensures { result ≡ fewer_by j k }
{
    let taken = u32::from(j).min(k / 512) * 512;
    if k == GONE {
        return GONE;
    }
    k - taken
}

// The key k of a candidate that stays where the flag x is 1.
fn keeping(x: u8, k: u32) -> u32
    ensures { result ≡ keeping x k }
{
    if x == 1 {
        return k;
    }
    GONE
}

// Candidates stay along the line of the graph that starts at base.
fn keep(w: usize, link: &Links, base: usize, cand: &mut [u32; MOST_COLUMNS])
    requires { (w ≤ 512) × (base + w ≤ 262144) }
    ensures { cand.new ≡ puts w (λ d. keeping (get_or link.now (base + d) 0) (get_or cand.old d 0)) cand.old }
{
    for d in 0..w {
        cand[d] = keeping(link[base + d], cand[d]);
    }
}

// Column u joins the clique, which has count members.
fn join(
    w: usize,
    link: &Links,
    u: usize,
    count: usize,
    cand: &mut [u32; MOST_COLUMNS],
    members: &mut [u16; MOST_COLUMNS],
)
    requires { (w ≤ 512) × (u * w + w ≤ 262144) × (u < 512) × (count < 512) }
    ensures { ◌≡◌ {A = Growth} (record { cand = cand.exit.now; members = members.new; count = count + 1 })
        (joining w link.now u (record { cand = cand.entry.now; members = members.old; count = count })) }
{
    members[count] = u as u16;
    keep(w, link, u * w, cand);
    cand[u] = GONE;
}

// The column of a key.
fn column(k: u32) -> usize
    ensures { (result ≡ k % 512) × (result < 512) }
{
    (k % 512) as usize
}

// Candidates, of which first is the least key, join the clique while there are any; answers how many.
fn grow(
    w: usize,
    link: &Links,
    first: u32,
    cand: &mut [u32; MOST_COLUMNS],
    members: &mut [u16; MOST_COLUMNS],
) -> usize
    requires { (w ≤ 512) × (first ≡ least_key cand.old w) }
    ensures { ◌≡◌ {A = Growth} (record { cand = cand.exit.now; members = members.new; count = result })
        (growing w link.now w (record { cand = cand.entry.now; members = members.old; count = 0 })) }
{
    let mut k = first;
    for count in 0..w {
        if k == GONE {
            return count;
        }
        join(w, link, column(k), count, cand, members);
        k = least_key(w, cand);
    }
    w
}

// Each of the members is gone, and has the number g.
fn mark(
    count: usize,
    members: &[u16; MOST_COLUMNS],
    g: u16,
    keys: &mut [u32; MOST_COLUMNS],
    owner: &mut [u16; MOST_COLUMNS],
)
    requires { (count ≤ 512) × ((i : ℕ) → i < count → get_or members.now i 0 < 512) }
    ensures keys_after { keys.new ≡ stored_for 4294967295 count members.now keys.old }
    ensures owner_after { owner.new ≡ stored_for g count members.now owner.old }
{
    for i in 0..count {
        let member = usize::from(members[i]);
        keys[member] = GONE;
        owner[member] = g;
    }
}

// One more for each column compatible with the column whose line of the graph starts at base.
fn add_line(w: usize, link: &Links, base: usize, tally: &mut [u16; MOST_COLUMNS])
    requires { (w ≤ 512) × (base + w ≤ 262144) × ((d : ℕ) → d < w → get_or tally.old d 0 < 512) }
    ensures { tally.new ≡ puts w (λ d. get_or tally.old d 0 + flag (is_in link.now (base + d))) tally.old }
{
    for d in 0..w {
        tally[d] = tally[d] + one(link[base + d]);
    }
}

// Each column has as many edges fewer as the tally says.
fn lower(w: usize, tally: &[u16; MOST_COLUMNS], keys: &mut [u32; MOST_COLUMNS])
    requires { w ≤ 512 }
    ensures { keys.new ≡ puts w (λ c. fewer_by (get_or tally.now c 0) (get_or keys.old c 0)) keys.old }
{
    for c in 0..w {
        keys[c] = fewer_by(tally[c], keys[c]);
    }
}

// A clique leaves: from the edges of each column that remains, whatever their number was, exactly the members compatible with it are
// taken, never below 0. Nothing is asked of the keys.
fn lower_by_clique(
    w: usize,
    link: &Links,
    count: usize,
    members: &[u16; MOST_COLUMNS],
    keys: &mut [u32; MOST_COLUMNS],
)
    requires { (w ≤ 512) × (count ≤ 512) × ((i : ℕ) → i < count → get_or members.now i 0 < 512) }
    ensures { keys.new ≡ lowered_keys w link.now count members.now keys.old }
{
    let mut tally = [0u16; MOST_COLUMNS];
    for i in 0..count {
        add_line(w, link, usize::from(members[i]) * w, &mut tally);
    }
    lower(w, &tally, keys);
}

// The round of clique g, where k is the least key. A column without edges is a clique of its own.
fn turn(
    w: usize,
    link: &Links,
    g: u16,
    k: u32,
    keys: &mut [u32; MOST_COLUMNS],
    owner: &mut [u16; MOST_COLUMNS],
)
    requires { (w ≤ 512) × (k ≡ least_key keys.old w) }
    ensures { ◌≡◌ {A = Stand} (record { keys = keys.exit.now; owner = owner.new })
        (turn w link.now g k (record { keys = keys.entry.now; owner = owner.old })) }
{
    if k < 512 {
        let u = column(k);
        keys[u] = GONE;
        owner[u] = g;
        return;
    }
    let mut cand = [0u32; MOST_COLUMNS];
    cand[..w].copy_from_slice(&keys[..w]);
    let mut members = [0u16; MOST_COLUMNS];
    let count = grow(w, link, k, &mut cand, &mut members);
    mark(count, &members, g, keys, owner);
    lower_by_clique(w, link, count, &members, keys);
}

// Rounds while columns are left.
fn turns(w: usize, link: &Links, keys: &mut [u32; MOST_COLUMNS], owner: &mut [u16; MOST_COLUMNS])
    requires { w ≤ 512 }
    ensures { ◌≡◌ {A = Stand} (record { keys = keys.exit.now; owner = owner.new })
        (turns w link.now w 0 (record { keys = keys.entry.now; owner = owner.old })) }
{
    for g in 0..w {
        let k = least_key(w, keys);
        if k == GONE {
            return;
        }
        turn(w, link, g as u16, k, keys, owner);
    }
}

// The number of each of the w columns' cliques.
pub fn cover(w: usize, link: &Links, owner: &mut [u16; MOST_COLUMNS])
    requires { (w ≤ 512) × ((c d : ℕ) → c < w → d < w → is_in link.now (c * w + d) ≡ is_in link.now (d * w + c)) }
    ensures { owner.new ≡ puts w (λ c. get_or (cover w link.now) c 0) owner.old }
{
    let mut keys = [0u32; MOST_COLUMNS];
    let mut numbers = [0u16; MOST_COLUMNS];
    first_keys(w, link, &mut keys);
    turns(w, link, &mut keys, &mut numbers);
    owner[..w].copy_from_slice(&numbers[..w]);
}
