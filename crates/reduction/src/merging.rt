// Cliques of columns: their numbers, the columns that are their products, and the numbers of the columns below.
ghost use Rattle.std.specs.Prelude.{◌≡◌, cond, ℕ, ◌≤◌, ◌<◌, ◌+◌, ◌-◌, ◌*◌, eqb, length, get_or};
ghost use Rattle.std.specs.Int.Bits.{bit_or};
ghost use Rattle.laws.specs.Lists.{puts, puts_at};
ghost use Rattle.reduction_spec.specs.Numbering.{index_in, firsts_of};
ghost use Rattle.reduction.specs.Distinct.{same_owner};
ghost use Rattle.reduction.specs.Packed.{added_columns};

use reduction_spec::MOST_COLUMNS;

// owner 0, 1, 2, ..: each column a clique of its own.
pub fn apart(w: usize, owner: &mut [u16; MOST_COLUMNS])
    requires { w ≤ 512 }
    ensures { owner.new ≡ puts w (λ c. c) owner.old }
{
    for c in 0..w {
        owner[c] = c as u16;
    }
}

// The number of a clique whose mark is s, 1 more than its number, or 0 where it is new and gets the number count.
fn number_of(s: u16, count: usize) -> usize
    requires { count < 512 }
    ensures { result ≡ cond (eqb s 0) count (s - 1) }
{
    if s == 0 {
        return count;
    }
    usize::from(s) - 1
}

// How many cliques there are after one whose mark is s.
fn counted(s: u16, count: usize) -> usize
    requires { count < 512 }
    ensures { result ≡ cond (eqb s 0) (count + 1) count }
{
    if s == 0 {
        return count + 1;
    }
    count
}

// The cliques numbered by their first columns: each column's number; answers how many there are.
pub fn renumber(w: usize, owner: &[u16; MOST_COLUMNS], nums: &mut [u16; MOST_COLUMNS]) -> usize
    requires { (w ≤ 512) × ((c : ℕ) → c < w → get_or owner.now c 0 < 512) }
    ensures value { result ≡ length (firsts_of (same_owner owner.now) w) }
    ensures nums_after { nums.new
        ≡ puts w
        (λ c. index_in (same_owner owner.now) (firsts_of (same_owner owner.now) c) c)
        nums.old }
{
    let mut seen = [0u16; MOST_COLUMNS];
    let mut count = 0;
    for c in 0..w {
        let g = usize::from(owner[c]);
        let s = seen[g];
        let i = number_of(s, count);
        seen[g] = (i + 1) as u16;
        nums[c] = i as u16;
        count = counted(s, count);
    }
    count
}

fn clear(plane: &mut [u64; 1024])
    ensures { plane.new ≡ puts 1024 (λ i. 0) plane.old }
{
    for i in 0..1024 {
        plane[i] = 0;
    }
}

// The size words of one plane from first on are added to those of another from number on.
fn add_column(size: usize, first: usize, number: usize, from: &[u64; 1024], to: &mut [u64; 1024])
    requires { (first + size ≤ 1024) × (number + size ≤ 1024) }
    ensures { to.new
        ≡ puts_at number size (λ i. bit_or (get_or to.old (number + i) 0) (get_or from.now (first + i) 0)) to.old }
{
    for i in 0..size {
        to[number + i] = to[number + i] | from[first + i];
    }
}

// The plane of the cliques' products: the columns firsts[c] of the plane from, added to the columns nums[c] of the plane to, which is
// cleared first.
pub fn add_columns(
    w: usize,
    size: usize,
    firsts: &[u16; MOST_COLUMNS],
    nums: &[u16; MOST_COLUMNS],
    from: &[u64; 1024],
    to: &mut [u64; 1024],
)
    requires { (w ≤ 512) × ((c : ℕ) → c < w → (get_or firsts.now c 0 * size + size ≤ 1024) × (get_or nums.now c 0 * size + size ≤ 1024)) }
    ensures { to.new
        ≡ added_columns size firsts.now nums.now from.now w (puts 1024 (λ i. 0) to.old) }
{
    clear(to);
    for c in 0..w {
        add_column(
            size,
            usize::from(firsts[c]) * size,
            usize::from(nums[c]) * size,
            from,
            to,
        );
    }
}

// The number below of each candidate.
pub fn children(
    cands: usize,
    numbers: &[u16; 1024],
    nums: &[u16; MOST_COLUMNS],
    below: &mut [u16; 1024],
)
    requires { (cands ≤ 1024) × ((q : ℕ) → q < cands → get_or numbers.now q 0 < 512) }
    ensures { below.new ≡ puts cands (λ q. get_or nums.now (get_or numbers.now q 0) 0) below.old }
{
    for q in 0..cands {
        below[q] = nums[usize::from(numbers[q])];
    }
}
