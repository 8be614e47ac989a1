// Numbering of packed columns by their smallest member. Most columns are told apart by a key of 32 bits.
ghost use Rattle.std.specs.Prelude.{◌≡◌, cond, ◌&&◌, ◌≤◌, ◌<◌, ◌+◌, ◌*◌, eqb, length, get_or, set, OnOk};
ghost use Rattle.std.proofs.lemmas.List.Edits.{sets};
ghost use Rattle.laws.specs.Tests.{any, least};
ghost use Rattle.laws.specs.Lists.{puts};
ghost use Rattle.laws.specs.Bits.{flag};
ghost use Rattle.reduction_spec.specs.Numbering.{index_in, firsts_of};
ghost use Rattle.reduction.specs.Distinct.{same_words};
ghost use Rattle.reduction.specs.Lowering.{narrow_or};
ghost use Rattle.reduction.specs.ColumnHashes.{stirred, folded, key_of, is_kept, Inside};

use crate::state::Planes;
use reduction_spec::MOST_COLUMNS;
use refusals::Refusal;

// The words z and y stirred into k.
fn stir(k: u64, z: u64, y: u64) -> u64
    ensures { result ≡ stirred k z y }
{
    ((k << 5) | (k >> 59)) ^ z ^ (y << 1)
}

fn fold(k: u64) -> u32
    ensures { result ≡ folded k }
{
    ((k ^ (k >> 29) ^ (k >> 47)) % 4294967296) as u32
}

// The key of column q.
fn key(planes: &Planes, size: usize, q: usize) -> u32
    requires { q * size + size ≤ 1024 }
    ensures { result ≡ key_of planes.now.zero planes.now.one size q }
{
    let from = q * size;
    let mut k = 0u64;
    for i in 0..size {
        k = stir(k, planes.zero[from + i], planes.one[from + i]);
    }
    fold(k)
}

// 1 where two keys are equal, else 0.
fn hit(a: u32, b: u32) -> u32
    ensures { result ≡ flag (eqb a b) }
{
    u32::from(a == b)
}

// Whether k is among the first count keys. No branch: the loop is taken several keys at a time.
fn any_key(keys: &[u32; MOST_COLUMNS], count: usize, k: u32) -> bool
    requires { count ≤ 512 }
    ensures { result ≡ any count (λ c. eqb (get_or keys.now c 0) k) }
{
    let mut found = 0u32;
    for c in 0..count {
        found = found | hit(keys[c], k);
    }
    found == 1
}

// Whether the columns p and q are equal.
fn same_at(planes: &Planes, size: usize, p: usize, q: usize) -> bool
    requires { (p * size + size ≤ 1024) × (q * size + size ≤ 1024) }
    ensures { result ≡ same_words planes.now.zero planes.now.one size p q }
{
    let a = p * size;
    let b = q * size;
    for i in 0..size {
        if planes.zero[a + i] != planes.zero[b + i] {
            return false;
        }
        if planes.one[a + i] != planes.one[b + i] {
            return false;
        }
    }
    true
}

// Whether column q, with the key k, equals column p, with the key key.
fn matches(planes: &Planes, size: usize, key: u32, k: u32, q: usize, p: usize) -> bool
    requires { (q * size + size ≤ 1024) × (p * size + size ≤ 1024) }
    ensures { result ≡ (eqb key k && same_words planes.now.zero planes.now.one size q p) }
{
    if key == k {
        return same_at(planes, size, q, p);
    }
    false
}

// The first of the count columns kept that has the key k and equals column q; count where there is none.
fn find_same(
    planes: &Planes,
    size: usize,
    keys: &[u32; MOST_COLUMNS],
    kept: &[u16; MOST_COLUMNS],
    count: usize,
    q: usize,
    k: u32,
) -> usize
    requires { (count ≤ 512) × (q * size + size ≤ 1024) × Inside count size kept.now }
    ensures { result ≡ least count (is_kept planes.now.zero planes.now.one size keys.now kept.now q k) }
{
    for c in 0..count {
        if matches(planes, size, keys[c], k, q, usize::from(kept[c])) {
            return c;
        }
    }
    count
}

// The same, quicker where no key is k.
fn index_of(
    planes: &Planes,
    size: usize,
    keys: &[u32; MOST_COLUMNS],
    kept: &[u16; MOST_COLUMNS],
    count: usize,
    q: usize,
    k: u32,
) -> usize
    requires { (count ≤ 512) × (q * size + size ≤ 1024) × Inside count size kept.now }
    ensures { result ≡ least count (is_kept planes.now.zero planes.now.one size keys.now kept.now q k) }
{
    if any_key(keys, count, k) {
        return find_same(planes, size, keys, kept, count, q, k);
    }
    count
}

// Keeps column q, with the key k, as column count where its index c says that it is new. Answers how many are kept then.
fn keep(
    c: usize,
    count: usize,
    q: u16,
    k: u32,
    keys: &mut [u32; MOST_COLUMNS],
    kept: &mut [u16; MOST_COLUMNS],
) -> usize
    requires { c < 512 }
    ensures value { result ≡ cond (eqb c count) (count + 1) count }
    ensures keys_after { keys.new ≡ cond (eqb c count) (set keys.old c k) keys.old }
    ensures kept_after { kept.new ≡ cond (eqb c count) (set kept.old c q) kept.old }
{
    if c == count {
        keys[c] = k;
        kept[c] = q;
        return c + 1;
    }
    count
}

// The different ones of the packed columns 0 to cands - 1, in rising order, and each column's number among them; refused where there are more
// than 512.
pub fn number(
    cands: usize,
    size: usize,
    planes: &Planes,
    firsts: &mut [u16; MOST_COLUMNS],
    numbers: &mut [u16; 1024],
) -> Result<usize, Refusal>
    requires { (cands ≤ 1024) × (1 ≤ size) × (cands * size ≤ 1024) }
    ensures value { result
        ≡ narrow_or (length (firsts_of (same_words planes.now.zero planes.now.one size) cands)) (length (firsts_of (same_words planes.now.zero planes.now.one size) cands)) }
    ensures firsts_after { OnOk result (firsts.new ≡ sets firsts.old 0 (firsts_of (same_words planes.now.zero planes.now.one size) cands)) }
    ensures numbers_after { OnOk result (numbers.new ≡ puts
        cands
        (λ q. index_in (same_words planes.now.zero planes.now.one size) (firsts_of (same_words planes.now.zero planes.now.one size) q) q)
        numbers.old) }
{
    let mut keys = [0u32; MOST_COLUMNS];
    let mut kept = [0u16; MOST_COLUMNS];
    let mut count = 0;
    for q in 0..cands {
        let k = key(planes, size, q);
        let c = index_of(planes, size, &keys, &kept, count, q, k);
        if c == MOST_COLUMNS {
            return Err(Refusal::TooWide);
        }
        count = keep(c, count, q as u16, k, &mut keys, &mut kept);
        numbers[q] = c as u16;
    }
    firsts[..count].copy_from_slice(&kept[..count]);
    Ok(count)
}
