// Refusal 6: whether an output's value differs across an input that stands below it, from the planes of the outputs forced to 0 and to 1.
ghost use Rattle.std.specs.Prelude.{◌≡◌, cond, not, ◌≤◌, ◌<◌, ◌+◌, ◌-◌, ◌*◌, ◌^◌, eqb};
ghost use Rattle.std.specs.Int.Bits.{bit_and};
ghost use Rattle.laws.specs.Bits.{marks};
ghost use Rattle.sheet.specs.Depends.{apart_at, turned_at, apart_across, above_mask, any_depends};

use crate::order::place_of;
use crate::planes::{Low, Planes, added_at, count_up};
use crate::records::Accepted;
use sheet_spec::MOST_VARIABLES;

// The places of a block of 2^k from base on, k at most 8, and a bit q below k: each place without the bit against the place with it. One loop without
// a gap is quicker than one over the halves.
fn near(low: &Low, k: usize, q: usize, base: usize, d: u8, planes: &Planes) -> u8
    requires { (k ≤ 8) × (q < k) × (base + 2 ^ k ≤ 4096) }
    ensures { result
        ≡ marks d (λ i. cond (eqb (bit_and i (2 ^ q)) 0) (apart_at planes.now.zeros planes.now.ones (base + i) (base + i + 2 ^ q)) 0) (2 ^ k - 2 ^ q) }
{
    let step = 1usize << q;
    let end = (1usize << k) - step;
    let bit = (step % 256) as u8;
    let mut found = d;
    for i in 0..end {
        let apart = planes.apart(base + i, base + i + step);
        found = found | added_at(bit, 0, apart, low.numbers[i]);
    }
    found
}

// The 256 places from base on against those step further. Apart from near: without its test the loop is quicker.
fn far(base: usize, step: usize, d: u8, planes: &Planes) -> u8
    requires { base + step + 256 ≤ 4096 }
    ensures { result ≡ marks d (λ i. apart_at planes.now.zeros planes.now.ones (base + i) (base + step + i)) 256 }
{
    let mut found = d;
    for i in 0..256 {
        found = found | planes.apart(base + i, base + step + i);
    }
    found
}

// One block of 2^k places.
fn block(low: &Low, k: usize, q: usize, b: usize, d: u8, planes: &Planes) -> u8
    requires { (k ≤ 8) × (q < 12) × (k ≤ q → k ≡ 8) × (b * 2 ^ k + 2 ^ k ≤ 4096) }
    ensures { result ≡ marks d (λ i. turned_at planes.now.zeros planes.now.ones q (b * 2 ^ k + i)) (2 ^ k) }
{
    let base = b * (1usize << k);
    if q < k {
        return near(low, k, q, base, d, planes);
    }
    let step = 1usize << q;
    if (base / step) % 2 == 0 {
        return far(base, step, d, planes);
    }
    d
}

// The outputs that stand above the variable v in the order, as a mask.
fn above_mask(job: &Accepted<'_>, v: usize) -> usize
    ensures { (result ≡ above_mask job.now.order.now job.now.m v) × (result < 2 ^ job.now.m) }
{
    let bottom = place_of(job.order, v);
    let mut mask = 0;
    for o in 0..job.m {
        if place_of(job.order, 128 + o) < bottom {
            mask += 1usize << o;
        }
    }
    mask
}

// The outputs that are forced differently at any two places of 2^n that differ in bit q alone.
fn across(low: &Low, n: usize, q: usize, planes: &Planes) -> u8
    requires { (n ≤ 12) × (q < n) }
    ensures { result ≡ apart_across planes.now.zeros planes.now.ones n q }
{
    let k = n.min(8);
    let count = 1usize << (n - k);
    let mut d = 0;
    for b in 0..count {
        d = block(low, k, q, b, d, planes);
    }
    d
}

// Whether an output of the mask is forced differently across bit q. Where the mask is empty no place is looked at.
fn crosses(low: &Low, n: usize, q: usize, above: usize, planes: &Planes) -> bool
    requires { (n ≤ 12) × (q < n) }
    ensures { result ≡ not (eqb (bit_and (apart_across planes.now.zeros planes.now.ones n q) above) 0) }
{
    if above == 0 {
        return false;
    }
    usize::from(across(low, n, q, planes)) & above != 0
}

// Whether an output is forced differently across an input that stands below it; inputs are the inputs of the order, lowest first.
pub fn any_depends(job: &Accepted<'_>, inputs: &[u8; MOST_VARIABLES], planes: &Planes) -> bool
    ensures { result ≡ any_depends job.now.n job.now.m job.now.order.now inputs.now planes.now.zeros planes.now.ones }
{
    let low = count_up();
    let mut found = false;
    for q in 0..job.n {
        let above = above_mask(job, usize::from(inputs[q]));
        found = found | crosses(&low, job.n, q, above, planes);
    }
    found
}
