// Planes: for each of 4,096 places the outputs that the records matching it force. Records that test none of the upper four bits of a
// place are marked once, in a row of 256 places, and the row is spread over the plane.
ghost use Rattle.std.specs.Prelude.{◌≡◌, ◌≤◌, ◌<◌, ◌+◌, ◌*◌, ◌/◌, ◌%◌, ◌^◌, get_or};
ghost use Rattle.std.specs.Int.Bits.{bit_or};
ghost use Rattle.laws.specs.Lists.{puts, puts_at};
ghost use Rattle.laws.specs.Bits.{bit};
ghost use Rattle.sheet.specs.Planes.{added, some_added, marked_plane, complemented, number_to, CountsUp};
ghost use Rattle.laws.specs.Bits.{marks};
ghost use Rattle.sheet.specs.Depends.{apart_at};

use crate::records::Tests;
use sheet_spec::MOST_VARIABLES;

// For each place the outputs forced to 0, and those forced to 1.
#[derive(Drop)]
pub struct Planes {
    pub zeros: [u8; 4096],
    pub ones: [u8; 4096],
}

impl Planes {
    // The outputs that are forced differently at two places.
    pub fn apart(&self, x: usize, y: usize) -> u8
        requires { (x < 4096) × (y < 4096) }
        ensures { result ≡ apart_at self.now.zeros self.now.ones x y }
    {
        (self.zeros[x] ^ self.zeros[y]) | (self.ones[x] ^ self.ones[y])
    }
}

// f where the number i agrees with the values v on the mask k, else 0.
pub fn added_at(k: u8, v: u8, f: u8, i: u8) -> u8
    ensures { result ≡ added k v f i }
{
    if i & k == v {
        return f;
    }
    0
}

// The numbers 0 to 255. A loop over bytes alone is quicker than one that counts in wider numbers beside them.
#[derive(Drop)]
pub struct Low {
    pub numbers: [u8; 256],
    ghost up: { CountsUp numbers },
}

pub fn count_up() -> Low {
    let mut numbers = [0u8; 256];
    for i in 0..256 {
        numbers[i] = (i % 256) as u8;
    }
    Low { numbers }
}

// The 256 places from base on: those whose lowest byte agrees with v on k get the outputs f.
fn mark_block<const N: usize>(low: &Low, base: usize, k: u8, v: u8, f: u8, plane: &mut [u8; N])
    requires { base + 256 ≤ N }
    ensures { plane.new ≡ puts_at base 256 (λ i. bit_or (get_or plane.old (base + i) 0) (added k v f (get_or low.now.numbers i 0))) plane.old }
{
    for i in 0..256 {
        plane[base + i] = plane[base + i] | added_at(k, v, f, low.numbers[i]);
    }
}

// Every place that agrees with v on k gets the outputs f. A block whose upper bits do not agree is passed over.
fn mark_record<const N: usize>(low: &Low, k: u16, v: u16, f: u8, plane: &mut [u8; N])
    requires { N % 256 ≡ 0 }
    ensures { plane.new ≡ puts N (λ x. bit_or (get_or plane.old x 0) (added k v f x)) plane.old }
{
    if f == 0 {
        return;
    }
    for b in 0..N / 256 {
        if b & usize::from(k / 256) == usize::from(v / 256) {
            mark_block(low, b * 256, (k % 256) as u8, (v % 256) as u8, f, plane);
        }
    }
}

// What the first count records force, of those that test one of the upper four bits of a place, or of those that test none.
fn mark_some<const N: usize>(
    low: &Low,
    tests: &Tests,
    forces: &[u8; 256],
    count: usize,
    upper: bool,
    plane: &mut [u8; N],
)
    requires { (count ≤ 256) × (N % 256 ≡ 0) }
    ensures { plane.new
        ≡ puts N
        (λ x. marks (get_or plane.old x 0) (some_added upper tests.now.masks tests.now.values forces.now x) count)
        plane.old }
{
    for r in 0..count {
        let k = tests.masks[r];
        if (256 <= k) == upper {
            mark_record(low, k, tests.values[r], forces[r], plane);
        }
    }
}

// The row is added to the 256 places from base on.
fn spread_block(row: &[u8; 256], base: usize, plane: &mut [u8; 4096])
    requires { base ≤ 3840 }
    ensures { plane.new ≡ puts_at base 256 (λ i. bit_or (get_or plane.old (base + i) 0) (get_or row.now i 0)) plane.old }
{
    for i in 0..256 {
        plane[base + i] = plane[base + i] | row[i];
    }
}

// The row is added to every block of 256 places.
fn spread(row: &[u8; 256], plane: &mut [u8; 4096])
    ensures { plane.new ≡ puts 4096 (λ x. bit_or (get_or plane.old x 0) (get_or row.now (x % 256) 0)) plane.old }
{
    for b in 0..16 {
        spread_block(row, b * 256, plane);
    }
}

// What the first count records force is added to the plane.
pub fn mark(tests: &Tests, forces: &[u8; 256], count: usize, plane: &mut [u8; 4096])
    requires { count ≤ 256 }
    ensures { plane.new ≡ marked_plane tests.now.masks tests.now.values forces.now count plane.old }
{
    let low = count_up();
    mark_some(&low, tests, forces, count, true, plane);
    let mut row = [0u8; 256];
    mark_some(&low, tests, forces, count, false, &mut row);
    spread(&row, plane);
}

// At each place the outputs that the plane does not hold.
pub fn complement(plane: &mut [u8; 4096])
    ensures { plane.new ≡ complemented plane.old }
{
    for x in 0..4096 {
        plane[x] = plane[x] ^ 255;
    }
}

// Bit from of each word becomes bit k of its number.
fn move_bit(from: usize, k: usize, words: &[u16; 256], numbers: &mut [u16; 256])
    requires { (from < 16) × (k < 12) }
    ensures { numbers.new
        ≡ puts 256
        (λ r. bit_or (get_or numbers.old r 0) (bit (get_or words.now r 0) from * 2 ^ k))
        numbers.old }
{
    for r in 0..256 {
        numbers[r] = numbers[r] | (((words[r] >> from) % 2) << k);
    }
}

// Each word as a number: bit k is the word's bit for input k of the list.
pub fn number_words(
    inputs: &[u8; MOST_VARIABLES],
    n: usize,
    words: &[u16; 256],
    numbers: &mut [u16; 256],
)
    requires { n ≤ 12 }
    ensures { numbers.new
        ≡ puts 256
        (λ r. number_to (get_or numbers.old r 0) inputs.now n (get_or words.now r 0))
        numbers.old }
{
    for k in 0..n {
        move_bit(usize::from(inputs[k]) % 16, k, words, numbers);
    }
}
