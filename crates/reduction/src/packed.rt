// The table as planes of packed words, and the planes of the columns one height below.
ghost use Rattle.std.specs.Prelude.{◌≡◌, cond, ◌≤◌, ◌<◌, ◌+◌, ◌-◌, ◌*◌, ◌/◌, ◌%◌, ◌^◌, eqb, get_or};
ghost use Rattle.std.specs.Int.Bits.{bit_and, bit_or};
ghost use Rattle.laws.specs.Lists.{puts};
ghost use Rattle.laws.specs.Bits.{marks};
ghost use Rattle.reduction.specs.Packed.{places_with, packed_word, half, lines_mask, candidates_of};

use crate::state::Height;
use sheet_spec::Table;

// bit where x is v, else 0.
fn mark(x: u8, v: u8, bit: u8) -> u8
    ensures { result ≡ cond (eqb x v) bit 0 }
{
    if x == v {
        return bit;
    }
    0
}

// The places of one line that hold v get its bit.
fn pack_line(table: &Table, base: usize, count: usize, bit: u8, v: u8, places: &mut [u8; 4096])
    requires { (count ≤ 4096) × (base + count ≤ 32768) }
    ensures { places.new
        ≡ puts count (λ x. bit_or (get_or places.old x 0) (cond (eqb (get_or table.now (base + x) 0) v) bit 0)) places.old }
{
    for x in 0..count {
        places[x] = places[x] | mark(table[base + x], v, bit);
    }
}

// All lines.
fn pack_lines(n: usize, m: usize, table: &Table, v: u8, places: &mut [u8; 4096])
    requires { (n ≤ 12) × (m ≤ 8) }
    ensures { places.new
        ≡ puts (2 ^ n)
        (λ x. marks (get_or places.old x 0) (λ k. cond (eqb (get_or table.now (k * 2 ^ n + x) 0) v) (2 ^ k) 0) m)
        places.old }
{
    let count = 1 << n;
    for k in 0..m {
        pack_line(table, k * count, count, 1 << k, v, places);
    }
}

// Eight places as a word.
fn packed_word(places: &[u8; 4096], i: usize) -> u64
    requires { i < 512 }
    ensures { result ≡ packed_word places.now i }
{
    let mut word = 0;
    for j in 0..8 {
        word = word | (u64::from(places[i * 8 + j]) << (j * 8));
    }
    word
}

// All places as words.
fn pack_words(places: &[u8; 4096], words: &mut [u64; 1024])
    ensures { words.new ≡ puts 512 (packed_word places.now) words.old }
{
    for i in 0..512 {
        words[i] = packed_word(places, i);
    }
}

// The plane of the places of a table that hold v.
pub fn pack(n: usize, m: usize, table: &Table, v: u8, words: &mut [u64; 1024])
    requires { (n ≤ 12) × (m ≤ 8) }
    ensures { words.new ≡ puts 512 (packed_word (places_with table.now n m v)) words.old }
{
    let mut places = [0u8; 4096];
    pack_lines(n, m, table, v, &mut places);
    pack_words(&places, words);
}

// The half b of a word of 2 * s bits.
fn half(x: u64, b: usize, s: usize) -> u64
    requires { s < 64 }
    ensures { result ≡ half s x b }
{
    if b == 0 {
        return x & ((1 << s) - 1);
    }
    x >> s
}

// The halves of w words.
fn halves(w: usize, s: usize, from: &[u64; 1024], to: &mut [u64; 1024])
    requires { (w ≤ 512) × (s < 64) }
    ensures { to.new ≡ puts (w * 2) (λ q. half s (get_or from.now (q / 2) 0) (q % 2)) to.old }
{
    let count = w * 2;
    for q in 0..count {
        to[q] = half(from[q / 2], q % 2, s);
    }
}

// The bits of the mask of count words.
fn keep_bits(count: usize, mask: u64, from: &[u64; 1024], to: &mut [u64; 1024])
    requires { count ≤ 1024 }
    ensures { to.new ≡ puts count (λ i. bit_and (get_or from.now i 0) mask) to.old }
{
    for i in 0..count {
        to[i] = from[i] & mask;
    }
}

// The b lowest lines of each of a word's places.
fn lines_mask(b: usize) -> u64
    requires { b ≤ 8 }
    ensures { result ≡ lines_mask b }
{
    ((1 << b) - 1) * 72340172838076673
}

// The columns below the columns above a height: their halves below an input, themselves without the line b below an output.
pub fn candidates(here: &Height, from: &[u64; 1024], to: &mut [u64; 1024])
    requires { (here.now.b ≤ 8) × (here.now.w ≤ 512) × (here.now.w * 2 * here.now.size ≤ 1024) }
    ensures { to.new ≡ candidates_of here.now.input here.now.a here.now.b here.now.size here.now.w from.now to.old }
{
    if here.input {
        if here.a < 3 {
            halves(here.w, 8 << here.a, from, to);
            return;
        }
        keep_bits(here.w * 2 * here.size, lines_mask(8), from, to);
        return;
    }
    keep_bits(here.w * here.size, lines_mask(here.b), from, to);
}
