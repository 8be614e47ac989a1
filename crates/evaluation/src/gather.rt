// The rows of a cell that may be read: those whose address agrees with the known inputs and a rail word of the set above the cell, each once.
ghost use Rattle.std.specs.Prelude.{◌≡◌, true, false, List, ℕ, ◌≤◌, ◌<◌, ◌+◌, ◌*◌, ◌/◌, ◌^◌, length};
ghost use Rattle.std.specs.Int.Bits.{bit_and};
ghost use Rattle.laws.specs.Bits.{has};
ghost use Rattle.laws.specs.Lists.{puts};
ghost use Rattle.laws.specs.Turns.{in_turn};
ghost use Rattle.stored_spec.specs.RowBytes.{two_bytes, row_value};
ghost use Rattle.evaluation_spec.specs.RailSets.{no_rails, is_in, with_rail, with_row, none_read};
ghost use Rattle.evaluation.specs.Agreeing.{word_at, no_word, Within, seen_with, gathered_of, few_of, Small, of_first, plain_row, of_word, of_set};

use evaluation_spec::RAIL_WORDS;
use numbers::pair;

// A set of rail words: rail word r is bit r % 64 of word r / 64.
pub type RailSet = [u64; RAIL_WORDS];

// Where the rows of a cell lie that agree with the known inputs. Those of rail word r begin at at + r * block; there the bits of mask are the known
// inputs, which have the values of value, and those of free the others, which have count fillings. low are the lower rails, and the set has
// its rail words in the first words words.
#[derive(Clone, Copy)]
pub struct Addresses {
    pub at: usize,
    pub block: usize,
    pub mask: usize,
    pub value: usize,
    pub free: usize,
    pub count: usize,
    pub low: usize,
    pub words: usize,
}

// Of the rows read: the bits that some of them has, and those that each has.
#[derive(Clone, Copy)]
pub struct Seen {
    pub some: u16,
    pub each: u16,
}

impl Seen {
    // Of no row.
    const NONE: Seen = Seen {
        some: 0,
        each: u16::MAX,
    };

    // With the row x.
    fn with(self, x: u16) -> Seen
        ensures { result ≡ seen_with x self }
    {
        Seen {
            some: self.some | x,
            each: self.each & x,
        }
    }
}

// The same of rows whose rail words are below 64: the rail words are bits of one word.
#[derive(Clone, Copy)]
pub struct Few {
    pub seen: Seen,
    pub rails: u64,
}

// The set with the rail word r.
pub fn mark(set: &mut RailSet, r: usize)
    requires { r < 4096 }
    ensures { set.new ≡ with_rail set.old r }
{
    let bit = 1 << (r % 64);
    set[r / 64] = set[r / 64] | bit;
}

// One row more.
fn with_row(x: u16, low: usize, seen: Seen, next: &mut RailSet) -> Seen
    requires { low < 4096 }
    ensures { gathered_of result next.new ≡ with_row x (bit_and x low) (gathered_of seen next.old) }
{
    mark(next, usize::from(x) & low);
    seen.with(x)
}

// Row i, low byte first.
fn row_at(rows: &[u8], i: usize) -> u16
    requires { i < length rows.now / 2 }
    ensures { result ≡ row_value two_bytes rows.now i }
{
    pair(rows[i * 2], rows[i * 2 + 1])
}

// The rows of one rail word, which begin at first, one for each filling of the bits of free. The next filling is the next larger number of these bits:
// the carry goes over the bits of mask, which are the others.
fn read_rail(rows: &[u8], p: &Addresses, first: usize, seen: Seen, next: &mut RailSet) -> Seen
    requires { (first + p.now.free < length rows.now / 2) × Small p.now }
    ensures { gathered_of result next.new ≡ of_first rows.now p.now first (gathered_of seen next.old) }
{
    let mut g = seen;
    let mut part = 0;
    for j in 0..p.count {
        g = with_row(row_at(rows, first + part), p.low, g, next);
        part = (part + p.mask + 1) & p.free;
    }
    g
}

// The same where rail words are below 64. They are gathered in a word of their own: a set in memory would be read again for each row.
fn read_few(rows: &[u8], p: &Addresses, first: usize, seen: Seen) -> Few
    requires { (first + p.now.free < length rows.now / 2) × Small p.now × (p.now.low < 64) }
    ensures { (s : List ℕ) → few_of result s ≡ of_first rows.now p.now first (gathered_of seen s) }
{
    let mut g = seen;
    let mut rails = 0u64;
    let mut part = 0;
    for j in 0..p.count {
        let x = row_at(rows, first + part);
        g = g.with(x);
        rails = rails | (1 << (usize::from(x) & p.low));
        part = (part + p.mask + 1) & p.free;
    }
    Few { seen: g, rails }
}

// The same where besides no input is known: the rows stand one after another.
fn read_run(rows: &[u8], p: &Addresses, first: usize, seen: Seen) -> Few
    requires { (first + p.now.count ≤ length rows.now / 2) × (p.now.low < 64) }
    ensures { (s : List ℕ) → few_of result s ≡ in_turn p.now.count (plain_row rows.now first p.now.low) (gathered_of seen s) }
{
    let mut g = seen;
    let mut rails = 0u64;
    for j in 0..p.count {
        let x = row_at(rows, first + j);
        g = g.with(x);
        rails = rails | (1 << (usize::from(x) & p.low));
    }
    Few { seen: g, rails }
}

// The same where besides no rails lie below. The loop has no exit and touches rows alone, so that it is made for many rows at once.
fn read_all(rows: &[u8], first: usize, count: usize, seen: Seen) -> Few
    requires { (first + count ≤ length rows.now / 2) × (1 ≤ count) }
    ensures { (s : List ℕ) → few_of result s ≡ in_turn count (plain_row rows.now first 0) (gathered_of seen s) }
{
    let mut g = seen;
    for j in 0..count {
        g = g.with(row_at(rows, first + j));
    }
    Few { seen: g, rails: 1 }
}

// The rows of one rail word by the loop that fits, where rail words are below 64.
fn read_either(rows: &[u8], p: &Addresses, first: usize, seen: Seen) -> Few
    requires { (first + p.now.free < length rows.now / 2) × Small p.now × (p.now.low < 64) }
    ensures { (s : List ℕ) → few_of result s ≡ of_first rows.now p.now first (gathered_of seen s) }
{
    if (p.mask == 0) & (p.count == p.free + 1) {
        if (p.low == 0) & (15 < p.count) {
            return read_all(rows, first, p.count, seen);
        }
        return read_run(rows, p, first, seen);
    }
    read_few(rows, p, first, seen)
}

// The same, whatever the rail words below are.
fn read_one(rows: &[u8], p: &Addresses, first: usize, seen: Seen, next: &mut RailSet) -> Seen
    requires { (first + p.now.free < length rows.now / 2) × Small p.now }
    ensures { gathered_of result next.new ≡ of_first rows.now p.now first (gathered_of seen next.old) }
{
    if p.low < 64 {
        let few = read_either(rows, p, first, seen);
        next[0] = next[0] | few.rails;
        return few.seen;
    }
    read_rail(rows, p, first, seen, next)
}

// The lowest bit that is 1.
fn lowest(word: u64) -> usize
    requires { word ≡ 0 → ⊥ }
    ensures { (result < 64) × ((i : ℕ) → i < result → has word i ≡ false) × (has word result ≡ true) }
{
    u64::trailing_zeros(word) as usize
}

// The rows of the rail words in one word of the set, the first of which has its rows from base on.
fn read_word(
    rows: &[u8],
    p: &Addresses,
    base: usize,
    word: u64,
    seen: Seen,
    next: &mut RailSet,
) -> Seen
    requires { ((b : ℕ) → b < 64 → has word b ≡ true → base + b * p.now.block + (p.now.value + p.now.free) < length rows.now / 2)
        × Small p.now × (base < 2 ^ 30) }
    ensures { gathered_of result next.new ≡ of_word rows.now p.now word base (gathered_of seen next.old) }
{
    let mut g = seen;
    let mut rest = word;
    let mut b = 0usize;
    // An iterator over set bits would have this very step in a type of its own.
    while rest != 0 {
        let skipped = lowest(rest);
        let rail = b + skipped;
        let first = base + rail * p.block + p.value;
        g = read_one(rows, p, first, g, next);
        rest = (rest >> skipped) / 2;
        b = rail + 1;
    }
    g
}

// The rows of all rail words of a set that is one word, where the rail words below are one word too: no set in memory is needed.
fn gather_word(rows: &[u8], p: &Addresses, word: u64) -> Few
    requires { ((b : ℕ) → b < 64 → has word b ≡ true → p.now.at + b * p.now.block + (p.now.value + p.now.free) < length rows.now / 2)
        × Small p.now × (p.now.low < 64) }
    ensures { (s : List ℕ) → few_of result s ≡ of_word rows.now p.now word p.now.at (record { some = 0; each = 65535; next = s }) }
{
    let mut g = Seen::NONE;
    let mut rails = 0u64;
    let mut left = word;
    let mut b = 0usize;
    while left != 0 {
        let skipped = lowest(left);
        let rail = b + skipped;
        let few = read_either(rows, p, p.at + rail * p.block + p.value, g);
        g = few.seen;
        rails = rails | few.rails;
        left = (left >> skipped) / 2;
        b = rail + 1;
    }
    Few { seen: g, rails }
}

// The rows of all rail words of the set, which becomes empty where it had them.
fn read_set(rows: &[u8], p: &Addresses, set: &mut RailSet, next: &mut RailSet) -> Seen
    requires { ((r : ℕ) → r < 4096 → is_in set.old r ≡ true → p.now.at + r * p.now.block + (p.now.value + p.now.free) < length rows.now / 2)
        × Small p.now }
    ensures { (gathered_of result next.new ≡ of_set rows.now p.now set.old p.now.words (record { some = 0; each = 65535; next = next.old }))
        × (set.new ≡ puts p.now.words no_word set.old) }
{
    let mut g = Seen::NONE;
    for q in 0..p.words {
        let word = set[q];
        set[q] = 0;
        g = read_word(rows, p, p.at + q * 64 * p.block, word, g, next);
    }
    g
}

// Moves the first n words of a set to another. Only words in use are moved: a set has room for 64, and most cells need one.
fn move_words(from: &mut RailSet, to: &mut RailSet, n: usize)
    requires { n ≤ 64 }
    ensures { (to.new ≡ puts n (word_at from.old) to.old) × (from.new ≡ puts n no_word from.old) }
{
    for q in 0..n {
        to[q] = from[q];
        from[q] = 0;
    }
}

// The rows of the cell that may be read. The set of the rail words above it becomes that of those below it; spare is empty before and after.
pub fn read_cell(rows: &[u8], p: &Addresses, set: &mut RailSet, spare: &mut RailSet) -> Seen
    requires { ((r : ℕ) → r < 4096 → is_in set.old r ≡ true → p.now.at + r * p.now.block + (p.now.value + p.now.free) < length rows.now / 2)
        × Small p.now × Within p.now.words set.old × (spare.old ≡ no_rails) }
    ensures { (gathered_of result set.new ≡ of_set rows.now p.now set.old p.now.words none_read)
        × (spare.new ≡ no_rails) }
{
    if (p.words == 1) & (p.low < 64) {
        let few = gather_word(rows, p, set[0]);
        set[0] = few.rails;
        return few.seen;
    }
    let seen = read_set(rows, p, set, spare);
    move_words(spare, set, p.low / 64 + 1);
    seen
}
