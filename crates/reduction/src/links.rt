// Which packed columns are compatible. The first words are compared byte by byte, a row of columns at a time; what is left is compared whole.
ghost use Rattle.std.specs.Prelude.{◌≡◌, false, ℕ, ◌≤◌, ◌<◌, ◌+◌, ◌*◌, ◌^◌, eqb, length, get_or};
ghost use Rattle.std.proofs.lemmas.List.Edits.{sets};
ghost use Rattle.laws.specs.Tests.{any};
ghost use Rattle.laws.specs.Lists.{rect, puts, puts_at};
ghost use Rattle.laws.specs.Bits.{flag};
ghost use Rattle.laws.specs.Bits.{marks};
ghost use Rattle.reduction.specs.Distinct.{agree_words, linked_words};
ghost use Rattle.reduction.specs.ColumnHashes.{Inside};
ghost use Rattle.reduction.specs.FirstBytes.{byte_of, byte_at, Short, Spread, Flags, other, agree_to, narrowed, confirmed};

use crate::state::Planes;
use reduction_spec::{Links, MOST_COLUMNS};

// The bytes of the first words of the columns' planes: byte x of column c stands at x * 512 + c.
#[derive(Drop)]
struct LeadingBytes {
    zero: [u8; 4096],
    one: [u8; 4096],
}

// Byte x of a word.
fn byte_of(word: u64, x: usize) -> u8
    requires { x < 8 }
    ensures { (result ≡ byte_of word x) × (word < 2 ^ 64) }
{
    ((word >> (x * 8)) % 256) as u8
}

// Byte x of the first words of w columns.
fn spread_byte(
    w: usize,
    size: usize,
    words: &[u64; 1024],
    firsts: &[u16; MOST_COLUMNS],
    x: usize,
    bytes: &mut [u8; 4096],
)
    requires { (w ≤ 512) × (1 ≤ size) × (x < 8) × Inside w size firsts.now }
    ensures bytes_after { bytes.new ≡ puts_at (x * 512) w (byte_at words.now size firsts.now x) bytes.old }
    ensures short { Short w words.now size firsts.now }
{
    let from = x * 512;
    for c in 0..w {
        bytes[from + c] = byte_of(words[usize::from(firsts[c]) * size], x);
    }
}

// The eight bytes.
fn spread(
    w: usize,
    size: usize,
    words: &[u64; 1024],
    firsts: &[u16; MOST_COLUMNS],
    bytes: &mut [u8; 4096],
)
    requires { (w ≤ 512) × (1 ≤ size) × (length bytes.old ≡ 4096) × Inside w size firsts.now }
    ensures { Spread w words.now size firsts.now 8 bytes.new }
{
    for x in 0..8 {
        spread_byte(w, size, words, firsts, x, bytes);
    }
}

// 1 where a byte is 0, else 0.
fn none(t: u8) -> u8
    ensures { result ≡ flag (eqb t 0) }
{
    u8::from(t == 0)
}

// The first w flags of a row are left where the bytes z and y agree with those from place from on. Answers the flags that are left, as bits
// of one byte: the loop over bytes alone is quicker.
fn narrow(
    z: u8,
    y: u8,
    from: usize,
    w: usize,
    bytes: &LeadingBytes,
    row: &mut [u8; MOST_COLUMNS],
) -> u8
    requires { (w ≤ 512) × (from ≤ 3584) }
    ensures value { result ≡ marks 0 (narrowed z y from bytes.now.zero bytes.now.one row.old) w }
    ensures row_after { row.new ≡ puts w (narrowed z y from bytes.now.zero bytes.now.one row.old) row.old }
{
    let mut left = 0u8;
    for d in 0..w {
        let flag = row[d] & none((z & bytes.one[from + d]) | (y & bytes.zero[from + d]));
        row[d] = flag;
        left = left | flag;
    }
    left
}

// Narrows the row of column c by the eight bytes, or by fewer where none is left before. Answers whether some may be left.
fn narrow_all(c: usize, w: usize, bytes: &LeadingBytes, row: &mut [u8; MOST_COLUMNS]) -> bool
    requires { (c < w) × (w ≤ 512) × Flags w (other c) row.old }
    ensures flags { Flags w (agree_to bytes.now.zero bytes.now.one c 8) row.new }
    ensures none_left { result ≡ false → any w (agree_to bytes.now.zero bytes.now.one c 8) ≡ false }
{
    for x in 0..8 {
        let from = x * 512;
        let left = narrow(
            bytes.zero[from + c],
            bytes.one[from + c],
            from,
            w,
            bytes,
            row,
        );
        if left == 0 {
            return false;
        }
    }
    true
}

// Whether the packed columns p and q agree.
fn agree_at(planes: &Planes, size: usize, p: usize, q: usize) -> bool
    requires { (p * size + size ≤ 1024) × (q * size + size ≤ 1024) }
    ensures { result ≡ agree_words planes.now.zero planes.now.one size p q }
{
    let a = p * size;
    let b = q * size;
    for i in 0..size {
        if (planes.zero[a + i] & planes.one[b + i]) | (planes.one[a + i] & planes.zero[b + i])
            != 0
        {
            return false;
        }
    }
    true
}

// The flag f where the packed columns p and q agree.
fn confirm(planes: &Planes, size: usize, f: u8, p: usize, q: usize) -> u8
    requires { (p * size + size ≤ 1024) × (q * size + size ≤ 1024) }
    ensures { result ≡ confirmed planes.now.zero planes.now.one size f p q }
{
    if f == 0 {
        return 0;
    }
    if agree_at(planes, size, p, q) {
        return 1;
    }
    0
}

// The first w flags of the row of column c, where the packed columns agree.
fn confirm_row(
    c: usize,
    w: usize,
    size: usize,
    planes: &Planes,
    firsts: &[u16; MOST_COLUMNS],
    row: &mut [u8; MOST_COLUMNS],
)
    requires { (c < w) × (w ≤ 512) × Inside w size firsts.now }
    ensures { row.new
        ≡ puts
        w
        (λ d. confirmed planes.now.zero planes.now.one size (get_or row.old d 0) (get_or firsts.now c 0) (get_or firsts.now d 0))
        row.old }
{
    let p = usize::from(firsts[c]);
    for d in 0..w {
        row[d] = confirm(planes, size, row[d], p, usize::from(firsts[d]));
    }
}

// Ones.
fn raise(w: usize, row: &mut [u8; MOST_COLUMNS])
    requires { w ≤ 512 }
    ensures { row.new ≡ puts w (λ _. 1) row.old }
{
    for d in 0..w {
        row[d] = 1;
    }
}

// The row of column c, before any comparison.
fn start_row(c: usize, w: usize, row: &mut [u8; MOST_COLUMNS])
    requires { (c < w) × (w ≤ 512) × (length row.old ≡ 512) }
    ensures { Flags w (other c) row.new }
{
    raise(w, row);
    row[c] = 0;
}

// The row of column c.
fn fill_row(
    c: usize,
    w: usize,
    size: usize,
    planes: &Planes,
    firsts: &[u16; MOST_COLUMNS],
    bytes: &LeadingBytes,
    row: &mut [u8; MOST_COLUMNS],
)
    requires in_range { (c < w) × (w ≤ 512) × (1 ≤ size) × (length row.old ≡ 512) × Inside w size firsts.now }
    requires spread { Spread w planes.now.zero size firsts.now 8 bytes.now.zero × Spread w planes.now.one size firsts.now 8 bytes.now.one }
    ensures { Flags w (linked_words planes.now.zero planes.now.one size firsts.now c) row.new }
{
    start_row(c, w, row);
    let left = narrow_all(c, w, bytes, row);
    if size == 1 {
        return;
    }
    if left {
        confirm_row(c, w, size, planes, firsts, row);
        return;
    }
}

// The first w flags of a row are stored from place from on. Answers them, as bits of one byte.
fn store_row(from: usize, w: usize, row: &[u8; MOST_COLUMNS], link: &mut Links) -> u8
    requires { (w ≤ 512) × (from + w ≤ 262144) }
    ensures value { result ≡ marks 0 (λ d. get_or row.now d 0) w }
    ensures link_after { link.new ≡ puts_at from w (λ d. get_or row.now d 0) link.old }
{
    let mut left = 0u8;
    for d in 0..w {
        left = left | row[d];
        link[from + d] = row[d];
    }
    left
}

// The links of column c. Answers whether it has any.
fn link_row(
    c: usize,
    w: usize,
    size: usize,
    planes: &Planes,
    firsts: &[u16; MOST_COLUMNS],
    bytes: &LeadingBytes,
    link: &mut Links,
) -> bool
    requires in_range { (c < w) × (w ≤ 512) × (1 ≤ size) × Inside w size firsts.now }
    requires spread { Spread w planes.now.zero size firsts.now 8 bytes.now.zero × Spread w planes.now.one size firsts.now 8 bytes.now.one }
    ensures value { result ≡ any w (linked_words planes.now.zero planes.now.one size firsts.now c) }
    ensures link_after { link.new
        ≡ puts_at (c * w) w (λ d. flag (linked_words planes.now.zero planes.now.one size firsts.now c d)) link.old }
{
    let mut row = [0u8; MOST_COLUMNS];
    fill_row(c, w, size, planes, firsts, bytes, &mut row);
    store_row(c * w, w, &row, link) == 1
}

// The links of all columns.
fn link_rows(
    w: usize,
    size: usize,
    planes: &Planes,
    firsts: &[u16; MOST_COLUMNS],
    bytes: &LeadingBytes,
    link: &mut Links,
) -> bool
    requires in_range { (w ≤ 512) × (1 ≤ size) × Inside w size firsts.now }
    requires spread { Spread w planes.now.zero size firsts.now 8 bytes.now.zero × Spread w planes.now.one size firsts.now 8 bytes.now.one }
    ensures value { result ≡ any w (λ c. any w (linked_words planes.now.zero planes.now.one size firsts.now c)) }
    ensures link_after { link.new
        ≡ sets
        link.old
        0
        (rect w w (λ c d. flag (linked_words planes.now.zero planes.now.one size firsts.now c d))) }
{
    let mut found = false;
    for c in 0..w {
        found = found | link_row(c, w, size, planes, firsts, bytes, link);
    }
    found
}

// Which of the w columns are different and compatible: column c is the packed column firsts[c]. Answers whether any are.
pub fn link_columns(
    w: usize,
    size: usize,
    planes: &Planes,
    firsts: &[u16; MOST_COLUMNS],
    link: &mut Links,
) -> bool
    requires { (w ≤ 512) × (1 ≤ size) × ((c : ℕ) → c < w → get_or firsts.now c 0 * size + size ≤ 1024) }
    ensures value { result ≡ any w (λ c. any w (linked_words planes.now.zero planes.now.one size firsts.now c)) }
    ensures link_after { link.new
        ≡ sets
        link.old
        0
        (rect w w (λ c d. flag (linked_words planes.now.zero planes.now.one size firsts.now c d))) }
{
    let mut bytes = LeadingBytes {
        zero: [0; 4096],
        one: [0; 4096],
    };
    spread(w, size, &planes.zero, firsts, &mut bytes.zero);
    spread(w, size, &planes.one, firsts, &mut bytes.one);
    link_rows(w, size, planes, firsts, &bytes, link)
}
