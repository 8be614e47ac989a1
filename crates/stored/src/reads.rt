// What a stepper needs of stored records: cells and rows counted, a cell's rails, the row that it reads, the outputs that it sets.
ghost use Rattle.std.specs.Prelude.{◌≡◌, true, cond, ◌&&◌, ◌≤◌, ◌<◌, ◌+◌, ◌-◌, ◌*◌, ◌^◌, leb, ltb, length, set, Some, None};
ghost use Rattle.laws.specs.Bits.{bit};
ghost use Rattle.sheet_spec.specs.Limits.{largest_outputs};
ghost use Rattle.stored_spec.specs.RowBytes.{two_bytes};
ghost use Rattle.stored_spec.specs.StoredForm.{cell_count, cell_at, row_count};
ghost use Rattle.stored_spec.specs.Run.{address, outputs_after};
ghost use Rattle.stored.specs.Reads.{has_cell, cells_fit, cells_fit_as, rows_counted, rails_in, cell_rails, row_read, outputs_read};

use crate::CellRails;
use crate::formed::{records_formed, rows_of};
use crate::places::find_place;
use crate::walk::Walk;
use stored_spec::MOST_RECORD_BYTES;

// How many cells any records have.
pub fn count_cells(records: &[u8]) -> usize
    ensures { result ≡ cell_count records.now }
{
    let count = records.len() / 4;
    let mut cells = 0;
    for i in 0..count {
        cells += usize::from(records[i * 4 + 1] == 1);
    }
    cells
}

// The rows of at most 80 bytes whose cells fit rows of size bytes.
fn few_rows(records: &[u8], size: usize) -> Option<usize>
    requires { size ≤ two_bytes }
    ensures { result ≡ cond (cells_fit_as size records.now) (Some (row_count records.now)) None }
{
    if records.len() <= MOST_RECORD_BYTES {
        return rows_of(records, size);
    }
    None
}

// At most 80 bytes, whose cells fit rows of size bytes.
pub fn few_fit(records: &[u8], size: usize) -> bool
    requires { size ≤ two_bytes }
    ensures { result ≡ cells_fit_as size records.now }
{
    few_rows(records, size).is_some()
}

// How many rows the records have; 0 where they can't be counted.
pub fn count_rows(records: &[u8]) -> usize
    ensures { result ≡ rows_counted records.now }
{
    few_rows(records, 2).unwrap_or(0)
}

// The records are well formed and have a cell k.
fn has_cell(records: &[u8], k: usize) -> bool
    ensures { result ≡ has_cell records.now k }
{
    records_formed(records) & (k < count_cells(records))
}

// The rows of the records can be counted, and there is a cell k.
fn has_rows(records: &[u8], k: usize) -> bool
    ensures { result ≡ (cells_fit records.now && ltb k (cell_count records.now)) }
{
    few_fit(records, 2) & (k < count_cells(records))
}

const NO_RAILS: CellRails = CellRails { upper: 0, lower: 0 };

// The rails of cell k; 0 where there is no such cell.
fn find_rails(records: &[u8], k: usize) -> CellRails
    ensures { result ≡ rails_in records.now k }
{
    let count = records.len() / 4;
    let mut walk = Walk::start();
    for i in 0..count {
        let begun = walk;
        if walk.next(records, i).is_some() & (begun.cell == k) {
            return CellRails {
                upper: begun.upper,
                lower: records[i * 4 + 2],
            };
        }
    }
    NO_RAILS
}

// The rails of cell k; 0 of more than 80 bytes, and where there is no such cell.
pub fn rails_of(records: &[u8], k: usize) -> CellRails
    ensures { result ≡ cell_rails records.now k }
{
    if records.len() > MOST_RECORD_BYTES {
        return NO_RAILS;
    }
    find_rails(records, k)
}

// The bit v of a word.
fn word_bit(word: u16, v: u8) -> usize
    ensures { result ≡ bit word v }
{
    if v < 16 {
        return usize::from((word >> v) % 2);
    }
    0
}

// The row address in a cell k that there is.
fn find_address(records: &[u8], k: usize, rail: u16, word: u16) -> usize
    requires { (length records.now ≤ 80) × (k < cell_count records.now) }
    ensures { (result ≡ address rail (cell_at records.now k).ins word) × (result < 2 ^ 36) }
{
    let count = records.len() / 4;
    let mut a = usize::from(rail);
    let mut cell = 0;
    for i in 0..count {
        let v = records[i * 4];
        if (cell == k) & (v < 128) {
            a = a * 2 + word_bit(word, v);
        }
        cell += usize::from(records[i * 4 + 1] == 1);
    }
    a
}

// Where the row stands that cell k reads; 0 where rows can't be counted, and where there is no such cell or rail word.
pub fn row_of(records: &[u8], k: usize, rail: u16, word: u16) -> usize
    ensures { result ≡ row_read records.now k rail word }
{
    if !has_rows(records, k) {
        return 0;
    }
    let rails = find_rails(records, k);
    let limit = 1 << usize::from(rails.upper);
    if usize::from(rail) < limit {
        let place = find_place(records, k);
        return place.at + find_address(records, k, rail, word);
    }
    0
}

// How many outputs a cell k that there is sets.
fn count_outputs(records: &[u8], k: usize) -> usize
    requires { has_cell records.now k ≡ true }
    ensures { result ≡ length (cell_at records.now k).outs }
{
    let count = records.len() / 4;
    let mut n = 0;
    let mut cell = 0;
    for i in 0..count {
        let v = records[i * 4];
        n += usize::from((cell == k) & !(v < 128));
        cell += usize::from(records[i * 4 + 1] == 1);
    }
    n
}

// Stores the bit e of the row at an output v of the cell that is sought.
fn put_bit(here: bool, v: u8, row: u16, e: usize, outputs: &mut [u8])
    requires { (here ≡ true → 128 ≤ v) × (e ≤ largest_outputs) }
    ensures { outputs.new ≡ cond here (set outputs.old (v - 128) (bit row e)) outputs.old }
{
    if here {
        let at = usize::from(v) - 128;
        let bit = ((usize::from(row) >> e) % 2) as u8;
        if at < outputs.len() {
            outputs[at] = bit;
        }
    }
}

// Sets the outputs of a cell k that there is, its topmost to the bit first - 1 of the row.
fn store_outputs(records: &[u8], k: usize, row: u16, first: usize, outputs: &mut [u8])
    requires { (has_cell records.now k ≡ true) × (first ≡ length (cell_at records.now k).outs + (cell_at records.now k).lower) }
    ensures { outputs.new ≡ outputs_after (cell_at records.now k) outputs.old row }
{
    let count = records.len() / 4;
    let mut e = first;
    let mut cell = 0;
    for i in 0..count {
        let v = records[i * 4];
        let here = (cell == k) & !(v < 128);
        e -= usize::from(here);
        put_bit(here, v, row, e, outputs);
        cell += usize::from(records[i * 4 + 1] == 1);
    }
}

// Sets the outputs of cell k to their bits of the row, and no others; nothing where there is no such cell.
pub fn put_outputs(records: &[u8], k: usize, row: u16, outputs: &mut [u8])
    ensures { outputs.new ≡ outputs_read records.now k row outputs.old }
{
    if has_cell(records, k) {
        let rails = find_rails(records, k);
        let first = count_outputs(records, k) + usize::from(rails.lower);
        store_outputs(records, k, row, first, outputs);
    }
}
