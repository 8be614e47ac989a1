// The test of a stored cascade: its records and its cells.
ghost use Rattle.std.specs.Prelude.{◌≡◌, cond, ◌&&◌, ◌≤◌, ◌<◌, ◌-◌, ◌*◌, ◌/◌, ◌^◌, eqb, length, Some, None};
ghost use Rattle.laws.specs.Tests.{every, within};
ghost use Rattle.stored_spec.specs.RowBytes.{two_bytes};
ghost use Rattle.stored_spec.specs.StoredForm.{record_count, cut_byte, rail_byte, record_formed, cell_count, cell_formed_as, records_formed, row_count};
ghost use Rattle.stored.specs.Formed.{is_named, cut_formed, place_of, rows_wanted};

use crate::walk::Walk;
use sheet_spec::MOST_VARIABLES;
use stored_spec::{Cell, MOST_ROWS};

// An input or an output.
#[tactic(auto, unfolding(crate::specs::Formed::is_named))]
fn named(v: u8) -> bool
    ensures { result ≡ is_named v }
{
    (v <= 11) | ((128 <= v) & (v <= 135))
}

// The bytes after the variable: any rails at a cut, else none.
#[tactic(auto, unfolding(crate::specs::Formed::cut_formed))]
fn cut_formed(cut: u8, rail: u8, last: u8) -> bool
    ensures { result ≡ cut_formed cut rail last }
{
    (cut <= 1) & ((cut == 1) | (rail == 0)) & (last == 0)
}

// The bit of a variable: each input and each output has its own.
fn variable_bit(v: u8) -> usize
    ensures { result ≡ 2 ^ place_of v }
{
    let place = usize::from(v) + usize::from(v / 8);
    1 << (place % 64)
}

// Each record: its bytes in range, its variable in no record before it. Branches are faster here than tests of several records at once, for
// which the bytes would be gathered one by one.
fn each_formed(records: &[u8]) -> bool
    ensures { result ≡ every (record_count records.now) (record_formed records.now) }
{
    let count = records.len() / 4;
    let mut seen = 0;
    for i in 0..count {
        let v = records[i * 4];
        let cut = records[i * 4 + 1];
        let rail = records[i * 4 + 2];
        let last = records[i * 4 + 3];
        let bit = variable_bit(v);
        if !named(v) {
            return false;
        }
        if !cut_formed(cut, rail, last) {
            return false;
        }
        if seen & bit != 0 {
            return false;
        }
        seen |= bit;
    }
    true
}

// Whole records, 1 to 20 of them.
fn shaped(records: &[u8]) -> bool
    ensures { result ≡ (eqb (length records.now) (record_count records.now * 4)
        && within 1 20 (record_count records.now)) }
{
    let count = records.len() / 4;
    (records.len() == count * 4) & ((1 <= count) & (count <= MOST_VARIABLES))
}

// The last record has a cut with 0 rails.
fn last_cut(records: &[u8]) -> bool
    requires { 1 ≤ length records.now / 4 }
    ensures { result ≡ (eqb (cut_byte records.now (record_count records.now - 1)) 1
        && eqb (rail_byte records.now (record_count records.now - 1)) 0) }
{
    let last = records.len() / 4 - 1;
    (records[last * 4 + 1] == 1) & (records[last * 4 + 2] == 0)
}

// The rows of all cells, of size bytes each; none where a cell is larger than the largest.
pub fn rows_of(records: &[u8], size: usize) -> Option<usize>
    requires { (length records.now ≤ 80) × (size ≤ two_bytes) }
    ensures { result ≡ cond (every (cell_count records.now) (cell_formed_as size records.now)) (Some (row_count records.now)) None }
{
    let count = records.len() / 4;
    let mut walk = Walk::start();
    let mut rows = 0;
    for i in 0..count {
        if let Some(cell) = walk.next(records, i) {
            if !cell.fits(Cell::MAX_INPUTS, 8 * size) {
                return None;
            }
            rows += 1 << cell.inputs;
        }
    }
    Some(rows)
}

// The rows of well formed records, of size bytes each.
pub fn rows_wanted(records: &[u8], size: usize) -> Option<usize>
    requires { size ≤ two_bytes }
    ensures { result ≡ rows_wanted size records.now }
{
    if !shaped(records) {
        return None;
    }
    if !each_formed(records) {
        return None;
    }
    if !last_cut(records) {
        return None;
    }
    let rows = rows_of(records, size)?;
    if rows > MOST_ROWS {
        return None;
    }
    Some(rows)
}

// The records are well formed.
pub fn records_formed(records: &[u8]) -> bool
    ensures { result ≡ records_formed records.now }
{
    rows_wanted(records, 2).is_some()
}
