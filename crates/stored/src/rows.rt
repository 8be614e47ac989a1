// The test of a stored cascade: its rows, and the whole, with two bytes a row or, as before document 02, §6, with one.
ghost use Rattle.std.specs.Prelude.{◌≡◌, true, cond, ◌≤◌, ◌<◌, ◌+◌, ◌*◌, ◌/◌, ◌^◌, eqb, ltb, length};
ghost use Rattle.laws.specs.Tests.{every};
ghost use Rattle.sheet_spec.specs.Limits.{largest_inputs, largest_outputs};
ghost use Rattle.stored_spec.specs.RowBytes.{one_byte, two_bytes, outputs_in, row_value, room};
ghost use Rattle.stored_spec.specs.StoredForm.{cell_count, cell_formed_as, rows_formed_as, row_count, well_formed, well_formed_as};
ghost use Rattle.stored.specs.Formed.{bits_of};

use crate::formed::rows_wanted;
use crate::walk::Walk;
use stored_spec::Cell;

// Row i of SIZE bytes, low byte first.
fn row_at<const SIZE: usize>(rows: &[u8], i: usize) -> u16
    requires { (1 ≤ SIZE) × (SIZE ≤ two_bytes) × (i < length rows.now / SIZE) }
    ensures { result ≡ row_value SIZE rows.now i }
{
    if SIZE == 1 {
        return u16::from(rows[i]);
    }
    u16::from_le_bytes([rows[i * 2], rows[i * 2 + 1]])
}

// The bits that some row has. The loop has no exit, so that it is made for many rows at once.
fn bits_of<const SIZE: usize>(rows: &[u8]) -> u16
    requires { (1 ≤ SIZE) × (SIZE ≤ two_bytes) }
    ensures { result ≡ bits_of SIZE rows.now }
{
    let count = rows.len() / SIZE;
    let mut seen = 0u16;
    for i in 0..count {
        seen |= row_at::<SIZE>(rows, i);
    }
    seen
}

// The rows of a cell from place at on, of SIZE bytes each, are below 2^outputs. Any row is below 2^(8 SIZE).
fn rows_below<const SIZE: usize>(rows: &[u8], at: usize, cell: Cell) -> bool
    requires { (1 ≤ SIZE) × (SIZE ≤ two_bytes) × (cell.inputs ≤ largest_inputs) × (cell.outputs ≤ outputs_in SIZE)
        × (room SIZE (at + 2 ^ cell.inputs) ≤ length rows.now) }
    ensures { result ≡ every (2 ^ cell.inputs) (λ i. ltb (row_value SIZE rows.now (at + i)) (2 ^ cell.outputs)) }
{
    if cell.outputs == 8 * SIZE {
        return true;
    }
    let end = at + (1 << cell.inputs);
    let seen = bits_of::<SIZE>(&rows[at * SIZE..end * SIZE]);
    usize::from(seen) < 1 << cell.outputs
}

// The rows of each cell, of SIZE bytes each, are below 2^outputs.
fn rows_formed<const SIZE: usize>(records: &[u8], rows: &[u8]) -> bool
    requires { (1 ≤ SIZE) × (SIZE ≤ two_bytes)
        × (every (cell_count records.now) (cell_formed_as SIZE records.now) ≡ true)
        × (length rows.now ≡ room SIZE (row_count records.now)) }
    ensures { result ≡ every (cell_count records.now) (rows_formed_as SIZE records.now rows.now) }
{
    let count = records.len() / 4;
    let mut walk = Walk::start();
    let mut at = 0;
    for i in 0..count {
        if let Some(cell) = walk.next(records, i) {
            if !rows_below::<SIZE>(rows, at, cell) {
                return false;
            }
            at += 1 << cell.inputs;
        }
    }
    true
}

// The records are well formed, there are SIZE row bytes for each row, and each row is below 2^outputs.
pub fn formed<const SIZE: usize>(records: &[u8], rows: &[u8]) -> bool
    requires { (1 ≤ SIZE) × (SIZE ≤ two_bytes) }
    ensures { result ≡ well_formed_as SIZE records.now rows.now }
{
    if let Some(wanted) = rows_wanted(records, SIZE) {
        if rows.len() == wanted * SIZE {
            return rows_formed::<SIZE>(records, rows);
        }
    }
    false
}
