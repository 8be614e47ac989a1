// Where the cells of stored records lie.
ghost use Rattle.std.specs.Prelude.{◌≡◌, true, cond, ◌≤◌, ◌<◌, length};
ghost use Rattle.laws.specs.Tests.{every};
ghost use Rattle.stored_spec.specs.StoredForm.{records_formed, cell_count, cell_formed, rows_before};
ghost use Rattle.stored.specs.Places.{no_place, cell_place};

use crate::CellPlace;
use crate::formed::records_formed;
use crate::walk::Walk;

const NO_PLACE: CellPlace = CellPlace {
    top: 0,
    bottom: 0,
    at: 0,
    end: 0,
};

// The place of cell k of well formed records; of any whose cells fit, where its rows begin.
pub fn find_place(records: &[u8], k: usize) -> CellPlace
    requires { (length records.now ≤ 80) × (every (cell_count records.now) (cell_formed records.now) ≡ true) }
    ensures { (records_formed records.now ≡ true → result ≡ cell_place records.now k)
        × (k < cell_count records.now → result.at ≡ rows_before records.now k) }
{
    let count = records.len() / 4;
    let mut walk = Walk::start();
    let mut top = count;
    let mut at = 0;
    for i in 0..count {
        let here = walk.cell == k;
        if let Some(cell) = walk.next(records, i) {
            let bottom = count - 1 - i;
            let end = at + (1 << cell.inputs);
            if here {
                return CellPlace {
                    top,
                    bottom,
                    at,
                    end,
                };
            }
            top = bottom;
            at = end;
        }
    }
    NO_PLACE
}

// The place of cell k; zeros where the records are not well formed or have no such cell.
pub fn place_of(records: &[u8], k: usize) -> CellPlace
    ensures { result ≡ cell_place records.now k }
{
    if records_formed(records) {
        return find_place(records, k);
    }
    NO_PLACE
}
