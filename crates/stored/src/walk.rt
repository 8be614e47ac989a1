// A walk over stored records, from the top: one record at a time, and the cells that their cuts end.
ghost use Rattle.std.specs.Prelude.{ℕ, List, ◌≡◌, ◌<◌, ◌+◌};
ghost use Rattle.stored_spec.specs.StoredForm.{record_count};
ghost use Rattle.stored.specs.Walks.{begun, ended};

use stored_spec::Cell;

// Before a record: how many cells have ended, and of the cell begun its inputs, outputs and upper rails.
#[derive(Clone, Copy)]
pub struct Walk {
    pub cell: usize,
    pub ins: usize,
    pub outs: usize,
    pub upper: u8,
}

impl Walk {
    pub fn start() -> Walk
        ensures { (R : List ℕ) → result ≡ begun R 0 }
    {
        Walk {
            cell: 0,
            ins: 0,
            outs: 0,
            upper: 0,
        }
    }

    // Reads record i; the cell that its cut ends, if one does.
    pub fn next(&mut self, records: &[u8], i: usize) -> Option<Cell>
        requires { (i < record_count records.now) × (self.old ≡ begun records.now i) }
        ensures { (result ≡ ended records.now i) × (self.new ≡ begun records.now (i + 1)) }
    {
        let input = records[i * 4] < 128;
        let cut = records[i * 4 + 1];
        let rail = records[i * 4 + 2];
        self.ins += usize::from(input);
        self.outs += usize::from(!input);
        if cut != 1 {
            return None;
        }
        let cell = Cell {
            inputs: usize::from(self.upper) + self.ins,
            outputs: self.outs + usize::from(rail),
        };
        *self = Walk {
            cell: self.cell + 1,
            ins: 0,
            outs: 0,
            upper: rail,
        };
        Some(cell)
    }
}
