// Cells and the stored form of cascades: definitions and their laws.

#![tactic(auto)]

ghost use Rattle.std.specs.Prelude.{◌≡◌};
ghost use Rattle.stored_spec.specs.Cells.{fits, usable_rows, usable_bits};

use sheet_spec::MOST_VARIABLES;

// The rows that count as usable, their bytes, and the bytes of the longest records.
pub const MOST_ROWS: usize = 32768;

pub const MOST_ROW_BYTES: usize = MOST_ROWS * 2;

pub const MOST_RECORD_BYTES: usize = MOST_VARIABLES * 4;

// A cell of a cascade by the number of its inputs and of its outputs, rails counted.
#[derive(Clone, Copy)]
pub struct Cell {
    pub inputs: usize,
    pub outputs: usize,
}

impl Cell {
    // The largest cell.
    pub const MAX_INPUTS: usize = 12;

    pub const MAX_OUTPUTS: usize = 16;

    // It has at most so many inputs and outputs.
    pub fn fits(self, inputs: usize, outputs: usize) -> bool
        ensures { result ≡ fits inputs outputs self }
    {
        (self.inputs <= inputs) & (self.outputs <= outputs)
    }

    // 2^inputs; 0 for a cell larger than the largest.
    pub fn rows(self) -> usize
        ensures { result ≡ usable_rows self }
    {
        if self.fits(Cell::MAX_INPUTS, Cell::MAX_OUTPUTS) {
            return 1 << self.inputs;
        }
        0
    }

    // 2^inputs x outputs; 0 for a cell larger than the largest.
    pub fn bits(self) -> usize
        ensures { result ≡ usable_bits self }
    {
        if self.fits(Cell::MAX_INPUTS, Cell::MAX_OUTPUTS) {
            return (1 << self.inputs) * self.outputs;
        }
        0
    }
}

// A record of a stored cascade: its variable, whether a cut lies directly below, and the rails there.
#[derive(Clone, Copy)]
pub struct Record {
    pub variable: u8,
    pub cut: bool,
    pub rails: u8,
}
