// Records, job and order, what a sheet says of an output, refusals 1 to 6 and the table: definitions and their laws.

#![tactic(auto)]

// The limits of specs/Limits.antt, for the code of every layer.
pub const MOST_INPUTS: usize = 12;

pub const MOST_OUTPUTS: usize = 8;

pub const MOST_VARIABLES: usize = MOST_INPUTS + MOST_OUTPUTS;

pub const SHEET_BYTES: usize = 2048;

// Byte 6 of an ordinary and of a stop record.
pub const ORDINARY: u8 = 0;

pub const STOP: u8 = 1;

// A line of 4,096 values for each output.
pub const TABLE_BYTES: usize = MOST_OUTPUTS * 4096;

pub type Table = [u8; TABLE_BYTES];

// A job: its inputs, outputs and cell limits, and the order of its variables, top first.
#[derive(Clone, Copy)]
pub struct Job<'a> {
    pub n: usize,
    pub m: usize,
    pub k: usize,
    pub l: usize,
    pub order: &'a [u8],
}
