// Bank, scan state, admission, latch, step, the book: definitions and their laws, demand 3 among them.

#![tactic(auto)]

use refusals::Refusal;
use sheet_spec::MOST_OUTPUTS;
use stored_spec::MOST_RECORD_BYTES;

// The blocks that a bank holds, the greatest scan limit, and what the blocks' records and outputs take.
pub const MOST_BLOCKS: usize = 8;

pub const MOST_SCAN: u16 = 255;

pub const BANK_RECORD_BYTES: usize = MOST_BLOCKS * MOST_RECORD_BYTES;

pub const BANK_OUTPUTS: usize = MOST_BLOCKS * MOST_OUTPUTS;

// Scans are numbered 0 to 7 and round again.
pub const SCAN_NUMBERS: u8 = 8;

// A bank: the scan limit S, how many blocks are held, and of each place the number of records, the records, 80 bytes, the
// period and the phase.
#[derive(Clone, Copy)]
pub struct Bank {
    pub limit: u16,
    pub count: u8,
    pub lengths: [u8; MOST_BLOCKS],
    pub records: [u8; BANK_RECORD_BYTES],
    pub periods: [u8; MOST_BLOCKS],
    pub phases: [u8; MOST_BLOCKS],
}

// A scan state: whether reads are left, the block, cell and rail word of the next read, the number of the scan that runs or ran
// last, the word of each place from its last due scan, and the outputs, 8 a place: 0 or 1 where set, else 2.
#[derive(Clone, Copy)]
pub struct Scan {
    pub running: bool,
    pub block: u8,
    pub cell: u8,
    pub rail: u16,
    pub number: u8,
    pub words: [u16; MOST_BLOCKS],
    pub outputs: [u8; BANK_OUTPUTS],
}

// What a step answers: the block and the cell that it read, that there is nothing to read, or its refusal.
#[derive(Clone, Copy, Debug, PartialEq, Eq)]
pub enum StepAnswer {
    Went(u8, u8),
    Idle,
    Refused(Refusal),
}
