// What the firmware calls, on numbers and lent bytes: the compiler with its widths, and the bank with bank and scan state as bytes.

#![tactic(auto)]

mod state_bytes;

ghost use Rattle.std.specs.Prelude.{◌≡◌, []};
ghost use Rattle.sheet_spec.specs.Given.{job_given};
ghost use Rattle.cutting.specs.Outcome.{compilation_given};
ghost use Rattle.panel_calls.specs.Exported.{totals_of, compiled_of, compile_bytes, known_of, known_bytes};
ghost use Rattle.evaluation_spec.specs.Known.{evaluate};
ghost use Rattle.bank_spec.specs.Calls.{handed, every_scan, answer_of};
ghost use Rattle.panel_calls.specs.StateBytes.{called, new_bytes, admit_bytes, latch_bytes, step_numbers, step_bytes};

use crate::state_bytes::{bank_in, put_bank, put_scan, scan_in};
use bank_spec::{BANK_OUTPUTS, BANK_RECORD_BYTES, MOST_BLOCKS, StepAnswer};
use cutting::Compilation;
use reduction_spec::Widths;
use refusals::Refusal;
use sheet_spec::{Job, MOST_OUTPUTS};

// A bank and a scan state as bytes (specs/StateBytes.antt says what stands where).
pub const BANK_BYTES: usize = 3 + MOST_BLOCKS + BANK_RECORD_BYTES + MOST_BLOCKS + MOST_BLOCKS;

pub const SCAN_BYTES: usize = 5 + 2 * MOST_BLOCKS + BANK_OUTPUTS + 1;

pub type BankBytes = [u8; BANK_BYTES];

pub type ScanBytes = [u8; SCAN_BYTES];

// The compiler's answer: a refusal, 1 to 11, or 0 and the totals.
#[repr(C)]
#[derive(Clone, Copy)]
pub struct Totals {
    pub refusal: u8,
    pub nodes: u16,
    pub cells: u8,
    pub rows: u16,
    pub bits: u32,
}

impl From<Result<Compilation, Refusal>> for Totals {
    ghost from_gives = { λ outcome x. x ≡ totals_of (compilation_given outcome) };

    fn from(outcome: Result<Compilation, Refusal>) -> Totals {
        match outcome {
            Ok(made) => Totals {
                refusal: 0,
                nodes: made.nodes,
                cells: made.cells,
                rows: made.rows,
                bits: made.bits,
            },
            Err(refusal) => Totals {
                refusal: u8::from(refusal),
                nodes: 0,
                cells: 0,
                rows: 0,
                bits: 0,
            },
        }
    }
}

// A step's answer: kind 1 with the block and the cell that were read, 0 for Idle, 2 with the number of the refusal.
#[repr(C)]
#[derive(Clone, Copy)]
pub struct StepNumbers {
    pub kind: u8,
    pub block: u8,
    pub cell: u8,
    pub refusal: u8,
}

impl From<StepAnswer> for StepNumbers {
    ghost from_gives = { λ answer x. x ≡ step_numbers (answer_of answer) };

    fn from(answer: StepAnswer) -> StepNumbers {
        match answer {
            StepAnswer::Went(block, cell) => StepNumbers {
                kind: 1,
                block,
                cell,
                refusal: 0,
            },
            StepAnswer::Idle => StepNumbers {
                kind: 0,
                block: 0,
                cell: 0,
                refusal: 0,
            },
            StepAnswer::Refused(reason) => StepNumbers {
                kind: 2,
                block: 0,
                cell: 0,
                refusal: u8::from(reason),
            },
        }
    }
}

// The compiler. Where nothing is refused nodes holds three words a node, records the stored records, rows the row tables, each kept past
// its written part, and widths the widths at the heights 0 to t - 1, then zeros; on a refusal all four are as they were.
pub fn compile(
    job: &Job<'_>,
    sheet: &[u8],
    nodes: &mut [u16],
    records: &mut [u8],
    rows: &mut [u8],
    widths: &mut Widths,
) -> Totals
    ensures { compiled_of result nodes.new records.new rows.new widths.new
        ≡ compile_bytes nodes.old records.old rows.old widths.old (job_given job.now) sheet.now }
{
    let outcome = cutting::compile(job, sheet, nodes, records, rows);
    if let Ok(made) = &outcome {
        widths.copy_from_slice(&made.widths);
    }
    Totals::from(outcome)
}

// Which outputs of a stored cascade are certain where the inputs of the mask are known and are those of the word: 0, and each output is 0, 1 or 2 for
// unknown; or 12, and the outputs are as they were.
pub fn known(
    records: &[u8],
    rows: &[u8],
    known: u16,
    word: u16,
    outputs: &mut [u8; MOST_OUTPUTS],
) -> u8
    ensures { known_of result outputs.new ≡ known_bytes (evaluate records.now rows.now known word) outputs.old }
{
    match evaluation::evaluate(records, rows, known, word) {
        Ok(certain) => {
            *outputs = certain;
            0
        }
        Err(unformed) => u8::from(unformed),
    }
}

// A new bank with the scan limit S, and its fresh scan state; 1 where S is out of range, and then both are as they were.
pub fn new_bank(limit: usize, bank: &mut BankBytes, scan: &mut ScanBytes) -> u8
    ensures { called result bank.new scan.new [] ≡ new_bytes limit bank.old scan.old }
{
    let Ok(limit) = u16::try_from(limit) else {
        return u8::from(Refusal::OutOfRange);
    };
    match bank::start(limit) {
        Ok((made, fresh)) => {
            put_bank(&made, bank);
            put_scan(&fresh, scan);
            0
        }
        Err(refusal) => u8::from(refusal),
    }
}

// Admits a block, its records and its rows, with a period and a phase, and appends the rows to the row memory: 0, or 12, 16, 13, 14 or 11 and nothing
// changes.
pub fn admit_every(
    bank: &mut BankBytes,
    scan: &mut ScanBytes,
    records: &[u8],
    bytes: &[u8],
    period: usize,
    phase: usize,
    rows: &mut [u8],
) -> u8
    ensures { called result bank.new scan.new rows.new
        ≡ admit_bytes bank.old scan.old rows.old (handed records.now bytes.now period phase) }
{
    let held = bank_in(bank);
    let before = scan_in(scan);
    match bank::admit_every(held, before, records, bytes, period, phase, rows) {
        Ok((more, fresh)) => {
            put_bank(&more, bank);
            put_scan(&fresh, scan);
            0
        }
        Err(refusal) => u8::from(refusal),
    }
}

// Admits a block that is due in every scan.
pub fn admit(
    bank: &mut BankBytes,
    scan: &mut ScanBytes,
    records: &[u8],
    bytes: &[u8],
    rows: &mut [u8],
) -> u8
    ensures { called result bank.new scan.new rows.new
        ≡ admit_bytes bank.old scan.old rows.old (every_scan records.now bytes.now) }
{
    admit_every(bank, scan, records, bytes, 1, 0, rows)
}

// Latches eight words and starts a scan: 0, or 12 and nothing changes.
pub fn latch(bank: &BankBytes, scan: &mut ScanBytes, words: &[u16; MOST_BLOCKS]) -> u8
    ensures { called result bank.now scan.new [] ≡ latch_bytes bank.now scan.old words.now }
{
    match bank::latch(bank_in(bank), scan_in(scan), *words) {
        Ok(begun) => {
            put_scan(&begun, scan);
            0
        }
        Err(refusal) => u8::from(refusal),
    }
}

// Moves the scan on by one read of the row memory; where nothing is read nothing changes.
pub fn step(bank: &BankBytes, scan: &mut ScanBytes, rows: &[u8]) -> StepNumbers
    ensures { called result bank.now scan.new rows.now ≡ step_bytes bank.now scan.old rows.now }
{
    let stepped = bank::step(bank_in(bank), scan_in(scan), rows);
    if let StepAnswer::Went(_, _) = stepped.answer {
        put_scan(&stepped.scan, scan);
    }
    StepNumbers::from(stepped.answer)
}
