// Latching.
ghost use Rattle.std.specs.Prelude.{◌≡◌, true, cond, List, ℕ, ◌≤◌, ◌<◌, ◌%◌, ◌/◌, ltb, get_or};
ghost use Rattle.bank_spec.specs.State.{formed, state_of};
ghost use Rattle.bank_spec.specs.Calls.{keeps, words_kept, outputs_kept, scan_from, latched, latch};
ghost use Rattle.bank.specs.Given.{latch_given};

use crate::blocks::Blocks;
use crate::formed::state_formed;
use bank_spec::{BANK_OUTPUTS, Bank, MOST_BLOCKS, SCAN_NUMBERS, Scan};
use refusals::Refusal;
use sheet_spec::MOST_OUTPUTS;

// The block at place b is held and not due in the scan.
fn keeps(blocks: Blocks<'_>, number: u8, b: usize) -> bool
    ensures { result ≡ keeps blocks.entry.bank.now number b }
{
    if b < blocks.count() {
        return !blocks.due(number, b);
    }
    false
}

// The word of place b after the latch: the one that it had, the lowest 12 bits of the one latched, or 0 where no block is held.
fn word_kept(blocks: Blocks<'_>, number: u8, b: usize, old: u16, new: u16) -> u16
    ensures { result ≡ cond (keeps blocks.entry.bank.now number b) old (cond (ltb b blocks.entry.bank.now.count) (new % 4096) 0) }
{
    if keeps(blocks, number, b) {
        return old;
    }
    if b < blocks.count() {
        return new % 4096;
    }
    0
}

fn words_kept(
    blocks: Blocks<'_>,
    number: u8,
    old: &[u16; MOST_BLOCKS],
    words: &[u16; MOST_BLOCKS],
) -> [u16; MOST_BLOCKS]
    ensures { result ≡ words_kept blocks.entry.bank.now number old.now words.now }
{
    let mut kept = [0u16; MOST_BLOCKS];
    for b in 0..MOST_BLOCKS {
        kept[b] = word_kept(blocks, number, b, old[b], words[b]);
    }
    kept
}

// Output i of 64 after the latch.
fn output_kept(blocks: Blocks<'_>, number: u8, old: &[u8; BANK_OUTPUTS], i: usize) -> u8
    requires { i < 64 }
    ensures { result ≡ cond (keeps blocks.entry.bank.now number (i / 8)) (get_or old.now i 0) 2 }
{
    if keeps(blocks, number, i / MOST_OUTPUTS) {
        return old[i];
    }
    2
}

fn outputs_kept(blocks: Blocks<'_>, number: u8, old: &[u8; BANK_OUTPUTS]) -> [u8; BANK_OUTPUTS]
    ensures { result ≡ outputs_kept blocks.entry.bank.now number old.now }
{
    let mut kept = [2u8; BANK_OUTPUTS];
    for i in 0..BANK_OUTPUTS {
        kept[i] = output_kept(blocks, number, old, i);
    }
    kept
}

// The scan from the first due block on that stands at place b or later.
pub fn scan_from(
    blocks: Blocks<'_>,
    number: u8,
    b: usize,
    words: [u16; MOST_BLOCKS],
    outputs: [u8; BANK_OUTPUTS],
) -> Scan
    requires { b ≤ blocks.bank.now.count }
    ensures { result ≡ scan_from blocks.entry.bank.now number b words outputs }
{
    let block = blocks.next_due(number, b);
    if block < blocks.count() {
        return Scan {
            running: true,
            block: block as u8,
            cell: 0,
            rail: 0,
            number,
            words,
            outputs,
        };
    }
    Scan {
        running: false,
        block: 0,
        cell: 0,
        rail: 0,
        number,
        words,
        outputs,
    }
}

pub fn latch_words(bank: &Bank, scan: &Scan, words: &[u16; MOST_BLOCKS]) -> Result<Scan, Refusal>
    ensures { (rows : List ℕ) → latch_given result bank.now scan.now rows ≡ latch (state_of bank.now scan.now rows) words.now }
{
    if !state_formed(bank, scan) {
        return Err(Refusal::NotFormed);
    }
    let blocks = Blocks { bank };
    let number = (scan.number + 1) % SCAN_NUMBERS;
    Ok(scan_from(
        blocks,
        number,
        0,
        words_kept(blocks, number, &scan.words, words),
        outputs_kept(blocks, number, &scan.outputs),
    ))
}
