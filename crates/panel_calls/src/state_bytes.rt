// The bank and the scan state as bytes that C lends.
ghost use Rattle.std.specs.Prelude.{◌≡◌, ◌≤◌, ◌+◌, ◌*◌, length, get_or};
ghost use Rattle.laws.specs.Lists.{tab, puts, puts_at};
ghost use Rattle.panel_calls.specs.StateBytes.{pair_at, bank_in, scan_in, bank_bytes, word_byte, scan_bytes};

use crate::{BankBytes, ScanBytes};
use bank_spec::{BANK_OUTPUTS, BANK_RECORD_BYTES, Bank, MOST_BLOCKS, Scan};

// Where records, periods and phases stand.
const RECORDS_AT: usize = 3 + MOST_BLOCKS;

const PERIODS_AT: usize = RECORDS_AT + BANK_RECORD_BYTES;

const PHASES_AT: usize = PERIODS_AT + MOST_BLOCKS;

// Where the words, the outputs and the scan's number stand.
const WORDS_AT: usize = 5;

const OUTPUTS_AT: usize = WORDS_AT + 2 * MOST_BLOCKS;

const NUMBER_AT: usize = OUTPUTS_AT + BANK_OUTPUTS;

// The N bytes from place at on.
fn part<const N: usize>(bytes: &[u8], at: usize) -> [u8; N]
    requires { at + N ≤ length bytes.now }
    ensures { result ≡ tab N (λ i. get_or bytes.now (at + i) 0) }
{
    let mut part = [0u8; N];
    part.copy_from_slice(&bytes[at..at + N]);
    part
}

// Stores them there, by a loop as copy_front of stored does.
fn put<const N: usize>(part: &[u8; N], at: usize, bytes: &mut [u8])
    requires { at + N ≤ length bytes.old }
    ensures { bytes.new ≡ puts_at at N (λ i. get_or part.now i 0) bytes.old }
{
    for i in 0..N {
        bytes[at + i] = part[i];
    }
}

pub fn bank_in(bytes: &BankBytes) -> Bank
    ensures { result ≡ bank_in bytes.now }
{
    Bank {
        limit: u16::from_le_bytes([bytes[0], bytes[1]]),
        count: bytes[2],
        lengths: part(bytes, 3),
        records: part(bytes, RECORDS_AT),
        periods: part(bytes, PERIODS_AT),
        phases: part(bytes, PHASES_AT),
    }
}

fn words_in(bytes: &ScanBytes) -> [u16; MOST_BLOCKS]
    ensures { result ≡ tab 8 (λ i. pair_at bytes.now (5 + 2 * i)) }
{
    let mut words = [0u16; MOST_BLOCKS];
    for i in 0..MOST_BLOCKS {
        words[i] = u16::from_le_bytes([bytes[WORDS_AT + 2 * i], bytes[WORDS_AT + 2 * i + 1]]);
    }
    words
}

pub fn scan_in(bytes: &ScanBytes) -> Scan
    ensures { result ≡ scan_in bytes.now }
{
    Scan {
        running: bytes[0] != 0,
        block: bytes[1],
        cell: bytes[2],
        rail: u16::from_le_bytes([bytes[3], bytes[4]]),
        number: bytes[NUMBER_AT],
        words: words_in(bytes),
        outputs: part(bytes, OUTPUTS_AT),
    }
}

pub fn put_bank(bank: &Bank, bytes: &mut BankBytes)
    ensures { bytes.new ≡ puts 667 (λ i. get_or (bank_bytes bank.now) i 0) bytes.old }
{
    let [low, high] = bank.limit.to_le_bytes();
    bytes[0] = low;
    bytes[1] = high;
    bytes[2] = bank.count;
    put(&bank.lengths, 3, bytes);
    put(&bank.records, RECORDS_AT, bytes);
    put(&bank.periods, PERIODS_AT, bytes);
    put(&bank.phases, PHASES_AT, bytes);
}

fn put_words(words: &[u16; MOST_BLOCKS], bytes: &mut ScanBytes)
    ensures { bytes.new ≡ puts_at 5 16 (word_byte words.now) bytes.old }
{
    for i in 0..MOST_BLOCKS {
        let [low, high] = words[i].to_le_bytes();
        bytes[WORDS_AT + 2 * i] = low;
        bytes[WORDS_AT + 2 * i + 1] = high;
    }
}

pub fn put_scan(scan: &Scan, bytes: &mut ScanBytes)
    ensures { bytes.new ≡ puts 86 (λ i. get_or (scan_bytes scan.now) i 0) bytes.old }
{
    let [low, high] = scan.rail.to_le_bytes();
    bytes[0] = u8::from(scan.running);
    bytes[1] = scan.block;
    bytes[2] = scan.cell;
    bytes[3] = low;
    bytes[4] = high;
    put_words(&scan.words, bytes);
    put(&scan.outputs, OUTPUTS_AT, bytes);
    bytes[NUMBER_AT] = scan.number;
}
