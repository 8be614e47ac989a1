// The cells of a cascade, top first: the rows of each that may be read, and what they tell of its outputs.
ghost use Rattle.std.specs.Prelude.{◌≡◌, true, cond, suc, List, ℕ, ◌≤◌, ◌<◌, ◌+◌, ◌-◌, ◌^◌, ltb, length, set};
ghost use Rattle.laws.specs.Bits.{bit};
ghost use Rattle.laws.specs.Lists.{tab};
ghost use Rattle.stored_spec.specs.StoredForm.{record_count, cut_byte, cell_at, records_formed, well_formed};
ghost use Rattle.stored_spec.specs.Run.{outputs_after};
ghost use Rattle.evaluation_spec.specs.RailSets.{told_of, told};
ghost use Rattle.evaluation.specs.Answer.{told_by};
ghost use Rattle.evaluation.specs.BegunCell.{Few, more_fillings, ended_by, start_of, with_var, addresses_of, next_cell, begun_with};
ghost use Rattle.evaluation.specs.ReadTo.{ReadTo, ReadWith};

use crate::gather::{Addresses, RailSet, Seen, mark, read_cell};
use evaluation_spec::RAIL_WORDS;
use sheet_spec::MOST_OUTPUTS;

// A stored cascade, which of its inputs are known, as bits, and the word that has their values.
#[derive(Clone, Copy)]
pub struct Asked<'a> {
    pub records: &'a [u8],
    pub rows: &'a [u8],
    pub known: u16,
    pub word: u16,
}

// A cell of which some records are read. Its records begin at from, its rows at at. Of the inputs read: how many they are, which are known as
// bits of a row address, the values of these, and how many fillings the others have; and how many outputs were read.
#[derive(Clone, Copy)]
pub struct Begun {
    pub from: usize,
    pub at: usize,
    pub upper: usize,
    pub ins: usize,
    pub outs: usize,
    pub mask: usize,
    pub value: usize,
    pub count: usize,
}

// The records read so far: the cell begun, the rail words above it, a set without any, and what the cells above tell of the outputs.
#[derive(Drop)]
pub struct Progress {
    pub begun: Begun,
    pub set: RailSet,
    pub spare: RailSet,
    pub outputs: [u8; MOST_OUTPUTS],
}

// The fillings with one more input, known or not.
fn more_fillings(known: u16, count: usize) -> usize
    requires { count ≤ 1048576 }
    ensures { result ≡ more_fillings known count }
{
    if known == 1 {
        return count;
    }
    count * 2
}

impl Begun {
    // The cell with the variable v.
    fn with_variable(self, asked: &Asked<'_>, v: usize) -> Begun
        requires { (v < 128 → v < 12) × Few self }
        ensures { result ≡ with_var asked.now.known asked.now.word self v }
    {
        if v < 128 {
            let is_known = (asked.known >> v) % 2;
            let bit = ((asked.word & asked.known) >> v) % 2;
            return Begun {
                ins: self.ins + 1,
                mask: self.mask * 2 + usize::from(is_known),
                value: self.value * 2 + usize::from(bit),
                count: more_fillings(is_known, self.count),
                ..self
            };
        }
        Begun {
            outs: self.outs + 1,
            ..self
        }
    }

    // Where the rows of the cell lie that agree with the known inputs, with so many lower rails.
    fn addresses(self, rail: usize) -> Addresses
        requires { (self.ins + self.upper ≤ 12) × (rail ≤ 12) × (self.mask < 2 ^ self.ins) }
        ensures { result ≡ addresses_of self rail }
    {
        let block = 1 << self.ins;
        let size = 1 << self.upper;
        Addresses {
            at: self.at,
            block,
            mask: self.mask,
            value: self.value,
            free: block - 1 - self.mask,
            count: self.count,
            low: (1 << rail) - 1,
            words: (size + 63) / 64,
        }
    }

    // The cell that begins at record from, with that many rails above it, below this one.
    fn next(self, from: usize, rail: usize) -> Begun
        requires { (self.ins + self.upper ≤ 12) × (self.at ≤ 32768) }
        ensures { result ≡ next_cell self from rail }
    {
        Begun {
            from,
            at: self.at + (1 << (self.upper + self.ins)),
            upper: rail,
            ins: 0,
            outs: 0,
            mask: 0,
            value: 0,
            count: 1,
        }
    }
}

// An output by the bits that some row and that each row has.
fn told_of(some: u16, each: u16) -> u8
    ensures { result ≡ told_of some each }
{
    if some == 0 {
        return 0;
    }
    if each == 1 {
        return 1;
    }
    2
}

// Sets the output of the variable v by bit e - 1 of the rows seen, and answers e - 1; nothing and e where v is an input.
fn set_output(v: usize, seen: Seen, e: usize, outputs: &mut [u8; MOST_OUTPUTS]) -> usize
    requires { (128 ≤ v → (1 ≤ e) × (v < 136)) × (e ≤ 16) }
    ensures { (result ≡ cond (ltb v 128) e (e - 1))
        × (outputs.new ≡ cond (ltb v 128) outputs.old (set outputs.old (v - 128) (told_of (bit seen.some (e - 1)) (bit seen.each (e - 1))))) }
{
    if v < 128 {
        return e;
    }
    outputs[v - 128] = told_of((seen.some >> (e - 1)) % 2, (seen.each >> (e - 1)) % 2);
    e - 1
}

// Sets the outputs of the cell whose records are from to last by the rows seen, the topmost by bit first - 1.
fn set_bits(
    records: &[u8],
    from: usize,
    last: usize,
    first: usize,
    seen: Seen,
    outputs: &mut [u8; MOST_OUTPUTS],
)
    requires { (records_formed records.now ≡ true) × (last < record_count records.now) × (cut_byte records.now last ≡ 1)
        × (from ≡ start_of records.now last)
        × (first ≡ length (cell_at records.now (ended_by records.now last)).outs + (cell_at records.now (ended_by records.now last)).lower) }
    ensures { (some each : List ℕ) → length some ≡ 8 → length each ≡ 8 → outputs.old ≡ told_by some each
        → outputs.new ≡ told_by (outputs_after (cell_at records.now (ended_by records.now last)) some seen.some)
        (outputs_after (cell_at records.now (ended_by records.now last)) each seen.each) }
{
    let mut e = first;
    for i in from..last + 1 {
        e = set_output(usize::from(records[i * 4]), seen, e, outputs);
    }
}

// The same of the cell c with so many lower rails; one without outputs needs no look at its records.
fn set_outputs(
    records: &[u8],
    c: Begun,
    last: usize,
    rail: usize,
    seen: Seen,
    outputs: &mut [u8; MOST_OUTPUTS],
)
    requires { (records_formed records.now ≡ true) × (last < record_count records.now) × (cut_byte records.now last ≡ 1)
        × (c.from ≡ start_of records.now last)
        × (c.outs ≡ length (cell_at records.now (ended_by records.now last)).outs)
        × (rail ≡ (cell_at records.now (ended_by records.now last)).lower)
        × (c.outs + rail ≤ 16) }
    ensures { (some each : List ℕ) → length some ≡ 8 → length each ≡ 8 → outputs.old ≡ told_by some each
        → outputs.new ≡ told_by (outputs_after (cell_at records.now (ended_by records.now last)) some seen.some)
        (outputs_after (cell_at records.now (ended_by records.now last)) each seen.each) }
{
    if c.outs != 0 {
        set_bits(records, c.from, last, c.outs + rail, seen, outputs);
    }
}

impl Progress {
    // Ends the cell with the cut below record i: reads the rows that may be read and sets its outputs.
    fn end_cell(&mut self, asked: &Asked<'_>, i: usize)
        requires { (well_formed asked.now.records.now asked.now.rows.now ≡ true) × (i < record_count asked.now.records.now)
            × (cut_byte asked.now.records.now i ≡ 1) × ReadWith asked.now i self.old }
        ensures { ReadTo asked.now (i + 1) self.new }
    {
        let c = self.begun;
        let rail = usize::from(asked.records[i * 4 + 2]);
        let p = c.addresses(rail);
        let seen = read_cell(asked.rows, &p, &mut self.set, &mut self.spare);
        set_outputs(asked.records, c, i, rail, seen, &mut self.outputs);
        self.begun = c.next(i + 1, rail);
    }

    // Reads record i; a cut below it ends the cell.
    fn read(&mut self, asked: &Asked<'_>, i: usize)
        requires { (well_formed asked.now.records.now asked.now.rows.now ≡ true) × (i < record_count asked.now.records.now) × ReadTo asked.now i self.old }
        ensures { ReadTo asked.now (i + 1) self.new }
    {
        self.begun = self
            .begun
            .with_variable(asked, usize::from(asked.records[i * 4]));
        if asked.records[i * 4 + 1] == 1 {
            self.end_cell(asked, i);
        }
    }
}

// The outputs of a well formed cascade.
pub fn certain_outputs(asked: &Asked<'_>) -> [u8; MOST_OUTPUTS]
    requires { well_formed asked.now.records.now asked.now.rows.now ≡ true }
    ensures { result ≡ tab 8 (told asked.now.known asked.now.word asked.now.records.now asked.now.rows.now) }
{
    let mut progress = Progress {
        begun: Begun {
            from: 0,
            at: 0,
            upper: 0,
            ins: 0,
            outs: 0,
            mask: 0,
            value: 0,
            count: 1,
        },
        set: [0; RAIL_WORDS],
        spare: [0; RAIL_WORDS],
        outputs: [2; MOST_OUTPUTS],
    };
    mark(&mut progress.set, 0);
    for i in 0..asked.records.len() / 4 {
        progress.read(asked, i);
    }
    progress.outputs
}
