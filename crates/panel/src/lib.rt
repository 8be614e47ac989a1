// What C calls, and nothing else: each function passes on to the layer that has it. A slice is a pointer and a size_t; slices lent to one call must
// not overlap.

#![tactic(auto)]

ghost use Rattle.std.specs.Prelude.{◌≡◌, []};
ghost use Rattle.sheet_spec.specs.Job.{job};
ghost use Rattle.sheet_spec.specs.Refusals.{sheet_refusal};
ghost use Rattle.sheet_spec.specs.Table.{tabled, fill_table};
ghost use Rattle.reduction_spec.specs.Reduction.{reduced_of, reduce_as};
ghost use Rattle.reduction_spec.specs.Walk.{walk};
ghost use Rattle.reduction_spec.specs.Compare.{same_columns, compatible_columns};
ghost use Rattle.reduction_spec.specs.Descent.{descent};
ghost use Rattle.panel_calls.specs.Exported.{compiled_of, compile_bytes, known_of, known_bytes};
ghost use Rattle.evaluation_spec.specs.Known.{evaluate};
ghost use Rattle.row_forms_spec.specs.Moves.{widen, narrow};
ghost use Rattle.stored_spec.specs.ReadWrite.{written_as};
ghost use Rattle.panel.specs.Release.{version, layout};
ghost use Rattle.bank_spec.specs.Calls.{handed, every_scan};
ghost use Rattle.panel_calls.specs.StateBytes.{called, new_bytes, admit_bytes, latch_bytes, step_bytes};

use bank_spec::MOST_BLOCKS;
use panel_calls::{BankBytes, ScanBytes, StepNumbers, Totals};
use reduction_spec::{NodeWords, Reached, Reduction, Widths};
use sheet_spec::{Job, MOST_OUTPUTS, Table};

// The release whose archive this is, 65536 * major + 256 * minor + patch: 2.0.0.
pub const VERSION: u32 = 131072;

// The layout of what C lends and keeps: nodes, records, rows, table, bank and scan state. Layout 1 had one byte a row, layout 2 a bank without periods
// and phases and a scan state without a number.
pub const LAYOUT: u32 = 3;

// What the header of the same release has, for a firmware to compare when it starts.
pub fn cascade_version() -> u32
    ensures { result ≡ version }
{
    VERSION
}

pub fn cascade_layout() -> u32
    ensures { result ≡ layout }
{
    LAYOUT
}

// The least of refusals 1 to 6 of a job and its sheet; 0 where there is none.
pub fn cascade_sheet_refusal(
    n: usize,
    m: usize,
    k: usize,
    l: usize,
    order: &[u8],
    sheet: &[u8],
) -> u8
    ensures { result ≡ sheet_refusal (job n m k l order.now) sheet.now }
{
    let job = Job { n, m, k, l, order };
    refusals::answer(sheet::refusal(&job, sheet))
}

// The same; where the answer is 0 the table of the function is written to the front of the lent 32,768 bytes.
pub fn cascade_sheet_table(
    n: usize,
    m: usize,
    k: usize,
    l: usize,
    order: &[u8],
    sheet: &[u8],
    table: &mut Table,
) -> u8
    ensures { tabled result table.new ≡ fill_table (job n m k l order.now) sheet.now table.old }
{
    let job = Job { n, m, k, l, order };
    refusals::answer(sheet::fill_table(&job, sheet, table))
}

// The reduction: the least of refusals 1 to 7, or 0 and the number of nodes; then widths[h] is the width at height h, for 0 to t - 1, and
// words holds height, low and high child of each node. On a refusal both are as they were.
pub fn cascade_reduce(
    n: usize,
    m: usize,
    k: usize,
    l: usize,
    order: &[u8],
    sheet: &[u8],
    widths: &mut Widths,
    words: &mut NodeWords,
) -> Reduction
    ensures { reduced_of result widths.new words.new
        ≡ reduce_as (job n m k l order.now) sheet.now widths.old words.old }
{
    let job = Job { n, m, k, l, order };
    Reduction::from(reduction::reduce(&job, sheet, widths, words))
}

// Where a walk over the node words from the node at the height ends; bit g of bits is the value of the variable at height g + 1.
pub fn cascade_walk(words: &NodeWords, bits: u32, height: u8, node: u16) -> u16
    ensures { result ≡ walk words.now bits height node }
{
    walks::walk(words, bits, height, node)
}

// The columns of the nodes v and u at one height are the same; are compatible.
pub fn cascade_same_columns(words: &NodeWords, height: u8, v: u16, u: u16) -> bool
    ensures { result ≡ same_columns words.now height v u }
{
    walks::same_columns(words, height, v, u)
}

pub fn cascade_compatible_columns(words: &NodeWords, height: u8, v: u16, u: u16) -> bool
    ensures { result ≡ compatible_columns words.now height v u }
{
    walks::compatible_columns(words, height, v, u)
}

// From the node at the cut top down to the cut bottom; inputs are the values of the count inputs between, topmost most significant.
pub fn cascade_descent(
    words: &NodeWords,
    order: &[u8],
    top: u8,
    bottom: u8,
    node: u16,
    inputs: u16,
    count: u8,
) -> Reached
    ensures { result ≡ descent words.now order.now top bottom node inputs count }
{
    walks::descent(words, order, top, bottom, node, inputs, count)
}

// The compiler. Where nothing is refused nodes holds three words a node, records the stored records, rows the row tables, each kept past
// its written part, and widths the widths at the heights 0 to t - 1, then zeros; on a refusal all four are as they were.
pub fn cascade_compile(
    n: usize,
    m: usize,
    k: usize,
    l: usize,
    order: &[u8],
    sheet: &[u8],
    nodes: &mut [u16],
    records: &mut [u8],
    rows: &mut [u8],
    widths: &mut Widths,
) -> Totals
    ensures { compiled_of result nodes.new records.new rows.new widths.new
        ≡ compile_bytes nodes.old records.old rows.old widths.old (job n m k l order.now) sheet.now }
{
    let job = Job { n, m, k, l, order };
    panel_calls::compile(&job, sheet, nodes, records, rows, widths)
}

// Which outputs of a stored cascade are certain where the inputs of the mask are known and are those of the word: 0, and each output is 0, 1 or 2 for
// unknown; or 12, and the outputs are as they were.
pub fn cascade_known(
    records: &[u8],
    rows: &[u8],
    known: u16,
    word: u16,
    outputs: &mut [u8; MOST_OUTPUTS],
) -> u8
    ensures { known_of result outputs.new ≡ known_bytes (evaluate records.now rows.now known word) outputs.old }
{
    panel_calls::known(records, rows, known, word, outputs)
}

// A stored cascade with one byte a row, moved to two bytes a row in the lent memories: 0, or 12, 10 or 11 and they are as they were.
pub fn cascade_widen(stored: &[u8], bytes: &[u8], records: &mut [u8], rows: &mut [u8]) -> u8
    ensures { written_as result records.new rows.new
        ≡ widen stored.now bytes.now records.old rows.old }
{
    refusals::answer(row_forms::widen(stored, bytes, records, rows))
}

// One with two bytes a row, moved to one byte a row: 0, or 12, 10, 11 or 15 and they are as they were.
pub fn cascade_narrow(stored: &[u8], bytes: &[u8], records: &mut [u8], rows: &mut [u8]) -> u8
    ensures { written_as result records.new rows.new
        ≡ narrow stored.now bytes.now records.old rows.old }
{
    refusals::answer(row_forms::narrow(stored, bytes, records, rows))
}

// A new bank with the scan limit S, and its fresh scan state; 1 where S is out of range, and then both are as they were.
pub fn cascade_bank_new(limit: usize, bank: &mut BankBytes, scan: &mut ScanBytes) -> u8
    ensures { called result bank.new scan.new [] ≡ new_bytes limit bank.old scan.old }
{
    panel_calls::new_bank(limit, bank, scan)
}

// Admits a block, its records and its rows, and appends the rows to the row memory: 0, or 12, 13, 14 or 11 and nothing changes.
pub fn cascade_admit(
    bank: &mut BankBytes,
    scan: &mut ScanBytes,
    records: &[u8],
    bytes: &[u8],
    rows: &mut [u8],
) -> u8
    ensures { called result bank.new scan.new rows.new
        ≡ admit_bytes bank.old scan.old rows.old (every_scan records.now bytes.now) }
{
    panel_calls::admit(bank, scan, records, bytes, rows)
}

pub fn cascade_admit_every(
    bank: &mut BankBytes,
    scan: &mut ScanBytes,
    records: &[u8],
    bytes: &[u8],
    period: usize,
    phase: usize,
    rows: &mut [u8],
) -> u8
    ensures { called result bank.new scan.new rows.new
        ≡ admit_bytes bank.old scan.old rows.old (handed records.now bytes.now period phase) }
{
    panel_calls::admit_every(bank, scan, records, bytes, period, phase, rows)
}

// Latches eight words and starts a scan: 0, or 12 and nothing changes.
pub fn cascade_latch(bank: &BankBytes, scan: &mut ScanBytes, words: &[u16; MOST_BLOCKS]) -> u8
    ensures { called result bank.now scan.new [] ≡ latch_bytes bank.now scan.old words.now }
{
    panel_calls::latch(bank, scan, words)
}

// Moves the scan on by one read of the row memory; where nothing is read nothing changes.
pub fn cascade_step(bank: &BankBytes, scan: &mut ScanBytes, rows: &[u8]) -> StepNumbers
    ensures { called result bank.now scan.new rows.now ≡ step_bytes bank.now scan.old rows.now }
{
    panel_calls::step(bank, scan, rows)
}
