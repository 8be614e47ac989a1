// Stored cascades: cells, the test of records and rows, where cells lie, reading and writing.

#![tactic(auto)]

mod formed;
mod places;
mod read_write;
mod reads;
mod rows;
mod walk;

ghost use Rattle.std.specs.Prelude.{◌≡◌, length, get_or};
ghost use Rattle.laws.specs.Lists.{puts};
ghost use Rattle.refusals.specs.Numbers.{answered};
ghost use Rattle.stored_spec.specs.RowBytes.{one_byte};
ghost use Rattle.stored_spec.specs.StoredForm.{well_formed, well_formed_as, records_formed, cell_count};
ghost use Rattle.stored.specs.Places.{cell_place};
ghost use Rattle.stored.specs.Reads.{cells_fit_as, rows_counted, cell_rails, row_read, outputs_read};
ghost use Rattle.stored.specs.RecordArrays.{cascade_from, read_as, read_given};
ghost use Rattle.stored_spec.specs.ReadWrite.{read, written_as, write};

use refusals::Refusal;
use sheet_spec::MOST_VARIABLES;
use stored_spec::Record;

// The records of a cascade, top first, and how many there are.
#[derive(Clone, Copy)]
pub struct StoredRecords {
    pub count: usize,
    pub records: [Record; MOST_VARIABLES],
}

// Where a cell of a stored cascade lies: the heights of its upper and its lower cut, and where its rows begin and end.
#[derive(Clone, Copy)]
pub struct CellPlace {
    pub top: usize,
    pub bottom: usize,
    pub at: usize,
    pub end: usize,
}

// The records and rows of a stored cascade are well formed.
pub fn well_formed(records: &[u8], rows: &[u8]) -> bool
    ensures { result ≡ well_formed records.now rows.now }
{
    rows::formed::<2>(records, rows)
}

// The same with one byte a row, by document 01's rules before document 02, §6.
pub fn one_byte_formed(records: &[u8], rows: &[u8]) -> bool
    ensures { result ≡ well_formed_as one_byte records.now rows.now }
{
    rows::formed::<1>(records, rows)
}

// At most 80 bytes of records, no cell of which has more outputs than a row of one byte has bits.
pub fn one_byte_fits(records: &[u8]) -> bool
    ensures { result ≡ cells_fit_as one_byte records.now }
{
    reads::few_fit(records, 1)
}

// Copies bytes to the front of others, as many as there is room for.
pub fn copy_front(from: &[u8], to: &mut [u8])
    ensures { to.new ≡ puts (length from.now) (λ i. get_or from.now i 0) to.old }
{
    read_write::copy_bytes(from, to)
}

// Reads a stored cascade: its records, where both are well formed; its rows are the row bytes as they stand.
pub fn read(records: &[u8], rows: &[u8]) -> Result<StoredRecords, Refusal>
    ensures { read_given result ≡ read_as (read records.now rows.now) }
{
    read_write::read_records(records, rows)
}

// Writes the cascade of these records and row bytes: both memories hold it at their front, or nothing is changed: 12, 10 or 11.
pub fn write(
    from: StoredRecords,
    bytes: &[u8],
    records: &mut [u8],
    rows: &mut [u8],
) -> Result<(), Refusal>
    ensures { written_as (answered result) records.new rows.new
        ≡ write (cascade_from from bytes.now) records.old rows.old }
{
    read_write::write_records(from, bytes, records, rows)
}

// The place of cell k of these records; zeros where they are not well formed or have no such cell.
pub fn cell_place(records: &[u8], k: usize) -> CellPlace
    ensures { result ≡ cell_place records.now k }
{
    places::place_of(records, k)
}

// The rails above and below a cell.
#[derive(Clone, Copy)]
pub struct CellRails {
    pub upper: u8,
    pub lower: u8,
}

// The records alone are well formed.
pub fn records_formed(records: &[u8]) -> bool
    ensures { result ≡ records_formed records.now }
{
    formed::records_formed(records)
}

// How many cells any records have.
pub fn cell_count(records: &[u8]) -> usize
    ensures { result ≡ cell_count records.now }
{
    reads::count_cells(records)
}

// How many rows the records have; 0 of more than 80 bytes, and where a cell is larger than the largest.
pub fn row_count(records: &[u8]) -> usize
    ensures { result ≡ rows_counted records.now }
{
    reads::count_rows(records)
}

// The rails of cell k; 0 of more than 80 bytes, and where there is no such cell.
pub fn cell_rails(records: &[u8], k: usize) -> CellRails
    ensures { result ≡ cell_rails records.now k }
{
    reads::rails_of(records, k)
}

// Where the row stands that cell k reads for the rail word and the word of inputs; 0 where rows can't be counted, and where there is no such cell
// or rail word.
pub fn row_read(records: &[u8], k: usize, rail: u16, word: u16) -> usize
    ensures { result ≡ row_read records.now k rail word }
{
    reads::row_of(records, k, rail, word)
}

// Sets the outputs of cell k to their bits of the row, and no others; nothing where there is no such cell.
pub fn set_outputs(records: &[u8], k: usize, row: u16, outputs: &mut [u8])
    ensures { outputs.new ≡ outputs_read records.now k row outputs.old }
{
    reads::put_outputs(records, k, row, outputs)
}
