// Reading and writing stored cascades.
ghost use Rattle.std.specs.Prelude.{◌≡◌, false, [], ◌≤◌, ◌<◌, ◌+◌, ◌*◌, length, get_or};
ghost use Rattle.std.proofs.lemmas.List.Edits.{sets};
ghost use Rattle.laws.specs.Lists.{puts};
ghost use Rattle.refusals.specs.Numbers.{answered};
ghost use Rattle.stored_spec.specs.StoredForm.{record_count};
ghost use Rattle.stored.specs.RecordArrays.{structure_of, records_of, cascade_from, read_as, read_given};
ghost use Rattle.stored_spec.specs.ReadWrite.{record_bytes, cascade_of, read, written_as, write_bytes, write};

use crate::StoredRecords;
use crate::rows::formed;
use refusals::Refusal;
use sheet_spec::MOST_VARIABLES;
use stored_spec::{MOST_RECORD_BYTES, Record};

const NO_RECORD: Record = Record {
    variable: 0,
    cut: false,
    rails: 0,
};

// The parts of well formed records.
fn take_apart(bytes: &[u8]) -> StoredRecords
    requires { record_count bytes.now ≤ 20 }
    ensures { result ≡ structure_of (cascade_of bytes.now []).records }
{
    let count = bytes.len() / 4;
    let mut records = [NO_RECORD; MOST_VARIABLES];
    for i in 0..count {
        records[i] = Record {
            variable: bytes[i * 4],
            cut: bytes[i * 4 + 1] == 1,
            rails: bytes[i * 4 + 2],
        };
    }
    StoredRecords { count, records }
}

// The records of a stored cascade.
pub fn read_records(records: &[u8], rows: &[u8]) -> Result<StoredRecords, Refusal>
    ensures { read_given result ≡ read_as (read records.now rows.now) }
{
    if formed::<2>(records, rows) {
        return Ok(take_apart(records));
    }
    Err(Refusal::NotFormed)
}

// The bytes of up to 20 records.
fn bytes_of(from: StoredRecords, bytes: &mut [u8; MOST_RECORD_BYTES])
    requires { from.count ≤ 20 }
    ensures { bytes.new ≡ sets bytes.old 0 (record_bytes (records_of from)) }
{
    let records = from.records;
    for i in 0..from.count {
        let record = records[i];
        bytes[i * 4] = record.variable;
        bytes[i * 4 + 1] = u8::from(record.cut);
        bytes[i * 4 + 2] = record.rails;
        bytes[i * 4 + 3] = 0;
    }
}

// The bytes of from, at the front of to, as many as there is room for. A loop, for it is compiled to a call of memcpy: copy_from_slice between slices
// that are both lent is one of memmove, and the archive for C needs none.
pub fn copy_bytes(from: &[u8], to: &mut [u8])
    ensures { to.new ≡ puts (length from.now) (λ i. get_or from.now i 0) to.old }
{
    let count = from.len().min(to.len());
    for i in 0..count {
        to[i] = from[i];
    }
}

// Writes record bytes and row bytes, where they are well formed and no memory is short.
fn write_bytes(
    stored: &[u8],
    bytes: &[u8],
    records: &mut [u8],
    rows: &mut [u8],
) -> Result<(), Refusal>
    ensures { written_as (answered result) records.new rows.new
        ≡ write_bytes stored.now bytes.now records.old rows.old }
{
    if !formed::<2>(stored, bytes) {
        return Err(Refusal::NotFormed);
    }
    if records.len() < stored.len() {
        return Err(Refusal::RecordsShort);
    }
    if rows.len() < bytes.len() {
        return Err(Refusal::RowsShort);
    }
    records[..stored.len()].copy_from_slice(stored);
    rows[..bytes.len()].copy_from_slice(bytes);
    Ok(())
}

// Writes a cascade of these records and row bytes to the lent memories.
pub fn write_records(
    from: StoredRecords,
    bytes: &[u8],
    records: &mut [u8],
    rows: &mut [u8],
) -> Result<(), Refusal>
    ensures { written_as (answered result) records.new rows.new
        ≡ write (cascade_from from bytes.now) records.old rows.old }
{
    if from.count > MOST_VARIABLES {
        return Err(Refusal::NotFormed);
    }
    let mut stored = [0u8; MOST_RECORD_BYTES];
    bytes_of(from, &mut stored);
    write_bytes(&stored[..from.count * 4], bytes, records, rows)
}
