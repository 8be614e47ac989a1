// From one byte a row to two.
ghost use Rattle.std.specs.Prelude.{◌≡◌, ◌≤◌, length};
ghost use Rattle.laws.specs.Lists.{written};
ghost use Rattle.refusals.specs.Numbers.{answered};
ghost use Rattle.stored_spec.specs.RowBytes.{one_byte, two_bytes, room};
ghost use Rattle.stored_spec.specs.ReadWrite.{written_as};
ghost use Rattle.row_forms_spec.specs.Moves.{moved_rows, widen};

use refusals::Refusal;

// Each byte, then 0.
fn widen_rows(from: &[u8], to: &mut [u8])
    requires { room two_bytes (length from.now) ≤ length to.old }
    ensures { to.new ≡ written to.old 0 (moved_rows one_byte two_bytes from.now) }
{
    for i in 0..from.len() {
        to[i * 2] = from[i];
        to[i * 2 + 1] = 0;
    }
}

// Both memories hold the cascade at their front, or nothing is changed.
pub fn widen(
    stored: &[u8],
    bytes: &[u8],
    records: &mut [u8],
    rows: &mut [u8],
) -> Result<(), Refusal>
    ensures { written_as (answered result) records.new rows.new
        ≡ widen stored.now bytes.now records.old rows.old }
{
    if stored::one_byte_formed(stored, bytes) {
        if records.len() < stored.len() {
            return Err(Refusal::RecordsShort);
        }
        if rows.len() / 2 < bytes.len() {
            return Err(Refusal::RowsShort);
        }
        stored::copy_front(stored, records);
        widen_rows(bytes, rows);
        return Ok(());
    }
    Err(Refusal::NotFormed)
}
