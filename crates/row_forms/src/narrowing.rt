// From two bytes a row to one.
ghost use Rattle.std.specs.Prelude.{◌≡◌, ◌≤◌, ◌/◌, length};
ghost use Rattle.laws.specs.Lists.{written};
ghost use Rattle.refusals.specs.Numbers.{answered};
ghost use Rattle.stored_spec.specs.RowBytes.{one_byte, two_bytes};
ghost use Rattle.stored_spec.specs.ReadWrite.{written_as};
ghost use Rattle.row_forms_spec.specs.Moves.{moved_rows, narrow};

use refusals::Refusal;

// The low byte of each pair.
fn narrow_rows(from: &[u8], to: &mut [u8])
    requires { length from.now / 2 ≤ length to.old }
    ensures { to.new ≡ written to.old 0 (moved_rows two_bytes one_byte from.now) }
{
    let count = from.len() / 2;
    for i in 0..count {
        to[i] = from[i * 2];
    }
}

// Both memories hold the cascade at their front, or nothing is changed.
pub fn narrow(
    stored: &[u8],
    bytes: &[u8],
    records: &mut [u8],
    rows: &mut [u8],
) -> Result<(), Refusal>
    ensures { written_as (answered result) records.new rows.new
        ≡ narrow stored.now bytes.now records.old rows.old }
{
    if stored::well_formed(stored, bytes) {
        if records.len() < stored.len() {
            return Err(Refusal::RecordsShort);
        }
        let short = rows.len() < bytes.len() / 2;
        let over = !stored::one_byte_fits(stored);
        if short {
            return Err(Refusal::RowsShort);
        }
        if over {
            return Err(Refusal::OverEight);
        }
        stored::copy_front(stored, records);
        narrow_rows(bytes, rows);
        return Ok(());
    }
    Err(Refusal::NotFormed)
}
