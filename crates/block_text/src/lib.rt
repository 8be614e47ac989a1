// The line of a list of calls that admits a block, written into lent memory.

#![tactic(auto)]

mod lines;

ghost use Rattle.std.specs.Prelude.{◌≡◌, take, IfOk};
ghost use Rattle.block_text.specs.BlockLine.{write_line, ReadsBack};
ghost use Rattle.block_text.specs.Given.{line_given};

use crate::lines::{put_line, text_size};
use refusals::Refusal;

// Writes the line that admits these records and rows at the front of the text, which must be long enough; how long the line is. Read back, it gives
// exactly these.
pub fn write_line(records: &[u8], rows: &[u8], text: &mut [u8]) -> Result<usize, Refusal>
    ensures text_after { line_given result text.new ≡ write_line records.now rows.now text.old }
    ensures reads_back { IfOk result (λ size. ReadsBack (take size text.new) records.now rows.now) }
{
    if (65535 < records.len()) | (65535 < rows.len()) {
        return Err(Refusal::NotFormed);
    }
    let size = 8 + text_size(records) + text_size(rows);
    if text.len() < size {
        return Err(Refusal::RowsShort);
    }
    put_line(records, rows, text);
    Ok(size)
}
