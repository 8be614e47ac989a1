// The cascade of the input's job as a line of a list of calls.
ghost use Rattle.std.specs.Prelude.{◌≡◌, IfOk, take};
ghost use Rattle.block_text.specs.BlockLine.{ReadsBack};
ghost use Rattle.block_text.specs.Given.{line_given};
ghost use Rattle.listing.specs.Block.{input_records, input_rows, block_input};

use crate::cascade::cascade_in;
use block_text::write_line;
use printing::zeros;
use refusals::Refusal;
use stored_spec::{MOST_RECORD_BYTES, MOST_ROW_BYTES};

// Writes the line that admits the cascade of the input's job at the front of the text, and answers its length; a refused job leaves the text as it was.
// Read back, the line gives exactly the records and rows that the compiler wrote.
pub fn block_input(input: &[u8], text: &mut [u8]) -> Result<usize, Refusal>
    ensures text_after { line_given result text.new ≡ block_input input.now text.old }
    ensures reads_back { IfOk result (λ size. ReadsBack (take size text.new) (input_records input.now) (input_rows input.now)) }
{
    let mut records: [u8; MOST_RECORD_BYTES] = zeros();
    let mut rows: [u8; MOST_ROW_BYTES] = zeros();
    let cascade = cascade_in(input, &mut records, &mut rows)?;
    write_line(cascade.records, cascade.rows, text)
}
