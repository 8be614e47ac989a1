// A list of calls in bytes, run on a bank; what is compared after each call is written down.

#![tactic(auto)]

mod calling;
mod coded;
mod running;

ghost use Rattle.std.specs.Prelude.{◌≡◌, cond, length};
ghost use Rattle.refusals.specs.Numbers.{answered};
ghost use Rattle.replay.specs.Coded.{calls_in, readable};
ghost use Rattle.replay.specs.Replay.{replay};

use crate::coded::count_calls;
use crate::running::{ENTRY_BYTES, run_calls};
use refusals::Refusal;

// Runs a list of calls on the lent row memory and writes 68 bytes for each into the trace: the answer, the number of blocks, and each block's
// outputs, exactly as the book has them. Refuses a list that it can't read with 12, a trace too short with 11, and then changes nothing.
pub fn replay(list: &[u8], rows: &mut [u8], trace: &mut [u8]) -> Result<(), Refusal>
    ensures { record { refusal = answered result; rows = rows.new; trace = trace.new }
        ≡ replay list.now rows.old trace.old }
{
    let calls = count_calls(list).ok_or(Refusal::NotFormed)?;
    if trace.len() / ENTRY_BYTES < calls {
        return Err(Refusal::RowsShort);
    }
    run_calls(list, rows, trace);
    Ok(())
}

// How many calls a list has; 0 where it can't be read.
pub fn call_count(list: &[u8]) -> usize
    ensures { result ≡ cond (readable list.now) (length (calls_in list.now)) 0 }
{
    count_calls(list).unwrap_or(0)
}
