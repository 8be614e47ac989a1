// A whole list of calls, and its trace.
ghost use Rattle.std.specs.Prelude.{◌≡◌, true, cond, ◌∷◌, ◌≤◌, ◌<◌, ◌+◌, ◌*◌, ltb, length, get_or};
ghost use Rattle.laws.specs.Lists.{tab, written, puts_at};
ghost use Rattle.bank_spec.specs.State.{fresh};
ghost use Rattle.replay.specs.Coded.{calls_in, readable};
ghost use Rattle.replay.specs.Entries.{no_bank, book_entries, bank_after, kind_of, first_of, second_of, trace_bytes};
ghost use Rattle.replay.specs.Replay.{call_answer};

use crate::calling::{CallAnswer, call_first};
use crate::coded::call_size;
use bank_spec::BANK_OUTPUTS;

// What is written of a call: three bytes of its answer, the number of blocks, and all outputs.
pub const ENTRY_BYTES: usize = 4 + BANK_OUTPUTS;

// Output i of 64, 2 at places that no block has.
fn output_at(count: u8, outputs: &[u8; BANK_OUTPUTS], i: usize) -> u8
    requires { i < 64 }
    ensures { result ≡ cond (ltb i (8 * count)) (get_or outputs.now i 0) 2 }
{
    if i < 8 * usize::from(count) {
        return outputs[i];
    }
    2
}

// Each block's outputs.
fn write_outputs(count: u8, outputs: &[u8; BANK_OUTPUTS], at: usize, trace: &mut [u8])
    requires { at + 64 ≤ length trace.old }
    ensures { trace.new ≡ puts_at at 64 (λ i. cond (ltb i (8 * count)) (get_or outputs.now i 0) 2) trace.old }
{
    for i in 0..BANK_OUTPUTS {
        trace[at + i] = output_at(count, outputs, i);
    }
}

// The 68 bytes of a call.
fn write_entry(
    answer: CallAnswer,
    count: u8,
    outputs: &[u8; BANK_OUTPUTS],
    at: usize,
    trace: &mut [u8],
)
    requires { at + 68 ≤ length trace.old }
    ensures all_there { length outputs.now ≡ 64 }
    ensures entry { trace.new
        ≡ written trace.old at
        (kind_of (call_answer answer) ∷ first_of (call_answer answer) ∷ second_of (call_answer answer) ∷ count
        ∷ tab 64 (λ i. cond (ltb i (8 * count)) (get_or outputs.now i 0) 2)) }
{
    let [kind, first, second] = answer.bytes();
    trace[at] = kind;
    trace[at + 1] = first;
    trace[at + 2] = second;
    trace[at + 3] = count;
    write_outputs(count, outputs, at + 4, trace);
}

// Runs the calls of a list that is whole calls; the trace has 68 bytes for each.
pub fn run_calls(list: &[u8], rows: &mut [u8], trace: &mut [u8])
    requires { (readable list.now ≡ true) × (68 * length (calls_in list.now) ≤ length trace.old) }
    ensures rows_after { rows.new ≡ (bank_after (fresh 0 rows.old) (calls_in list.now)).rows }
    ensures trace_after { trace.new
        ≡ written trace.old 0 (trace_bytes (book_entries (length rows.old) no_bank (calls_in list.now))) }
{
    let mut bank = bank::empty_bank(0);
    let mut scan = bank::at_rest();
    let mut rest = list;
    let mut written = 0;
    while let Some(n) = call_size(rest) {
        let answer = call_first(&mut bank, &mut scan, rest, rows);
        write_entry(answer, bank.count, &scan.outputs, written, trace);
        rest = &rest[n..];
        written += ENTRY_BYTES;
    }
}
