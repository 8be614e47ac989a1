// One call of a list, made on a bank.
ghost use Rattle.std.specs.Prelude.{◌≡◌, List, [], ◌∷◌, ℕ, ◌<◌, ◌≤◌, ◌+◌, length};
ghost use Rattle.bank_spec.specs.Calls.{numbered, answer_of, admit};
ghost use Rattle.bank_spec.specs.State.{state_of};
ghost use Rattle.bank.specs.Given.{given_number};
ghost use Rattle.refusals.specs.Numbers.{answered};
ghost use Rattle.replay.specs.Coded.{making, pair, triple, size, block_from, first};
ghost use Rattle.replay.specs.Entries.{on_bank, kind_of, first_of, second_of};
ghost use Rattle.replay.specs.Replay.{call_answer};

use crate::coded::{byte_at, pair_at, triple_at, words_in};
use bank_spec::{Bank, Scan, StepAnswer};
use refusals::Refusal;

// What a call is answered.
#[derive(Clone, Copy, Debug, PartialEq, Eq)]
pub enum CallAnswer {
    Accepted,
    Refused(Refusal),
    Idle,
    Went(u8, u8),
}

impl CallAnswer {
    // 0 accepted, 1 and the number of the refusal, 2 Idle, 3 with block and cell.
    #[tactic(auto, unfolding(crate::specs::Entries::kind_of, crate::specs::Entries::first_of, crate::specs::Entries::second_of))]
    pub fn bytes(self) -> [u8; 3]
        ensures { result ≡ kind_of (call_answer self) ∷ first_of (call_answer self) ∷ second_of (call_answer self) ∷ [] }
    {
        match self {
            CallAnswer::Accepted => [0, 0, 0],
            CallAnswer::Refused(refusal) => [1, u8::from(refusal), 0],
            CallAnswer::Idle => [2, 0, 0],
            CallAnswer::Went(block, cell) => [3, block, cell],
        }
    }
}

impl From<StepAnswer> for CallAnswer {
    ghost from_gives = { λ step call. answer_of step ≡ call_answer call };

    #[tactic(auto, unfolding(bank_spec::specs::Calls::answer_of))]
    fn from(step: StepAnswer) -> CallAnswer {
        match step {
            StepAnswer::Went(block, cell) => CallAnswer::Went(block, cell),
            StepAnswer::Idle => CallAnswer::Idle,
            StepAnswer::Refused(refusal) => CallAnswer::Refused(refusal),
        }
    }
}

impl From<Result<(), Refusal>> for CallAnswer {
    ghost from_gives = { λ done call. call_answer call ≡ numbered (answered done) };

    fn from(done: Result<(), Refusal>) -> CallAnswer {
        match done {
            Ok(()) => CallAnswer::Accepted,
            Err(refusal) => CallAnswer::Refused(refusal),
        }
    }
}

// A bank made with S; refused, the bank that was there stays.
fn make_bank(bank: &mut Bank, scan: &mut Scan, limit: u16) -> Result<(), Refusal>
    ensures { (rows : List ℕ) → given_number (answered result) bank.new scan.new rows ≡ on_bank (state_of bank.old scan.old rows) (making limit) }
{
    let (made, fresh) = bank::start(limit)?;
    *bank = made;
    *scan = fresh;
    Ok(())
}

// The block whose records and rows stand from place at on.
fn admit_coded(
    bank: &mut Bank,
    scan: &mut Scan,
    list: &[u8],
    at: usize,
    period: usize,
    phase: usize,
    rows: &mut [u8],
) -> Result<(), Refusal>
    requires { (at ≤ 8) × (at + pair list.now 1 + triple list.now 3 ≤ length list.now) }
    ensures { given_number (answered result) bank.new scan.new rows.new
        ≡ admit (state_of bank.old scan.old rows.old) (block_from at list.now period phase) }
{
    let middle = at + pair_at(list, 1);
    let end = middle + triple_at(list, 3);
    let (more, fresh) = bank::admit_every(
        *bank,
        *scan,
        &list[at..middle],
        &list[middle..end],
        period,
        phase,
        rows,
    )?;
    *bank = more;
    *scan = fresh;
    Ok(())
}

// The call at the front of the list, where a whole one stands there.
pub fn call_first(bank: &mut Bank, scan: &mut Scan, list: &[u8], rows: &mut [u8]) -> CallAnswer
    requires { 0 < size list.now }
    ensures { record { answer = call_answer result; state = state_of bank.new scan.new rows.new }
        ≡ on_bank (state_of bank.old scan.old rows.old) (first list.now) }
{
    match byte_at(list, 0) {
        0 => CallAnswer::from(make_bank(bank, scan, pair_at(list, 1) as u16)),
        1 => CallAnswer::from(admit_coded(bank, scan, list, 6, 1, 0, rows)),
        2 => CallAnswer::from(bank::latch_lent(*bank, scan, words_in(list))),
        4 => {
            let period = byte_at(list, 6);
            let phase = byte_at(list, 7);
            CallAnswer::from(admit_coded(bank, scan, list, 8, period, phase, rows))
        }
        _ => CallAnswer::from(bank::step_lent(*bank, scan, rows)),
    }
}
