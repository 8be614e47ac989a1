// Evaluation of stored cascades: which outputs are certain where some inputs are not known.

#![tactic(auto)]

mod cells;
mod gather;

ghost use Rattle.std.specs.Prelude.{◌≡◌};
ghost use Rattle.evaluation_spec.specs.Known.{evaluate};
ghost use Rattle.evaluation.specs.Answer.{evaluation_given, evaluation_of};

use crate::cells::{Asked, certain_outputs};
use refusals::Refusal;
use sheet_spec::MOST_OUTPUTS;

// The outputs of the cascade of these records and rows, each 0, 1 or 2 for unknown, where the inputs of the mask are known and are those of the word;
// 12 where it is not well formed.
pub fn evaluate(
    records: &[u8],
    rows: &[u8],
    known: u16,
    word: u16,
) -> Result<[u8; MOST_OUTPUTS], Refusal>
    ensures { evaluation_given result ≡ evaluation_of (evaluate records.now rows.now known word) }
{
    if !stored::well_formed(records, rows) {
        return Err(Refusal::NotFormed);
    }
    let asked = Asked {
        records,
        rows,
        known,
        word,
    };
    Ok(certain_outputs(&asked))
}
