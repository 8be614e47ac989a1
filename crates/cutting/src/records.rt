// The stored records of a cascade, and the words of its nodes.
ghost use Rattle.std.specs.Prelude.{◌≡◌, cond, [], ◌∷◌, ◌≤◌, ◌<◌, ◌+◌, ◌*◌, length, get_or};
ghost use Rattle.std.proofs.lemmas.List.Edits.{sets};
ghost use Rattle.laws.specs.Lists.{joined, puts};
ghost use Rattle.laws.specs.Bits.{flag};
ghost use Rattle.cutting.specs.Levels.{rails_of};
ghost use Rattle.cutting.specs.Plan.{record_in};

use crate::plan::Plan;
use reduction_spec::NodeWords;

// Record i: a variable, whether a cut lies directly below, the rails there.
fn store_record(i: usize, v: u8, cut: bool, rails: u8, records: &mut [u8])
    requires { (i ≤ 20) × (i * 4 + 4 ≤ length records.old) }
    ensures { records.new ≡ sets records.old (i * 4) (v ∷ flag cut ∷ cond cut rails 0 ∷ 0 ∷ []) }
{
    let k = i * 4;
    let below = if cut { rails } else { 0 };
    records[k] = v;
    records[k + 1] = u8::from(cut);
    records[k + 2] = below;
    records[k + 3] = 0;
}

// The records of an order with the cuts of a plan and its rails at each height.
pub fn write_records(order: &[u8], plan: &Plan, records: &mut [u8])
    requires { (length order.now ≤ 20) × (plan.now.cells ≤ 20) × (length order.now * 4 ≤ length records.old) }
    ensures { records.new ≡ sets records.old 0
        (joined (length order.now) (record_in (length order.now) order.now (rails_of plan.now.levels) plan.now.cuts (plan.now.cells + 1))) }
{
    let t = order.len();
    let count = usize::from(plan.cells) + 1;
    for i in 0..t {
        let below = t - 1 - i;
        let cut = plan.cuts[..count].contains(&(below as u8));
        store_record(i, order[i], cut, plan.levels[below].rails, records);
    }
}

// The first count words.
pub fn write_words(count: usize, from: &NodeWords, to: &mut [u16])
    requires { (count ≤ 30720) × (count ≤ length to.old) }
    ensures { to.new ≡ puts count (λ i. get_or from.now i 0) to.old }
{
    to[..count].copy_from_slice(&from[..count]);
}
