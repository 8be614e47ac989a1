// Refusal 5, by pairs of records of one kind.
ghost use Rattle.std.specs.Prelude.{◌≡◌, ◌≤◌, ◌<◌, ◌*◌, ◌/◌, ◌%◌, length, get_or};
ghost use Rattle.std.specs.Int.Bits.{bit_or};
ghost use Rattle.laws.specs.Tests.{any};
ghost use Rattle.laws.specs.Lists.{puts};
ghost use Rattle.sheet_spec.specs.Records.{record_count, kind};
ghost use Rattle.sheet.specs.Pairs.{hit_in, any_hit};

use crate::records::{Sheet, Tests};

// What each record forces: the outputs forced to 0 in the low byte and to 1 in the high, and the other way round.
#[derive(Drop)]
struct Forces {
    forces: [u16; 256],
    against: [u16; 256],
}

// Whether a record before r agrees with it on the inputs that both test, and forces an output the other way.
fn hit_before(tests: &Tests, all: &Forces, r: usize) -> bool
    requires { r < 256 }
    ensures { result ≡ any r (hit_in tests.now.masks tests.now.values all.now.forces all.now.against r) }
{
    let mask = tests.masks[r];
    let value = tests.values[r];
    let other = all.against[r];
    let mut hit = false;
    for q in 0..r {
        let differ = (tests.values[q] ^ value) & tests.masks[q] & mask;
        hit = hit | ((differ == 0) & (all.forces[q] & other != 0));
    }
    hit
}

fn hit_among(tests: &Tests, all: &Forces, count: usize) -> bool
    requires { count ≤ 256 }
    ensures { result ≡ any count (λ r. any r (hit_in tests.now.masks tests.now.values all.now.forces all.now.against r)) }
{
    let mut hit = false;
    for r in 0..count {
        hit = hit | hit_before(tests, all, r);
    }
    hit
}

// The kind becomes one more input that every record tests: bit 15 of its mask, and of its values. So the loop over pairs needs no test of kinds.
fn add_kinds(sheet: &Sheet<'_>, tests: &mut Tests)
    ensures masks_after { tests.new.masks
        ≡ puts (record_count sheet.now.bytes.now) (λ r. bit_or (get_or tests.old.masks r 0) 32768) tests.old.masks }
    ensures values_after { tests.new.values
        ≡ puts (record_count sheet.now.bytes.now)
        (λ r. bit_or (get_or tests.old.values r 0) (kind sheet.now.bytes.now r % 2 * 32768))
        tests.old.values }
{
    for r in 0..sheet.count() {
        tests.masks[r] = tests.masks[r] | 32768;
        tests.values[r] = tests.values[r] | u16::from(sheet.bytes[r * 8 + 6] % 2) * 32768;
    }
}

pub fn any_hit(sheet: &Sheet<'_>) -> bool
    ensures { result ≡ any_hit sheet.now.bytes.now }
{
    let mut tests = Tests {
        masks: [0; 256],
        values: [0; 256],
    };
    sheet.load(0, 1, &mut tests.masks);
    sheet.load(2, 3, &mut tests.values);
    add_kinds(sheet, &mut tests);
    let mut all = Forces {
        forces: [0; 256],
        against: [0; 256],
    };
    sheet.load(4, 5, &mut all.forces);
    sheet.load(5, 4, &mut all.against);
    hit_among(&tests, &all, sheet.count())
}
