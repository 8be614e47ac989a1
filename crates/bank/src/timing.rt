// Periods, phases and the scans in which a block is due.
ghost use Rattle.std.specs.Prelude.{◌≡◌, true, cond, ◌≤◌};
ghost use Rattle.bank_spec.specs.Due.{timed, due};

// A period of 1, 2, 4 or 8 and a phase below it.
#[derive(Clone, Copy)]
pub struct Timing {
    pub period: u8,
    pub phase: u8,
    ghost timed: { timed period phase ≡ true },
}

#[tactic(auto, unfolding(bank_spec::specs::Due::timed))]
pub fn timed(period: usize, phase: usize) -> bool
    ensures { result ≡ timed period phase }
{
    ((period == 1) | (period == 2) | (period == 4) | (period == 8)) & (phase < period)
}

impl Timing {
    ghost use Rattle.std.specs.Prelude.{Some, None, is_some, IfSome};

    pub fn new(period: usize, phase: usize) -> Option<Timing>
        ensures which { is_some result ≡ timed period phase }
        ensures held { IfSome result (λ timing. (timing.period ≡ period) × (timing.phase ≡ phase)) }
    {
        if timed(period, phase) {
            return Some(Timing {
                period: period as u8,
                phase: phase as u8,
            });
        }
        None
    }

    // By constants no division runs.
    pub fn due(self, number: u8) -> bool
        ensures { result ≡ due self.period self.phase number }
    {
        match self.period {
            1 => number % 1 == self.phase,
            2 => number % 2 == self.phase,
            4 => number % 4 == self.phase,
            _ => number % 8 == self.phase,
        }
    }

    // The cells, where they are due in the scan.
    pub fn cells_due(self, number: u8, cells: usize) -> usize
        ensures { (result ≡ cond (due self.period self.phase number) cells 0) × (result ≤ cells) }
    {
        if self.due(number) {
            return cells;
        }
        0
    }
}
