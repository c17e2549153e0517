// The moments of a phase.
ghost use Rattle.std.specs.Prelude.{◌≤◌};

use outside::Clock;

// The last second of the year 9999, the greatest moment that a clock tells.
const GREATEST: u64 = 253402300799;

// A clock that tells the number of a phase.
#[derive(Clone, Copy, Drop)]
pub(crate) struct PhaseClock {
    pub(crate) phase: u64,
}

impl Clock for PhaseClock {
    fn now(&mut self) -> u64
        ensures { result ≤ 253402300799 }
    {
        self.phase.min(GREATEST)
    }
}
