// The machine's clock.
ghost use Rattle.std.specs.Prelude.{◌≡◌, ◌≤◌, min};
ghost use Rattle.outside.specs.Machine.{whole_seconds};

use crate::Clock;
use std::time;
use std::time::SystemTime;

// The last second of the year 9999.
const GREATEST: u64 = 253402300799;

/// The machine's clock, cut to the greatest moment. It tells 0 where it can't be read, or is set before 1970.
#[derive(Clone, Copy, Drop)]
pub struct WallClock<'a, R: time::Clock> {
    rt: &'a R,
}

// The whole seconds since 1970, cut to the greatest moment.
fn moment_of(time: SystemTime) -> u64
    ensures { result ≡ min (whole_seconds time) 253402300799 }
{
    match time.duration_since(SystemTime::UNIX_EPOCH) {
        Ok(since) => since.as_secs().min(GREATEST),
        Err(_) => 0,
    }
}

impl<'a, R: time::Clock> WallClock<'a, R> {
    /// The clock of this runtime.
    pub fn new(rt: &'a R) -> WallClock<'a, R> {
        WallClock { rt }
    }
}

impl<R: time::Clock> Clock for WallClock<'_, R> {
    fn now(&mut self) -> u64 {
        match SystemTime::now(self.rt) {
            Ok(time) => moment_of(time),
            Err(_) => 0,
        }
    }
}
