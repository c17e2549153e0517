// A gate that lets idle workers pause.
ghost use Rattle.std.specs.Prelude.{◌≡◌, true};

use crate::Gate;
use std::thread;
use std::time::{Clock, Duration};

/// A gate that tells each worker to go on, an idle one after a pause.
#[derive(Clone, Copy, Drop)]
pub struct PauseGate<'a, R: Clock> {
    rt: &'a R,
    pause: Duration,
}

impl<'a, R: Clock> PauseGate<'a, R> {
    /// A gate at which an idle worker sleeps for so long.
    pub fn new(rt: &'a R, pause: Duration) -> PauseGate<'a, R> {
        PauseGate { rt, pause }
    }
}

impl<R: Clock> Gate for PauseGate<'_, R> {
    fn pass(&self, _worker: u32, idle: bool) -> bool
        ensures { result ≡ true }
    {
        if idle {
            thread::sleep(self.rt, self.pause);
        }
        true
    }
}
