// Where a connection is.
ghost use Rattle.std.specs.Prelude.{IsFalse, IsTrue};
ghost use Rattle.conn.specs.Held.{IsOver};

use crate::body_state::BodyState;
use crate::next::Next;
use blob::BlobMaker;
use wire_http::{Head, Request, WireRefusal};

// A head, and what has come of its body.
#[derive(Drop)]
pub(crate) struct Collected {
    pub(crate) head: Head,
    pub(crate) maker: BlobMaker,
    pub(crate) place: BodyState,
}

#[derive(Drop)]
pub(crate) enum State {
    AtHead,
    InBody(Collected),
    // A refusal or a closing request was given.
    Over,
    // It was closed from here.
    Shut,
}

impl State {
    // Nothing is read any more.
    pub(crate) fn is_over(&self) -> bool
        ensures over { IsTrue result → IsOver self.now }
        ensures goes_on { IsFalse result → ¬ (IsOver self.now) }
    {
        matches!(self, State::Over | State::Shut)
    }
}

// What a step did, and how many bytes it read.
#[derive(Drop)]
pub(crate) enum Advance {
    Moved(usize),
    Gives(usize, Next),
}

// What a step through a body did, with the body as it is then.
#[derive(Drop)]
pub(crate) enum BodyStep {
    Moved(usize, Collected),
    Need(Collected),
    Whole(usize, Request),
    Refused(WireRefusal),
    NoMemory(Collected),
}
