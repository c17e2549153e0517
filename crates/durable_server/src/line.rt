// What comes of one step of a drive.
use drive_session::StepLine;
use durable_archive::CloseCause;

/// What comes of one step of a drive.
#[derive(Clone, Copy, Debug, PartialEq, Eq)]
pub enum DurableLine {
    /// What the step did.
    Line(StepLine),
    /// The journal is closed for this cause: the session is of no use any more.
    Closed { cause: CloseCause },
}
