// Who is told that a journal is closed.

/// What is told that the journal is closed, by whoever finds it so: as often as it is found, by any thread. A program that ends its service
/// then has something to go by, since a closed journal stays closed.
pub trait Alarm {
    /// Is told so. It waits for nobody.
    fn ring(&self);
}

/// An alarm that does nothing.
#[derive(Clone, Copy, Debug, PartialEq, Eq)]
pub struct NoAlarm;

impl Alarm for NoAlarm {
    fn ring(&self) {}
}
