// What may go to another thread, and what threads may share: laws with bodies that do nothing when they run.
use crate::{PauseGate, TcpDoor, TcpLink, WallClock};
use std::time::Clock;

fn is_send<T: Send>() {}

fn is_sync<T: Sync>() {}

/// A TCP link and a TCP listener may go to another thread, where threads may share the runtime.
pub fn tcp_is_send<'a, R: Sync>(_rt: &'a R) {
    is_send::<TcpLink<'a, R>>();
    is_send::<TcpDoor<'a, R>>();
}

/// The machine's clock may go to another thread, and threads may share its gate, where they may share the runtime.
pub fn clock_and_gate_cross<'a, R: Clock + Sync>(_rt: &'a R) {
    is_send::<WallClock<'a, R>>();
    is_sync::<PauseGate<'a, R>>();
}
