// Accepting of a connection, where a fault of one caller or a want of descriptors is none of the listener.
ghost use Rattle.std.specs.Prelude.{◌≡◌};
ghost use Rattle.std.specs.IoError.{raw_os_error};
ghost use Rattle.outside.specs.Accepting.{after_number, after_of};

use std::io::Error;
use std::net::OpenListener;
use std::sync::Wait;
use std::thread;
use std::time::{Clock, Duration};

// What to do where the machine gave no connection.
#[derive(Clone, Copy, Debug, PartialEq, Eq)]
pub(crate) enum AfterFault {
    // Ask again at once.
    Again,
    // Ask again after a pause, in which others may let go what is wanted.
    Pause,
    // The listener has failed.
    Tell,
}

// The machine's numbers of the errors after which it is asked again.
const EINTR: i32 = 4;

const ENFILE: i32 = 23;

const EMFILE: i32 = 24;

const EPROTO: i32 = 71;

const ECONNABORTED: i32 = 103;

// What to do at the machine's error of this number.
fn after_number(code: i32) -> AfterFault
    ensures { result ≡ after_number code }
{
    if code == EINTR || code == EPROTO || code == ECONNABORTED {
        AfterFault::Again
    } else if code == ENFILE || code == EMFILE {
        AfterFault::Pause
    } else {
        AfterFault::Tell
    }
}

// What to do at this error.
fn after_fault(error: &Error) -> AfterFault
    ensures { result ≡ after_of (raw_os_error error.now) }
{
    match error.raw_os_error() {
        Some(code) => after_number(code),
        None => AfterFault::Tell,
    }
}

// Waits for the next connection, None where the listener failed.
pub(crate) fn accepted<T: OpenListener, R: Clock + Wait>(
    rt: &R,
    listener: &T,
) -> Option<T::Stream> {
    for _ in rt.forever() {
        match listener.accept() {
            Ok((stream, _)) => return Some(stream),
            Err(error) => match after_fault(&error) {
                AfterFault::Again => {}
                AfterFault::Pause => thread::sleep(rt, Duration::from_millis(50)),
                AfterFault::Tell => return None,
            },
        }
    }
    unreachable!()
}
