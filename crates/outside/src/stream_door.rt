// A listener of std. It tells nothing of the links that will come, and counts its faults.
ghost use Rattle.std.specs.Prelude.{◌≡◌, None, Some, false};

use crate::accepting::accepted;
use crate::{Failed, Listener, StreamLink};
use std::io::{Read, Write};
use std::net::{Net, OpenListener, OpenStream, SocketAddr, TcpListener, TcpStream};
use std::sync::Wait;
use std::time::{Clock, Duration};

/// A listener of std that gives each connection as a link, and never ends. It fails where the listener fails, but for three errors of one
/// caller or a signal (ECONNABORTED, EPROTO and EINTR), after which it asks again at once, and for two that other links may end (EMFILE and
/// ENFILE: too many files are open), after which it asks again in 50 milliseconds. The rule is this project's own, after Linux's accept(2).
#[derive(Drop)]
pub struct StreamDoor<'a, T, R> {
    rt: &'a R,
    // None where the address couldn't be listened at.
    listener: Option<T>,
    longest: Duration,
    faults: u64,
}

/// A listener at an address of the machine.
pub type TcpDoor<'a, R> = StreamDoor<'a, TcpListener, R>;

impl<'a, R: Net<Listener = TcpListener, Stream = TcpStream>> TcpDoor<'a, R> {
    ghost use Rattle.outside.specs.Machine.{door_faults, door_longest};

    /// Listens at the address, `HOST:PORT`, where port 0 is any free one. `longest` is how long a read or a write of its links may
    /// wait, above 0: the read of a link that says nothing for so long fails and counts, and who serves the link closes it. Where the
    /// address can't be listened at, each call of `next` fails and counts.
    pub fn open(rt: &'a R, address: &str, longest: Duration) -> TcpDoor<'a, R>
        ensures longest { door_longest result ≡ longest }
        ensures faults { door_faults result ≡ 0 }
    {
        StreamDoor {
            rt,
            listener: TcpListener::bind(rt, address).ok(),
            longest,
            faults: 0,
        }
    }
}

impl<'a, T: OpenListener, R> StreamDoor<'a, T, R> {
    ghost use Rattle.outside.specs.Machine.{door_listener, door_longest, door_faults};

    /// A listener over this one of std. `longest` is as of `open`.
    pub fn over(rt: &'a R, listener: T, longest: Duration) -> StreamDoor<'a, T, R>
        ensures listener { door_listener result ≡ Some listener }
        ensures longest { door_longest result ≡ longest }
        ensures faults { door_faults result ≡ 0 }
    {
        StreamDoor {
            rt,
            listener: Some(listener),
            longest,
            faults: 0,
        }
    }

    /// The address at which it listens, where it does.
    pub fn address(&self) -> Option<SocketAddr> {
        self.listener.as_ref()?.local_addr().ok()
    }
}

impl<
    'a,
    S: Read + Write + OpenStream + Send + Drop,
    T: OpenListener<Stream = S>,
    R: Clock + Wait + Sync,
> Listener for StreamDoor<'a, T, R> {
    type L = StreamLink<'a, S, R>;

    ghost left = { λ _. None };

    ghost ended = { λ _. false };

    ghost faults = { λ d. d.faults };

    /// Waits for the next connection.
    fn next(&mut self) -> Result<Option<StreamLink<'a, S, R>>, Failed> {
        if let Some(listener) = &self.listener {
            if let Some(stream) = accepted(self.rt, listener) {
                return Ok(Some(StreamLink::over(self.rt, stream, self.longest)));
            }
        }
        self.faults = self.faults.saturating_add(1);
        Err(Failed)
    }
}
