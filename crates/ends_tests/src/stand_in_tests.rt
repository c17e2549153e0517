// A link's close and a door over ends that stand in for the machine's, which tell how often they were called.
use outside::{Failed, Link, Listener, StreamDoor, StreamLink};
use std::cell::Cell;
use std::io;
use std::io::{Error, ErrorKind, Read, Write};
use std::net::{OpenListener, OpenStream, Shutdown, SocketAddr, TcpStream};
use std::time::{Clock, Duration};

// A clock that goes on by a step at each look, and can't be read without one.
#[derive(Drop)]
struct Steps {
    step: Option<Duration>,
    now: Cell<Duration>,
}

impl Clock for Steps {
    fn monotonic(&self) -> io::Result<Duration> {
        let Some(step) = self.step else {
            return Err(Error::from(ErrorKind::Other));
        };
        let now = self.now.get().saturating_add(step);
        self.now.set(now);
        Ok(now)
    }

    fn since_1970(&self) -> io::Result<Duration> {
        self.monotonic()
    }
}

// The other end of a connection: it has so many bytes left, and gives up to `piece` of them at a read. It counts the reads.
#[derive(Drop)]
struct Peer<'a> {
    reads: &'a Cell<u32>,
    piece: usize,
    left: usize,
}

impl Read for Peer<'_> {
    fn read(&mut self, to: &mut [u8]) -> io::Result<usize> {
        self.reads.set(self.reads.get().saturating_add(1));
        let count = self.piece.min(self.left).min(to.len());
        self.left -= count;
        Ok(count)
    }
}

impl Write for Peer<'_> {
    fn write(&mut self, piece: &[u8]) -> io::Result<usize> {
        Ok(piece.len())
    }

    fn flush(&mut self) -> io::Result<()> {
        Ok(())
    }
}

impl OpenStream for Peer<'_> {
    fn shutdown(&self, how: Shutdown) -> io::Result<()> {
        if how == Shutdown::Write {
            Ok(())
        } else {
            Err(Error::from(ErrorKind::Other))
        }
    }

    fn set_nodelay(&self, _nodelay: bool) -> io::Result<()> {
        Ok(())
    }

    fn set_read_timeout(&self, _longest: Option<Duration>) -> io::Result<()> {
        Ok(())
    }

    fn set_write_timeout(&self, _longest: Option<Duration>) -> io::Result<()> {
        Ok(())
    }
}

// How many reads a close makes of a peer with so many bytes left.
fn reads_of_close(step: Option<u64>, piece: usize, left: usize) -> u32 {
    let clock = Steps {
        step: step.map(Duration::from_millis),
        now: Cell::new(Duration::ZERO),
    };
    let reads = Cell::new(0);
    let peer = Peer {
        reads: &reads,
        piece,
        left,
    };
    let mut link = StreamLink::over(&clock, peer, Duration::from_secs(30));
    link.close();
    reads.get()
}

// The peer's end, the 2 seconds, 64 reads without a clock, and 1 MiB in pieces of 4,096 bytes.
#[test]
fn close_reads_to_its_limits(rt: HostRuntime) {
    let ended = reads_of_close(Some(0), 10, 25);
    let late = reads_of_close(Some(300), 1, 1000);
    let blind = reads_of_close(None, 1, 1000);
    let full = reads_of_close(Some(0), 10_000, 2_000_000);
    assert_eq!(rt; [ended, late, blind, full], [4, 6, 64, 256]);
}

// A listener with no caller, whose calls fail with these numbers of the machine in turn, and then with that of a failed disk. It counts them.
#[derive(Drop)]
struct Refusing<'a> {
    calls: &'a Cell<usize>,
    codes: &'a [i32],
}

impl OpenListener for Refusing<'_> {
    type Stream = TcpStream;

    fn accept(&self) -> io::Result<(TcpStream, SocketAddr)> {
        let call = self.calls.get();
        self.calls.set(call.saturating_add(1));
        let code = self.codes.get(call).copied().unwrap_or(5);
        Err(Error::from_raw_os_error(code))
    }
}

// Linux's ECONNABORTED, EINTR, EPROTO, EMFILE and ENFILE.
#[test]
fn door_asks_again(rt: HostRuntime) {
    let calls = Cell::new(0);
    let listener = Refusing {
        calls: &calls,
        codes: &[103, 4, 71, 24, 23],
    };
    let mut door = StreamDoor::over(&rt, listener, Duration::from_secs(30));
    assert!(rt; matches!(door.next(), Err(Failed)));
    assert_eq!(rt; calls.get(), 6);
}
