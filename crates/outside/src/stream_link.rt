// A connection of std as a link.
ghost use Rattle.std.specs.Prelude.{◌≡◌, None, true, false, IsNone, IfSome, IsOk, IsErr, OnOk};
ghost use Rattle.std.specs.Io.{ReadsAtMost};
ghost use Rattle.std.specs.Io.KnownBytes.{ReadConsumes};
ghost use Rattle.outside.specs.Causes.{HasCause};
ghost use Rattle.outside.specs.Streams.{SendsWhole, WritesWhole};

use crate::drain::drain;
use crate::reading::read_some;
use crate::writing::write_whole;
use crate::{Failed, Link};
use std::io;
use std::io::{Read, Write};
use std::net::{OpenStream, Shutdown, TcpStream};
use std::time::{Clock, Duration};

/// A connection with no delay of small pieces, and with time-outs: a read or a write that waits longer fails and counts, and nothing else
/// ends a link that says nothing. As a link it tells no bytes, since std doesn't say that a call on one side of a connection leaves the other as it was. What a call does to the bytes of its
/// own side, where the connection tells them, is in the clauses `taken` and `sent`.
#[derive(Drop)]
pub struct StreamLink<'a, S, R> {
    rt: &'a R,
    // None where the machine refused one of the settings, and where it was closed.
    stream: Option<S>,
    read_faults: u64,
    write_faults: u64,
}

/// A TCP connection as a link.
pub type TcpLink<'a, R> = StreamLink<'a, TcpStream, R>;

// Sets what a link needs of a connection.
fn set<S: OpenStream>(stream: &S, longest: Duration) -> io::Result<()> {
    stream.set_nodelay(true)?;
    stream.set_read_timeout(Some(longest))?;
    stream.set_write_timeout(Some(longest))
}

impl<'a, S: Read + Write + OpenStream + Drop, R> StreamLink<'a, S, R> {
    ghost use Rattle.outside.specs.Machine.{connection, connection_read_faults, connection_write_faults};

    /// A link over the connection, whose close reads the clock of this runtime. `longest` is how long a read or a write may wait, above 0. Where the machine refuses a setting,
    /// the connection is let go, and each read and write fails and counts.
    pub fn over(rt: &'a R, stream: S, longest: Duration) -> StreamLink<'a, S, R>
        ensures faults { (connection_read_faults result ≡ 0) × (connection_write_faults result ≡ 0) }
        ensures same { IfSome (connection result) (λ s. s ≡ stream) }
    {
        let stream = set(&stream, longest).ok().map(|()| stream);
        StreamLink {
            rt,
            stream,
            read_faults: 0,
            write_faults: 0,
        }
    }
}

impl<S: Read + Write + OpenStream + Drop, R: Clock> Link for StreamLink<'_, S, R> {
    ghost use Rattle.outside.specs.Machine.{TellsNothing, connection_left, connection_written, connection, connection_read_faults, connection_write_faults};

    ghost left = { λ _. None };

    ghost written = { λ _. None };

    ghost read_faults = { λ l. connection_read_faults l };

    ghost write_faults = { λ l. connection_write_faults l };

    ghost firm = { λ _. false };

    /// Gives the bytes that the connection gives. It fails where the connection failed; a signal doesn't end it, unless it cuts off
    /// 64 reads in a row.
    fn read(&mut self, to: &mut [u8]) -> Result<usize, Failed>
        ensures bound { ReadsAtMost result to.new }
        ensures bytes { ReadConsumes None None result to.new }
        ensures cause { HasCause (connection_read_faults self.old) (connection_read_faults self.new) result }
        ensures other { TellsNothing × (connection_write_faults self.new ≡ connection_write_faults self.old) }
        ensures firm { (false ≡ false) × (false ≡ true → IsOk result) }
        ensures taken { ReadConsumes (connection_left S.remaining self.old) (connection_left S.remaining self.new) result to.new }
        ensures faultless { OnOk result (connection_read_faults self.new ≡ connection_read_faults self.old) }
        ensures none { IsNone (connection self.old) → IsErr result }
    {
        if let Some(stream) = &mut self.stream {
            if let Ok(count) = read_some(stream, to) {
                return Ok(count);
            }
        }
        self.read_faults = self.read_faults.saturating_add(1);
        Err(Failed)
    }

    /// Writes the piece to the connection. It fails where the connection failed or took nothing; a signal doesn't end it, unless it cuts
    /// off 64 writes in a row.
    fn write_all_of(&mut self, piece: &[u8]) -> Result<(), Failed>
        ensures bytes { SendsWhole None None result piece.now }
        ensures cause { HasCause (connection_write_faults self.old) (connection_write_faults self.new) result }
        ensures other { TellsNothing × (connection_read_faults self.new ≡ connection_read_faults self.old) }
        ensures firm { (false ≡ false) × (false ≡ true → IsOk result) }
        ensures sent { WritesWhole (connection_written S.contents self.old) (connection_written S.contents self.new) result piece.now }
        ensures faultless { OnOk result (connection_write_faults self.new ≡ connection_write_faults self.old) }
        ensures none { IsNone (connection self.old) → IsErr result }
    {
        if let Some(stream) = &mut self.stream {
            if write_whole(stream, piece).is_ok() {
                return Ok(());
            }
        }
        self.write_faults = self.write_faults.saturating_add(1);
        Err(Failed)
    }

    /// Ends the writing side, then reads and drops what the other end still sends, up to 1 MiB and for up to 2 seconds, and lets the
    /// connection go. So the other end reads all that was written to it, where it ends its side or stops sending within these limits: the
    /// machine would reset a connection that is let go with bytes unread. Each later read and write fails and counts.
    fn close(&mut self)
        ensures bytes { TellsNothing × TellsNothing }
        ensures counts { (connection_read_faults self.new ≡ connection_read_faults self.old) × (connection_write_faults self.new ≡ connection_write_faults self.old) }
        ensures firm { false ≡ false }
        ensures closed { IsNone (connection self.new) }
    {
        if let Some(mut stream) = self.stream.take() {
            if stream.shutdown(Shutdown::Write).is_ok() {
                let _ = drain(&mut stream, self.rt);
            }
        }
    }
}
