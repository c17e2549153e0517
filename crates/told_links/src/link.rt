// A link in memory with the replies that it is to get.
ghost use Rattle.std.specs.Prelude.{◌≡◌};

use crate::tally::Tally;
use outside::{Failed, Link, MemLink};
use std::alloc::{AllocError, Global};

/// A link that tells a tally, when it is closed, what it was sent.
#[derive(Drop)]
pub struct ToldLink<'a> {
    link: MemLink,
    due: &'static str,
    tally: &'a Tally,
}

/// A link with these messages, which is to be sent `due` and nothing else.
pub fn link_of<'a>(
    alloc: Global,
    messages: &[&str],
    due: &'static str,
    tally: &'a Tally,
) -> Result<ToldLink<'a>, AllocError> {
    let mut bytes = Vec::new(alloc);
    for message in messages {
        bytes.extend_from_slice(message.as_bytes())?;
    }
    let link = MemLink::new(alloc, bytes, Vec::new(alloc), Vec::new(alloc));
    Ok(ToldLink { link, due, tally })
}

impl Link for ToldLink<'_> {
    ghost use Rattle.std.specs.Prelude.{None, false};
    ghost use Rattle.outside.specs.Links.{link_read_faults, link_write_faults};

    ghost left = { λ _. None };

    ghost written = { λ _. None };

    ghost read_faults = { λ l. link_read_faults l.link };

    ghost write_faults = { λ l. link_write_faults l.link };

    ghost firm = { λ _. false };

    fn read(&mut self, to: &mut [u8]) -> Result<usize, Failed> {
        self.link.read(to)
    }

    fn write_all_of(&mut self, piece: &[u8]) -> Result<(), Failed> {
        self.link.write_all_of(piece)
    }

    fn close(&mut self) {
        self.link.close();
        let sent = self.link.written().unwrap_or(&[]);
        self.tally.count(self.due.as_bytes(), sent);
    }
}
