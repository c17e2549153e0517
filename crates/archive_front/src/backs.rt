// What comes back, as replies.
ghost use Rattle.std.specs.Prelude.{◌≡◌, IfOk};
ghost use Rattle.archive_front.specs.Hands.{content_in};
ghost use Rattle.archive_front.specs.Backs.{IsForCallers, back_reply, found_no_memory, no_memory_reply};

use archive_turns::{ArchiveBack, Hand};
use blob::Blob;
use cta_model::Told;
use cta_site::{NoMemory, ValidSite};
use std::alloc::Global;
use std::sync::Arc;
use tape_routes::reply_of;
use wire_http::{Reply, error_reply};

// The content that a hand has.
fn content_in<M: Told + Drop>(hand: Hand<M>) -> Option<Arc<Blob>>
    ensures { result ≡ content_in hand }
{
    match hand {
        Hand::Blob(blob) => Some(blob),
        _ => None,
    }
}

/// Whether the call found no memory: then it changed nothing. It takes no memory and constant time.
pub fn found_no_memory<M>(back: &ArchiveBack<M>) -> bool
    ensures { result ≡ found_no_memory back.now }
{
    match back {
        ArchiveBack::Ask(Ok(_)) => false,
        ArchiveBack::Ask(Err(_)) => true,
        ArchiveBack::Look(Ok(_)) => false,
        ArchiveBack::Look(Err(_)) => true,
    }
}

// The reply to a call that found no memory.
fn no_memory_reply(alloc: Global, close: bool) -> Result<Reply, NoMemory>
    ensures { IfOk result (λ reply. reply ≡ no_memory_reply close) }
{
    error_reply(alloc, 500, "no memory", close)
}

/// The reply to what came back from a caller's call: that of `reply_of` to its answer, and 500 `no memory` where the call found no
/// memory (this project's own). It says that the connection closes where `close` does. NoMemory drops what came back. Its cost
/// is that of `reply_of`: the bytes of a file are not copied.
pub fn reply_to_back<M: Told + Drop>(
    alloc: Global,
    site: &ValidSite,
    back: ArchiveBack<M>,
    close: bool,
) -> Result<Reply, NoMemory>
    requires { IsForCallers back }
    ensures { IfOk result (λ reply. reply ≡ back_reply site.now back close) }
{
    match back {
        ArchiveBack::Ask(Ok((answer, _))) => reply_of(alloc, site, &answer, None, close),
        ArchiveBack::Ask(Err(_)) => no_memory_reply(alloc, close),
        ArchiveBack::Look(Ok((answer, hand))) => {
            reply_of(alloc, site, &answer, content_in(hand), close)
        }
        ArchiveBack::Look(Err(_)) => no_memory_reply(alloc, close),
    }
}
