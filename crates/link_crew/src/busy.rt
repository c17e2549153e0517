// Links for which there is no room.
ghost use Rattle.std.specs.Prelude.{◌≡◌, ◌<◌, codes, true};
ghost use Rattle.crossbeam_queue.specs.Passes.{view, IsPassOf};
ghost use Rattle.outside.specs.Streams.{StillAppends};
ghost use Rattle.wire_http.specs.Reply.{error_reply, reply_text};
ghost use Rattle.link_crew.specs.Seats.{IsSeatOf};

use link_pool::{Pool, PoolPass};
use outside::{Gate, Link};
use std::alloc::Global;
use std::sync::Wait;
use wire_http::{error_reply, write_reply};

/// Writes the reply of a server that has no room to a link: 503 with `busy`, which says that the connection closes (RFC 9110, 15.6.4). Whether it
/// was written: it isn't where the link's write fails, or where memory runs out, and then nothing of it was written. The link is not closed.
pub fn say_busy<L: Link>(alloc: Global, link: &mut L) -> bool
    ensures { result ≡ true → StillAppends (L.written link.old) (L.written link.new) (reply_text (error_reply 503 (codes "busy") true)) }
{
    let Ok(reply) = error_reply(alloc, 503, "busy", true) else {
        return false;
    };
    let Ok(text) = write_reply(alloc, &reply) else {
        return false;
    };
    link.write_all_of(&text).is_ok()
}

// Says so to a link and closes it.
fn refuse<L: Link + Drop>(alloc: Global, link: L) {
    let mut link = link;
    say_busy(alloc, &mut link);
    link.close();
}

/// The worker of links for which there was no room: it takes them from their pool, says so to each and closes it, until the gate tells it to
/// stop. It gives its seat back. It waits at the gate and for links, and takes the memory of one reply at a time.
pub fn work_busy<L: Link + Drop, G: Gate, R: Wait>(
    rt: &R,
    alloc: Global,
    full: &Pool<L>,
    gate: &G,
    number: u32,
    seat: PoolPass<L>,
) -> PoolPass<L>
    requires { IsSeatOf full.now.queue seat }
    ensures { IsSeatOf full.now.queue result }
{
    let mut seat = seat;
    let mut idle = false;
    for _ in rt.forever() {
        if !gate.pass(number, idle) {
            break;
        }
        match full.take(rt, &mut seat) {
            Some(link) => {
                idle = false;
                refuse(alloc, link);
            }
            None => idle = true,
        }
    }
    seat
}

/// Says that the server is busy to each link that the pool still holds, and closes it. It waits for links, and takes the memory of one reply at
/// a time.
pub fn refuse_rest<L: Link + Drop, R: Wait>(
    rt: &R,
    alloc: Global,
    full: &Pool<L>,
    seat: &mut PoolPass<L>,
)
    requires { IsPassOf full.now.queue seat.old × (0 < (view seat.old).parts) }
    ensures { IsPassOf full.now.queue seat.new }
{
    for _ in rt.forever() {
        match full.take(rt, seat) {
            Some(link) => refuse(alloc, link),
            None => return,
        }
    }
    unreachable!()
}
