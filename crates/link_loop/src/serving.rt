// A link is served.
ghost use Rattle.std.specs.Prelude.{◌≡◌, true, ◌≤◌, ◌<◌, length};
ghost use Rattle.turn_hall.specs.Handles.{IsPassOf, view, first_of};
ghost use Rattle.link_loop.specs.Served.{Served, IsFirmEnd, link_view, piece};

use crate::answering::{Pause, answer_all};
use crate::front::Front;
use crate::sending::Unserved;
use conn::{Conn, no_bytes};
use outside::{Clock, Link, LinkEnd};
use std::alloc::Global;
use std::sync::Wait;
use turn_hall::{Hall, Keeps, Pass};

// The most bytes that are taken of one link.
const BUDGET: u64 = 1 << 40;

// The most bytes that are taken of a link at once.
const PIECE: usize = 65_536;

// Serves a link through a buffer. Room is made before a piece is taken, so that what was taken can be fed.
fn serve_with<T: Keeps, F: Front<T>, L: Link, C: Clock, R: Wait>(
    rt: &R,
    alloc: Global,
    hall: &Hall<T>,
    pass: &mut Pass<T>,
    front: &F,
    tools: &F::Tools,
    file_limit: u64,
    link: &mut L,
    clock: &mut C,
    buffer: &mut [u8],
) -> Result<LinkEnd, Unserved<F::Cause>>
    requires here { IsPassOf T.site hall.now pass.old }
    requires site { F.site front.now ≡ T.site (first_of hall.now) }
    requires buffer { (0 < length buffer.old) × (length buffer.old ≤ piece) }
    ensures here { IsPassOf T.site hall.now pass.new }
    ensures seats { pass.new.seats ≡ pass.old.seats }
    ensures served { Served F.question (F.needs (F.site front.now)) (F.says (F.site front.now)) (T.legal (F.site front.now)) (T.plays (F.site front.now)) result file_limit (view pass.old) (view pass.new)
        (link_view (L.left link.old) (L.written link.old) (L.read_faults link.old) (L.write_faults link.old)) (link_view (L.left link.new) (L.written link.new) (L.read_faults link.new) (L.write_faults link.new)) }
    ensures firm { (L.firm link.new ≡ L.firm link.old) × (L.firm link.old ≡ true → IsFirmEnd result) }
{
    let mut conn = Conn::new(alloc, file_limit);
    let mut taken = 0u64;
    'pieces: loop {
        match answer_all(
            rt, alloc, hall, pass, front, tools, link, clock, &mut conn, buffer,
        )? {
            Pause::Waits => {}
            Pause::Over => return Ok(LinkEnd::Closed),
        }
        if taken == BUDGET {
            return Ok(LinkEnd::Spent);
        }
        let most = buffer.len().min((BUDGET - taken) as usize);
        if conn.reserve(most).is_err() {
            conn.has_completion();
            return Err(Unserved::NoMemory);
        }
        let count = match link.read(&mut buffer[..most]) {
            Ok(count) => count,
            Err(_) => return Err(Unserved::Read),
        };
        if count == 0 {
            return Ok(LinkEnd::Ended);
        }
        if conn.feed(&buffer[..count]).is_err() {
            unreachable!()
        }
        taken += count as u64;
    }
}

/// Serves a link: its bytes are read as requests, each that needs a call makes it in a turn of its own, and the replies are written in
/// the order of the requests, each behind the 100 Continue that it waits for.
///
/// It ends where the link gives its end (`Ended`), behind a request that closes the connection or a refusal (`Closed`), or once 2^40
/// bytes were taken (`Spent`). Everything that the bytes complete was answered then, and so it was where a read failed. Where a write
/// failed, all but the last reply were written, and a front of it. Where memory ran out (also for the buffer), all replies were
/// written, or all but the last. Where a call said that the link isn't served on (`Stopped`), all before it were.
///
/// `tools` are those of the front. It takes one buffer of 65,536 bytes, and beside it what `Conn`, the front, a head and a body of at most 16,384 bytes take. A longer
/// body is written behind its head: that of a file by pieces through the buffer. It waits for turns of the hall.
pub fn serve<T: Keeps, F: Front<T>, L: Link, C: Clock, R: Wait>(
    rt: &R,
    alloc: Global,
    hall: &Hall<T>,
    pass: &mut Pass<T>,
    front: &F,
    tools: &F::Tools,
    file_limit: u64,
    link: &mut L,
    clock: &mut C,
) -> Result<LinkEnd, Unserved<F::Cause>>
    requires here { IsPassOf T.site hall.now pass.old }
    requires site { F.site front.now ≡ T.site (first_of hall.now) }
    ensures here { IsPassOf T.site hall.now pass.new }
    ensures seats { pass.new.seats ≡ pass.old.seats }
    ensures served { Served F.question (F.needs (F.site front.now)) (F.says (F.site front.now)) (T.legal (F.site front.now)) (T.plays (F.site front.now)) result file_limit (view pass.old) (view pass.new)
        (link_view (L.left link.old) (L.written link.old) (L.read_faults link.old) (L.write_faults link.old)) (link_view (L.left link.new) (L.written link.new) (L.read_faults link.new) (L.write_faults link.new)) }
    ensures firm { (L.firm link.new ≡ L.firm link.old) × (L.firm link.old ≡ true → IsFirmEnd result) }
{
    no_bytes();
    match vec![in alloc; 0u8; PIECE] {
        Ok(mut buffer) => serve_with(
            rt,
            alloc,
            hall,
            pass,
            front,
            tools,
            file_limit,
            link,
            clock,
            &mut buffer,
        ),
        Err(_) => Err(Unserved::NoMemory),
    }
}
