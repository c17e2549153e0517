// A link is served over the hall of an archive with a journal.
ghost use Rattle.std.specs.Prelude.{◌≡◌, true};
ghost use Rattle.turn_hall.specs.Handles.{IsPassOf, view, first_of};
ghost use Rattle.link_loop.specs.Served.{link_view};
ghost use Rattle.durable_server.specs.Serving.{ServesLink, IsFirmEnd};

use crate::alarm::NoAlarm;
use crate::front::LoggedFront;
use conn::no_bytes;
use cta_journal::Disk;
use cta_model::Told;
use cta_site::ValidSite;
use durable_archive::{CloseCause, Logged};
use link_loop::{Unserved, serve};
use outside::{Clock, Link, LinkEnd};
use std::alloc::Global;
use std::sync::Wait;
use tape_routes::Routes;
use turn_hall::{Hall, Keeps, Pass};

/// Why a link was not served to its end.
#[derive(Clone, Copy, Debug, PartialEq, Eq)]
pub enum DurableFault {
    /// A read failed.
    Read,
    /// A write failed.
    Write,
    /// Memory ran out.
    NoMemory,
    /// The journal is closed for this cause, and the request that found it so has no reply.
    Closed { cause: CloseCause },
}

/// Serves a link, as `serve_link` does, over the hall of an archive with a journal: a reply is written once the entry of its call is in
/// the journal. `Closed` comes exactly where this link's own turn gave it, with that turn's cause; no reply to that request is written.
/// The other ends, and what the call takes, are those of `serve_link`.
pub fn durable_link<M: Told + Drop, K: Disk, L: Link, C: Clock, R: Wait>(
    rt: &R,
    alloc: Global,
    hall: &Hall<Logged<M, K>>,
    pass: &mut Pass<Logged<M, K>>,
    site: &ValidSite,
    link: &mut L,
    clock: &mut C,
) -> Result<LinkEnd, DurableFault>
    requires here { IsPassOf ⟦<Logged<M, K> as Keeps>⟧.site hall.now pass.old }
    requires site { site.now ≡ (first_of hall.now).archive.site }
    ensures here { IsPassOf ⟦<Logged<M, K> as Keeps>⟧.site hall.now pass.new }
    ensures seats { pass.new.seats ≡ pass.old.seats }
    ensures served { ServesLink M.told result (⟦<Logged<M, K> as Keeps>⟧.site (first_of hall.now)) (view pass.old) (view pass.new)
        (link_view (L.left link.old) (L.written link.old) (L.read_faults link.old) (L.write_faults link.old)) (link_view (L.left link.new) (L.written link.new) (L.read_faults link.new) (L.write_faults link.new)) }
    ensures firm { (L.firm link.new ≡ L.firm link.old) × (L.firm link.old ≡ true → IsFirmEnd result) }
{
    no_bytes();
    let routes = match Routes::new(alloc) {
        Ok(routes) => routes,
        Err(_) => return Err(DurableFault::NoMemory),
    };
    let front = LoggedFront::new(site, hall, &NoAlarm);
    match serve(
        rt,
        alloc,
        hall,
        pass,
        &front,
        &routes,
        site.limits().file,
        link,
        clock,
    ) {
        Ok(end) => Ok(end),
        Err(Unserved::Read) => Err(DurableFault::Read),
        Err(Unserved::Write) => Err(DurableFault::Write),
        Err(Unserved::NoMemory) => Err(DurableFault::NoMemory),
        Err(Unserved::Stopped(cause)) => Err(DurableFault::Closed { cause }),
    }
}
