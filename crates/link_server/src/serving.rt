// A link is served.
ghost use Rattle.std.specs.Prelude.{◌≡◌, true};
ghost use Rattle.turn_hall.specs.Handles.{IsPassOf, view, first_of};
ghost use Rattle.link_loop.specs.Served.{link_view};
ghost use Rattle.link_server.specs.Serving.{ServesLink, IsFirmEnd};

use crate::front::ArchiveFront;
use archive::Archive;
use conn::no_bytes;
use cta_model::Told;
use cta_site::ValidSite;
use link_loop::{Unserved, serve};
use outside::{Clock, Link, LinkEnd};
use std::alloc::Global;
use std::sync::Wait;
use tape_routes::Routes;
use turn_hall::{Hall, Keeps, Pass};

/// Why a link was not served to its end.
#[derive(Clone, Copy, Debug, PartialEq, Eq)]
pub enum LinkFault {
    /// A read failed.
    Read,
    /// A write failed.
    Write,
    /// Memory ran out.
    NoMemory,
}

/// Serves a link: its bytes are read as requests, each that asks something of the archive does so in a turn of its own, and the replies
/// are written in the order of the requests. A request whose call finds no memory is replied to with 500, and the link goes on.
///
/// It ends where the link gives its end (`Ended`), behind a request that closes the connection or a refusal of its bytes (`Closed`), or
/// once 2^40 bytes were taken (`Spent`). A fault of the link ends it (`Read`, `Write`), and so does running out of memory outside a call
/// (`NoMemory`); `ServesLink` says what was asked and written then. The link is not closed.
///
/// It takes the memory of the routes and one buffer of 65,536 bytes, and beside them that of a `Conn`, of a reply's head and of a body
/// of at most 16,384 bytes: the bytes of a longer file are not copied. It waits for turns of the hall.
pub fn serve_link<M: Told + Drop, L: Link, C: Clock, R: Wait>(
    rt: &R,
    alloc: Global,
    hall: &Hall<Archive<M>>,
    pass: &mut Pass<Archive<M>>,
    site: &ValidSite,
    link: &mut L,
    clock: &mut C,
) -> Result<LinkEnd, LinkFault>
    requires here { IsPassOf ⟦<Archive<M> as Keeps>⟧.site hall.now pass.old }
    requires site { site.now ≡ (first_of hall.now).site }
    ensures here { IsPassOf ⟦<Archive<M> as Keeps>⟧.site hall.now pass.new }
    ensures seats { pass.new.seats ≡ pass.old.seats }
    ensures served { ServesLink M.told result site.now (view pass.old) (view pass.new)
        (link_view (L.left link.old) (L.written link.old) (L.read_faults link.old) (L.write_faults link.old)) (link_view (L.left link.new) (L.written link.new) (L.read_faults link.new) (L.write_faults link.new)) }
    ensures firm { (L.firm link.new ≡ L.firm link.old) × (L.firm link.old ≡ true → IsFirmEnd result) }
{
    no_bytes();
    let routes = match Routes::new(alloc) {
        Ok(routes) => routes,
        Err(_) => return Err(LinkFault::NoMemory),
    };
    let front = ArchiveFront { site };
    match serve(
        rt,
        alloc,
        hall,
        pass,
        &front,
        &routes,
        site.limits().file,
        link,
        clock,
    ) {
        Ok(end) => Ok(end),
        Err(Unserved::Read) => Err(LinkFault::Read),
        Err(Unserved::Write) => Err(LinkFault::Write),
        Err(Unserved::NoMemory) => Err(LinkFault::NoMemory),
        Err(Unserved::Stopped(_)) => unreachable!(),
    }
}
