// The server over the archive of a site.
ghost use Rattle.std.specs.Prelude.{◌≡◌, ◌≤◌, ◌+◌, ◌↔◌, All, Bool, IfSome, IsSome, map, [], false, length};
ghost use Rattle.archive_opening.specs.Made.{AreNewDrives};
ghost use Rattle.archive_opening.specs.declared.status.Status.TheVariants as status;
ghost use Rattle.turn_hall.specs.Handles.{IsPassOf, first_of, seats_in, view};
ghost use Rattle.site_server.specs.Serving.{EndsServing, IsServed, site_kept};

use crate::laws::sessions_ask_apart;
use archive::Archive;
use archive_opening::Status;
use cta_model::Told;
use cta_site::ValidSite;
use drive_server::ArchiveDrives;
use link_server::ArchiveFront;
use media::TapeDrive;
use outside::{Clock, Failed, Gate, Link, Listener};
use server_crew::serve_hall;
use std::alloc::Global;
use std::mem;
use std::sync::Wait;
use std::thread::Threads;
use turn_hall::{Hall, Pass};

/// What a server leaves: the hall with its archive, and the pass of all threads. It is not let go by itself: `Hall::close` takes both, and gives the
/// archive.
pub struct Served<M: Told + Drop> {
    /// The hall, of which every other pass has ended.
    pub hall: Hall<Archive<M>>,
    /// The pass with all seats, which has made the calls of all threads.
    pub pass: Pass<Archive<M>>,
    /// How many links were not served to an end or to a fault of their own, since memory ran out.
    pub wanted: u64,
}

// The threads of a server, over a hall whose pass holds all seats.
fn serve_over<
    R: Threads + Wait + Sync,
    M: Told + Send + Drop,
    D: TapeDrive<Medium = M> + Send + Drop,
    K: Link + Send + Drop,
    L: Listener<L = K> + Send,
    C: Clock + Copy + Send + Sync + Drop,
    G: Gate + Sync,
>(
    rt: &R,
    alloc: Global,
    hall: Hall<Archive<M>>,
    pass: Pass<Archive<M>>,
    site: &ValidSite,
    drives: Vec<D>,
    workers: u32,
    listener: &mut L,
    clock: C,
    gate: &G,
) -> (Status, Option<Served<M>>)
    requires here { IsPassOf site_kept hall pass × (pass.seats ≡ seats_in hall) }
    requires new { (view pass).mine ≡ [] }
    requires site { site.now ≡ (first_of hall).site }
    requires workers { (workers ≤ 64) × (pass.seats ≡ length drives.items + workers + 2) }
    requires drives { (length drives.items ≤ 64) × (length drives.items ≡ length site.now.drives.items) × All (λ d. (D.seen d).loaded ≡ false) drives.items }
    ensures cause { EndsServing result.0 (L.faults listener.old) (L.faults listener.new) (L.ended listener.new) }
    ensures given { IsSome result.1 ↔ result.0 ≡ status.Ok }
    ensures served { IfSome result.1 (λ s. IsServed K.left K.firm (L.left listener.old) s.hall s.pass s.wanted) }
    ensures first { IfSome result.1 (λ s. first_of s.hall ≡ first_of hall) }
{
    sessions_ask_apart::<M>();
    let ended = serve_hall::<R, Archive<M>, M, D, ArchiveFront<'_>, ArchiveDrives, K, L, C, G>(
        rt,
        alloc,
        &hall,
        pass,
        &ArchiveFront::new(site),
        &ArchiveDrives,
        site.limits().file,
        drives,
        workers,
        listener,
        clock,
        gate,
    );
    match ended {
        Ok(served) => match served.accepted {
            Ok(()) => {
                let wanted = served.unserved;
                let pass = served.pass;
                (Status::Ok, Some(Served { hall, pass, wanted }))
            }
            Err(Failed) => {
                hall.close(served.pass).let_go();
                (Status::ListenFault, None)
            }
        },
        // The passes are lost with the threads, so the hall can't be closed, and its memory stays taken until the process ends.
        Err(_) => {
            mem::forget(hall);
            (Status::NoMemory, None)
        }
    }
}

/// Serves an archive: a hall is made over it, with a pass for each thread.
pub(crate) fn serve_archive<
    R: Threads + Wait + Sync,
    M: Told + Send + Drop,
    D: TapeDrive<Medium = M> + Send + Drop,
    K: Link + Send + Drop,
    L: Listener<L = K> + Send,
    C: Clock + Copy + Send + Sync + Drop,
    G: Gate + Sync,
>(
    rt: &R,
    alloc: Global,
    archive: Archive<M>,
    site: &ValidSite,
    drives: Vec<D>,
    workers: u32,
    listener: &mut L,
    clock: C,
    gate: &G,
) -> (Status, Option<Served<M>>)
    requires site { site.now ≡ archive.site }
    requires workers { workers ≤ 64 }
    requires drives { (tells : Bool) × AreNewDrives tells site.now (map D.seen drives.items) }
    ensures cause { EndsServing result.0 (L.faults listener.old) (L.faults listener.new) (L.ended listener.new) }
    ensures given { IsSome result.1 ↔ result.0 ≡ status.Ok }
    ensures served { IfSome result.1 (λ s. IsServed K.left K.firm (L.left listener.old) s.hall s.pass s.wanted) }
    ensures first { IfSome result.1 (λ s. first_of s.hall ≡ archive) }
{
    site.keeps_rules();
    let seats = drives.len() as u32 + workers + 2;
    match Hall::new(alloc, archive, seats) {
        Ok((hall, pass)) => serve_over(
            rt, alloc, hall, pass, site, drives, workers, listener, clock, gate,
        ),
        Err((_, archive)) => {
            archive.let_go();
            (Status::NoMemory, None)
        }
    }
}
