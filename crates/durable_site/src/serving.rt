// The server over the archive of a site with its journal.
ghost use Rattle.std.specs.Prelude.{◌≡◌, ◌≤◌, ◌+◌, All, Bool, IfSome, IsSome, List, ℕ, Some, None, [], false, length, map};
ghost use Rattle.archive_opening.specs.Made.{AreNewDrives};
ghost use Rattle.archive_opening.specs.declared.status.Status.TheVariants as status;
ghost use Rattle.cta_journal.specs.Standing.{StandsFor, disk_of};
ghost use Rattle.turn_hall.specs.Handles.{IsPassOf, first_of, seats_in, view};
ghost use Rattle.durable_site.specs.Ending.{EndsServing, KeepsSome};

use crate::ending::ended;
use archive_opening::Status;
use cta_journal::Disk;
use cta_model::Told;
use cta_site::ValidSite;
use durable_archive::Logged;
use durable_server::{Alarm, LoggedDrives, LoggedFront};
use media::TapeDrive;
use outside::{Clock, Gate, Link, Listener};
use server_crew::serve_hall;
use site_server::sessions_ask_apart;
use std::alloc::Global;
use std::mem;
use std::sync::Wait;
use std::thread::Threads;
use turn_hall::{Hall, Keeps, Pass};

// The threads of a server, over a hall whose pass holds all seats.
fn serve_over<
    R: Threads + Wait + Sync,
    M: Told + Send + Drop,
    D: TapeDrive<Medium = M> + Send + Drop,
    J: Disk + Send + Drop,
    K: Link + Send + Drop,
    L: Listener<L = K> + Send,
    C: Clock + Copy + Send + Sync + Drop,
    G: Gate + Sync,
    N: Alarm + Sync,
>(
    rt: &R,
    alloc: Global,
    hall: Hall<Logged<M, J>>,
    pass: Pass<Logged<M, J>>,
    site: &ValidSite,
    drives: Vec<D>,
    workers: u32,
    listener: &mut L,
    clock: C,
    gate: &G,
    alarm: &N,
) -> (Status, Option<J>)
    requires here { IsPassOf ⟦<Logged<M, J> as Keeps>⟧.site hall pass × (pass.seats ≡ seats_in hall) }
    requires new { (view pass).mine ≡ [] }
    requires site { site.now ≡ (first_of hall).archive.site }
    requires workers { (workers ≤ 64) × (pass.seats ≡ length drives.items + workers + 2) }
    requires drives { (length drives.items ≤ 64) × (length drives.items ≡ length site.now.drives.items) × All (λ d. (D.seen d).loaded ≡ false) drives.items }
    ensures cause { EndsServing J.fault_count result.0 result.1 (J.fault_count (disk_of (first_of hall).first)) (L.faults listener.old) (L.faults listener.new) (L.ended listener.new) }
    ensures log { (begun : List (List ℕ)) → result.0 ≡ status.Ok → StandsFor J.content J.may_leave (first_of hall).first begun → IfSome result.1 (λ k. KeepsSome J.content (first_of hall).archive.site begun k) }
{
    sessions_ask_apart::<M>();
    let front = LoggedFront::new(site, &hall, alarm);
    let served = serve_hall::<
        R,
        Logged<M, J>,
        M,
        D,
        LoggedFront<'_, M, J, N>,
        LoggedDrives<'_, N>,
        K,
        L,
        C,
        G,
    >(
        rt,
        alloc,
        &hall,
        pass,
        &front,
        &LoggedDrives::new(alarm),
        site.limits().file,
        drives,
        workers,
        listener,
        clock,
        gate,
    );
    match served {
        Ok(served) => {
            let (status, disk) = ended(hall.close(served.pass), served.accepted);
            (status, Some(disk))
        }
        // The passes are lost with the threads, so the hall can't be closed, and its memory and the journal's lock stay taken until the
        // process ends.
        Err(_) => {
            mem::forget(hall);
            (Status::NoMemory, None)
        }
    }
}

/// Serves an archive with its journal: a hall is made over it, with a pass for each thread.
pub(crate) fn serve_logged<
    R: Threads + Wait + Sync,
    M: Told + Send + Drop,
    D: TapeDrive<Medium = M> + Send + Drop,
    J: Disk + Send + Drop,
    K: Link + Send + Drop,
    L: Listener<L = K> + Send,
    C: Clock + Copy + Send + Sync + Drop,
    G: Gate + Sync,
    N: Alarm + Sync,
>(
    rt: &R,
    alloc: Global,
    logged: Logged<M, J>,
    site: &ValidSite,
    drives: Vec<D>,
    workers: u32,
    listener: &mut L,
    clock: C,
    gate: &G,
    alarm: &N,
) -> (Status, Option<J>)
    requires site { site.now ≡ logged.archive.site }
    requires workers { workers ≤ 64 }
    requires drives { (tells : Bool) × AreNewDrives tells site.now (map D.seen drives.items) }
    ensures cause { EndsServing J.fault_count result.0 result.1 (J.fault_count (disk_of logged.first)) (L.faults listener.old) (L.faults listener.new) (L.ended listener.new) }
    ensures log { (begun : List (List ℕ)) → result.0 ≡ status.Ok → StandsFor J.content J.may_leave logged.first begun → IfSome result.1 (λ k. KeepsSome J.content logged.archive.site begun k) }
{
    site.keeps_rules();
    let seats = drives.len() as u32 + workers + 2;
    match Hall::new(alloc, logged, seats) {
        Ok((hall, pass)) => serve_over(
            rt, alloc, hall, pass, site, drives, workers, listener, clock, gate, alarm,
        ),
        Err((_, logged)) => (Status::NoMemory, Some(logged.end())),
    }
}
