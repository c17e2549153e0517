// The hall of a mill's archive, from its making to its end.
ghost use Rattle.std.specs.Prelude.{◌≡◌, ◌≤◌, ◌<◌, Bool, IfOk, IfSome, map};
ghost use Rattle.archive_opening.specs.Made.{AreNewDrives};
ghost use Rattle.load_mill.specs.Sites.{mill_site};
ghost use Rattle.mill_crew.specs.Contents.{AreFetched, file_sums};
ghost use Rattle.turn_hall.specs.Handles.{IsPassOf, first_of, seats_in};
ghost use Rattle.mill.specs.Milled.{IsMilled};

use crate::closed::read_closed;
use crate::front::ArchiveMill;
use archive::Archive;
use archive_opening::{drives_of, open_archive};
use cta_model::{NoMemory, Told};
use drive_server::ArchiveDrives;
use load_mill::mill_site;
use media::{Bench, TapeDrive};
use mill_crew::{Load, Ran, run_phases};
use mill_history::Tally;
use outside::Gate;
use std::alloc::Global;
use std::hash::RandomState;
use std::mem;
use std::sync::Wait;
use std::thread::Threads;
use turn_hall::{Hall, Keeps, Pass};

// A mill that was run to its end.
pub(crate) struct Milled<M: Told + Drop> {
    // The archive of the closed hall.
    pub(crate) archive: Archive<M>,
    // What its history tells.
    pub(crate) tally: Tally,
    // The total of the bytes of what was fetched.
    pub(crate) total: u64,
}

// The archive of a mill, which has kept nothing yet, and its drives.
fn archive_of<M: Told + Drop, D: TapeDrive<Medium = M> + Drop, B: Bench<D>>(
    alloc: Global,
    bench: &mut B,
    keys: RandomState,
) -> Result<(Archive<M>, Vec<D>), NoMemory>
    ensures site { IfOk result (λ r. r.0.site ≡ mill_site) }
    ensures drives { IfOk result (λ r. AreNewDrives (B.tells bench.old) mill_site (map D.seen r.1.items)) }
{
    let site = mill_site(alloc)?;
    let drives = drives_of(alloc, &site, bench)?;
    let archive = open_archive(alloc, site, bench, keys)?;
    Ok((archive, drives))
}

// The archive of a hall with so many seats, where the pass holds all of them.
fn closed<M: Told + Drop>(
    hall: Hall<Archive<M>>,
    pass: Pass<Archive<M>>,
    seats: u32,
) -> Option<Archive<M>>
    requires here { IsPassOf ⟦<Archive<M> as Keeps>⟧.site hall pass }
    requires seats { seats_in hall ≡ seats }
    ensures { IfSome result (λ a. a.site ≡ (first_of hall).site) }
{
    if pass.seats() == seats {
        Some(hall.close(pass))
    } else {
        mem::forget(hall);
        None
    }
}

// Reads the closed archive after a run.
fn read_run<M: Told + Drop>(
    alloc: Global,
    load: Load,
    archive: Archive<M>,
    ran: Ran,
) -> Result<Milled<M>, NoMemory>
    requires few { load.files ≤ 10000 }
    requires sums { ran.sums.items ≡ file_sums load.seed 0 load.files }
    requires fetched { AreFetched (file_sums load.seed 0 load.files) ran.total }
    ensures same { IfOk result (λ m. m.archive ≡ archive) }
    ensures milled { IfOk result (λ m. IsMilled archive.site archive.history (file_sums load.seed 0 load.files) m.tally.archived m.tally.recalled) }
    ensures fetched { IfOk result (λ m. AreFetched (file_sums load.seed 0 load.files) m.total) }
{
    let _load = load;
    match read_closed(alloc, &archive, &ran.sums) {
        Ok(Some(tally)) => Ok(Milled {
            archive,
            tally,
            total: ran.total,
        }),
        _ => {
            archive.let_go();
            Err(NoMemory)
        }
    }
}

// Runs a mill over a hall whose pass holds all of its seats.
fn mill_hall<
    R: Threads + Wait + Sync,
    M: Told + Send + Drop,
    D: TapeDrive<Medium = M> + Send + Drop,
    G: Gate + Sync,
>(
    rt: &R,
    alloc: Global,
    hall: Hall<Archive<M>>,
    pass: Pass<Archive<M>>,
    seats: u32,
    drives: Vec<D>,
    gate: &G,
    load: Load,
) -> Result<Milled<M>, NoMemory>
    requires here { IsPassOf ⟦<Archive<M> as Keeps>⟧.site hall pass }
    requires seats { seats_in hall ≡ seats }
    requires site { (first_of hall).site ≡ mill_site }
    requires few { (load.files ≤ 10000) × (load.workers ≤ 64) }
    requires drives { (tells : Bool) × AreNewDrives tells mill_site (map D.seen drives.items) }
    ensures site { IfOk result (λ m. m.archive.site ≡ mill_site) }
    ensures milled { IfOk result (λ m. IsMilled m.archive.site m.archive.history (file_sums load.seed 0 load.files) m.tally.archived m.tally.recalled) }
    ensures fetched { IfOk result (λ m. AreFetched (file_sums load.seed 0 load.files) m.total) }
{
    let mut pass = pass;
    let front = ArchiveMill { alloc };
    let ended = run_phases::<R, Archive<M>, M, D, ArchiveMill, ArchiveDrives, G>(
        rt,
        alloc,
        &hall,
        &mut pass,
        &front,
        &ArchiveDrives,
        drives,
        gate,
        load,
    );
    match ended {
        Ok(ran) => match closed(hall, pass, seats) {
            Some(archive) => read_run(alloc, load, archive, ran),
            None => Err(NoMemory),
        },
        // Passes may be lost, so the hall can't be closed, and its memory stays taken until the process ends.
        Err(_) => {
            mem::forget(hall);
            Err(NoMemory)
        }
    }
}

// Runs a mill over an archive of its own, with media and drives that a bench makes.
pub(crate) fn mill_archive<
    R: Threads + Wait + Sync,
    M: Told + Send + Drop,
    D: TapeDrive<Medium = M> + Send + Drop,
    B: Bench<D>,
    G: Gate + Sync,
>(
    rt: &R,
    alloc: Global,
    bench: &mut B,
    gate: &G,
    keys: RandomState,
    load: Load,
) -> Result<Milled<M>, NoMemory>
    requires few { (load.files ≤ 10000) × (load.workers ≤ 64) }
    ensures site { IfOk result (λ m. m.archive.site ≡ mill_site) }
    ensures milled { IfOk result (λ m. IsMilled m.archive.site m.archive.history (file_sums load.seed 0 load.files) m.tally.archived m.tally.recalled) }
    ensures fetched { IfOk result (λ m. AreFetched (file_sums load.seed 0 load.files) m.total) }
{
    let (archive, drives) = archive_of::<M, D, B>(alloc, bench, keys)?;
    // Half of the seats stays with the thread that starts the others, and each of these has one of the other half.
    let seats = (drives.len() as u32 + load.workers) * 2;
    match Hall::new(alloc, archive, seats) {
        Ok((hall, pass)) => mill_hall(rt, alloc, hall, pass, seats, drives, gate, load),
        Err((_, archive)) => {
            archive.let_go();
            Err(NoMemory)
        }
    }
}
