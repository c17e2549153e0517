// The run of `cta durable`.
ghost use Rattle.std.specs.Prelude.{Bool, List, Option, drop, map, string_bytes, ℕ};
ghost use Rattle.archive_opening.specs.Seen.{source_view};
ghost use Rattle.cta_main.specs.Exit.{IsNumberOf};
ghost use Rattle.durable_opening.specs.Closing.{TellNoRecords};
ghost use Rattle.durable_site.specs.Top.{Ends};

use crate::media_folder::ResumingBench;
use crate::report::end_with;
use crate::serve::{PAUSE, SILENCE, address_of, lock_of};
use crate::stop::{DoorAlarm, DoorGate, Muster, WatchedDoor};
use crate::words::words_of;
use archive_opening::Status;
use cta_journal::Disk;
use cta_model::Told;
use cta_site::Text;
use cta_words::{DurableWords, WordsError, read_durable};
use durable_server::Alarm;
use durable_site::durable_top;
use file_media::FileBench;
use journal_disks::{FileDisk, FileErr};
use media::{Bench, TapeDrive};
use outside::{Clock, Gate, Link, Listener, PauseGate, Source, TcpDoor, WallClock, file_source};
use std::alloc::Global;
use std::fs::File;
use std::hash::RandomState;
use std::io::Eprint;
use std::net::{Net, TcpListener, TcpStream};
use std::rt::Files;
use std::sync::Wait;
use std::thread::Threads;
use std::time;
use std::time::Duration;

// Serves by the words behind the program's name, prints the line of the status, and gives the number that the process is to end with, and the
// journal's disk, if it is given back.
fn durable_with<
    R: Threads + Wait + Sync + Eprint,
    A: Source,
    K: Link + Send + Drop,
    L: Listener<L = K> + Send,
    J: Disk + Send + Drop,
    M: Told + Send + Drop,
    D: TapeDrive<Medium = M> + Send + Drop,
    B: Bench<D>,
    C: Clock + Copy + Send + Sync + Drop,
    G: Gate + Sync,
    N: Alarm + Sync,
>(
    rt: &R,
    alloc: Global,
    arguments: &[String],
    site: &mut A,
    listener: &mut L,
    disk: J,
    bench: &mut B,
    clock: C,
    gate: &G,
    alarm: &N,
    keys: RandomState,
) -> (u8, Option<J>)
    requires { TellNoRecords M.told }
    ensures { IsNumberOf (λ status. Ends J.fault_count status result.1 (map string_bytes (drop 1 arguments.now)) (source_view (A.left site.old) (A.faults site.old)) (source_view (A.left site.new) (A.faults site.new))
        (J.content disk) (J.fault_count disk) (L.faults listener.old) (L.faults listener.new) (L.ended listener.new)) result.0 }
{
    let words = words_of(arguments);
    let (status, disk) = durable_top(
        rt, alloc, words, site, listener, disk, bench, clock, gate, alarm, keys,
    );
    (end_with(rt, status), disk)
}

// Says why the journal can't be used. That this may fail is not told.
fn say_no_journal<E: Eprint>(errors: &E, error: FileErr) {
    let _ = match error {
        FileErr::InUse => eprintln!(errors; "cta: journal in use"),
        FileErr::Fault => eprintln!(errors; "cta: journal can't be opened, locked or copied"),
        FileErr::NoMemory => Ok(()),
    };
}

// The disk of the journal at this path; where there is none, one whose first call fails.
fn disk_of<E: Eprint, R: Files<File = File>>(
    errors: &E,
    alloc: Global,
    files: &R,
    path: &str,
) -> Result<FileDisk, Status> {
    match FileDisk::open(alloc, files, path) {
        Ok(disk) => Ok(disk),
        Err(FileErr::NoMemory) => Err(Status::NoMemory),
        Err(error) => {
            say_no_journal(errors, error);
            Ok(FileDisk::without_file(alloc))
        }
    }
}

// Takes the numbers of the standard streams where some are closed, so that nothing that is printed comes into a file of this run.
fn hold_standard_numbers<R: Files>(files: &R) -> [Option<R::File>; 3] {
    let first = File::open(files, "/dev/null").ok();
    let second = File::open(files, "/dev/null").ok();
    let third = File::open(files, "/dev/null").ok();
    [first, second, third]
}

// Serves over the ends of the machine that the words name. Files are opened by the machine's own runtime, since threads of drives may not rest on
// what is assumed of any runtime.
fn durable_words<
    R: Threads
        + Wait
        + Sync
        + Copy
        + Eprint
        + time::Clock
        + Net<Listener = TcpListener, Stream = TcpStream>,
>(
    rt: &R,
    files: &HostRuntime,
    alloc: Global,
    arguments: &[String],
    words: &DurableWords<'_>,
    keys: RandomState,
) -> Result<u8, Status> {
    let held = hold_standard_numbers(files);
    let Ok(mut site) = file_source(alloc, files, words.site) else {
        return Err(Status::NoMemory);
    };
    let Ok(folder) = String::from_str(alloc, words.media) else {
        return Err(Status::NoMemory);
    };
    let lock = lock_of(alloc, files, words.media)?;
    let disk = disk_of(rt, alloc, files, words.journal)?;
    let muster = Muster::new(rt, words.workers);
    let address = address_of(rt, words.addr, &lock);
    let listener = TcpDoor::open(rt, address, Duration::from_secs(SILENCE));
    let alarm = DoorAlarm::new(rt, listener.address(), &muster);
    let mut door = WatchedDoor::new(rt, listener, &muster);
    let pause = PauseGate::new(rt, Duration::from_millis(PAUSE));
    let mut bench = ResumingBench::new(
        files,
        FileBench::resuming(alloc, files, Text::of(folder)),
        &muster,
    );
    let (number, disk) = durable_with(
        rt,
        alloc,
        arguments,
        &mut site,
        &mut door,
        disk,
        &mut bench,
        WallClock::new(rt),
        &DoorGate::new(rt, pause, &muster),
        &alarm,
        keys,
    );
    if let Some(disk) = disk {
        // A run that fails here is copied at the next start, as one that was killed.
        let _ = disk.finish(files);
    }
    drop(lock);
    drop(held);
    Ok(number)
}

// Serves by the words of the command line; None where they are no such server's.
pub(crate) fn durable_here<
    R: Threads
        + Wait
        + Sync
        + Copy
        + Eprint
        + time::Clock
        + Net<Listener = TcpListener, Stream = TcpStream>,
>(
    rt: &R,
    files: &HostRuntime,
    alloc: Global,
    arguments: &[String],
    keys: RandomState,
) -> Option<Result<u8, Status>> {
    match read_durable(alloc, words_of(arguments)) {
        Ok(words) => Some(durable_words(rt, files, alloc, arguments, &words, keys)),
        Err(WordsError::Usage) => None,
        Err(WordsError::NoMemory) => Some(Err(Status::NoMemory)),
    }
}
