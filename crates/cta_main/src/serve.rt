// The run of `cta serve`.
ghost use Rattle.std.specs.Prelude.{drop, map, string_bytes};
ghost use Rattle.archive_opening.specs.Seen.{source_view};
ghost use Rattle.cta_main.specs.Exit.{IsNumberOf};
ghost use Rattle.site_server.specs.Top.{Ends};

use crate::media_folder::ToldBench;
use crate::report::end_with;
use crate::stop::{DoorGate, Muster, WatchedDoor};
use crate::words::words_of;
use archive_opening::Status;
use cta_model::Told;
use cta_site::Text;
use cta_words::{ServeWords, WordsError, read_serve};
use file_media::{FileBench, FolderLock, LockErr};
use media::{Bench, TapeDrive};
use outside::{Clock, Gate, Link, Listener, PauseGate, Source, TcpDoor, WallClock, file_source};
use site_server::{Served, serve_top};
use std::alloc::Global;
use std::fs::File;
use std::hash::RandomState;
use std::io::Eprint;
use std::net::{Net, TcpListener, TcpStream};
use std::rt::Files;
use std::sync::Wait;
use std::thread::Threads;
use std::time;
use std::time::Duration;

// How long a link may say nothing, in seconds.
pub(crate) const SILENCE: u64 = 30;

// How long an idle worker of a drive pauses, in milliseconds, and the one that tells links that the server is busy. Workers of links are woken.
pub(crate) const PAUSE: u64 = 50;

// Serves by the words behind the program's name, prints the line of the status, and gives the number that the process is to end with.
pub(crate) fn serve_with<
    R: Threads + Wait + Sync + Eprint,
    A: Source,
    K: Link + Send + Drop,
    L: Listener<L = K> + Send,
    M: Told + Send + Drop,
    D: TapeDrive<Medium = M> + Send + Drop,
    B: Bench<D>,
    C: Clock + Copy + Send + Sync + Drop,
    G: Gate + Sync,
>(
    rt: &R,
    alloc: Global,
    arguments: &[String],
    site: &mut A,
    listener: &mut L,
    bench: &mut B,
    clock: C,
    gate: &G,
    keys: RandomState,
) -> u8
    ensures { IsNumberOf (λ status. Ends status (map string_bytes (drop 1 arguments.now)) (source_view (A.left site.old) (A.faults site.old)) (source_view (A.left site.new) (A.faults site.new))
        (L.faults listener.old) (L.faults listener.new) (L.ended listener.new)) result }
{
    let words = words_of(arguments);
    let (status, served) = serve_top(rt, alloc, words, site, listener, bench, clock, gate, keys);
    if let Some(
        Served {
            hall,
            pass,
            wanted: _wanted,
        },
    ) = served
    {
        hall.close(pass).let_go();
    }
    end_with(rt, status)
}

// Says that the folder can't be used. That this may fail is not told.
fn say_not_usable<E: Eprint>(errors: &E) {
    let _ = eprintln!(errors; "cta: media folder in use or not writable");
}

// The lock of the folder, None where it can't be had.
pub(crate) fn lock_of<R: Files<File = File>>(
    alloc: Global,
    rt: &R,
    folder: &str,
) -> Result<Option<FolderLock>, Status> {
    match FolderLock::take(alloc, rt, folder) {
        Ok(lock) => Ok(Some(lock)),
        Err(LockErr::NoMemory) => Err(Status::NoMemory),
        Err(LockErr::InUse | LockErr::Fault) => Ok(None),
    }
}

// The address that is listened at: the one of the words, where this process has the folder of the media for itself. No one listens at an
// empty address.
pub(crate) fn address_of<'a, E: Eprint>(
    errors: &E,
    addr: &'a str,
    lock: &Option<FolderLock>,
) -> &'a str {
    if lock.is_some() {
        addr
    } else {
        say_not_usable(errors);
        ""
    }
}

// Serves over the ends of the machine that the words name. Files are opened by the machine's own runtime, since threads of drives may not rest on
// what is assumed of any runtime.
fn serve_words<
    R: Threads
        + Wait
        + Sync
        + Copy
        + Eprint
        + time::Clock
        + Net<Listener = TcpListener, Stream = TcpStream>,
>(
    rt: &R,
    files: &HostRuntime,
    alloc: Global,
    arguments: &[String],
    words: &ServeWords<'_>,
    keys: RandomState,
) -> Result<u8, Status> {
    let Ok(mut site) = file_source(alloc, files, words.site) else {
        return Err(Status::NoMemory);
    };
    let Ok(folder) = String::from_str(alloc, words.media) else {
        return Err(Status::NoMemory);
    };
    let lock = lock_of(alloc, files, words.media)?;
    let muster = Muster::new(rt, words.workers);
    let address = address_of(rt, words.addr, &lock);
    let listener = TcpDoor::open(rt, address, Duration::from_secs(SILENCE));
    let mut door = WatchedDoor::new(rt, listener, &muster);
    let pause = PauseGate::new(rt, Duration::from_millis(PAUSE));
    let mut bench = ToldBench {
        rt: files,
        bench: FileBench::new(alloc, files, Text::of(folder)),
        muster: &muster,
    };
    let number = serve_with(
        rt,
        alloc,
        arguments,
        &mut site,
        &mut door,
        &mut bench,
        WallClock::new(rt),
        &DoorGate::new(rt, pause, &muster),
        keys,
    );
    drop(lock);
    Ok(number)
}

// Serves by the words of the command line; None where they are no server's.
pub(crate) fn serve_here<
    R: Threads
        + Wait
        + Sync
        + Copy
        + Eprint
        + time::Clock
        + Net<Listener = TcpListener, Stream = TcpStream>,
>(
    rt: &R,
    files: &HostRuntime,
    alloc: Global,
    arguments: &[String],
    keys: RandomState,
) -> Option<Result<u8, Status>> {
    match read_serve(alloc, words_of(arguments)) {
        Ok(words) => Some(serve_words(rt, files, alloc, arguments, &words, keys)),
        Err(WordsError::Usage) => None,
        Err(WordsError::NoMemory) => Some(Err(Status::NoMemory)),
    }
}
