// What a server's door and gate tell each other: no link comes before all workers are at work, and none is waited for by a worker once no
// link comes any more.
ghost use Rattle.std.specs.Prelude.{◌≡◌};

use crate::bell::Bell;
use durable_server::Alarm;
use outside::{Failed, Gate, Listener};
use std::io::Eprint;
use std::net::{Net, SocketAddr, TcpStream};
use std::sync::Wait;
use std::sync::atomic::{AtomicBool, AtomicU32, AtomicU64, Ordering};
use std::thread;
use std::time::{Clock, Duration, Instant};

// How long workers may take to begin, in seconds. A machine that gives no thread for one of them would otherwise leave a server that accepts
// links and answers none.
const PATIENCE: u64 = 10;

// Where the workers of a server stand.
#[derive(Drop)]
pub(crate) struct Muster {
    // Whether links may come.
    open: AtomicBool,
    // Whether all workers have begun.
    complete: AtomicBool,
    // Which workers have asked the gate, by number, a bit each, and how many these are.
    asked: [AtomicU64; 3],
    count: AtomicU32,
    // How many there are for links, and how many drives were made. Workers of drives have the first numbers, and the one that tells links that
    // the server is busy the last.
    workers: u32,
    drives: AtomicU32,
    begin: Option<Instant>,
    // What wakes workers of links.
    bell: Bell,
}

impl Muster {
    // A muster of so many workers of links, of the one that tells links that the server is busy, and of the drives that are made yet.
    pub(crate) fn new<R: Clock>(rt: &R, workers: u32) -> Muster {
        Muster {
            open: AtomicBool::new(true),
            complete: AtomicBool::new(false),
            asked: [AtomicU64::new(0), AtomicU64::new(0), AtomicU64::new(0)],
            count: AtomicU32::new(0),
            workers,
            drives: AtomicU32::new(0),
            begin: Instant::now(rt).ok(),
            bell: Bell::new(),
        }
    }

    // Notes that a drive was made.
    pub(crate) fn add_drive(&self) {
        self.drives.fetch_add(1, Ordering::SeqCst);
    }

    // Lets no link come any more.
    fn shut(&self) {
        self.open.store(false, Ordering::SeqCst);
        self.bell.ring_for_all();
    }

    fn is_open(&self) -> bool {
        self.open.load(Ordering::SeqCst)
    }

    // Notes that a worker has begun.
    fn note(&self, worker: u32) {
        let bit = 1u64 << (worker % 64);
        if let Some(word) = self.asked.get(worker as usize / 64) {
            if word.fetch_or(bit, Ordering::SeqCst) & bit == 0 {
                self.count.fetch_add(1, Ordering::SeqCst);
            }
        }
        let all = u64::from(self.workers) + u64::from(self.drives.load(Ordering::SeqCst)) + 1;
        if self.is_open() && u64::from(self.count.load(Ordering::SeqCst)) >= all {
            self.complete.store(true, Ordering::SeqCst);
        }
    }

    // The place of a worker among those of links; None where it is none of them.
    fn place_of(&self, worker: u32) -> Option<u32> {
        let place = worker.checked_sub(self.drives.load(Ordering::SeqCst))?;
        if place < self.workers {
            Some(place)
        } else {
            None
        }
    }

    // Shuts the door where workers that should have begun have not.
    fn lose_patience<R: Clock>(&self, rt: &R) {
        if let (Some(begin), Ok(now)) = (self.begin, Instant::now(rt)) {
            if now.duration_since(begin) >= Duration::from_secs(PATIENCE) {
                self.shut();
            }
        }
    }

    // Waits until all workers have begun, and says whether they have.
    fn wait<R: Clock>(&self, rt: &R) -> bool {
        for _ in 0..PATIENCE * 1000 {
            if self.complete.load(Ordering::SeqCst) {
                return true;
            }
            if !self.is_open() {
                return false;
            }
            thread::sleep(rt, Duration::from_millis(1));
        }
        false
    }
}

// A listener that waits for the workers of a muster first, wakes one of them for each link, and shuts it once no link comes any more.
#[derive(Drop)]
pub(crate) struct WatchedDoor<'a, R, L> {
    rt: &'a R,
    listener: L,
    muster: &'a Muster,
    faults: u64,
    // Whether a link was told that no worker was woken for.
    is_told: bool,
}

impl<'a, R, L> WatchedDoor<'a, R, L> {
    pub(crate) fn new(rt: &'a R, listener: L, muster: &'a Muster) -> WatchedDoor<'a, R, L> {
        WatchedDoor {
            rt,
            listener,
            muster,
            faults: 0,
            is_told: false,
        }
    }
}

// Says why no link comes. That this may fail is not told.
fn say_few_threads<E: Eprint>(errors: &E) {
    let _ = eprintln!(errors; "cta: the machine gives no threads for all workers");
}

impl<R: Clock + Eprint, L: Listener> Listener for WatchedDoor<'_, R, L> {
    type L = L::L;

    ghost left = { λ d. L.left d.listener };

    ghost ended = { λ d. L.ended d.listener };

    ghost faults = { λ d. d.faults };

    fn next(&mut self) -> Result<Option<L::L>, Failed> {
        if !self.muster.wait(self.rt) {
            say_few_threads(self.rt);
            self.muster.shut();
            self.faults = self.faults.saturating_add(1);
            return Err(Failed);
        }
        if !self.muster.is_open() {
            self.faults = self.faults.saturating_add(1);
            return Err(Failed);
        }
        // Who asks for the next link has put the last one where workers look.
        if self.is_told {
            self.muster.bell.ring();
        }
        let next = self.listener.next();
        self.is_told = matches!(next, Ok(Some(_)));
        if !self.is_told {
            self.muster.shut();
        }
        if next.is_err() {
            self.faults = self.faults.saturating_add(1);
        }
        next
    }
}

// An alarm that lets no link come any more. Who waits for the next one is woken by a connection, which is served nothing.
#[derive(Drop)]
pub(crate) struct DoorAlarm<'a, R> {
    rt: &'a R,
    address: Option<SocketAddr>,
    muster: &'a Muster,
}

impl<'a, R> DoorAlarm<'a, R> {
    pub(crate) fn new(
        rt: &'a R,
        address: Option<SocketAddr>,
        muster: &'a Muster,
    ) -> DoorAlarm<'a, R> {
        DoorAlarm {
            rt,
            address,
            muster,
        }
    }
}

impl<R: Net> Alarm for DoorAlarm<'_, R> {
    fn ring(&self) {
        if !self.muster.is_open() {
            return;
        }
        self.muster.shut();
        if let Some(address) = self.address {
            let _ = TcpStream::connect(self.rt, address);
        }
    }
}

// A gate that tells each worker to stop once no link comes any more. An idle worker of links waits for the bell of the muster, any other as the
// gate below lets it.
#[derive(Drop)]
pub(crate) struct DoorGate<'a, R, G> {
    rt: &'a R,
    gate: G,
    muster: &'a Muster,
}

impl<'a, R, G> DoorGate<'a, R, G> {
    pub(crate) fn new(rt: &'a R, gate: G, muster: &'a Muster) -> DoorGate<'a, R, G> {
        DoorGate { rt, gate, muster }
    }
}

impl<R: Clock + Wait, G: Gate> Gate for DoorGate<'_, R, G> {
    fn pass(&self, worker: u32, idle: bool) -> bool {
        if !self.muster.complete.load(Ordering::SeqCst) {
            self.muster.note(worker);
            self.muster.lose_patience(self.rt);
        }
        match self.muster.place_of(worker) {
            Some(place) if self.muster.is_open() => {
                self.muster.bell.attend(self.rt, place as usize, idle);
                self.muster.is_open()
            }
            _ => self.muster.is_open() && self.gate.pass(worker, idle),
        }
    }
}
