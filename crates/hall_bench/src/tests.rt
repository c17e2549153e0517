// Two threads at one hall.
ghost use Rattle.std.specs.Prelude.{◌≡◌, [], None, Bool, false};

use crate::counter::Counter;
use crate::raising::raise_each;
use std::alloc::{AllocError, Global};
use std::sync::Arc;
use std::sync::atomic::{AtomicU64, Ordering};
use std::test::Fail;
use std::thread;
use std::thread::join;
use turn_hall::{Hall, Keeps};

#[test]
fn two_threads_raise_one_counter(rt: HostRuntime) -> Result<(), Fail> {
    let Ok((hall, mut first)) = Hall::new(rt.alloc(), Counter::new(), 2) else {
        panic!(rt; "no memory for a hall");
    };
    let Some(mut second) = hall.split(&mut first) else {
        panic!(rt; "no second seat");
    };
    let (a, b) = join(
        &rt,
        || {
            raise_each(&rt, &hall, &mut first, 1000, 10);
            first
        },
        || {
            raise_each(&rt, &hall, &mut second, 500, 10);
            second
        },
    );
    let mut all = a;
    let passed = hall.passed(&mut all);
    hall.join(&mut all, b);
    assert_eq!(rt; passed, 1500);
    let counter = hall.close(all);
    assert_eq!(rt; counter.count(), 1500);
    Ok(())
}

// How often a thread looks at the stage of the other one before it gives up.
const LOOKS: u64 = 1000000;

// Waits for the stage, or gives up, and says whether it came.
fn is_reached(stage: &AtomicU64, wanted: u64) -> bool {
    for _ in 0..LOOKS {
        if stage.load(Ordering::SeqCst) >= wanted {
            return true;
        }
        thread::yield_now();
    }
    false
}

// A value whose calls last until another thread lets them go on, and change nothing.
#[derive(Drop)]
struct Held;

impl Keeps for Held {
    type Site = ();

    type Entry = ();

    type Call = Arc<AtomicU64, Global>;

    type Back = bool;

    ghost site = { λ t. tt };

    ghost history = { λ t. [] };

    ghost legal = { λ s h. Unit {0} };

    ghost can_play = { λ s h call. Unit {0} };

    ghost plays = { λ s h call back later. later ≡ h };

    ghost adds = { λ call back. false };

    ghost topic = { λ e. None };

    ghost asks = { λ call. None };

    ghost fits = { λ s h call. Unit {0} };

    fn play(&mut self, stage: Arc<AtomicU64, Global>) -> bool {
        stage.fetch_add(1, Ordering::SeqCst);
        is_reached(&stage, 2)
    }

    fn keeps_history(&self) {}

    fn keeps_laws() {}
}

// A call is played while another thread asks how many turns have ended. A hall that is one mutex round everything makes that thread wait,
// so that the call gives up, or tells it the number that its own pass knows.
#[test]
fn passed_waits_for_no_turn(rt: HostRuntime) -> Result<(), Fail> {
    let Ok((hall, mut first)) = Hall::new(rt.alloc(), Held, 2) else {
        panic!(rt; "no memory for a hall");
    };
    let Some(mut second) = hall.split(&mut first) else {
        panic!(rt; "no second seat");
    };
    let stage = Arc::new(rt.alloc(), AtomicU64::new(1))?;
    let ours = Arc::try_clone(&stage)?;
    let theirs = Arc::try_clone(&stage)?;
    hall.turn(&rt, &mut first, ours);
    stage.store(0, Ordering::SeqCst);
    let (went_on, passed) = join(
        &rt,
        || hall.turn(&rt, &mut first, theirs),
        || {
            is_reached(&stage, 1);
            let passed = hall.passed(&mut second);
            stage.fetch_add(1, Ordering::SeqCst);
            passed
        },
    );
    assert_eq!(rt; (went_on, passed), (true, 1));
    Ok(())
}
