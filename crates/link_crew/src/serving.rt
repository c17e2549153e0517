// A worker of links.
ghost use Rattle.std.specs.Prelude.{◌≡◌, ◌++◌, ◌∷◌, ℕ, List, [], true};
ghost use Rattle.crossbeam_queue.specs.Passes.{view as pool_view};
ghost use Rattle.link_pool.specs.Entries.{links_of};
ghost use Rattle.turn_hall.specs.Handles.{IsPassOf, view, first_of};
ghost use Rattle.link_crew.specs.Accounts.{Accounted, is_served};
ghost use Rattle.link_crew.specs.Seats.{IsSeatOf};

use crate::front::Callers;
use link_loop::{Front, Unserved, requests_are_asked, serve, whole_links_are_asked};
use link_pool::{Pool, PoolPass};
use outside::{Clock, Gate, Link};
use std::alloc::Global;
use std::sync::Wait;
use turn_hall::{Hall, Keeps, Pass};

// Serves a link and closes it. Whether it was served to an end, or to a fault of its own.
fn serve_and_close<T: Keeps, F: Callers<T>, L: Link + Drop, C: Clock, R: Wait>(
    rt: &R,
    alloc: Global,
    hall: &Hall<T>,
    pass: &mut Pass<T>,
    front: &F,
    tools: &F::Tools,
    file_limit: u64,
    link: L,
    clock: &mut C,
) -> bool
    requires here { IsPassOf T.site hall.now pass.old }
    requires site { F.site front.now ≡ T.site (first_of hall.now) }
    ensures here { IsPassOf T.site hall.now pass.new }
    ensures seats { pass.new.seats ≡ pass.old.seats }
    ensures accounted { (links : List L) (n n' : ℕ) → (n' ≡ 0 → (n ≡ 0) × (result ≡ true))
        → Accounted F.question F.is_callers L.left L.firm file_limit (F.needs (F.site front.now)) (view pass.old).mine links n
        → Accounted F.question F.is_callers L.left L.firm file_limit (F.needs (F.site front.now)) (view pass.new).mine (links ++ link ∷ []) n' }
{
    front.callers_ask();
    requests_are_asked::<T, F>(front);
    whole_links_are_asked::<T, F>(front);
    let mut link = link;
    let end = serve(
        rt, alloc, hall, pass, front, tools, file_limit, &mut link, clock,
    );
    link.close();
    drop(link);
    match end {
        Ok(_) => true,
        Err(Unserved::Read) => true,
        Err(Unserved::Write) => true,
        Err(Unserved::NoMemory) => false,
        Err(Unserved::Stopped(cause)) => {
            F::let_go(cause);
            false
        }
    }
}

// The same, where what is asked is said by the site of the hall.
pub(crate) fn serve_one<T: Keeps, F: Callers<T>, L: Link + Drop, C: Clock, R: Wait>(
    rt: &R,
    alloc: Global,
    hall: &Hall<T>,
    pass: &mut Pass<T>,
    front: &F,
    tools: &F::Tools,
    file_limit: u64,
    link: L,
    clock: &mut C,
) -> bool
    requires here { IsPassOf T.site hall.now pass.old }
    requires site { F.site front.now ≡ T.site (first_of hall.now) }
    ensures here { IsPassOf T.site hall.now pass.new }
    ensures seats { pass.new.seats ≡ pass.old.seats }
    ensures accounted { (links : List L) (n n' : ℕ) → (n' ≡ 0 → (n ≡ 0) × (result ≡ true))
        → Accounted F.question F.is_callers L.left L.firm file_limit (F.needs (T.site (first_of hall.now))) (view pass.old).mine links n
        → Accounted F.question F.is_callers L.left L.firm file_limit (F.needs (T.site (first_of hall.now))) (view pass.new).mine (links ++ link ∷ []) n' }
{
    serve_and_close(rt, alloc, hall, pass, front, tools, file_limit, link, clock)
}

/// What a worker of links gives back: its pass and its seat at the pool, and how many of its links were left unserved: served neither to an
/// end nor to a fault of their own, since memory ran out or a call said so.
#[derive(Drop)]
pub struct Served<P, Q> {
    pub pass: P,
    pub seat: Q,
    pub unserved: u64,
}

// The tools of a front, where the gate lets the worker wait until there is memory for them.
fn tools_of<T: Keeps, F: Front<T>, G: Gate, R: Wait>(
    rt: &R,
    alloc: Global,
    front: &F,
    gate: &G,
    number: u32,
) -> Option<F::Tools> {
    for _ in rt.forever() {
        match front.tools(alloc) {
            Ok(tools) => return Some(tools),
            Err(_) => {
                if !gate.pass(number, true) {
                    return None;
                }
            }
        }
    }
    unreachable!()
}

/// The worker of links: it takes links from the pool and serves and closes each, until the gate tells it to stop. It waits at the gate, at the
/// hall and for links. Where there is no memory for the front's tools, it waits at the gate and tries again.
pub fn work_links<T: Keeps, F: Callers<T>, L: Link + Drop, C: Clock + Drop, G: Gate, R: Wait>(
    rt: &R,
    alloc: Global,
    hall: &Hall<T>,
    pool: &Pool<L>,
    gate: &G,
    front: &F,
    file_limit: u64,
    number: u32,
    pass: Pass<T>,
    seat: PoolPass<L>,
    clock: C,
) -> Served<Pass<T>, PoolPass<L>>
    requires here { IsPassOf T.site hall.now pass }
    requires site { F.site front.now ≡ T.site (first_of hall.now) }
    requires seat { IsSeatOf pool.now.queue seat }
    requires accounted { Accounted F.question F.is_callers L.left L.firm file_limit (F.needs (T.site (first_of hall.now))) (view pass).mine (links_of (pool_view seat).got) 0 }
    ensures here { IsPassOf T.site hall.now result.pass }
    ensures seats { result.pass.seats ≡ pass.seats }
    ensures seat { IsSeatOf pool.now.queue result.seat }
    ensures accounted { Accounted F.question F.is_callers L.left L.firm file_limit (F.needs (T.site (first_of hall.now))) (view result.pass).mine (links_of (pool_view result.seat).got) result.unserved }
{
    let mut pass = pass;
    let mut seat = seat;
    let mut clock = clock;
    let mut unserved = 0u64;
    let mut idle = false;
    let Some(tools) = tools_of::<T, F, G, R>(rt, alloc, front, gate, number) else {
        return Served {
            pass,
            seat,
            unserved,
        };
    };
    for _ in rt.forever() {
        if !gate.pass(number, idle) {
            break;
        }
        match pool.take(rt, &mut seat) {
            Some(link) => {
                idle = false;
                if !serve_one(
                    rt, alloc, hall, &mut pass, front, &tools, file_limit, link, &mut clock,
                ) {
                    unserved = unserved.saturating_add(1);
                }
            }
            None => idle = true,
        }
    }
    F::put_away(tools);
    Served {
        pass,
        seat,
        unserved,
    }
}
