// The end of a crew: all passes and seats become one again, and the links that nobody took are served.
ghost use Rattle.std.specs.Prelude.{◌≡◌, ◌+◌, ◌≤◌, ℕ, List, []};
ghost use Rattle.crossbeam_queue.specs.Passes.{view as pool_view, IsPassOf as IsPoolPassOf};
ghost use Rattle.link_loop.specs.declared.front.Routed.{Routed};
ghost use Rattle.link_pool.specs.declared.views.Passed.{Passed};
ghost use Rattle.link_pool.specs.Entries.{links_of};
ghost use Rattle.link_pool.specs.Pooled.{whole};
ghost use Rattle.turn_hall.specs.declared.view.Made.{Made};
ghost use Rattle.turn_hall.specs.Handles.{IsPassOf, view, first_of};
ghost use Rattle.wire_http.specs.declared.request.Request.{Request};
ghost use Rattle.link_crew.specs.Accounts.{Accounted};
ghost use Rattle.link_crew.specs.Seats.{IsSeatOf};

use crate::front::Callers;
use crate::serving::{Served, serve_one};
use link_pool::{Pool, PoolPass};
use outside::{Clock, Link};
use std::alloc::Global;
use std::sync::Wait;
use turn_hall::{Hall, Keeps, Pass};

/// A pass that has made no call and a seat that has got no link account for no link: a law (this project's own), which does nothing when it runs.
pub fn no_links_are_asked<T: Keeps, F: Callers<T>, L: Link>()
    ensures { (file_limit : ℕ) (needs : Request → Routed F.Question) (mine : List (Made T.Call T.Back)) (got : List (Passed L)) → mine ≡ [] → got ≡ []
        → Accounted F.question F.is_callers L.left L.firm file_limit needs mine (links_of got) 0 }
{}

/// Puts what a worker gives back to a pass and a seat, which then account for the links of both. It gives how many links both left unserved.
/// It takes no memory and constant time.
pub fn gather<T: Keeps, F: Callers<T>, L: Link>(
    hall: &Hall<T>,
    pool: &Pool<L>,
    pass: &mut Pass<T>,
    seat: &mut PoolPass<L>,
    unserved: u64,
    worker: Served<Pass<T>, PoolPass<L>>,
) -> u64
    requires here { IsPassOf T.site hall.now pass.old × IsPassOf T.site hall.now worker.pass }
    requires seats { IsPoolPassOf pool.now.queue seat.old × (1 ≤ (pool_view seat.old).parts) × IsSeatOf pool.now.queue worker.seat }
    ensures here { IsPassOf T.site hall.now pass.new × (pass.new.seats ≡ pass.old.seats + worker.pass.seats) }
    ensures seat { IsPoolPassOf pool.now.queue seat.new × ((pool_view seat.new).door ≡ (pool_view seat.old).door) × ((pool_view seat.new).parts ≡ (pool_view seat.old).parts + 1) × ((pool_view seat.new).put ≡ (pool_view seat.old).put) }
    ensures accounted { (file_limit : ℕ) (needs : Request → Routed F.Question)
        → Accounted F.question F.is_callers L.left L.firm file_limit needs (view pass.old).mine (links_of (pool_view seat.old).got) unserved
        → Accounted F.question F.is_callers L.left L.firm file_limit needs (view worker.pass).mine (links_of (pool_view worker.seat).got) worker.unserved
        → Accounted F.question F.is_callers L.left L.firm file_limit needs (view pass.new).mine (links_of (pool_view seat.new).got) result }
{
    let Served {
        pass: other,
        seat: other_seat,
        unserved: more,
    } = worker;
    hall.join(pass, other);
    pool.join(seat, other_seat);
    unserved.saturating_add(more)
}

/// Serves the links that the pool still holds, by a pass and a seat that has all parts of the pool: all links that were put through the door
/// are then accounted for. It gives how many links were left unserved. It waits at the hall and for links.
pub fn serve_rest<T: Keeps, F: Callers<T>, L: Link + Drop, C: Clock, R: Wait>(
    rt: &R,
    alloc: Global,
    hall: &Hall<T>,
    pool: &Pool<L>,
    front: &F,
    tools: &F::Tools,
    file_limit: u64,
    pass: &mut Pass<T>,
    seat: &mut PoolPass<L>,
    unserved: u64,
    clock: &mut C,
) -> u64
    requires here { IsPassOf T.site hall.now pass.old }
    requires site { F.site front.now ≡ T.site (first_of hall.now) }
    requires seat { IsPoolPassOf pool.now.queue seat.old × ((pool_view seat.old).parts ≡ whole) }
    requires accounted { Accounted F.question F.is_callers L.left L.firm file_limit (F.needs (T.site (first_of hall.now))) (view pass.old).mine (links_of (pool_view seat.old).got) unserved }
    ensures here { IsPassOf T.site hall.now pass.new × (pass.new.seats ≡ pass.old.seats) }
    ensures seat { IsPoolPassOf pool.now.queue seat.new × ((pool_view seat.new).put ≡ (pool_view seat.old).put) }
    ensures accounted { Accounted F.question F.is_callers L.left L.firm file_limit (F.needs (T.site (first_of hall.now))) (view pass.new).mine (links_of (pool_view seat.old).put) result }
{
    let mut unserved = unserved;
    for _ in rt.forever() {
        match pool.take(rt, seat) {
            Some(link) => {
                if !serve_one(rt, alloc, hall, pass, front, tools, file_limit, link, clock) {
                    unserved = unserved.saturating_add(1);
                }
            }
            None => return unserved,
        }
    }
    unreachable!()
}
