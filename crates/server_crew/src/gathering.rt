// The end of a crew: all passes and seats become one again.
ghost use Rattle.std.specs.Prelude.{◌≡◌, ◌+◌, ◌≤◌, All, length};
ghost use Rattle.crossbeam_queue.specs.Passes.{view as pool_view, IsPassOf as IsPoolPassOf};
ghost use Rattle.link_pool.specs.Entries.{links_of};
ghost use Rattle.turn_hall.specs.Handles.{IsPassOf, first_of, view};
ghost use Rattle.link_crew.specs.Accounts.{Accounted};
ghost use Rattle.server_crew.specs.Jobs.{IsDone};

use crate::post::{Done, Post};
use link_crew::{Callers, Served, gather};
use link_pool::{Pool, PoolPass};
use outside::Link;
use turn_hall::{Hall, Keeps, Pass};

// Puts what one worker gives back to a pass and two seats. It gives how many links were left unserved.
fn gather_one<T: Keeps, N: Callers<T>, L: Link>(
    hall: &Hall<T>,
    pool: &Pool<L>,
    full: &Pool<L>,
    file_limit: u64,
    pass: &mut Pass<T>,
    seat: &mut PoolPass<L>,
    full_seat: &mut PoolPass<L>,
    unserved: u64,
    one: Done<Pass<T>, PoolPass<L>>,
) -> u64
    requires here { IsPassOf T.site hall.now pass.old }
    requires seat { IsPoolPassOf pool.now.queue seat.old × (1 ≤ (pool_view seat.old).parts) }
    requires full { IsPoolPassOf full.now.queue full_seat.old × (1 ≤ (pool_view full_seat.old).parts) }
    requires accounted { Accounted N.question N.is_callers L.left L.firm file_limit (N.needs (T.site (first_of hall.now))) (view pass.old).mine (links_of (pool_view seat.old).got) unserved }
    requires one { IsDone T.site hall.now pool.now.queue full.now.queue N.question N.is_callers L.left L.firm file_limit (N.needs (T.site (first_of hall.now))) one }
    ensures here { IsPassOf T.site hall.now pass.new }
    ensures seats { pass.new.seats ≡ pass.old.seats + 1 }
    ensures seat { IsPoolPassOf pool.now.queue seat.new × ((pool_view seat.new).parts ≡ (pool_view seat.old).parts + 1) × ((pool_view seat.new).put ≡ (pool_view seat.old).put) }
    ensures full { IsPoolPassOf full.now.queue full_seat.new × ((pool_view full_seat.new).parts ≡ (pool_view full_seat.old).parts + 1) }
    ensures accounted { Accounted N.question N.is_callers L.left L.firm file_limit (N.needs (T.site (first_of hall.now))) (view pass.new).mine (links_of (pool_view seat.new).got) result }
{
    let _limit = file_limit;
    let Done {
        post: Post {
            worker: _,
            pass: other,
            seat: other_seat,
            full_seat: other_full,
        },
        unserved: more,
    } = one;
    full.join(full_seat, other_full);
    let worker = Served {
        pass: other,
        seat: other_seat,
        unserved: more,
    };
    gather::<T, N, L>(hall, pool, pass, seat, unserved, worker)
}

// Puts what all workers give back to a pass and two seats, which then account for all links that were taken. It gives how many links were
// left unserved.
pub(crate) fn gather_crew<T: Keeps, N: Callers<T>, L: Link>(
    hall: &Hall<T>,
    pool: &Pool<L>,
    full: &Pool<L>,
    file_limit: u64,
    pass: &mut Pass<T>,
    seat: &mut PoolPass<L>,
    full_seat: &mut PoolPass<L>,
    done: Vec<Done<Pass<T>, PoolPass<L>>>,
) -> u64
    requires here { IsPassOf T.site hall.now pass.old }
    requires seat { IsPoolPassOf pool.now.queue seat.old × (1 ≤ (pool_view seat.old).parts) }
    requires full { IsPoolPassOf full.now.queue full_seat.old × (1 ≤ (pool_view full_seat.old).parts) }
    requires accounted { Accounted N.question N.is_callers L.left L.firm file_limit (N.needs (T.site (first_of hall.now))) (view pass.old).mine (links_of (pool_view seat.old).got) 0 }
    requires done { All (IsDone T.site hall.now pool.now.queue full.now.queue N.question N.is_callers L.left L.firm file_limit (N.needs (T.site (first_of hall.now)))) done.items }
    ensures here { IsPassOf T.site hall.now pass.new }
    ensures seats { pass.new.seats ≡ pass.old.seats + length done.items }
    ensures seat { IsPoolPassOf pool.now.queue seat.new × ((pool_view seat.new).parts ≡ (pool_view seat.old).parts + length done.items) × ((pool_view seat.new).put ≡ (pool_view seat.old).put) }
    ensures full { IsPoolPassOf full.now.queue full_seat.new × ((pool_view full_seat.new).parts ≡ (pool_view full_seat.old).parts + length done.items) }
    ensures accounted { Accounted N.question N.is_callers L.left L.firm file_limit (N.needs (T.site (first_of hall.now))) (view pass.new).mine (links_of (pool_view seat.new).got) result }
{
    let mut unserved = 0u64;
    for one in done {
        unserved = gather_one::<T, N, L>(
            hall, pool, full, file_limit, pass, seat, full_seat, unserved, one,
        );
    }
    unserved
}
