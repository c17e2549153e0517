// The thread that accepts links.
ghost use Rattle.std.specs.Prelude.{◌≡◌, ◌≤◌, List, Some, true, IfOk, OnErr};
ghost use Rattle.crossbeam_queue.specs.Passes.{view, IsPassOf};
ghost use Rattle.outside.specs.Causes.{Rose};
ghost use Rattle.link_crew.specs.Seats.{HavePutAll, IsSameDoor};

use link_pool::{Pool, PoolPass};
use outside::{Failed, Link, Listener};
use std::sync::Wait;

// Puts a link that the first pool has no room for into the second, and lets it go where that has none either.
fn turn_away<R: Wait, L: Link + Drop>(rt: &R, full: &Pool<L>, door: &mut PoolPass<L>, link: L)
    requires here { IsPassOf full.now.queue door.old × ((view door.old).door ≡ true) }
    ensures here { IsPassOf full.now.queue door.new }
    ensures same { IsSameDoor (view door.old) (view door.new) }
{
    if let Err(back) = full.offer(rt, door, link) {
        drop(back);
    }
}

/// Accepts links and puts them into the pool, until the listener ends or fails. A link that the pool has no room for goes into `full`, whose
/// worker says so to it; where that has no room either the link is let go. It waits for links.
pub fn accept_all<R: Wait, K: Link + Send + Drop, L: Listener<L = K>>(
    rt: &R,
    pool: &Pool<K>,
    door: &mut PoolPass<K>,
    full: &Pool<K>,
    full_door: &mut PoolPass<K>,
    listener: &mut L,
) -> Result<(), Failed>
    requires here { IsPassOf pool.now.queue door.old × ((view door.old).door ≡ true) }
    requires full { IsPassOf full.now.queue full_door.old × ((view full_door.old).door ≡ true) }
    ensures here { IsPassOf pool.now.queue door.new × IsSameDoor (view door.old) (view door.new) }
    ensures full { IsPassOf full.now.queue full_door.new × IsSameDoor (view full_door.old) (view full_door.new) }
    ensures ended { IfOk result (λ _. L.ended listener.new ≡ true) }
    ensures cause { OnErr result (Rose (L.faults listener.old) (L.faults listener.new)) }
    ensures put { (links : List K) → L.left listener.old ≡ Some links → IfOk result (λ _. HavePutAll pool.now.queue.cap links (view door.old) (view door.new)) }
{
    for _ in rt.forever() {
        match listener.next() {
            Ok(Some(link)) => {
                if let Err(back) = pool.offer(rt, door, link) {
                    turn_away(rt, full, full_door, back);
                }
            }
            Ok(None) => return Ok(()),
            Err(Failed) => return Err(Failed),
        }
    }
    unreachable!()
}
