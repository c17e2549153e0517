// The pool and its passes.
ghost use Rattle.std.specs.Prelude.{◌≡◌, ◌<◌, ◌≤◌, ◌+◌, ◌-◌, true, false, IfOk, IfNone, MatchResult, MatchOption, length};
ghost use Rattle.crossbeam_queue.specs.Passes.{view, IsPassOf};
ghost use Rattle.crossbeam_queue.specs.Fifo.{Held};
ghost use Rattle.link_pool.specs.Pooled.{fresh, keeping, single, joined, with_put, whole, HasPutAll, IsBack, IsEmptied, TakesNext, Stays};

use crate::views::{Cut, Gets, InOrder, PoolView, Puts};
use crossbeam_queue::protocol::Protocol;
use crossbeam_queue::{Pass, RuledArrayQueue};
use std::alloc::{AllocError, Global};
use std::sync::Wait;

/// A queue under a rule. It is written over its own parameters, since only so is it proved that it may cross threads.
#[derive(Drop)]
pub struct RuledPool<T, V, P: Protocol<T, V>> {
    queue: RuledArrayQueue<T, V, P, Global>,
}

/// Links that wait for a worker.
pub type Pool<L> = RuledPool<L, PoolView<L>, InOrder>;

/// What a caller puts links into a pool with, or gets them.
pub type PoolPass<L> = Pass<L, PoolView<L>>;

/// Whether a pool may be shared with another thread, and a pass moved to one: a body with no effect, whose proof says so.
pub fn pool_is_shared<L: Send + Drop>(_pool: &Pool<L>) {
    is_send::<PoolPass<L>>();
    is_send::<Pool<L>>();
    is_sync::<Pool<L>>();
}

fn is_send<T: Send>() {}

fn is_sync<T: Sync>() {}

impl<L> Pool<L> {
    /// An empty pool for so many links, and its door, which holds all parts.
    pub fn new(alloc: Global, capacity: u32) -> Result<(Pool<L>, PoolPass<L>), AllocError>
        requires { 0 < capacity }
        ensures { IfOk result (λ r. (r.0.queue.cap ≡ capacity) × IsPassOf r.0.queue r.1 × (view r.1 ≡ fresh)) }
    {
        let (queue, pass) = RuledArrayQueue::ruled(alloc, capacity as usize)?;
        Ok((RuledPool { queue }, pass))
    }

    /// Puts a link in at the back, through the door. The link may come back once the door has put as many links as the pool can
    /// hold, beside those that it has got itself; through a door with all parts it comes back only where the pool is full. That the
    /// pool was full at a moment of the call is what the queue does, and no clause can name that moment.
    pub fn offer<R: Wait>(&self, rt: &R, pass: &mut PoolPass<L>, link: L) -> Result<(), L>
        requires here { IsPassOf self.now.queue pass.old }
        requires door { (view pass.old).door ≡ true }
        ensures here { IsPassOf self.now.queue pass.new }
        ensures put { MatchResult result (λ _. view pass.new ≡ with_put (view pass.old) link) (λ back. (back ≡ link) × (view pass.new ≡ view pass.old) × Held self.now.queue.cap (IsBack (view pass.old)) × HasPutAll self.now.queue.cap (view pass.old)) }
    {
        self.queue.push_as::<Puts, R>(rt, pass, link)
    }

    /// Takes the link at the front. To a pass with all parts `None` comes only where it has got all that was put; to another pass it
    /// may always come. That the pool was empty at a moment of the call is what the queue does, and no clause can name that moment.
    pub fn take<R: Wait>(&self, rt: &R, pass: &mut PoolPass<L>) -> Option<L>
        requires here { IsPassOf self.now.queue pass.old }
        requires some { 0 < (view pass.old).parts }
        ensures here { IsPassOf self.now.queue pass.new }
        ensures got { MatchOption result ((view pass.new ≡ view pass.old) × ((view pass.old).parts ≡ whole → (view pass.old).got ≡ (view pass.old).put)) (λ link. TakesNext (view pass.old) link (view pass.new)) }
        ensures stays { Stays (view pass.old) (view pass.new) }
    {
        self.queue.pop_as::<Gets, R>(rt, pass)
    }

    /// A new pass with one part of this one's, which isn't the door. It takes no memory.
    pub fn split(&self, pass: &mut PoolPass<L>) -> PoolPass<L>
        requires here { IsPassOf self.now.queue pass.old }
        requires two { 1 < (view pass.old).parts }
        ensures here { IsPassOf self.now.queue pass.new × IsPassOf self.now.queue result }
        ensures views { (view pass.new ≡ keeping (view pass.old)) × (view result ≡ single) }
    {
        self.queue.another::<Cut>(pass)
    }

    /// Puts another pass, which isn't the door, to this one, which then has the parts and the links of both. It takes no memory.
    pub fn join(&self, pass: &mut PoolPass<L>, other: PoolPass<L>)
        requires here { IsPassOf self.now.queue pass.old × IsPassOf self.now.queue other }
        requires parts { (0 < (view pass.old).parts) × (0 < (view other).parts) }
        requires other { (view other).door ≡ false }
        ensures here { IsPassOf self.now.queue pass.new }
        ensures joined { view pass.new ≡ joined (view pass.old) (view other) }
    {
        self.queue.absorb::<Cut>(pass, other);
    }
}
