// A listener over links in memory, which fails at the calls that it is told.
ghost use Rattle.std.specs.Prelude.{◌≡◌, ◌↔◌, false, Some, Contains, IsErr, OnOk};
ghost use Rattle.outside.specs.Causes.{HasCause, next_call};
ghost use Rattle.outside.specs.Listening.{Accepts, ended_after};

use crate::{Failed, Link, Listener};

/// A listener of known links that fails at planned calls.
#[derive(Drop)]
pub struct MemListener<L> {
    // The next one is the last.
    links: Vec<L>,
    ended: bool,
    calls: u64,
    failing: Vec<u64>,
    faults: u64,
}

impl<L> MemListener<L> {
    ghost use Rattle.outside.specs.Listeners.{listener_left, listener_ended, listener_faults, listener_calls, listener_failing};

    /// A listener that has all of these links left, the first one next. `failing` lists the numbers of the calls of `next` that
    /// are to fail, counted from 1, in any order.
    pub fn new(mut links: Vec<L>, failing: Vec<u64>) -> MemListener<L>
        ensures left { listener_left result ≡ links.items }
        ensures ended { listener_ended result ≡ false }
        ensures faults { listener_faults result ≡ 0 }
        ensures calls { listener_calls result ≡ 0 }
        ensures failing { listener_failing result ≡ failing.items }
    {
        links.reverse();
        MemListener {
            links,
            ended: false,
            calls: 0,
            failing,
            faults: 0,
        }
    }
}

impl<L: Link + Send + Drop> Listener for MemListener<L> {
    ghost use Rattle.outside.specs.Listeners.{listener_left, listener_ended, listener_faults, listener_calls, listener_failing};

    type L = L;

    ghost left = { λ l. Some (listener_left l) };

    ghost ended = { λ l. listener_ended l };

    ghost faults = { λ l. listener_faults l };

    /// Fails exactly at the planned calls.
    fn next(&mut self) -> Result<Option<L>, Failed>
        ensures links { Accepts (Some (listener_left self.old)) (Some (listener_left self.new)) result }
        ensures ended { listener_ended self.new ≡ ended_after (listener_ended self.old) result }
        ensures cause { HasCause (listener_faults self.old) (listener_faults self.new) result }
        ensures faultless { OnOk result (listener_faults self.new ≡ listener_faults self.old) }

        // The plan: a call fails where its number is listed, and nowhere else.
        ensures planned { IsErr result
            ↔ Contains (listener_failing self.old) (next_call (listener_calls self.old)) }
        ensures counted { listener_calls self.new ≡ next_call (listener_calls self.old) }
        ensures kept { listener_failing self.new ≡ listener_failing self.old }
    {
        self.calls = self.calls.saturating_add(1);
        if self.failing.contains(&self.calls) {
            self.faults = self.faults.saturating_add(1);
            return Err(Failed);
        }
        let link = self.links.pop();
        if link.is_none() {
            self.ended = true;
        }
        Ok(link)
    }
}
