// A run of calls.
ghost use Rattle.std.specs.Prelude.{◌≡◌, ◌<◌, ◌≤◌, ◌++◌, ◌∷◌, [], vec_capacity, vec_len};

use crate::back::LoggedBack;
use crate::logged::Logged;
use archive_turns::ArchiveCall;
use cta_journal::Disk;
use cta_model::{NoMemory, Told};

// Puts an item behind others, for which there is room.
fn put<T>(items: &mut Vec<T>, item: T)
    requires { vec_len items.old < vec_capacity items.old }
    ensures items { items.new.items ≡ items.old.items ++ item ∷ [] }
    ensures room { vec_capacity items.old ≤ vec_capacity items.new }
{
    match items.push(item) {
        Ok(()) => {}
        Err(_) => unreachable!(),
    }
}

impl<M: Told + Drop, K: Disk> Logged<M, K> {
    ghost use Rattle.std.specs.Prelude.{◌≡◌, List, ℕ, IfOk, OnErr, reverse};
    ghost use Rattle.cta_journal.specs.Standing.{StandsFor};
    ghost use Rattle.durable_archive.specs.Runs.{IsRun, IsSafeRun, MayBeCalled};

    /// Makes calls one after the other, and gives what comes back from each, in their order. NoMemory makes no call. However the run is cut
    /// in two, a crash at any moment from there on leaves the records of a history that has each entry of a call which was answered by
    /// then, and of no call that wasn't made. Its cost is that of the calls.
    pub fn call_each(&mut self, calls: Vec<ArchiveCall<M>>) -> Result<Vec<LoggedBack<M>>, NoMemory>
        requires { MayBeCalled M.told self.old.archive.site self.old.archive.history calls.items }
        ensures run { IfOk result (λ backs. IsRun M.told K.fault_count self.old (reverse calls.items) (reverse backs.items) self.new) }
        ensures any_moment { IfOk result (λ backs. (begun : List (List ℕ)) → StandsFor K.content K.may_leave self.old.first begun
            → IsSafeRun K.moment K.left_since self.old.archive.site begun M.told K.fault_count self.old (reverse calls.items) (reverse backs.items) self.new) }
        ensures none { OnErr result (self.new ≡ self.old) }
    {
        let mut backs = Vec::with_capacity(self.alloc, calls.len())?;
        self.keeps_log();
        for call in calls {
            let back = self.call(call);
            self.keeps_log();
            put(&mut backs, back);
        }
        Ok(backs)
    }
}
