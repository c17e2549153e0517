// Which calls of a disk in memory are to fail.
ghost use Rattle.std.specs.Prelude.{◌≡◌, ◌≤◌, ◌↔◌, true, Contains, OnErr, IsTrue};
ghost use Rattle.outside.specs.Causes.{Rose, next_call};

use outside::Failed;

// Which calls are to fail, how many were made, and how many failed.
#[derive(Drop)]
pub(crate) struct Plan {
    pub(crate) calls: u64,
    pub(crate) failing: Vec<u64>,
    pub(crate) faults: u64,
}

impl Plan {
    // Counts a call. It answers whether the call is to fail, and counts the fault then.
    pub(crate) fn fails(&mut self) -> bool
        ensures planned { IsTrue result ↔ Contains self.old.failing.items (next_call self.old.calls) }
        ensures counted { self.new.calls ≡ next_call self.old.calls }
        ensures kept { self.new.failing ≡ self.old.failing }
        ensures later { self.old.faults ≤ self.new.faults }
        ensures rose { result ≡ true → Rose self.old.faults self.new.faults }
    {
        self.calls = self.calls.saturating_add(1);
        if self.failing.contains(&self.calls) {
            self.faults = self.faults.saturating_add(1);
            return true;
        }
        false
    }

    // Counts a fault.
    pub(crate) fn fault(&mut self) -> Failed
        ensures kept { (self.new.failing ≡ self.old.failing) × (self.new.calls ≡ self.old.calls) }
        ensures later { self.old.faults ≤ self.new.faults }
        ensures rose { Rose self.old.faults self.new.faults }
    {
        self.faults = self.faults.saturating_add(1);
        Failed
    }
}
