// The repacks that have a live item of a copy.
ghost use Rattle.std.specs.Prelude.{◌≡◌, ℕ, ◌+◌, ◌<◌, ◌≤◌, ◌==◌, ◌&&◌, ◌||◌, if◌then◌else◌, not, [], Some, None, IfOk, OnOk};
ghost use Rattle.repack_book.specs.Order.{has_holder, is_holder};
ghost use Rattle.repack_book.specs.Walks.{IsFirstFrom};

use cta_site::NoMemory;
use std::alloc::Global;
use std::marker::Model;
use sum_trees::{Forest, Summed};

// A repack with a live item of a copy of a file.
#[derive(Clone, Copy)]
pub(crate) struct Holder {
    pub(crate) file: u32,
    pub(crate) copy: u8,
    pub(crate) repack: u32,
}

impl Summed for Holder {
    ghost use Rattle.std.specs.Prelude.{refl};
    ghost use Rattle.job_queues.specs.Laws.{before_one_way, before_splits};
    ghost use Rattle.repack_book.specs.Order.{holder_before, holder_numbers};

    type Sum = ();

    ghost before = { holder_before };

    ghost sums = { record { own = λ _. tt; joined = λ _ _. tt } };

    ghost joins = { λ a b c. refl };

    ghost one_way = { λ a b e. before_one_way (holder_numbers a) (holder_numbers b) e };

    ghost splits = { λ a b c e. before_splits (holder_numbers a) (holder_numbers b) (holder_numbers c) e };

    fn is_before(&self, other: &Self) -> bool {
        if self.file < other.file {
            return true;
        }
        if other.file < self.file {
            return false;
        }
        if self.copy < other.copy {
            return true;
        }
        if other.copy < self.copy {
            return false;
        }
        self.repack < other.repack
    }

    fn sum(&self) {}

    fn join(_first: (), _second: ()) {}
}

// The repacks with a live item of a copy, in order of file, copy and repack. Contracts see them, and for how many more there is
// room.
#[derive(Drop)]
pub(crate) struct Holders {
    forest: Forest<Holder>,
}

impl Model for Holders {
    ghost use Rattle.std.specs.Prelude.{◌≡◌, List, length};
    ghost use Rattle.part_model.specs.Room.{Roomed};
    ghost use Rattle.sum_trees.specs.Forests.{items_in};
    ghost use Rattle.repack_book.specs.declared.holders.Holder.{Holder};

    ghost Value = { Roomed (List Holder) };

    ghost view = { λ x. record { value = items_in x.forest.trees 0; room = x.forest.room } };

    ghost invariant = { λ x. length x.forest.trees ≡ 1 };
}

// The repack of a holder, where it is one of this copy.
fn repack_of(holder: Holder, file: u32, copy: u8) -> Option<u32>
    ensures { result ≡ (if holder.file == file && holder.copy == copy then Some holder.repack else None) }
{
    if holder.file != file {
        return None;
    }
    if holder.copy != copy {
        return None;
    }
    Some(holder.repack)
}

impl Holders {
    // No holder, with no room yet. NoMemory gives nothing.
    pub(crate) fn new(alloc: Global) -> Result<Holders, NoMemory>
        ensures { IfOk result (λ holders. holders.value ≡ []) }
    {
        let forest = Forest::new(alloc, 1)?;
        Ok(Holders { forest })
    }

    // Makes room for at least this many more holders.
    pub(crate) fn reserve(&mut self, more: u32) -> Result<(), NoMemory>
        ensures value { self.new.value ≡ self.old.value }
        ensures room { OnOk result (more ≤ self.new.room) }
    {
        self.forest.reserve(more)
    }

    // The holder is there from then on. It takes no memory.
    pub(crate) fn add(&mut self, holder: Holder)
        requires { 0 < self.old.room }
        ensures holders { (f c r : ℕ) → has_holder self.new.value f c r ≡ (is_holder f c r holder || has_holder self.old.value f c r) }
        ensures room { self.old.room ≤ self.new.room + 1 }
    {
        if self.forest.get(0, holder).is_some() {
            return;
        }
        self.forest.insert(0, holder);
    }

    // The holder is not there from then on. It takes no memory.
    pub(crate) fn take(&mut self, holder: Holder)
        ensures holders { (f c r : ℕ) → has_holder self.new.value f c r ≡ (not (is_holder f c r holder) && has_holder self.old.value f c r) }
        ensures room { self.old.room ≤ self.new.room }
    {
        let _ = self.forest.take(0, holder);
    }

    // The first repack of a copy.
    pub(crate) fn first(&self, file: u32, copy: u8) -> Option<u32>
        ensures { IsFirstFrom (has_holder self.now.value file copy) 0 result }
    {
        let start = Holder {
            file,
            copy,
            repack: 0,
        };
        match self.forest.from(0, start) {
            Some(next) => repack_of(next, file, copy),
            None => None,
        }
    }

    // The next repack of a copy behind one.
    pub(crate) fn after(&self, file: u32, copy: u8, repack: u32) -> Option<u32>
        ensures { IsFirstFrom (has_holder self.now.value file copy) (repack + 1) result }
    {
        let start = Holder { file, copy, repack };
        let _sorted = self.forest.sum(0);
        match self.forest.after(0, start) {
            Some(next) => repack_of(next, file, copy),
            None => None,
        }
    }
}
