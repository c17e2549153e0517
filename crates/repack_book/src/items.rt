// The live items by tape.
ghost use Rattle.std.specs.Prelude.{◌≡◌, ℕ, ◌+◌, ◌<◌, ◌≤◌, ◌==◌, ◌&&◌, ◌||◌, if◌then◌else◌, not, [], Some, None, IfOk, OnOk};
ghost use Rattle.std.specs.List.{list_any};
ghost use Rattle.repack_book.specs.declared.items.LiveItem.{LiveItem};
ghost use Rattle.repack_book.specs.Order.{has_item, is_item};
ghost use Rattle.repack_book.specs.Walks.{IsFirstFrom};

use cta_site::NoMemory;
use std::alloc::Global;
use std::marker::Model;
use sum_trees::{Forest, Summed};

// A live item: its repack with the repack's tape, its file and its copy.
#[derive(Clone, Copy)]
pub(crate) struct LiveItem {
    pub(crate) tape: u32,
    pub(crate) repack: u32,
    pub(crate) file: u32,
    pub(crate) copy: u8,
}

impl Summed for LiveItem {
    ghost use Rattle.std.specs.Prelude.{refl};
    ghost use Rattle.repack_book.specs.Order.{item_before};
    ghost use Rattle.repack_book.specs.Laws.{item_one_way, item_splits};

    type Sum = ();

    ghost before = { item_before };

    ghost sums = { record { own = λ _. tt; joined = λ _ _. tt } };

    ghost joins = { λ a b c. refl };

    ghost one_way = { λ a b e. item_one_way a b e };

    ghost splits = { λ a b c e. item_splits a b c e };

    fn is_before(&self, other: &Self) -> bool {
        if self.tape != other.tape {
            return self.tape < other.tape;
        }
        if self.repack != other.repack {
            return self.repack < other.repack;
        }
        if self.file != other.file {
            return self.file < other.file;
        }
        self.copy < other.copy
    }

    fn sum(&self) {}

    fn join(_first: (), _second: ()) {}
}

// The live items, in order of tape, repack, file and copy. Contracts see them, and for how many more there is room.
#[derive(Drop)]
pub(crate) struct LiveItems {
    forest: Forest<LiveItem>,
}

impl Model for LiveItems {
    ghost use Rattle.std.specs.Prelude.{◌≡◌, List, length};
    ghost use Rattle.part_model.specs.Room.{Roomed};
    ghost use Rattle.sum_trees.specs.Forests.{items_in};
    ghost use Rattle.repack_book.specs.declared.items.LiveItem.{LiveItem};

    ghost Value = { Roomed (List LiveItem) };

    ghost view = { λ x. record { value = items_in x.forest.trees 0; room = x.forest.room } };

    ghost invariant = { λ x. length x.forest.trees ≡ 1 };
}

// The copy of an item, where it is one of this file in this repack of this tape.
fn copy_of(item: LiveItem, tape: u32, repack: u32, file: u32) -> Option<u8>
    ensures { result ≡ (if (item.tape == tape && item.repack == repack) && item.file == file then Some item.copy else None) }
{
    if item.tape != tape {
        return None;
    }
    if item.repack != repack {
        return None;
    }
    if item.file != file {
        return None;
    }
    Some(item.copy)
}

impl LiveItems {
    // No item, with no room yet. NoMemory gives nothing.
    pub(crate) fn new(alloc: Global) -> Result<LiveItems, NoMemory>
        ensures { IfOk result (λ items. items.value ≡ []) }
    {
        let forest = Forest::new(alloc, 1)?;
        Ok(LiveItems { forest })
    }

    // Makes room for at least this many more items.
    pub(crate) fn reserve(&mut self, more: u32) -> Result<(), NoMemory>
        ensures value { self.new.value ≡ self.old.value }
        ensures room { OnOk result (more ≤ self.new.room) }
    {
        self.forest.reserve(more)
    }

    // The item is there from then on. It takes no memory.
    pub(crate) fn add(&mut self, item: LiveItem)
        requires { 0 < self.old.room }
        ensures items { (t r f c : ℕ) → has_item self.new.value t r f c ≡ (is_item t r f c item || has_item self.old.value t r f c) }
        ensures room { self.old.room ≤ self.new.room + 1 }
    {
        if self.forest.get(0, item).is_some() {
            return;
        }
        self.forest.insert(0, item);
    }

    // The item is not there from then on. It takes no memory.
    pub(crate) fn take(&mut self, item: LiveItem)
        ensures items { (t r f c : ℕ) → has_item self.new.value t r f c ≡ (not (is_item t r f c item) && has_item self.old.value t r f c) }
        ensures room { self.old.room ≤ self.new.room }
    {
        let _ = self.forest.take(0, item);
    }

    // Whether there is an item of a tape.
    pub(crate) fn any_on(&self, tape: u32) -> bool
        ensures { result ≡ list_any (λ (x : LiveItem). x.tape == tape) self.now.value }
    {
        let start = LiveItem {
            tape,
            repack: 0,
            file: 0,
            copy: 0,
        };
        match self.forest.from(0, start) {
            Some(first) => first.tape == tape,
            None => false,
        }
    }
    // The first copy of a file from this one on that is live in a repack of a tape.
    pub(crate) fn copy_from(&self, tape: u32, repack: u32, file: u32, copy: u8) -> Option<u8>
        ensures { IsFirstFrom (has_item self.now.value tape repack file) copy result }
    {
        let start = LiveItem {
            tape,
            repack,
            file,
            copy,
        };
        match self.forest.from(0, start) {
            Some(first) => copy_of(first, tape, repack, file),
            None => None,
        }
    }
}
