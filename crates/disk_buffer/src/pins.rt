// The pins.
ghost use Rattle.std.specs.Prelude.{◌≡◌, ◌∷◌, [], ◌+◌, ◌<◌, ◌≤◌, ℕ, false, length, IfOk, OnOk, not, ◌==◌, ◌&&◌, filter};
ghost use Rattle.part_model.specs.declared.space.HeldPin.{HeldPin};
ghost use Rattle.part_model.specs.Held.{pins_in, pins_without};
ghost use Rattle.sum_trees.specs.Forests.{items_in};
ghost use Rattle.disk_buffer.specs.PinRows.{TellsPin, end_in, later_end};

use crate::pin_row::PinRow;
use cta_site::NoMemory;
use std::alloc::Global;
use std::marker::Model;
use sum_trees::Forest;

// The pins of files, one at most for each file and owner. Contracts see them in the order of files and owners, and for how many
// more there is room.
#[derive(Drop)]
pub(crate) struct Pins {
    forest: Forest<PinRow>,
}

impl Model for Pins {
    ghost use Rattle.std.specs.Prelude.{◌≡◌, List, length};
    ghost use Rattle.part_model.specs.declared.space.HeldPin.{HeldPin};
    ghost use Rattle.part_model.specs.Room.{Roomed};
    ghost use Rattle.sum_trees.specs.Forests.{items_in};
    ghost use Rattle.disk_buffer.specs.PinRows.{pins_of};

    ghost Value = { Roomed (List HeldPin) };

    ghost view = { λ p. record { value = pins_of (items_in p.forest.trees 0); room = p.forest.room } };

    ghost invariant = { λ p. length p.forest.trees ≡ 1 };
}

// A pin of this file by this owner, of which nothing else is asked.
fn pin_like(file: u64, owner: u32) -> PinRow
    ensures { result ≡ record { until = 0; file = file; owner = owner } }
{
    PinRow {
        until: 0,
        file,
        owner,
    }
}

// The later of a pin's end, where there is a pin, and another end.
fn later_end(found: Option<PinRow>, until: u64) -> u64
    ensures { result ≡ later_end found until }
{
    match found {
        None => until,
        Some(row) => row.until.max(until),
    }
}

// The first pin of a file.
fn first_pin(forest: &Forest<PinRow>, file: u32) -> Option<PinRow>
    requires { length forest.now.trees ≡ 1 }
    ensures { TellsPin file (items_in forest.now.trees 0) result }
{
    match forest.from(0, pin_like(file.into(), 0)) {
        None => None,
        Some(row) => {
            if row.file != file.into() {
                return None;
            }
            Some(row)
        }
    }
}

impl Pins {
    // No pin, with no room yet. NoMemory gives nothing.
    pub(crate) fn new(alloc: Global) -> Result<Pins, NoMemory>
        ensures { IfOk result (λ pins. pins.value ≡ []) }
    {
        let forest = Forest::new(alloc, 1)?;
        Ok(Pins { forest })
    }

    // Makes room for at least this many more pins, and never makes the room smaller. NoMemory changes no pin.
    pub(crate) fn reserve(&mut self, more: u32) -> Result<(), NoMemory>
        ensures value { self.new.value ≡ self.old.value }
        ensures room { OnOk result (more ≤ self.new.room) }
        ensures kept { self.old.room ≤ self.new.room }
    {
        self.forest.reserve(more)
    }

    // The greatest end of a file's pins, 0 where there is none.
    pub(crate) fn end(&self, file: u32) -> u64
        ensures { result ≡ end_in self.now.value file }
    {
        let low = pin_like(file.into(), 0);
        let high = pin_like(u64::from(file) + 1, 0);
        match self.forest.sum_between(0, low, high) {
            None => 0,
            Some(end) => end,
        }
    }

    // An owner pins a file until a moment, and where it does so already, until the later end.
    pub(crate) fn set(&mut self, file: u32, owner: u32, until: u64)
        requires { 0 < self.old.room }
        ensures pins { (t f id : ℕ) → pins_in self.new.value t f id ≡ pins_in (record { file = file; owner = owner; until = until } ∷ self.old.value) t f id }
        ensures ends { (f : ℕ) → end_in self.new.value f ≡ end_in (record { file = file; owner = owner; until = until } ∷ self.old.value) f }
        ensures room { self.old.room ≤ self.new.room + 1 }
    {
        let like = pin_like(file.into(), owner);
        let found = self.forest.get(0, like);
        let row = PinRow {
            until: later_end(found, until),
            file: file.into(),
            owner,
        };
        // A pin changes in its place, so the tree keeps its shape and is not balanced anew.
        if found.is_some() {
            self.forest.replace(0, row);
            return;
        }
        self.forest.insert(0, row);
    }

    // An owner pins a file no more.
    pub(crate) fn unset(&mut self, file: u32, owner: u32)
        ensures value { self.new.value ≡ filter (λ (p : HeldPin). not (p.file == file && p.owner == owner)) self.old.value }
        ensures room { self.old.room ≤ self.new.room }
    {
        let _was = self.forest.take(0, pin_like(file.into(), owner));
    }

    // Nobody pins a file any more.
    pub(crate) fn unset_all(&mut self, file: u32)
        ensures value { self.new.value ≡ pins_without (file ∷ []) self.old.value }
        ensures room { self.old.room ≤ self.new.room }
    {
        while let Some(row) = first_pin(&self.forest, file) {
            let _was = self.forest.take(0, row);
        }
    }
}
