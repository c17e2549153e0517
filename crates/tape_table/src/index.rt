// The places of copies, by copy and by tape.
ghost use Rattle.std.specs.Prelude.{◌≡◌, ℕ, ◌+◌, ◌<◌, ◌≤◌, ◌==◌, ◌&&◌, [], Some, None, if◌then◌else◌, IfOk, OnOk, length, filter, nat_lt};
ghost use Rattle.cta_model.specs.declared.states.Place.{Place};
ghost use Rattle.part_model.specs.declared.space.Placed.{Placed};
ghost use Rattle.part_model.specs.Tapes.{AreDistinct, place_among};
ghost use Rattle.tape_table.specs.Indexed.{IsBehind, placed_at};
ghost use Rattle.tape_table.specs.Live.{IsNextLive};

use crate::live::LiveCopy;
use crate::places::{make_room, put_in, take_out};
use cta_model::Place;
use cta_site::NoMemory;
use number_map::{NumberMap, new_map};
use part_model::Placed;
use std::alloc::Global;
use std::marker::Model;
use sum_trees::Forest;

// The places of copies: a map from each copy to its place, and a tree for each tape with the copies there in order of fSeq.
// Contracts see the copies with their places, how many tapes there are, and for how many more places there is room.
#[derive(Drop)]
pub(crate) struct PlaceIndex {
    map: NumberMap<(u32, u8), Place>,
    forest: Forest<LiveCopy>,
}

impl Model for PlaceIndex {
    ghost use Rattle.std.specs.Prelude.{length, min};
    ghost use Rattle.std.specs.HashMap.{spare, IsUnique};
    ghost use Rattle.tape_table.specs.Rows.{same_copy};
    ghost use Rattle.tape_table.specs.Indexed.{Indexed, IsIndex, placed_from};

    ghost Value = { Indexed };

    ghost view = { λ x. record { places = placed_from 0 x.forest.trees; tapes = length x.forest.trees; room = min (spare x.map) x.forest.room } };

    ghost invariant = { λ x. IsUnique same_copy x.map × IsIndex x.forest.trees x.map.entries };
}

impl PlaceIndex {
    // No place on any of so many tapes. NoMemory leaves nothing.
    pub(crate) fn new(alloc: Global, tapes: u32) -> Result<PlaceIndex, NoMemory>
        ensures places { IfOk result (λ index. index.places ≡ []) }
        ensures tapes { IfOk result (λ index. index.tapes ≡ tapes) }
    {
        let forest = Forest::new(alloc, tapes)?;
        let map = new_map(alloc);
        Ok(PlaceIndex { map, forest })
    }

    // Makes room for at least this many more places. NoMemory changes no place.
    pub(crate) fn reserve(&mut self, more: u32) -> Result<(), NoMemory>
        ensures places { self.new.places ≡ self.old.places }
        ensures tapes { self.new.tapes ≡ self.old.tapes }
        ensures room { OnOk result (more ≤ self.new.room) }
        ensures kept { self.old.room ≤ self.new.room }
    {
        make_room(&mut self.map, more)?;
        self.forest.reserve(more)
    }

    // For how many more places there is room.
    pub(crate) fn room(&self) -> usize
        ensures { result ≡ self.now.room }
    {
        let room = self.map.capacity() - self.map.len();
        room.min(self.forest.room())
    }

    // The place of a copy; None exactly where it has none.
    pub(crate) fn place(&self, file: u32, copy: u8) -> Option<Place>
        ensures { result ≡ place_among self.now.places file copy }
    {
        self.map.get(&(file, copy)).copied()
    }

    // How many copies have their place on a tape.
    pub(crate) fn live(&self, tape: u32) -> u32
        requires { tape < self.now.tapes }
        ensures { result ≡ length (filter (λ (p : Placed). p.place.tape == tape) self.now.places) }
    {
        match self.forest.sum(tape) {
            Some(count) => count,
            None => 0,
        }
    }

    // The next live copy on a tape at or after an fSeq; None exactly where there is none.
    pub(crate) fn next(&self, tape: u32, fseq: u32) -> Option<Placed>
        requires { tape < self.now.tapes }
        ensures { IsNextLive self.now.places tape fseq result }
    {
        let start = LiveCopy {
            fseq,
            file: 0,
            copy: 0,
        };
        match self.forest.from(tape, start) {
            None => None,
            Some(next) => Some(placed(tape, next)),
        }
    }

    // A tape that is not there has no live copy.
    pub(crate) fn none_beyond(&self, tape: u32, fseq: u32)
        requires { self.now.tapes ≤ tape }
        ensures live { 0 ≡ length (filter (λ (p : Placed). p.place.tape == tape) self.now.places) }
        ensures next { IsNextLive self.now.places tape fseq None }
    {
        let _forest = &self.forest;
    }

    // A copy has no place any more.
    pub(crate) fn forget(&mut self, file: u32, copy: u8)
        ensures places { (f c : ℕ) → place_among self.new.places f c ≡ (if file == f && copy == c then None else place_among self.old.places f c) }
        ensures distinct { AreDistinct self.new.places }
        ensures tapes { self.new.tapes ≡ self.old.tapes }
        ensures room { self.old.room ≤ self.new.room }
    {
        let Some(place) = self.place(file, copy) else {
            return;
        };
        let fseq = place.fseq;
        // That the tree is in order is known from this call.
        let _ = self.forest.sum(place.tape);
        let _ = self.forest.take(place.tape, LiveCopy { fseq, file, copy });
        take_out(&mut self.map, file, copy);
    }

    // No copy of a file below 5 has a place any more.
    pub(crate) fn forget_file(&mut self, file: u32)
        requires none { place_among self.old.places file 0 ≡ None }
        requires distinct { AreDistinct self.old.places }
        ensures places { (f c : ℕ) → place_among self.new.places f c ≡ (if file == f && nat_lt c 5 then None else place_among self.old.places f c) }
        ensures distinct { AreDistinct self.new.places }
        ensures tapes { self.new.tapes ≡ self.old.tapes }
        ensures room { self.old.room ≤ self.new.room }
    {
        for copy in 1..5u8 {
            self.forget(file, copy);
        }
    }

    // A copy has this place, and no other one.
    pub(crate) fn put(&mut self, file: u32, place: Place)
        requires tape { place.tape < self.old.tapes }
        requires room { 0 < self.old.room }
        requires behind { IsBehind self.old.places place.tape place.fseq }
        ensures places { (f c : ℕ) → place_among self.new.places f c ≡ (if file == f && place.copy == c then Some place else place_among self.old.places f c) }
        ensures distinct { AreDistinct self.new.places }
        ensures tapes { self.new.tapes ≡ self.old.tapes }
        ensures room { self.old.room ≤ self.new.room + 1 }
    {
        self.forget(file, place.copy);
        let (fseq, copy) = (place.fseq, place.copy);
        self.forest
            .insert(place.tape, LiveCopy { fseq, file, copy });
        put_in(&mut self.map, file, place);
    }
}

// A copy of a tape with its place.
fn placed(tape: u32, live: LiveCopy) -> Placed
    ensures { result ≡ placed_at tape live }
{
    let (file, copy, fseq) = (live.file, live.copy, live.fseq);
    Placed {
        file,
        copy,
        place: Place { copy, tape, fseq },
    }
}
