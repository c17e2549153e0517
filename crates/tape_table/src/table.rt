// The table of tapes and places.
ghost use Rattle.std.specs.Prelude.{◌≡◌, ℕ, ◌+◌, ◌<◌, ◌≤◌, ◌^◌, [], map, length, slice_get, IfOk, OnOk};
ghost use Rattle.part_model.specs.Tapes as said;
ghost use Rattle.part_model.specs.Tapes.{HasTurned, HasDropped, HasFlushed, TablesAgree, row_in, place_in, live_in, is_whole_place};
ghost use Rattle.tape_table.specs.Rows.{fresh_row};
ghost use Rattle.tape_table.specs.Live.{IsNextLive};
ghost use Rattle.tape_table.specs.Sources.{sources_in};

use crate::index::PlaceIndex;
use crate::sources::{nth, readable, whole};
use crate::tapes::{fresh_rows, row_at, set_row};
use cta_model::{Fate, Item, Place};
use cta_site::{NoMemory, TapeState, ValidSite};
use part_model::{Placed, TapeRow};
use std::alloc::Global;
use std::marker::Model;

/// The tapes of a site, what is used of each, the fSeq that its next item gets, its state, and the places of copies. Tapes
/// and files are named by their numbers. Contracts see the table, and for how many more places there is room.
#[derive(Drop)]
pub struct TapeTable {
    rows: Vec<TapeRow>,
    index: PlaceIndex,
}

impl Model for TapeTable {
    ghost use Rattle.part_model.specs.Room.{Roomed};
    ghost use Rattle.part_model.specs.Tapes.{Table};
    ghost use Rattle.tape_table.specs.Indexed.{AreFiled};

    ghost Value = { Roomed Table };

    ghost view = { λ t. record { value = record { rows = t.rows.items; places = t.index.places }; room = t.index.room } };

    ghost invariant = { λ t. AreFiled t.rows.items t.index };
}

impl TapeTable {
    /// The tapes of a site in their states, on which nothing was written. NoMemory leaves nothing. Its cost is the number of tapes.
    pub fn new(alloc: Global, site: &ValidSite) -> Result<TapeTable, NoMemory>
        ensures rows { IfOk result (λ table. table.value.rows ≡ map fresh_row site.now.tapes.items) }
        ensures places { IfOk result (λ table. table.value.places ≡ []) }
    {
        site.keeps_rules();
        let rows = fresh_rows(alloc, site.tapes())?;
        let index = PlaceIndex::new(alloc, rows.len() as u32)?;
        Ok(TapeTable { rows, index })
    }

    /// Makes room for at least this many more places, and never makes the room smaller. NoMemory changes nothing that the
    /// table tells. Its cost is the number of places where it takes memory.
    pub fn reserve(&mut self, items: u32) -> Result<(), NoMemory>
        ensures table { TablesAgree self.new.value self.old.value }
        ensures tapes { length self.new.value.rows ≡ length self.old.value.rows }
        ensures room { OnOk result (items ≤ self.new.room) }
        ensures kept { self.old.room ≤ self.new.room }
    {
        self.index.reserve(items)
    }

    /// The row of a tape: its used bytes, the fSeq of its next item, and its state. In constant time.
    pub fn row(&self, tape: u32) -> TapeRow
        ensures { result ≡ row_in self.now.value tape }
    {
        row_at(self.rows.as_slice(), tape)
    }

    /// The place of a copy, counted from 1; None exactly where it has none. In constant time.
    pub fn place(&self, file: u32, copy: u8) -> Option<Place>
        ensures { result ≡ place_in self.now.value file copy }
    {
        self.index.place(file, copy)
    }

    /// For how many more places there is room, in constant time.
    pub fn room(&self) -> usize
        ensures { result ≡ self.now.room }
    {
        self.index.room()
    }

    /// How many tapes there are, in constant time.
    pub fn tapes(&self) -> usize
        ensures { result ≡ length self.now.value.rows }
    {
        self.rows.len()
    }

    /// Whether a copy, counted from 1, has a place on a tape that is not BROKEN. In constant time.
    pub fn is_whole(&self, file: u32, copy: u8) -> bool
        ensures { result ≡ is_whole_place self.now.value (place_in self.now.value file copy) }
    {
        match self.place(file, copy) {
            Some(place) => self.row(place.tape).state != TapeState::Broken,
            None => false,
        }
    }

    /// How many copies have their place on a tape, 0 for a tape that is not there. In constant time.
    pub fn live(&self, tape: u32) -> u32
        ensures { result ≡ live_in self.now.value tape }
    {
        if (tape as usize) < self.rows.len() {
            return self.index.live(tape);
        }
        self.index.none_beyond(tape, 0);
        0
    }

    /// The first copy, by fSeq, that has its place on a tape at this fSeq or behind it; None exactly where there is none. Asked
    /// again with the next fSeq behind each copy, it passes all live copies of the tape (`walks_pass_all`). Its cost is the
    /// logarithm of their number.
    pub fn next_live(&self, tape: u32, fseq: u32) -> Option<Placed>
        ensures { IsNextLive self.now.value.places tape fseq result }
    {
        if (tape as usize) < self.rows.len() {
            return self.index.next(tape, fseq);
        }
        self.index.none_beyond(tape, fseq);
        None
    }

    /// A source of a file by its number from 0; None exactly from their number on. In constant time.
    pub fn place_at(&self, file: u32, index: u8) -> Option<Place>
        ensures { result ≡ slice_get (sources_in self.now.value file) index }
    {
        let copies = [
            self.place(file, 1),
            self.place(file, 2),
            self.place(file, 3),
            self.place(file, 4),
        ];
        let rows = self.rows.as_slice();
        let good = [
            readable(rows, copies[0]),
            readable(rows, copies[1]),
            readable(rows, copies[2]),
            readable(rows, copies[3]),
        ];
        if nth(&good, 0).is_some() {
            return nth(&good, index);
        }
        let all = [
            whole(rows, copies[0]),
            whole(rows, copies[1]),
            whole(rows, copies[2]),
            whole(rows, copies[3]),
        ];
        nth(&all, index)
    }

    /// More bytes of a tape of the site are used, set aside for a batch that is to be written. It takes no memory and constant time.
    pub fn claim(&mut self, tape: u32, bytes: u64)
        requires tape { tape < length self.old.value.rows }
        requires fits { (row_in self.old.value tape).used + bytes < 2 ^ 64 }
        ensures table { HasTurned tape (said.claimed_row bytes) self.old.value self.new.value }
        ensures tapes { length self.new.value.rows ≡ length self.old.value.rows }
        ensures room { self.old.room ≤ self.new.room }
    {
        let row = self.row(tape);
        let used = row.used + bytes;
        set_row(&mut self.rows, tape, TapeRow { used, ..row });
    }

    /// Fewer bytes of a tape of the site are used, none where more are given up than are used. It takes no memory and constant time.
    pub fn unclaim(&mut self, tape: u32, bytes: u64)
        requires { tape < length self.old.value.rows }
        ensures table { HasTurned tape (said.unclaimed_row bytes) self.old.value self.new.value }
        ensures tapes { length self.new.value.rows ≡ length self.old.value.rows }
        ensures room { self.old.room ≤ self.new.room }
    {
        let row = self.row(tape);
        let used = row.used.saturating_sub(bytes);
        set_row(&mut self.rows, tape, TapeRow { used, ..row });
    }

    /// A tape of the site gets a state. It takes no memory and constant time.
    pub fn set_state(&mut self, tape: u32, state: TapeState)
        requires { tape < length self.old.value.rows }
        ensures table { HasTurned tape (said.row_in_state state) self.old.value self.new.value }
        ensures tapes { length self.new.value.rows ≡ length self.old.value.rows }
        ensures room { self.old.room ≤ self.new.room }
    {
        let row = self.row(tape);
        set_row(&mut self.rows, tape, TapeRow { state, ..row });
    }

    /// A tape of the site, on which no copy has its place, is written from its beginning again: nothing is used, and its next
    /// item gets the fSeq 1. It takes no memory and constant time.
    pub fn reclaim(&mut self, tape: u32)
        requires tape { tape < length self.old.value.rows }
        requires empty { live_in self.old.value tape ≡ 0 }
        ensures table { HasTurned tape said.reclaimed_row self.old.value self.new.value }
        ensures tapes { length self.new.value.rows ≡ length self.old.value.rows }
        ensures room { self.old.room ≤ self.new.room }
    {
        let row = self.row(tape);
        set_row(
            &mut self.rows,
            tape,
            TapeRow {
                used: 0,
                next: 1,
                ..row
            },
        );
    }

    /// An item was flushed to a tape of the site: it has the fSeq that is given, and its copy has this place from then on where
    /// its fate is Done. Its bytes were claimed, so that the used bytes stay. It takes no memory and constant time.
    pub fn flushed(&mut self, tape: u32, item: Item, fate: Fate) -> u32
        requires tape { tape < length self.old.value.rows }
        requires room { 0 < self.old.room }
        requires next { (row_in self.old.value tape).next + 1 < 2 ^ 32 }
        requires first { 1 ≤ item.job.copy }
        requires last { item.job.copy ≤ 4 }
        ensures table { HasFlushed tape (item, fate) self.old.value self.new.value }
        ensures fseq { result ≡ (row_in self.old.value tape).next }
        ensures tapes { length self.new.value.rows ≡ length self.old.value.rows }
        ensures room { self.old.room ≤ self.new.room + 1 }
    {
        let row = self.row(tape);
        let fseq = row.next;
        let next = fseq + 1;
        set_row(&mut self.rows, tape, TapeRow { next, ..row });
        if fate == Fate::Done {
            let copy = item.job.copy;
            self.index.put(item.job.file, Place { copy, tape, fseq });
        }
        fseq
    }

    /// No copy of the file has a place any more. It takes no memory, and its cost is the logarithm of the number of copies on
    /// their tapes.
    pub fn drop_file(&mut self, file: u32)
        ensures table { HasDropped file self.old.value self.new.value }
        ensures tapes { length self.new.value.rows ≡ length self.old.value.rows }
        ensures room { self.old.room ≤ self.new.room }
    {
        self.index.forget_file(file);
    }
}
