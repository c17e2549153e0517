// The book of repacks.
ghost use Rattle.std.specs.Prelude.{◌≡◌, ◌<◌, ◌≤◌, ◌^◌, [], ◌+◌, ◌==◌, ◌&&◌, ◌||◌, ℕ, Some, None, if◌then◌else◌, is_some, option_map, length, IfOk, OnOk, OnErr};
ghost use Rattle.cta_model.specs.Mounts.{has_copy};
ghost use Rattle.cta_model.specs.declared.states.RepackCopy.{RepackCopy};
ghost use Rattle.cta_model.specs.History.{has_number};
ghost use Rattle.cta_model.specs.Repacks.{is_live_item};
ghost use Rattle.part_model.specs.Repacks.{RepacksAgree, add_repack, has_item_by, is_live_in, is_writing, reading_copies, repack_in, set_state, writers_in};
ghost use Rattle.repack_book.specs.NamedRepacks.{NamesAgree, kept_in, names_in, repacks_of, set_in, tape_of};
ghost use Rattle.repack_book.specs.Reports.{bare_info, info_in};
ghost use Rattle.repack_book.specs.Order.{has_holder, has_item};
ghost use Rattle.repack_book.specs.Walks.{IsFirstFrom};

use crate::holders::{Holder, Holders};
use crate::items::{LiveItem, LiveItems};
use crate::maps::{make_room, put};
use crate::row::RepackRow;
use crate::states::{all_reading, is_live};
use cta_model::{ItemState, Job, RepackInfo};
use cta_site::{NoMemory, Rows, Text};
use number_map::{NumberMap, new_map};
use std::alloc::Global;
use std::marker::Model;

/// The book of repacks. Repacks, tapes and files are named by their numbers, and copies count from 1. Contracts see the repacks by
/// number, each with its tape's VID and the paths of its items' files. This project's own.
#[derive(Drop)]
pub struct RepackBook {
    alloc: Global,
    rows: NumberMap<u32, RepackRow>,
    items: LiveItems,
    holders: Holders,
}

impl Model for RepackBook {
    ghost use Rattle.repack_book.specs.NamedRepacks.{NamedRepacks};
    ghost use Rattle.repack_book.specs.Live.{AreIndexed};

    ghost Value = { NamedRepacks };

    ghost view = { λ b. b.rows.entries };

    ghost invariant = { λ b. AreIndexed b.rows.entries b.items.value b.holders.value };
}

// An item of a kept repack takes the state where it is live. The repack's tape, None where there is no such repack.
fn set_row(
    rows: &mut NumberMap<u32, RepackRow>,
    id: u32,
    file: u32,
    copy: u8,
    state: ItemState,
) -> Option<u32>
    ensures rows { (q : ℕ) → kept_in rows.new.entries q ≡ (if id == q then option_map (set_in file copy state) (kept_in rows.old.entries q) else kept_in rows.old.entries q) }
    ensures tape { result ≡ option_map tape_of (kept_in rows.old.entries id) }
{
    match rows.get_mut(&id) {
        Some(row) => {
            row.set(file, copy, state);
            Some(row.tape())
        }
        None => None,
    }
}

// Puts the copies of a repack among the live items, for which there is room.
fn note(items: &mut LiveItems, holders: &mut Holders, id: u32, tape: u32, jobs: &[Job])
    requires items_room { length jobs.now ≤ items.old.room }
    requires holders_room { length jobs.now ≤ holders.old.room }
    ensures items { (t r f c : ℕ) → has_item items.new.value t r f c ≡ (((t == tape && r == id) && has_copy f c jobs.now) || has_item items.old.value t r f c) }
    ensures holders { (f c r : ℕ) → has_holder holders.new.value f c r ≡ ((r == id && has_copy f c jobs.now) || has_holder holders.old.value f c r) }
{
    for job in jobs {
        let (file, copy) = (job.file, job.copy);
        items.add(LiveItem {
            tape,
            repack: id,
            file,
            copy,
        });
        holders.add(Holder {
            file,
            copy,
            repack: id,
        });
    }
}

impl RepackBook {
    /// A book of no repack. NoMemory gives nothing. In constant time.
    pub fn new(alloc: Global) -> Result<RepackBook, NoMemory>
        ensures { IfOk result (λ book. book ≡ []) }
    {
        let items = LiveItems::new(alloc)?;
        let holders = Holders::new(alloc)?;
        Ok(RepackBook {
            alloc,
            rows: new_map(alloc),
            items,
            holders,
        })
    }

    /// A repack of a tape is there from then on, with these copies as its items, all READING. Its number is new, and `paths` has
    /// the path of each item's file. NoMemory changes nothing that is told. Its cost is the number of items times the logarithm of
    /// the number of live items.
    pub fn add(
        &mut self,
        id: u32,
        tape: u32,
        vid: Text,
        items: Rows<Job>,
        paths: Rows<Text>,
    ) -> Result<(), NoMemory>
        requires new { repack_in (repacks_of self.old) id ≡ None }
        requires named { length paths.items ≡ length items.items }
        requires few { length items.items < 2 ^ 32 }
        ensures repacks { OnOk result (RepacksAgree (repacks_of self.new) (add_repack id tape items.items (repacks_of self.old))) }
        ensures names { OnOk result ((q : ℕ) → names_in self.new q ≡ (if id == q then Some (record { vid = vid; paths = paths.items }) else names_in self.old q)) }
        ensures unchanged { OnErr result (RepacksAgree (repacks_of self.new) (repacks_of self.old)) }
        ensures names_unchanged { OnErr result (NamesAgree self.new self.old) }
    {
        let more = items.len() as u32;
        self.items.reserve(more)?;
        self.holders.reserve(more)?;
        make_room(&mut self.rows)?;
        let states = all_reading(self.alloc, items.as_slice())?;
        note(
            &mut self.items,
            &mut self.holders,
            id,
            tape,
            items.as_slice(),
        );
        let row = RepackRow::of(tape, vid, items, paths, states);
        put(&mut self.rows, id, row);
        Ok(())
    }

    /// An item takes the state where it is READING or WRITING; nothing changes where it is not. It takes no memory. Its cost is the
    /// logarithm of the number of live items.
    pub fn set(&mut self, id: u32, file: u32, copy: u8, state: ItemState)
        ensures repacks { RepacksAgree (repacks_of self.new) (set_state id file copy state (repacks_of self.old)) }
        ensures names { NamesAgree self.new self.old }
    {
        let Some(tape) = set_row(&mut self.rows, id, file, copy, state) else {
            return;
        };
        if !is_live(state) {
            self.items.take(LiveItem {
                tape,
                repack: id,
                file,
                copy,
            });
            self.holders.take(Holder {
                file,
                copy,
                repack: id,
            });
        }
    }

    /// Whether a repack of the tape has an item that is READING or WRITING. Its cost is the logarithm of the number of live items.
    pub fn live(&self, tape: u32) -> bool
        ensures { result ≡ is_live_in (repacks_of self.now) tape }
    {
        self.items.any_on(tape)
    }

    /// Whether there is a repack of this number. In constant time.
    pub fn knows(&self, id: u32) -> bool
        ensures { result ≡ is_some (repack_in (repacks_of self.now) id) }
    {
        self.rows.contains_key(&id)
    }

    /// What is told of a repack, None exactly where there is none of this number. NoMemory gives nothing. Its cost is the number of
    /// its items and the length of their paths.
    pub fn info(&self, id: u32) -> Result<Option<RepackInfo>, NoMemory>
        ensures { IfOk result (λ told. option_map bare_info told ≡ info_in self.now id) }
    {
        match self.rows.get(&id) {
            Some(row) => Ok(Some(row.info(self.alloc, id)?)),
            None => Ok(None),
        }
    }

    /// The lowest copy of a file from this one on that the repack is READING, None exactly where there is none. It takes no memory.
    /// Its cost is the logarithm of the number of live items, and as much for each copy of the file that is passed over since it is
    /// WRITING.
    pub fn reading(&self, id: u32, file: u32, from: u8) -> Option<u8>
        ensures { IsFirstFrom (λ c. has_number c (reading_copies file (repack_in (repacks_of self.now) id))) from result }
    {
        match self.rows.get(&id) {
            Some(row) => row.reading(&self.items, id, file, from),
            None => None,
        }
    }

    /// Whether an item of the file is READING or WRITING in the repack. It takes no memory. Its cost is the logarithm of the number
    /// of live items.
    pub fn pins(&self, id: u32, file: u32) -> bool
        ensures { result ≡ has_item_by (λ (i : RepackCopy). i.file == file && is_live_item i.state) (repack_in (repacks_of self.now) id) }
    {
        match self.rows.get(&id) {
            Some(row) => row.pins(&self.items, id, file),
            None => false,
        }
    }

    /// Whether the repack is WRITING the copy of the file. In constant time.
    pub fn is_writing(&self, id: u32, file: u32, copy: u8) -> bool
        ensures { result ≡ has_item_by (λ (i : RepackCopy). (i.file == file && i.copy == copy) && is_writing i.state) (repack_in (repacks_of self.now) id) }
    {
        match self.rows.get(&id) {
            Some(row) => row.is_writing(file, copy),
            None => false,
        }
    }

    /// The repack of the lowest number that is WRITING the copy of the file, None exactly where none is. Its cost is the logarithm
    /// of the number of live items, for each repack that is passed over since it is still READING the copy.
    pub fn first_writer(&self, file: u32, copy: u8) -> Option<u32>
        ensures { IsFirstFrom (λ id. has_number id (writers_in (repacks_of self.now) file copy)) 0 result }
    {
        match self.holders.first(file, copy) {
            Some(holder) => {
                if self.is_writing(holder, file, copy) {
                    return Some(holder);
                }
                self.next_writer(file, copy, holder)
            }
            None => None,
        }
    }

    /// The repack of the next number behind this one that is WRITING the copy of the file, None exactly where none is. Its cost is
    /// that of `first_writer`.
    pub fn next_writer(&self, file: u32, copy: u8, id: u32) -> Option<u32>
        ensures { IsFirstFrom (λ q. has_number q (writers_in (repacks_of self.now) file copy)) (id + 1) result }
    {
        let mut at = id;
        while let Some(holder) = self.holders.after(file, copy, at) {
            if self.is_writing(holder, file, copy) {
                return Some(holder);
            }
            at = holder;
        }
        None
    }
}
