// A kept repack.
ghost use Rattle.std.specs.Prelude.{◌≡◌, ◌<◌, ◌==◌, ◌&&◌, ℕ, Some, None, true, if◌then◌else◌, IfOk, length, slice_get};
ghost use Rattle.cta_model.specs.declared.reports.ItemState.TheVariants as item;
ghost use Rattle.cta_model.specs.Mounts.{has_copy};
ghost use Rattle.repack_book.specs.States.{state_at};
ghost use Rattle.std.specs.List.{list_any};
ghost use Rattle.cta_model.specs.declared.states.RepackCopy.{RepackCopy};
ghost use Rattle.cta_model.specs.Repacks.{is_live_item};
ghost use Rattle.cta_model.specs.History.{has_number};
ghost use Rattle.part_model.specs.Repacks.{is_reading, is_writing, reading_copies};
ghost use Rattle.repack_book.specs.NamedRepacks.{fresh_repack, set_in};
ghost use Rattle.repack_book.specs.Live.{has_live, has_state};
ghost use Rattle.repack_book.specs.Order.{has_item};
ghost use Rattle.repack_book.specs.Reports.{bare_info, items_told, repack_told};
ghost use Rattle.repack_book.specs.Walks.{IsFirstFrom};

use crate::items::LiveItems;
use crate::states::{States, reads, state_of, turn, writes};
use cta_model::{ItemState, Job, RepackInfo, RepackItem};
use cta_site::{NoMemory, Rows, Text};
use std::alloc::Global;
use std::marker::Model;

// A repack: its tape with the VID, its copies with the path of each one's file, and the state of each copy.
#[derive(Drop)]
pub(crate) struct RepackRow {
    tape: u32,
    vid: Text,
    jobs: Rows<Job>,
    paths: Rows<Text>,
    states: States,
}

impl Model for RepackRow {
    ghost use Rattle.repack_book.specs.NamedRepacks.{KeptRepack};
    ghost use Rattle.repack_book.specs.States.{AreStates, items_of};

    ghost Value = { KeptRepack };

    ghost view = { λ r. record { repack = record { tape = r.tape; items = items_of r.states.entries r.jobs.items }; vid = r.vid; paths = r.paths.items } };

    ghost invariant = { λ r. AreStates r.states.entries r.jobs.items r.paths.items };
}

impl RepackRow {
    // A repack of a tape with these copies as its items, all READING. It takes no memory and constant time.
    pub(crate) fn of(
        tape: u32,
        vid: Text,
        jobs: Rows<Job>,
        paths: Rows<Text>,
        states: States,
    ) -> RepackRow
        requires named { length paths.items ≡ length jobs.items }
        requires states { (f c : ℕ) → state_at states.entries f c ≡ (if has_copy f c jobs.items then Some item.Reading else None) }
        requires low { (f c : ℕ) → has_copy f c jobs.items ≡ true → c < 256 }
        ensures { result ≡ record { repack = fresh_repack tape jobs.items; vid = vid; paths = paths.items } }
    {
        RepackRow {
            tape,
            vid,
            jobs,
            paths,
            states,
        }
    }

    // The tape.
    pub(crate) fn tape(&self) -> u32
        ensures { result ≡ self.now.repack.tape }
    {
        self.tape
    }

    // An item takes the state where it is live. It takes no memory and constant time.
    pub(crate) fn set(&mut self, file: u32, copy: u8, state: ItemState)
        ensures { self.new ≡ set_in file copy state self.old }
    {
        turn(&mut self.states, file, copy, state);
    }

    // Whether an item of a copy is WRITING. In constant time.
    pub(crate) fn is_writing(&self, file: u32, copy: u8) -> bool
        ensures { result ≡ has_state file copy is_writing self.now.repack.items }
    {
        match self.states.get(&(file, copy)).copied() {
            Some(state) => writes(state),
            None => false,
        }
    }

    // Whether an item of a copy is READING. In constant time.
    fn is_reading(&self, file: u32, copy: u8) -> bool
        ensures is { result ≡ has_state file copy is_reading self.now.repack.items }
        ensures low { (c : ℕ) → has_state file c is_reading self.now.repack.items ≡ true → c < 256 }
    {
        match self.states.get(&(file, copy)).copied() {
            Some(state) => reads(state),
            None => false,
        }
    }

    // The first copy of a file from this one on that is READING, by the live items. The repack has this number. It takes no memory, and
    // its cost is the logarithm of the number of live items, and as much for each copy of the file that is passed over since it is
    // WRITING.
    pub(crate) fn reading(&self, items: &LiveItems, id: u32, file: u32, from: u8) -> Option<u8>
        requires { (c : ℕ) → has_item items.now.value self.now.repack.tape id file c ≡ has_live file c self.now.repack.items }
        ensures { IsFirstFrom (λ c. has_number c (reading_copies file (Some self.now.repack))) from result }
    {
        let mut at = from;
        while let Some(copy) = items.copy_from(self.tape, id, file, at) {
            if self.is_reading(file, copy) {
                return Some(copy);
            }
            if copy == 255 {
                return None;
            }
            at = copy + 1;
        }
        None
    }

    // Whether an item of a file is live, by the live items. The repack has this number. Its cost is the logarithm of the number of live
    // items.
    pub(crate) fn pins(&self, items: &LiveItems, id: u32, file: u32) -> bool
        requires { (c : ℕ) → has_item items.now.value self.now.repack.tape id file c ≡ has_live file c self.now.repack.items }
        ensures { result ≡ list_any (λ (i : RepackCopy). i.file == file && is_live_item i.state) self.now.repack.items }
    {
        items.copy_from(self.tape, id, file, 0).is_some()
    }

    // What is told of an item, of which there is one at this place.
    fn item(&self, at: usize) -> Result<RepackItem, NoMemory>
        requires { at < length self.now.paths }
        ensures { IfOk result (λ item. slice_get (items_told self.now.repack.items self.now.paths) at ≡ Some item) }
    {
        let job = self.jobs.as_slice()[at];
        let state = state_of(&self.states, job.file, job.copy);
        let path = self.paths.as_slice()[at].copy()?;
        Ok(RepackItem {
            path,
            copy: job.copy,
            state,
        })
    }

    // What is told of the repack of this number. NoMemory gives nothing. Its cost is the number of its items and the length of
    // their paths.
    pub(crate) fn info(&self, alloc: Global, id: u32) -> Result<RepackInfo, NoMemory>
        ensures { IfOk result (λ info. bare_info info ≡ repack_told id self.now) }
    {
        let vid = self.vid.copy()?;
        let mut items = Vec::new(alloc);
        for at in 0..self.paths.len() {
            let item = self.item(at)?;
            items.push(item)?;
        }
        Ok(RepackInfo {
            id,
            vid,
            items: Rows::of(items),
        })
    }
}
