// The entries that are kept.
ghost use Rattle.std.specs.Prelude.{◌≡◌, ◌+◌, ◌<◌, ◌≤◌, ◌^◌, ◌∷◌, [], length, nat_lt, option_copied, option_map, IfOk, OnOk};
ghost use Rattle.cta_model.specs.Bare.{bare_answer, bare_ask, bare_entry};
ghost use Rattle.cta_model.specs.History.{entry_of, moment_of, next_number, weight_of};
ghost use Rattle.cta_model.specs.Legal.{actor_of, new_entry};
ghost use Rattle.cta_model.specs.Newest.{history_in};

use crate::weight::weight_of_entry;
use cta_model::{Actor, Answer, Ask, Entry, NoMemory, Rows, Who};
use std::alloc::Global;
use std::marker::Model;

/// The history of an archive: its entries, which have the numbers from 1 in the order in which they came, and their
/// weight. Contracts see the history, newest entry first, and the room for more. This project's own.
#[derive(Drop)]
pub struct KeptHistory {
    // The entries, oldest first.
    entries: Rows<Entry>,
    // Their weight; more than 2^64 - 1 counts as so much.
    weight: u64,
}

impl Model for KeptHistory {
    ghost use Rattle.std.specs.Prelude.{◌≡◌, ◌+◌, ◌<◌, ◌^◌, length};
    ghost use Rattle.cta_model.specs.History.{History, weight_of};
    ghost use Rattle.cta_model.specs.Newest.{history_in};
    ghost use Rattle.part_model.specs.Room.{Roomed};
    ghost use Rattle.kept_history.specs.Weight.{capped};

    ghost Value = { Roomed History };

    ghost view = { λ k. record { value = history_in k.entries.items; room = k.entries.room } };

    ghost invariant = { λ k. record {
      counted : k.weight ≡ capped (weight_of (history_in k.entries.items));
      few : length k.entries.items + 1 < 2 ^ 32;
    } };
}

#[tactic(auto, using(cta_model::proofs::Newest::scans, cta_model::proofs::Newest::moments, crate::proofs::Numbers::numbers))]
impl KeptHistory {
    /// A history with no entry. It takes no memory and constant time.
    pub fn new(alloc: Global) -> KeptHistory
        ensures { result.value ≡ [] }
    {
        KeptHistory {
            entries: Rows::of(Vec::new(alloc)),
            weight: 0,
        }
    }

    /// Makes room for at least this many more entries, and never makes the room smaller. NoMemory changes nothing. Its cost
    /// is the number of entries where the room grows, and constant otherwise.
    pub fn reserve(&mut self, more: u32) -> Result<(), NoMemory>
        ensures value { self.new.value ≡ self.old.value }
        ensures room { OnOk result (more ≤ self.new.room) }
        ensures kept { self.old.room ≤ self.new.room }
    {
        self.entries.reserve(more)
    }

    /// Adds an entry, for which room is left. It takes no memory and constant time.
    pub fn push(&mut self, entry: Entry)
        requires room { 0 < self.old.room }
        requires few { length self.old.value + 2 < 2 ^ 32 }
        ensures value { self.new.value ≡ bare_entry entry ∷ self.old.value }
        ensures room { self.old.room ≤ self.new.room + 1 }
    {
        let weight = weight_of_entry(&entry.ask, &entry.answer);
        self.entries.push(entry);
        self.weight = self.weight.saturating_add(weight);
    }

    /// Adds the entry of an ask that was accepted at this moment, in seconds since 1970, or at the last entry's where that is
    /// later. Room is left for it. It takes no memory and constant time.
    pub fn append(&mut self, at: u64, actor: Actor, ask: Ask, answer: Answer)
        requires room { 0 < self.old.room }
        requires few { length self.old.value + 2 < 2 ^ 32 }
        requires by { actor ≡ actor_of self.old.value (bare_ask ask) }
        ensures { self.new.value ≡ new_entry self.old.value at (bare_ask ask) (bare_answer answer) ∷ self.old.value }
    {
        let at = self.moment_of(at);
        self.push(Entry {
            at,
            actor,
            ask,
            answer,
        });
    }

    /// Copies who asks, and makes room for one more entry. NoMemory gives nothing, and changes no entry. Its cost is that of
    /// `reserve` and the length of the names.
    pub fn prepare(&mut self, who: &Who) -> Result<Who, NoMemory>
        ensures entries { self.new.value ≡ self.old.value }
        ensures entry_room { OnOk result (0 < self.new.room) }
        ensures caller { IfOk result (λ caller. caller ≡ who.now) }
    {
        self.reserve(1)?;
        who.copy()
    }

    /// The number that the next entry gets, in constant time.
    pub fn next_number(&self) -> u32
        ensures number { result ≡ next_number self.now.value }
        ensures few { result < 2 ^ 32 }
    {
        self.entries.len() as u32 + 1
    }

    /// The moment, in seconds since 1970, of a call that is given this one: moments never fall. In constant time.
    pub fn moment_of(&self, at: u64) -> u64
        ensures { result ≡ moment_of self.now.value at }
    {
        let entries = self.entries.as_slice();
        let count = entries.len();
        if count == 0 {
            at
        } else {
            at.max(entries[count - 1].at)
        }
    }

    /// Whether the history would weigh more than the limit with an entry of this weight, in constant time.
    pub fn would_pass(&self, limit: u32, weight: u64) -> bool
        ensures { result ≡ nat_lt limit (weight_of self.now.value + weight) }
    {
        (limit as u64) < self.weight.saturating_add(weight)
    }

    /// The entry of this number, from 1; None exactly where there is none. In constant time.
    pub fn entry(&self, number: u32) -> Option<&Entry>
        ensures { option_map bare_entry (option_copied result) ≡ entry_of self.now.value number }
    {
        let entries = self.entries.as_slice();
        let number = number as usize;
        if number == 0 || number > entries.len() {
            return None;
        }
        Some(&entries[number - 1])
    }

    /// The entries, oldest first, in constant time.
    pub fn entries(&self) -> &[Entry]
        ensures history { history_in result.now ≡ self.now.value }
        ensures few { length result.now + 1 < 2 ^ 32 }
    {
        self.entries.as_slice()
    }
}
