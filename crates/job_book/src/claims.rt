// Which mount claims each job, and how many jobs each mount claims.
ghost use Rattle.std.specs.Prelude.{◌≡◌, ◌==◌, [], ◌+◌, ◌-◌, ◌<◌, ◌≤◌, ◌^◌, ℕ, Some, None, if◌then◌else◌, OnOk};
ghost use Rattle.std.specs.HashMap.{spare};
ghost use Rattle.std.specs.List.{list_any, IsDistinct};
ghost use Rattle.std.specs.Map.{lookup, keys_of, values_of};
ghost use Rattle.job_book.specs.Claims.{counted_in};
ghost use Rattle.job_book.specs.Maps.{JobKey, is_key};

use crate::book::JobKey;
use crate::maps::{make_room, put, take_out};
use cta_site::NoMemory;
use number_map::{NumberMap, new_map};
use std::alloc::Global;
use std::marker::Model;

// The claims. Contracts see them as entries by job, and for how many more there is room.
#[derive(Drop)]
pub(crate) struct Claims {
    map: NumberMap<JobKey, u32>,
    counts: NumberMap<u32, u64>,
}

impl Model for Claims {
    ghost use Rattle.std.specs.Prelude.{min};
    ghost use Rattle.std.specs.HashMap.{spare, IsUnique};
    ghost use Rattle.job_book.specs.Maps.{is_key};
    ghost use Rattle.job_book.specs.Claims.{Claimed, AreCounted};

    ghost Value = { Claimed };

    ghost view = { λ c. record { entries = c.map.entries; room = min (spare c.map) (spare c.counts) } };

    ghost invariant = { λ c. IsUnique is_key c.map × AreCounted c.map.entries c.counts.entries };
}

// One more for a mount, for which there is room.
fn raise(counts: &mut NumberMap<u32, u64>, mount: u32)
    requires room { 0 < spare counts.old }
    requires fits { counted_in mount counts.old.entries + 1 < 2 ^ 64 }
    ensures counts { (m : ℕ) → counted_in m counts.new.entries ≡ (if mount == m then counted_in m counts.old.entries + 1 else counted_in m counts.old.entries) }
    ensures room { spare counts.old ≤ spare counts.new + 1 }
{
    let count = counts.get(&mount).copied().unwrap_or(0);
    put(counts, mount, count + 1);
}

// One fewer for a mount that has some.
fn lower(counts: &mut NumberMap<u32, u64>, mount: u32)
    requires { 0 < counted_in mount counts.old.entries }
    ensures counts { (m : ℕ) → counted_in m counts.new.entries ≡ (if mount == m then counted_in m counts.old.entries - 1 else counted_in m counts.old.entries) }
    ensures room { spare counts.old ≤ spare counts.new }
{
    if let Some(count) = counts.get_mut(&mount) {
        *count -= 1;
    }
}

// Leaves out a mount that has none.
fn leave_out(counts: &mut NumberMap<u32, u64>, mount: u32)
    ensures counts { (m : ℕ) → counted_in m counts.new.entries ≡ counted_in m counts.old.entries }
    ensures room { spare counts.old ≤ spare counts.new }
{
    let count = counts.get(&mount).copied().unwrap_or(0);
    if count == 0 {
        take_out(counts, mount);
    }
}

impl Claims {
    // No claims.
    pub(crate) fn new(alloc: Global) -> Claims
        ensures { result.entries ≡ [] }
    {
        Claims {
            map: new_map(alloc),
            counts: new_map(alloc),
        }
    }

    // Makes room for at least this many more. NoMemory changes no claim.
    pub(crate) fn reserve(&mut self, more: u32) -> Result<(), NoMemory>
        ensures values { (k : JobKey) → lookup (is_key k) self.new.entries ≡ lookup (is_key k) self.old.entries }
        ensures room { OnOk result (more ≤ self.new.room) }
        ensures kept { self.old.room ≤ self.new.room }
    {
        make_room(&mut self.counts, more)?;
        self.map.reserve(more as usize)?;
        Ok(())
    }

    // The mount that claims a job.
    pub(crate) fn get(&self, key: JobKey) -> Option<u32>
        ensures { result ≡ lookup (is_key key) self.now.entries }
    {
        self.map.get(&key).copied()
    }

    // Whether a mount claims any job.
    pub(crate) fn has(&self, mount: u32) -> bool
        ensures any { result ≡ list_any (λ m. m == mount) (values_of self.now.entries) }
        ensures unique { IsDistinct is_key (keys_of self.now.entries) }
    {
        self.counts.get(&mount).copied().unwrap_or(0) > 0
    }

    // A job is claimed by no mount any more.
    pub(crate) fn take_out(&mut self, key: JobKey)
        ensures values { (k : JobKey) → lookup (is_key k) self.new.entries ≡ (if is_key key k then None else lookup (is_key k) self.old.entries) }
        ensures room { self.old.room ≤ self.new.room }
    {
        let Some(mount) = self.map.remove(&key) else {
            return;
        };
        lower(&mut self.counts, mount);
        leave_out(&mut self.counts, mount);
    }

    // A job is claimed by this mount, and by no other.
    pub(crate) fn put(&mut self, key: JobKey, mount: u32)
        requires { 0 < self.old.room }
        ensures values { (k : JobKey) → lookup (is_key k) self.new.entries ≡ (if is_key key k then Some mount else lookup (is_key k) self.old.entries) }
        ensures room { self.old.room ≤ self.new.room + 1 }
    {
        self.take_out(key);
        let _room = self.map.capacity() - self.map.len();
        raise(&mut self.counts, mount);
        match self.map.insert(key, mount) {
            Ok(_) => {}
            Err(_) => unreachable!(),
        }
    }
}
