// The table of open mounts.
ghost use Rattle.std.specs.Prelude.{◌≡◌, ℕ, ◌+◌, ◌<◌, ◌≤◌, ◌==◌, [], find, length, is_some, false, IfOk, OnOk, OnErr};
ghost use Rattle.std.specs.Option.{option_map};
ghost use Rattle.cta_model.specs.History.{has_number};
ghost use Rattle.part_model.specs.declared.mounts.OpenMount.{OpenMount};
ghost use Rattle.part_model.specs.Mounts as said;

use crate::flags::{flag_at, lower, no_flags, raise};
use crate::rows::{of_drive, of_tape, place_of, put_items, row_of, take_out};
use cta_model::{Direction, Item};
use cta_site::{NoMemory, Rows, ValidSite};
use part_model::OpenMount;
use std::alloc::Global;
use std::marker::Model;

/// The open mounts, a row for each, oldest first, and the drives that are down. Mounts are named by the numbers of their Next
/// entries, drives, tapes and pools by their numbers in the site. Contracts see the rows, the drives that are down, the
/// number of the site's drives, and for how many more mounts there is room.
#[derive(Drop)]
pub struct OpenMounts {
    rows: Vec<OpenMount>,
    flags: Vec<bool>,
}

impl Model for OpenMounts {
    ghost use Rattle.std.specs.Prelude.{◌≡◌, ◌-◌, true, length, vec_capacity, vec_len};
    ghost use Rattle.part_model.specs.Room.{Roomed};
    ghost use Rattle.open_mounts.specs.Table.{MountTable, places_from, differ};

    ghost Value = { Roomed MountTable };

    ghost view = { λ m. record { value = record { rows = m.rows.items; downs = places_from 0 m.flags.items; drives = length m.flags.items }; room = vec_capacity m.rows - vec_len m.rows } };

    ghost invariant = { λ m. differ m.rows.items ≡ true };
}

impl OpenMounts {
    /// No open mount, and no drive of the site is down. NoMemory leaves nothing. Its cost is the number of drives.
    pub fn new(alloc: Global, site: &ValidSite) -> Result<OpenMounts, NoMemory>
        ensures rows { IfOk result (λ mounts. mounts.value.rows ≡ []) }
        ensures downs { IfOk result (λ mounts. mounts.value.downs ≡ []) }
        ensures drives { IfOk result (λ mounts. mounts.value.drives ≡ length site.now.drives.items) }
    {
        let flags = no_flags(alloc, site.drives().len())?;
        let rows = Vec::new(alloc);
        Ok(OpenMounts { rows, flags })
    }

    /// Makes room for at least this many more mounts, and never makes the room smaller. NoMemory changes nothing. Its cost is
    /// the number of open mounts.
    pub fn reserve(&mut self, mounts: u32) -> Result<(), NoMemory>
        ensures value { self.new.value ≡ self.old.value }
        ensures room { OnOk result (mounts ≤ self.new.room) }
        ensures kept { self.old.room ≤ self.new.room }
    {
        self.rows.reserve(mounts as usize)?;
        Ok(())
    }

    /// For how many more mounts there is room, in constant time.
    pub fn room(&self) -> usize
        ensures { result ≡ self.now.room }
    {
        self.rows.capacity() - self.rows.len()
    }

    /// The number of the site's drives, in constant time.
    pub fn drives(&self) -> usize
        ensures { result ≡ self.now.value.drives }
    {
        self.flags.len()
    }

    /// A mount is opened that is not open yet, and for which there is room; its row comes last. It takes no memory and
    /// constant time.
    pub fn open(&mut self, mount: OpenMount)
        requires room { 0 < self.old.room }
        requires new { said.has_mount mount.number self.old.value.rows ≡ false }
        ensures rows { self.new.value.rows ≡ said.opened mount self.old.value.rows }
        ensures downs { self.new.value.downs ≡ self.old.value.downs }
        ensures drives { self.new.value.drives ≡ self.old.value.drives }
        ensures room { self.old.room ≤ self.new.room + 1 }
    {
        match self.rows.push(mount) {
            Ok(()) => {}
            Err(_) => unreachable!(),
        }
    }

    /// A mount has claimed these items, which are the items of its last Claim from then on; where the mount is not open,
    /// nothing changes. It takes no memory, and its cost is the number of open mounts.
    pub fn claim(&mut self, mount: u32, items: Rows<Item>)
        ensures rows { self.new.value.rows ≡ said.claimed mount items self.old.value.rows }
        ensures downs { self.new.value.downs ≡ self.old.value.downs }
        ensures drives { self.new.value.drives ≡ self.old.value.drives }
        ensures room { self.old.room ≤ self.new.room }
    {
        let Some(at) = place_of(self.rows.as_slice(), mount) else {
            return;
        };
        put_items(&mut self.rows, at, items);
    }

    /// A mount is over; where it is not open, nothing changes. It takes no memory, and its cost is the number of open mounts.
    pub fn end(&mut self, mount: u32)
        ensures rows { self.new.value.rows ≡ said.ended mount self.old.value.rows }
        ensures downs { self.new.value.downs ≡ self.old.value.downs }
        ensures drives { self.new.value.drives ≡ self.old.value.drives }
        ensures room { self.old.room ≤ self.new.room }
    {
        take_out(&mut self.rows, mount);
    }

    /// The row of an open mount, None exactly where the mount is not open. Its cost is the number of open mounts.
    pub fn find(&self, mount: u32) -> Option<&OpenMount>
        ensures row { option_map (λ row. row.now) result ≡ said.row_of mount self.now.value.rows }
        ensures there { is_some result ≡ said.has_mount mount self.now.value.rows }
    {
        row_of(self.rows.as_slice(), mount)
    }

    /// The first row of an open mount of the drive, None exactly where there is none. Its cost is the number of open mounts.
    pub fn of_drive(&self, drive: u32) -> Option<&OpenMount>
        ensures row { option_map (λ row. row.now) result ≡ find (λ (r : OpenMount). r.drive == drive) self.now.value.rows }
        ensures there { is_some result ≡ said.has_drive drive self.now.value.rows }
    {
        of_drive(self.rows.as_slice(), drive)
    }

    /// The first row of an open mount of the tape, None exactly where there is none. Its cost is the number of open mounts.
    pub fn of_tape(&self, tape: u32) -> Option<&OpenMount>
        ensures row { option_map (λ row. row.now) result ≡ find (λ (r : OpenMount). r.tape == tape) self.now.value.rows }
        ensures there { is_some result ≡ said.has_tape tape self.now.value.rows }
    {
        of_tape(self.rows.as_slice(), tape)
    }

    /// How many open mounts go this way and have this key, a pool where they write and a tape where they read. Its cost is the
    /// number of open mounts.
    pub fn count(&self, direction: Direction, key: u32) -> usize
        ensures { result ≡ said.count_of_key direction key self.now.value.rows }
    {
        self.rows
            .iter()
            .filter(|row| row.direction == direction && row.key == key)
            .count()
    }

    /// Whether the drive is down, in constant time.
    pub fn is_down(&self, drive: u32) -> bool
        ensures { result ≡ has_number drive self.now.value.downs }
    {
        flag_at(self.flags.as_slice(), drive)
    }

    /// A drive of the site is down from then on. It takes no memory and constant time.
    pub fn set_down(&mut self, drive: u32)
        requires { drive < self.old.value.drives }
        ensures downs { (d : ℕ) → has_number d self.new.value.downs ≡ has_number d (said.set_down drive self.old.value.downs) }
        ensures rows { self.new.value.rows ≡ self.old.value.rows }
        ensures drives { self.new.value.drives ≡ self.old.value.drives }
        ensures room { self.old.room ≤ self.new.room }
    {
        raise(&mut self.flags, drive);
    }

    /// A drive is up from then on. It takes no memory and constant time.
    pub fn set_up(&mut self, drive: u32)
        ensures downs { (d : ℕ) → has_number d self.new.value.downs ≡ has_number d (said.set_up drive self.old.value.downs) }
        ensures rows { self.new.value.rows ≡ self.old.value.rows }
        ensures drives { self.new.value.drives ≡ self.old.value.drives }
        ensures room { self.old.room ≤ self.new.room }
    {
        lower(&mut self.flags, drive);
    }
}
