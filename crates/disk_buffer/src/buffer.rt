// The disk buffer.
ghost use Rattle.std.specs.Prelude.{ℕ, ◌≡◌, ◌+◌, ◌<◌, ◌≤◌, ◌^◌, ◌==◌, ◌++◌, ◌∷◌, [], Some, None, IfOk, OnOk, false, if◌then◌else◌, length, option_map};
ghost use Rattle.blob.specs.Sums.{sum_of};
ghost use Rattle.cta_model.specs.History.{has_number};
ghost use Rattle.part_model.specs.Held.{HeldAgree, bytes_of, enter, evict, evictable_in, evicted_for, free_in, hold, is_held, pin, pins_without, remove, set_safe, unhold, unpin, without};
ghost use Rattle.disk_buffer.specs.Stays.{content_in};
ghost use Rattle.disk_buffer.specs.Stored.{nothing_held};

use crate::arrivals::Arrivals;
use crate::pins::Pins;
use blob::Blob;
use cta_site::{NoMemory, Rows};
use std::alloc::Global;
use std::marker::Model;
use std::sync::Arc;

/// The disk buffer: the resident files by arrival with their contents, the bytes that are set aside for claimed recalls, and the
/// pins. Files and owners are named by their numbers, and a pin ends at a moment in seconds since 1970. Contracts see a `Held`
/// of `part_model` with its room, and the sum of each content. This project's own.
#[derive(Drop)]
pub struct DiskBuffer {
    size: u64,
    aside: u64,
    room: u32,
    arrivals: Arrivals,
    pins: Pins,
}

impl Model for DiskBuffer {
    ghost use Rattle.std.specs.Prelude.{◌+◌, ◌<◌, ◌≤◌, ◌^◌};
    ghost use Rattle.part_model.specs.Held.{bytes_of};
    ghost use Rattle.disk_buffer.specs.Stays.{residents};
    ghost use Rattle.disk_buffer.specs.Stored.{AreEnds, Stored};

    ghost Value = { Stored };

    ghost view = { λ b. record { held = record { value = record { size = b.size; files = residents b.arrivals.stays; aside = b.aside; pins = b.pins.value }; room = b.room }; contents = b.arrivals.contents } };

    ghost invariant = { λ b. (b.room ≤ b.arrivals.room) × (b.room ≤ b.pins.room) × (bytes_of (residents b.arrivals.stays) + b.aside < 2 ^ 64) × AreEnds b.pins.value b.arrivals.stays };
}

impl DiskBuffer {
    /// An empty buffer of this size in bytes, with no room yet. NoMemory gives nothing. In constant time.
    pub fn new(alloc: Global, size: u64) -> Result<DiskBuffer, NoMemory>
        ensures { IfOk result (λ buffer. (buffer.held.value ≡ nothing_held size) × (buffer.contents ≡ [])) }
    {
        let arrivals = Arrivals::new(alloc)?;
        let pins = Pins::new(alloc)?;
        Ok(DiskBuffer {
            size,
            aside: 0,
            room: 0,
            arrivals,
            pins,
        })
    }

    /// Makes room for at least this many more files and pins together, and never makes the room smaller. NoMemory changes
    /// nothing that is told; it is the answer too where 2^64 arrivals would be passed. Its cost is the number of files and pins
    /// where it takes memory, and else constant; room for additions one by one costs a constant for each on average.
    pub fn reserve(&mut self, files: u32) -> Result<(), NoMemory>
        ensures held { self.new.held.value ≡ self.old.held.value }
        ensures contents { (f : ℕ) → content_in self.new.contents f ≡ content_in self.old.contents f }
        ensures room { OnOk result (files ≤ self.new.held.room) }
        ensures kept { self.old.held.room ≤ self.new.held.room }
    {
        if files <= self.room {
            return Ok(());
        }
        self.arrivals.reserve(files)?;
        self.pins.reserve(files)?;
        self.room = files;
        Ok(())
    }

    /// For how many more files and pins together there is room, in constant time.
    pub fn room(&self) -> u32
        ensures { result ≡ self.now.held.room }
    {
        self.room
    }

    /// The size of the buffer in bytes, in constant time.
    pub fn size(&self) -> u64
        ensures { result ≡ self.now.held.value.size }
    {
        self.size
    }

    /// The bytes that neither files take nor are set aside, in constant time.
    pub fn free(&self) -> u64
        ensures { result ≡ free_in self.now.held.value }
    {
        self.size.saturating_sub(self.arrivals.bytes() + self.aside)
    }

    /// Whether a file is resident, in constant time.
    pub fn is_held(&self, file: u32) -> bool
        ensures { result ≡ is_held self.now.held.value file }
    {
        self.arrivals.has(file)
    }

    /// The content of a file, None exactly where none is kept. In constant time.
    pub fn blob(&self, file: u32) -> Option<&Arc<Blob>>
        ensures { option_map (λ b. sum_of b.now.value) result ≡ content_in self.now.contents file }
    {
        self.arrivals.blob(file)
    }

    /// The bytes of the files that may be evicted at a moment: those that are safe and that nobody pins then. Its cost is constant
    /// at the latest moment for which `evict` was called, and at a later one the logarithm of the number of files for each file
    /// that may be evicted only since then; at an earlier one, that for each file that may be evicted at the latest.
    pub fn evictable(&self, at: u64) -> u64
        ensures { result ≡ bytes_of (evictable_in self.now.held.value at) }
    {
        let _size = self.size;
        self.arrivals.going_bytes(at)
    }

    /// How many files `evict` would take out at a moment to have so many bytes free. Its cost is the logarithm of the number of
    /// files for each of them.
    pub fn evict_count(&self, at: u64, need: u64) -> u32
        ensures { result ≡ length (evicted_for self.now.held.value at need) }
    {
        let lacking = need.saturating_sub(self.free());
        let _size = self.size;
        self.arrivals.going_count(at, lacking)
    }

    /// A file comes last, with no flag, where it is not there; who pins it already pins it still. It takes no memory. Its cost is
    /// the logarithm of the number of files and pins.
    pub fn enter(&mut self, file: u32, blob: Arc<Blob>)
        requires room { 0 < self.old.held.room }
        requires lacks { is_held self.old.held.value file ≡ false }
        requires fits { bytes_of self.old.held.value.files + self.old.held.value.aside + length blob.value < 2 ^ 64 }
        ensures held { HeldAgree self.new.held.value (enter self.old.held.value file (length blob.value)) }
        ensures contents { (f : ℕ) → content_in self.new.contents f ≡ (if f == file then Some (sum_of blob.value) else content_in self.old.contents f) }
        ensures room { self.old.held.room ≤ self.new.held.room + 1 }
    {
        let until = self.pins.end(file);
        self.arrivals.push(file, blob, until);
        self.room -= 1;
    }

    // A file leaves with its content and its pins.
    fn take_out(&mut self, file: u32)
        ensures held { self.new.held.value ≡ remove self.old.held.value file }
        ensures contents { (f : ℕ) → content_in self.new.contents f ≡ (if f == file then None else content_in self.old.contents f) }
        ensures room { self.old.held.room ≤ self.new.held.room }
    {
        self.arrivals.remove(file);
        self.pins.unset_all(file);
    }

    /// A file leaves with its content and its pins; nothing changes where it is not there and nobody pins it. It takes no memory.
    /// Its cost is the logarithm of the number of files and pins, for the file and for each of its pins.
    pub fn remove(&mut self, file: u32)
        ensures held { HeldAgree self.new.held.value (remove self.old.held.value file) }
        ensures contents { (f : ℕ) → content_in self.new.contents f ≡ (if f == file then None else content_in self.old.contents f) }
        ensures room { self.old.held.room ≤ self.new.held.room }
    {
        self.take_out(file);
    }

    // These files leave.
    fn take_all(&mut self, files: &[u32])
        ensures held { self.new.held.value ≡ record self.old.held.value { files = without files.now self.old.held.value.files; pins = pins_without files.now self.old.held.value.pins } }
        ensures contents { (f : ℕ) → content_in self.new.contents f ≡ (if has_number f files.now then None else content_in self.old.contents f) }
        ensures room { self.old.held.room ≤ self.new.held.room }
    {
        for file in files {
            self.take_out(*file);
        }
    }

    /// Takes out the first files by arrival that may be evicted at a moment, as many as it needs for so many free bytes, or all
    /// that may go, with their contents and pins, and adds their numbers to a list with room for them. It takes no memory. Its
    /// cost is the logarithm of the number of files and pins, for each file that leaves and each of its pins, and for each file
    /// that may be evicted at this moment and could not at the latest one before. An earlier moment than the latest is answered
    /// too, at that cost for each file that may be evicted at the latest. With a need of 0 it only reaches the moment.
    pub fn evict(&mut self, at: u64, need: u64, out: &mut Rows<u32>)
        requires { length (evicted_for self.old.held.value at need) ≤ out.old.room }
        ensures out { out.new.items ≡ out.old.items ++ evicted_for self.old.held.value at need }
        ensures held { HeldAgree self.new.held.value (evict self.old.held.value at need) }
        ensures contents { (f : ℕ) → content_in self.new.contents f ≡ (if has_number f (evicted_for self.old.held.value at need) then None else content_in self.old.contents f) }
        ensures room { self.old.held.room ≤ self.new.held.room }
    {
        let start = out.len();
        self.settle(at);
        self.list_out(at, need, out);
        self.take_all(&out.as_slice()[start..]);
    }

    // Reaches a moment, which changes nothing that is told.
    fn settle(&mut self, at: u64)
        ensures held { self.new.held.value ≡ self.old.held.value }
        ensures contents { self.new.contents ≡ self.old.contents }
        ensures room { self.old.held.room ≤ self.new.held.room }
    {
        self.arrivals.settle(at);
    }

    // Adds the files that are to leave to a list.
    fn list_out(&self, at: u64, need: u64, out: &mut Rows<u32>)
        requires { length (evicted_for self.now.held.value at need) ≤ out.old.room }
        ensures { out.new.items ≡ out.old.items ++ evicted_for self.now.held.value at need }
    {
        let lacking = need.saturating_sub(self.free());
        let _size = self.size;
        self.arrivals.list_going(at, lacking, out);
    }

    /// Sets bytes aside. In constant time.
    pub fn hold(&mut self, bytes: u64)
        requires { bytes_of self.old.held.value.files + self.old.held.value.aside + bytes < 2 ^ 64 }
        ensures held { HeldAgree self.new.held.value (hold self.old.held.value bytes) }
        ensures contents { self.new.contents ≡ self.old.contents }
        ensures room { self.new.held.room ≡ self.old.held.room }
    {
        self.aside += bytes;
    }

    /// Gives up bytes that were set aside. In constant time.
    pub fn unhold(&mut self, bytes: u64)
        requires { bytes ≤ self.old.held.value.aside }
        ensures held { HeldAgree self.new.held.value (unhold self.old.held.value bytes) }
        ensures contents { self.new.contents ≡ self.old.contents }
        ensures room { self.new.held.room ≡ self.old.held.room }
    {
        self.aside -= bytes;
    }

    /// An owner pins a file until a moment; where it does so already, until the later one. The file need not be there yet. It
    /// takes no memory. Its cost is the logarithm of the number of files and pins.
    pub fn pin(&mut self, file: u32, owner: u32, until: u64)
        requires { 0 < self.old.held.room }
        ensures held { HeldAgree self.new.held.value (pin self.old.held.value file owner until) }
        ensures contents { self.new.contents ≡ self.old.contents }
        ensures room { self.old.held.room ≤ self.new.held.room + 1 }
    {
        self.pins.set(file, owner, until);
        let end = self.pins.end(file);
        self.arrivals.set_end(file, end);
        self.room -= 1;
    }

    /// An owner pins a file no more; nothing changes where it does not. It takes no memory. Its cost is the logarithm of the
    /// number of files and pins.
    pub fn unpin(&mut self, file: u32, owner: u32)
        ensures held { HeldAgree self.new.held.value (unpin self.old.held.value file owner) }
        ensures contents { self.new.contents ≡ self.old.contents }
        ensures room { self.old.held.room ≤ self.new.held.room }
    {
        self.pins.unset(file, owner);
        let end = self.pins.end(file);
        self.arrivals.set_end(file, end);
    }

    /// A file has this flag, whether it is safe on tape; nothing changes where it is not there. It takes no memory. Its cost is
    /// the logarithm of the number of files.
    pub fn set_safe(&mut self, file: u32, safe: bool)
        ensures held { HeldAgree self.new.held.value (set_safe self.old.held.value file safe) }
        ensures contents { self.new.contents ≡ self.old.contents }
        ensures room { self.old.held.room ≤ self.new.held.room }
    {
        self.arrivals.set_flag(file, safe);
    }
}
