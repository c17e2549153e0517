// A file that comes into the buffer, with the pins of those that waited for it.
ghost use Rattle.std.specs.Prelude.{ℕ, ◌≡◌, ◌+◌, ◌*◌, ◌<◌, ◌≤◌, ◌^◌, ◌==◌, Some, false, if◌then◌else◌, length};
ghost use Rattle.std.specs.List.{flat_map};
ghost use Rattle.blob.specs.Sums.{sum_of};
ghost use Rattle.disk_buffer.specs.Stays.{content_in};
ghost use Rattle.part_model.specs.Held.{HeldAgree, bytes_of, enter, is_held, pin_all, set_safe, unhold};
ghost use Rattle.repack_book.specs.NamedRepacks.{repacks_of};
ghost use Rattle.drive_asks.specs.Reading.{pins_by, repack_pin};

use blob::Blob;
use disk_buffer::DiskBuffer;
use part_moves::pin_request;
use repack_book::RepackBook;
use stage_book::StageBook;
use std::sync::Arc;

// A file comes into the buffer, whose bytes were set aside for it, and is safe on tape or not.
pub(crate) fn bring_in(buffer: &mut DiskBuffer, file: u32, blob: Arc<Blob>, len: u64, safe: bool)
    requires size { length blob.value ≡ len }
    requires room { 0 < buffer.old.held.room }
    requires aside { len ≤ buffer.old.held.value.aside }
    requires lacks { is_held buffer.old.held.value file ≡ false }
    requires fits { bytes_of buffer.old.held.value.files + buffer.old.held.value.aside < 2 ^ 64 }
    ensures held { HeldAgree buffer.new.held.value (set_safe (enter (unhold buffer.old.held.value len) file len) file safe) }
    ensures contents { (f : ℕ) → content_in buffer.new.contents f ≡ (if f == file then Some (sum_of blob.value) else content_in buffer.old.contents f) }
    ensures room { buffer.old.held.room ≤ buffer.new.held.room + 1 }
{
    buffer.unhold(len);
    buffer.enter(file, blob);
    buffer.set_safe(file, safe);
}

// A repack pins a file where it does so by its book.
fn pin_repack(buffer: &mut DiskBuffer, repacks: &RepackBook, id: u32, file: u32)
    requires { 0 < buffer.old.held.room }
    ensures held { HeldAgree buffer.new.held.value (pin_all (repack_pin (repacks_of repacks.now) id file) buffer.old.held.value) }
    ensures contents { buffer.new.contents ≡ buffer.old.contents }
    ensures room { buffer.old.held.room ≤ buffer.new.held.room + 1 }
{
    if !repacks.pins(id, file) {
        return;
    }
    buffer.pin(file, id, u64::MAX);
}

// Each of these requests and repacks pins a file where it does so by its book, which the file need not be there for.
pub(crate) fn pin_all_of(
    buffer: &mut DiskBuffer,
    requests: &StageBook,
    repacks: &RepackBook,
    ids: &[u32],
    file: u32,
)
    requires { 2 * length ids.now ≤ buffer.old.held.room }
    ensures held { HeldAgree buffer.new.held.value (pin_all (flat_map (pins_by requests.now (repacks_of repacks.now) file) ids.now) buffer.old.held.value) }
    ensures contents { buffer.new.contents ≡ buffer.old.contents }
    ensures room { buffer.old.held.room ≤ buffer.new.held.room + 2 * length ids.now }
{
    for id in ids {
        pin_request(buffer, requests, *id, file);
        pin_repack(buffer, repacks, *id, file);
    }
}
