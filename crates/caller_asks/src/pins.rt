// Pins of a request.
ghost use Rattle.std.specs.Prelude.{◌≡◌, ◌+◌, ◌<◌, ◌≤◌, length};
ghost use Rattle.std.specs.List.{flat_map};
ghost use Rattle.part_model.specs.Held.{HeldAgree, pin_all, unpin_all};
ghost use Rattle.part_laws.specs.BufferCalls.{owned_by};
ghost use Rattle.part_moves.specs.Pinned.{request_pin};

use disk_buffer::DiskBuffer;
use part_moves::pin_request;
use stage_book::StageBook;

// A request pins none of these files any more.
pub(crate) fn unpin_all(buffer: &mut DiskBuffer, id: u32, files: &[u32])
    ensures held { HeldAgree buffer.new.held.value (unpin_all (owned_by id files.now) buffer.old.held.value) }
    ensures contents { buffer.new.contents ≡ buffer.old.contents }
{
    for file in files {
        buffer.unpin(*file, id);
    }
}

// A request pins each of these files where it does so by its book.
pub(crate) fn pin_files(buffer: &mut DiskBuffer, requests: &StageBook, id: u32, files: &[u32])
    requires { length files.now ≤ buffer.old.held.room }
    ensures held { HeldAgree buffer.new.held.value (pin_all (flat_map (request_pin requests.now id) files.now) buffer.old.held.value) }
    ensures contents { buffer.new.contents ≡ buffer.old.contents }
{
    for file in files {
        pin_request(buffer, requests, id, *file);
    }
}
