// The pin of a file by a request.
ghost use Rattle.std.specs.Prelude.{◌≡◌, ◌+◌, ◌<◌, ◌≤◌};
ghost use Rattle.part_model.specs.Held.{HeldAgree, pin_all};
ghost use Rattle.part_moves.specs.Pinned.{request_pin};

use disk_buffer::DiskBuffer;
use stage_book::StageBook;

/// A request pins a file where it does so by its book. It takes no memory, for which there is room. Its cost is the logarithm of the number of
/// pins. This project's own.
pub fn pin_request(buffer: &mut DiskBuffer, requests: &StageBook, id: u32, file: u32)
    requires { 0 < buffer.old.held.room }
    ensures held { HeldAgree buffer.new.held.value (pin_all (request_pin requests.now id file) buffer.old.held.value) }
    ensures contents { buffer.new.contents ≡ buffer.old.contents }
    ensures room { buffer.old.held.room ≤ buffer.new.held.room + 1 }
{
    let Some(end) = requests.pin_end(id, file) else {
        return;
    };
    buffer.pin(file, id, end);
}
