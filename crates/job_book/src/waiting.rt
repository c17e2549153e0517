// Those that wait for the recalls of files, each at a place of its own.
ghost use Rattle.std.specs.Prelude.{◌≡◌, ℕ, ◌+◌, ◌<◌, ◌≤◌, ◌++◌, Some, None, Option, false, if◌then◌else◌, ◌==◌, ◌&&◌, nat_lt, is_some, length};
ghost use Rattle.std.specs.HashMap.{spare};
ghost use Rattle.job_book.specs.Maps.{waiting_in, waits_at, left_out};

use crate::maps::take_out;
use cta_site::Rows;
use number_map::NumberMap;

// Takes an entry out of those that wait for a file's recall, at one place.
fn forget_at(waiting: &mut NumberMap<(u32, u64), u32>, file: u32, at: u64, owner: u32)
    ensures waits { (f i : ℕ) → waits_at waiting.new.entries f i ≡ (if file == f && at == i then left_out owner (waits_at waiting.old.entries f i) else waits_at waiting.old.entries f i) }
    ensures room { spare waiting.old ≤ spare waiting.new }
{
    if waiting.get(&(file, at)).copied() == Some(owner) {
        take_out(waiting, (file, at));
    }
}

// Takes an entry out of those that wait for a file's recall, at the first so many places.
pub(crate) fn forget(waiting: &mut NumberMap<(u32, u64), u32>, file: u32, places: u64, owner: u32)
    ensures waits { (f i : ℕ) → waits_at waiting.new.entries f i ≡ (if file == f && nat_lt i places then left_out owner (waits_at waiting.old.entries f i) else waits_at waiting.old.entries f i) }
    ensures room { spare waiting.old ≤ spare waiting.new }
{
    for at in 0..places {
        forget_at(waiting, file, at, owner);
    }
}

// Takes all that wait for a file's recall out, at the first so many places.
pub(crate) fn forget_all(waiting: &mut NumberMap<(u32, u64), u32>, file: u32, places: u64)
    ensures waits { (f i : ℕ) → (file == f) ≡ false → waits_at waiting.new.entries f i ≡ waits_at waiting.old.entries f i }
    ensures room { spare waiting.old ≤ spare waiting.new }
{
    for at in 0..places {
        take_out(waiting, (file, at));
    }
}

// How many wait for a file's recall, at the first so many places.
pub(crate) fn count_waiting(waiting: &NumberMap<(u32, u64), u32>, file: u32, places: u64) -> u64
    ensures { result ≡ length (waiting_in (waits_at waiting.now.entries file) places) }
{
    let mut count: u64 = 0;
    for at in 0..places {
        if waiting.contains_key(&(file, at)) {
            count += 1;
        }
    }
    count
}

// Adds those that wait for a file's recall, at the first so many places, behind a list with room for them.
pub(crate) fn tell_waiting(
    waiting: &NumberMap<(u32, u64), u32>,
    file: u32,
    places: u64,
    out: &mut Rows<u32>,
)
    requires { length (waiting_in (waits_at waiting.now.entries file) places) ≤ out.old.room }
    ensures { out.new.items ≡ out.old.items ++ waiting_in (waits_at waiting.now.entries file) places }
{
    for at in 0..places {
        if let Some(owner) = waiting.get(&(file, at)).copied() {
            out.push(owner);
        }
    }
}
