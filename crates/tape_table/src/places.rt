// The map from copies to their places.
ghost use Rattle.std.specs.Prelude.{◌≡◌, ℕ, ◌+◌, ◌<◌, ◌≤◌, Some, None, if◌then◌else◌, ◌==◌, ◌&&◌, OnOk};
ghost use Rattle.std.specs.HashMap.{spare, IsUnique};
ghost use Rattle.std.specs.Map.{lookup};
ghost use Rattle.tape_table.specs.Rows.{same_copy};

use cta_model::Place;
use cta_site::NoMemory;
use number_map::NumberMap;

// Makes room for so many more copies.
pub(crate) fn make_room(places: &mut NumberMap<(u32, u8), Place>, more: u32) -> Result<(), NoMemory>
    ensures places { (f c : ℕ) → lookup (same_copy (f, c)) places.new.entries ≡ lookup (same_copy (f, c)) places.old.entries }
    ensures unique { IsUnique same_copy places.new }
    ensures room { OnOk result (more ≤ spare places.new) }
    ensures kept { spare places.old ≤ spare places.new }
{
    places.reserve(more as usize)?;
    Ok(())
}

// Puts the place of a copy, for which there is room.
pub(crate) fn put_in(places: &mut NumberMap<(u32, u8), Place>, file: u32, place: Place)
    requires { 0 < spare places.old }
    ensures places { (f c : ℕ) → lookup (same_copy (f, c)) places.new.entries ≡ (if file == f && place.copy == c then Some place else lookup (same_copy (f, c)) places.old.entries) }
    ensures unique { IsUnique same_copy places.new }
    ensures room { spare places.old ≤ spare places.new + 1 }
{
    match places.insert((file, place.copy), place) {
        Ok(_) => {}
        Err(_) => unreachable!(),
    }
}

// Takes the place of a copy out.
pub(crate) fn take_out(places: &mut NumberMap<(u32, u8), Place>, file: u32, copy: u8)
    ensures places { (f c : ℕ) → lookup (same_copy (f, c)) places.new.entries ≡ (if file == f && copy == c then None else lookup (same_copy (f, c)) places.old.entries) }
    ensures unique { IsUnique same_copy places.new }
    ensures room { spare places.old ≤ spare places.new }
{
    let _ = places.remove(&(file, copy));
}
