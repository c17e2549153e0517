// Maps with room for more.
ghost use Rattle.std.specs.Prelude.{◌≡◌, ◌<◌, ◌≤◌, Some, if◌then◌else◌, OnOk};
ghost use Rattle.std.specs.HashMap.{get, spare};

use cta_site::NoMemory;
use number_map::NumberMap;
use std::hash::Hash;

// Makes room for one more key.
pub(crate) fn make_room<K: Eq + Hash, V>(map: &mut NumberMap<K, V>) -> Result<(), NoMemory>
    ensures values { (q : K) → get K.eq map.new q ≡ get K.eq map.old q }
    ensures room { OnOk result (0 < spare map.new) }
{
    map.reserve(1)?;
    Ok(())
}

// Puts a value at a key, for which there is room.
pub(crate) fn put<K: Eq + Hash + Drop, V: Drop>(map: &mut NumberMap<K, V>, key: K, value: V)
    requires { 0 < spare map.old }
    ensures values { (q : K) → get K.eq map.new q ≡ (if K.eq key q then Some value else get K.eq map.old q) }
{
    match map.insert(key, value) {
        Ok(_) => {}
        Err(_) => unreachable!(),
    }
}
