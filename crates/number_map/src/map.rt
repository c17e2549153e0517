// Maps by numbers.
ghost use Rattle.std.specs.Prelude.{◌≡◌};
ghost use Rattle.std.specs.HashMap.{IsEmpty, IsUnique, hash_map_len};

use crate::hasher::NumberHasher;
use std::alloc::Global;
use std::collections::HashMap;
use std::hash::{BuildHasherDefault, Hash};

/// A map whose keys begin with a number that is given in turn.
pub type NumberMap<K, V> = HashMap<K, V, BuildHasherDefault<NumberHasher>>;

/// A map with no key. It takes no memory and constant time.
pub fn new_map<K: Eq + Hash, V>(alloc: Global) -> NumberMap<K, V>
    ensures empty { IsEmpty result }
    ensures len { hash_map_len result ≡ 0 }
    ensures unique { IsUnique K.eq result }
{
    HashMap::with_hasher(alloc, BuildHasherDefault::new())
}
