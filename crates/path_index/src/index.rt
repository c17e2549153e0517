// The index of paths.
ghost use Rattle.std.specs.Prelude.{◌≡◌, None, OnOk, OnErr, []};
ghost use Rattle.part_model.specs.Names.{file_in, add_name, remove_name, NamesAgree};

use cta_site::{NoMemory, Text};
use std::alloc::Global;
use std::collections::HashMap;
use std::hash::RandomState;
use std::marker::Model;

/// Which file each path names. Contracts see the paths with their files. Paths are what strangers choose, so they are hashed
/// by keys that nobody outside can know, and as texts, whose bytes are
/// hashed in one piece.
#[derive(Drop)]
pub struct PathIndex {
    alloc: Global,
    files: HashMap<String, u32, RandomState>,
}

impl Model for PathIndex {
    ghost use Rattle.part_model.specs.Names.{Names};
    ghost use Rattle.path_index.specs.Entries.{names_of};

    ghost Value = { Names };

    ghost view = { λ i. names_of i.files.entries };
}

impl PathIndex {
    /// An index in which no path names a file. It takes no memory and constant time.
    pub fn new(alloc: Global, keys: RandomState) -> PathIndex
        ensures { result ≡ [] }
    {
        PathIndex {
            alloc,
            files: HashMap::with_hasher(alloc, keys),
        }
    }

    /// From then on the path names the file, whatever it named before. NoMemory changes nothing. Its cost is the length of the path.
    pub fn add(&mut self, path: Text, file: u32) -> Result<(), NoMemory>
        ensures named { OnOk result (NamesAgree self.new (add_name path file self.old)) }
        ensures unchanged { OnErr result (self.new ≡ self.old) }
    {
        let path = String::from_str(self.alloc, path.as_str())?;
        self.files.insert(path, file)?;
        Ok(())
    }

    /// The file that the path names, None exactly where it names none. Its cost is the length of the path.
    pub fn file(&self, path: &[u8]) -> Option<u32>
        ensures { result ≡ file_in self.now path.now }
    {
        match str::from_utf8(path) {
            Ok(path) => self.files.get(path).copied(),
            // Each path of the index is a text.
            Err(_) => None,
        }
    }

    /// From then on the path names no file. It gives the file that the path named, None exactly where it named none. It takes
    /// no memory, and its cost is the length of the path.
    pub fn remove(&mut self, path: &[u8]) -> Option<u32>
        ensures named { result ≡ file_in self.old path.now }
        ensures removed { NamesAgree self.new (remove_name path.now self.old) }
    {
        match str::from_utf8(path) {
            Ok(path) => self.files.remove(path),
            Err(_) => None,
        }
    }
}
