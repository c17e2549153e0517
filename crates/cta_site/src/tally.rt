// Counts by name.
ghost use Rattle.std.specs.Prelude.{◌≡◌, ◌<◌, ◌+◌, ◌^◌, ℕ, List, IfOk, bytes_eq, if◌then◌else◌};
ghost use Rattle.cta_site.specs.NameMap.{count_in};

use cta_values::NoMemory;
use std::alloc::Global;
use std::collections::BTreeMap;

// How often each name was counted, which is found in logarithmic time.
#[derive(Drop)]
pub(crate) struct Tally {
    counts: BTreeMap<Vec<u8>, usize>,
}

impl Tally {
    // Nothing was counted.
    pub(crate) fn new(alloc: Global) -> Tally
        ensures { (key : List ℕ) → count_in result key ≡ 0 }
    {
        Tally {
            counts: BTreeMap::new(alloc),
        }
    }

    // How often a name was counted.
    pub(crate) fn count(&self, name: &[u8]) -> usize
        ensures { result ≡ count_in self.now name.now }
    {
        self.counts.get(name).copied().unwrap_or(0)
    }

    // Counts a name once more.
    pub(crate) fn add(&mut self, alloc: Global, name: &[u8]) -> Result<(), NoMemory>
        requires { count_in self.old name.now < 2 ^ 32 }
        ensures { IfOk result (λ _. (key : List ℕ) → count_in self.new key ≡ count_in self.old key + (if bytes_eq name.now key then 1 else 0)) }
    {
        let count = self.count(name);
        let name = Vec::from_slice(alloc, name)?;
        self.counts.insert(name, count + 1)?;
        Ok(())
    }
}
