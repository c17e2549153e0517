// Numbers by name.
ghost use Rattle.std.specs.Prelude.{◌≡◌, ℕ, List, None, IfOk, bytes_eq, if◌then◌else◌};
ghost use Rattle.std.specs.Option.{option_or};
ghost use Rattle.cta_site.specs.NameMap.{number_in};

use cta_values::NoMemory;
use std::alloc::Global;
use std::collections::BTreeMap;

// Names with a number each, which is found in logarithmic time.
#[derive(Drop)]
pub(crate) struct NameMap {
    numbers: BTreeMap<Vec<u8>, u32>,
}

impl NameMap {
    // No names.
    pub(crate) fn new(alloc: Global) -> NameMap
        ensures { (key : List ℕ) → number_in result key ≡ None }
    {
        NameMap {
            numbers: BTreeMap::new(alloc),
        }
    }

    // The number of a name.
    pub(crate) fn number(&self, name: &[u8]) -> Option<u32>
        ensures { result ≡ number_in self.now name.now }
    {
        self.numbers.get(name).copied()
    }

    // Gives a name this number, where it has none yet.
    pub(crate) fn add(&mut self, alloc: Global, name: &[u8], number: u32) -> Result<(), NoMemory>
        ensures { IfOk result (λ _. (key : List ℕ) → number_in self.new key ≡ option_or (number_in self.old key) (if bytes_eq name.now key then Some number else None)) }
    {
        if self.numbers.contains_key(name) {
            return Ok(());
        }
        let name = Vec::from_slice(alloc, name)?;
        self.numbers.insert(name, number)?;
        Ok(())
    }
}
