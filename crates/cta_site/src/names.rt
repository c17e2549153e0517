// Names in a set, and names that come again.
ghost use Rattle.std.specs.Prelude.{◌≡◌, ◌<◌, IfOk, IfSome, length, map};
ghost use Rattle.cta_site.specs.Items.{first_repeat, is_among};

use cta_values::NoMemory;
use std::alloc::Global;
use std::collections::BTreeSet;
use std::marker::Model;

// Names, among which one is found in logarithmic time. Contracts see the list of them.
#[derive(Drop)]
pub(crate) struct Names<'a> {
    names: Vec<&'a [u8]>,
    known: BTreeSet<&'a [u8]>,
}

impl<'a> Model for Names<'a> {
    ghost use Rattle.std.specs.Prelude.{◌≡◌, ℕ, List, map};
    ghost use Rattle.std.specs.BTreeSet.{contains_by};
    ghost use Rattle.std.specs.Cmp.Lexicographic.{slice_cmp};
    ghost use Rattle.std.specs.Ordering.{nat_cmp};
    ghost use Rattle.cta_site.specs.Items.{is_among};

    ghost Value = { List (List ℕ) };

    ghost view = { λ n. map (λ b. b.now) n.names.items };

    ghost invariant = { λ n. (name : List ℕ) → contains_by (λ k. slice_cmp nat_cmp name k.now) n.known ≡ is_among (map (λ b. b.now) n.names.items) name };
}

impl<'a> Names<'a> {
    // These names.
    pub(crate) fn of(alloc: Global, names: Vec<&'a [u8]>) -> Result<Names<'a>, NoMemory>
        ensures { IfOk result (λ known. known ≡ map (λ b. b.now) names.entry.items) }
    {
        let mut known = BTreeSet::new(alloc);
        for name in &names {
            known.insert(*name)?;
        }
        Ok(Names { names, known })
    }

    // Whether a name is one of these.
    pub(crate) fn has(&self, name: &[u8]) -> bool
        ensures { result ≡ is_among self.now name.now }
    {
        self.known.contains(name)
    }
}

// The place of the first of these names that one before it equals.
pub(crate) fn first_repeat(alloc: Global, names: &[&[u8]]) -> Result<Option<usize>, NoMemory>
    ensures value { IfOk result (λ place. place ≡ first_repeat (map (λ b. b.now) names.now)) }
    ensures within { IfOk result (λ place. IfSome place (λ i. i < length names.now)) }
{
    let mut seen = BTreeSet::new(alloc);
    for (place, name) in names.iter().enumerate() {
        if !seen.insert(*name)? {
            return Ok(Some(place));
        }
    }
    Ok(None)
}
