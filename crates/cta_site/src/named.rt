// What has a name, by which it is numbered.
ghost use Rattle.std.specs.Prelude.{◌≡◌, IfOk, map};

use crate::site::{Class, Directory, Drive, Policy, Tape, TapePool, Vo};
use cta_values::{Named, NoMemory};
use std::alloc::Global;

impl Named for Vo {
    ghost name_of = { λ v. v.name };

    fn name(&self) -> &[u8] {
        self.name.as_bytes()
    }
}

impl Named for Class {
    ghost name_of = { λ c. c.name };

    fn name(&self) -> &[u8] {
        self.name.as_bytes()
    }
}

impl Named for TapePool {
    ghost name_of = { λ p. p.name };

    fn name(&self) -> &[u8] {
        self.name.as_bytes()
    }
}

impl Named for Policy {
    ghost name_of = { λ p. p.name };

    fn name(&self) -> &[u8] {
        self.name.as_bytes()
    }
}

impl Named for Tape {
    ghost name_of = { λ t. t.vid };

    fn name(&self) -> &[u8] {
        self.vid.as_bytes()
    }
}

impl Named for Drive {
    ghost name_of = { λ d. d.name };

    fn name(&self) -> &[u8] {
        self.name.as_bytes()
    }
}

impl Named for Directory {
    ghost name_of = { λ d. d.path };

    fn name(&self) -> &[u8] {
        self.path.as_bytes()
    }
}

// The names of these, in their order.
pub(crate) fn names_of<T: Named>(alloc: Global, items: &[T]) -> Result<Vec<&[u8]>, NoMemory>
    ensures { IfOk result (λ names. map (λ n. n.now) names.items ≡ map T.name_of items.now) }
{
    let mut names = Vec::new(alloc);
    for item in items {
        names.push(item.name())?;
    }
    Ok(names)
}
