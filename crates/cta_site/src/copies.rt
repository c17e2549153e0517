// A site once more.
ghost use Rattle.std.specs.Prelude.{◌≡◌, IfOk};
ghost use Rattle.cta_site.specs.Bare.{bare_site};
ghost use Rattle.cta_values.specs.Listed.{rows};

use crate::site::{
    Class, Directory, Drive, Failure, Policy, Route, Rule, Site, Tape, TapePool, Vo,
};
use cta_values::{NoMemory, Rows, Text};
use std::alloc::Global;

// What can be had once more, where there is memory for it.
trait Copied: Drop {
    // The same value once more. NoMemory leaves nothing.
    fn copied(&self) -> Result<Self, NoMemory>
        ensures { IfOk result (λ copy. copy ≡ self.now) };
}

// The same items once more, with no room to spare. NoMemory leaves nothing.
fn copies_of<T: Copied>(alloc: Global, items: &[T]) -> Result<Rows<T>, NoMemory>
    ensures { IfOk result (λ copies. copies ≡ rows items.now) }
{
    let mut copies = Vec::with_capacity(alloc, items.len())?;
    for item in items {
        copies.push_reserved(item.copied()?);
    }
    Ok(Rows::of(copies))
}

impl Copied for Text {
    fn copied(&self) -> Result<Text, NoMemory> {
        self.copy()
    }
}

impl Copied for Vo {
    fn copied(&self) -> Result<Vo, NoMemory> {
        let name = self.name.copy()?;
        Ok(Vo {
            name,
            read_drives: self.read_drives,
            write_drives: self.write_drives,
        })
    }
}

impl Copied for Class {
    fn copied(&self) -> Result<Class, NoMemory> {
        let name = self.name.copy()?;
        let vo = self.vo.copy()?;
        Ok(Class {
            name,
            vo,
            copies: self.copies,
        })
    }
}

impl Copied for TapePool {
    fn copied(&self) -> Result<TapePool, NoMemory> {
        let name = self.name.copy()?;
        let vo = self.vo.copy()?;
        Ok(TapePool { name, vo })
    }
}

impl Copied for Route {
    fn copied(&self) -> Result<Route, NoMemory> {
        let class = self.class.copy()?;
        let pool = self.pool.copy()?;
        Ok(Route {
            class,
            copy: self.copy,
            pool,
        })
    }
}

impl Copied for Policy {
    fn copied(&self) -> Result<Policy, NoMemory> {
        let name = self.name.copy()?;
        Ok(Policy {
            name,
            archive_priority: self.archive_priority,
            archive_min_age: self.archive_min_age,
            retrieve_priority: self.retrieve_priority,
            retrieve_min_age: self.retrieve_min_age,
        })
    }
}

impl Copied for Rule {
    fn copied(&self) -> Result<Rule, NoMemory> {
        let name = self.name.copy()?;
        let policy = self.policy.copy()?;
        Ok(Rule {
            kind: self.kind,
            name,
            policy,
        })
    }
}

impl Copied for Tape {
    fn copied(&self) -> Result<Tape, NoMemory> {
        let vid = self.vid.copy()?;
        let pool = self.pool.copy()?;
        let library = self.library.copy()?;
        Ok(Tape {
            vid,
            pool,
            library,
            capacity: self.capacity,
            state: self.state,
        })
    }
}

impl Copied for Drive {
    fn copied(&self) -> Result<Drive, NoMemory> {
        let name = self.name.copy()?;
        let library = self.library.copy()?;
        Ok(Drive { name, library })
    }
}

impl Copied for Directory {
    fn copied(&self) -> Result<Directory, NoMemory> {
        let path = self.path.copy()?;
        let class = self.class.copy()?;
        Ok(Directory { path, class })
    }
}

impl Copied for Failure {
    fn copied(&self) -> Result<Failure, NoMemory> {
        let drive = self.drive.copy()?;
        Ok(Failure {
            drive,
            call: self.call,
            number: self.number,
            alter: self.alter,
        })
    }
}

// The site once more, its lists with no room to spare. NoMemory leaves nothing.
pub(crate) fn copy_of(alloc: Global, site: &Site) -> Result<Site, NoMemory>
    ensures { IfOk result (λ copy. copy ≡ bare_site site.now) }
{
    Ok(Site {
        version: site.version,
        sitename: site.sitename.copy()?,
        endpoint: site.endpoint.copy()?,
        default_policy: site.default_policy.copy()?,
        repack_policy: site.repack_policy.copy()?,
        limits: site.limits,
        vos: copies_of(alloc, site.vos.as_slice())?,
        classes: copies_of(alloc, site.classes.as_slice())?,
        pools: copies_of(alloc, site.pools.as_slice())?,
        routes: copies_of(alloc, site.routes.as_slice())?,
        policies: copies_of(alloc, site.policies.as_slice())?,
        rules: copies_of(alloc, site.rules.as_slice())?,
        libraries: copies_of(alloc, site.libraries.as_slice())?,
        tapes: copies_of(alloc, site.tapes.as_slice())?,
        drives: copies_of(alloc, site.drives.as_slice())?,
        directories: copies_of(alloc, site.directories.as_slice())?,
        failures: copies_of(alloc, site.failures.as_slice())?,
    })
}
