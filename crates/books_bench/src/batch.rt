// The files that a stage request is made of.
ghost use Rattle.stage_book.specs.Requested.{AreApart, ArePathsApart};

use crate::paths::{count_of, path_of};
use cta_model::StageFile;
use cta_site::{NoMemory, Rows};
use std::alloc::Global;
use std::marker::Model;

// The number of a request, and its files, each with a number and a path of its own, and the number below `next`.
#[derive(Drop)]
pub struct Batch {
    id: u32,
    files: Vec<StageFile>,
    next: u32,
}

impl Model for Batch {
    ghost use Rattle.std.specs.Prelude.{List};
    ghost use Rattle.cta_model.specs.declared.states.StageFile.{StageFile};
    ghost use Rattle.books_bench.specs.Batches.{IsBatch};

    ghost Value = { List StageFile };

    ghost view = { λ b. b.files.items };

    ghost invariant = { λ b. IsBatch b.next b.files.items };
}

impl Batch {
    fn new(alloc: Global, id: u32, first: u32) -> Batch {
        Batch {
            id,
            files: Vec::new(alloc),
            next: first,
        }
    }

    // The next file joins, where there is a number behind its own.
    fn add(&mut self, alloc: Global) -> Result<(), NoMemory> {
        if self.next == u32::MAX {
            return Ok(());
        }
        let path = path_of(alloc, self.next)?;
        self.files.push(StageFile {
            path,
            file: Some(self.next),
            lifetime: 10,
        })?;
        self.next += 1;
        Ok(())
    }

    // The number of the request.
    pub fn id(&self) -> u32 {
        self.id
    }

    // How many files it has.
    pub fn count(&self) -> u32 {
        count_of(self.files.len())
    }

    // The files.
    pub fn files(self) -> Rows<StageFile>
        ensures apart { AreApart result.items }
        ensures paths { ArePathsApart result.items }
    {
        Rows::of(self.files)
    }
}

// The request of a number, of the `each` files of its place, as many as there are.
fn batch_of(alloc: Global, id: u32, each: u32, files: u32) -> Result<Batch, NoMemory> {
    let first = id.saturating_mul(each);
    let mut batch = Batch::new(alloc, id, first);
    for _ in first..first.saturating_add(each).min(files) {
        batch.add(alloc)?;
    }
    Ok(batch)
}

// The requests of so many files, `each` in one.
pub fn batches(alloc: Global, each: u32, files: u32) -> Result<Vec<Batch>, NoMemory> {
    let mut all = Vec::new(alloc);
    for id in 0..files.div_ceil(each.max(1)) {
        all.push(batch_of(alloc, id, each, files)?)?;
    }
    Ok(all)
}
