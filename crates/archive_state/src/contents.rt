// Contents that a mount writes.
ghost use Rattle.std.specs.Prelude.{◌≡◌, IfOk, Some, is_some, map, true};
ghost use Rattle.cta_model.specs.declared.asks.Item.{Item};
ghost use Rattle.cta_model.specs.Hands.{sum_of_blob};
ghost use Rattle.part_laws.specs.Contents.{content_of};
ghost use Rattle.archive_state.specs.Contents.{AreInBuffer};

use crate::state::ArchiveState;
use blob::{Blob, Told};
use cta_model::Item;
use cta_site::{NoMemory, Rows};
use std::sync::Arc;

// A second owner of a content.
fn shared(blob: &Arc<Blob>) -> Result<Arc<Blob>, NoMemory>
    ensures { IfOk result (λ other. other.value ≡ blob.now.value) }
{
    match Arc::try_clone(blob) {
        Ok(other) => Ok(other),
        Err(_) => Err(NoMemory),
    }
}

impl<M: Told + Drop> ArchiveState<M> {
    // A second owner of the content of a file in the buffer.
    fn owned(&self, file: u32) -> Result<Arc<Blob>, NoMemory>
        requires { is_some (content_of self.now.history file) ≡ true }
        ensures { IfOk result (λ blob. content_of self.now.history file ≡ Some (sum_of_blob blob)) }
    {
        match self.content(file) {
            Some(blob) => shared(blob),
            None => unreachable!(),
        }
    }

    /// Second owners of the contents of items that are to be written, in the order of the items, whose files are in the buffer. NoMemory
    /// gives nothing. Its cost is the number of the items.
    pub fn contents_of(&self, items: &[Item]) -> Result<Rows<Arc<Blob>>, NoMemory>
        requires { AreInBuffer self.now.history items.now }
        ensures { IfOk result (λ blobs. map sum_of_blob blobs.items ≡ map (λ (i : Item). i.sum) items.now) }
    {
        let mut blobs = Vec::new(self.alloc);
        for item in items {
            let blob = self.owned(item.job.file)?;
            blobs.push(blob)?;
        }
        Ok(Rows::of(blobs))
    }
}
