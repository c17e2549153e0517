// The live copies on a tape.
ghost use Rattle.std.specs.Prelude.{◌≡◌, ◌+◌, ◌<◌, ◌^◌, ℕ, Some, IfOk};
ghost use Rattle.cta_model.specs.declared.states.Place.{Place};
ghost use Rattle.cta_model.specs.Mounts.{job_of};
ghost use Rattle.part_model.specs.Tapes.{place_in};
ghost use Rattle.tape_asks.specs.Items.{AreItemsOn};

use cta_model::Job;
use cta_site::NoMemory;
use part_model::Placed;
use std::alloc::Global;
use tape_table::{TapeTable, walks_pass_all};

// A copy as an item of a repack.
fn item_of(found: Placed) -> Job
    ensures { result ≡ job_of 0 found.file found.copy }
{
    Job {
        birth: 0,
        file: found.file,
        copy: found.copy,
    }
}

/// The copies that have their place on a tape, in order of fSeq, each as a job with birth 0. NoMemory gives nothing. Its cost is their
/// number with its logarithm. This project's own.
pub(crate) fn items_on(alloc: Global, tapes: &TapeTable, tape: u32) -> Result<Vec<Job>, NoMemory>
    requires { (f c : ℕ) (p : Place) → place_in tapes.now.value f c ≡ Some p → p.fseq + 1 < 2 ^ 32 }
    ensures { IfOk result (λ items. AreItemsOn tapes.now.value tape items.items) }
{
    walks_pass_all();
    let mut items = Vec::new(alloc);
    let mut next = tapes.next_live(tape, 0);
    while let Some(found) = next {
        items.push(item_of(found))?;
        next = tapes.next_live(tape, found.place.fseq + 1);
    }
    Ok(items)
}
