// Failed copies that are tried again.
ghost use Rattle.std.specs.Prelude.{◌≡◌};
ghost use Rattle.part_model.specs.Failed.{removed_copies};

use cta_model::Job;
use failed_copies::FailedCopies;

// The copies of these jobs are failed copies no more.
pub(crate) fn take_all(failed: &mut FailedCopies, jobs: &[Job])
    ensures { failed.new.value ≡ removed_copies jobs.now failed.old.value }
{
    for job in jobs {
        let _there = failed.take(*job);
    }
}
