// Copies that have failed.
ghost use Rattle.std.specs.Prelude.{◌≡◌, ◌+◌, ◌≤◌, length};
ghost use Rattle.part_model.specs.Failed.{added_copies};
ghost use Rattle.fault_asks.specs.Failing.{CanFail, jobs_unplaced};

use cta_model::Job;
use failed_copies::FailedCopies;
use tape_table::TapeTable;

// The copies of jobs that have no place have failed.
pub(crate) fn add_failed(failed: &mut FailedCopies, tapes: &TapeTable, jobs: &[Job])
    requires room { length jobs.now ≤ failed.old.room }
    requires apart { CanFail failed.old.value jobs.now }
    ensures value { failed.new.value ≡ added_copies (jobs_unplaced tapes.now.value jobs.now) failed.old.value }
    ensures room { failed.old.room ≤ failed.new.room + length jobs.now }
{
    for at in (0..jobs.len()).rev() {
        let job = jobs[at];
        if tapes.place(job.file, job.copy).is_some() {
            continue;
        }
        failed.add(job);
    }
}
