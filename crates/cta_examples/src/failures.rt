// Devices that fail: charges, retries, and drives that are down.
ghost use Rattle.std.specs.Prelude.{[], ◌∷◌, ◌≡◌, ◌+◌, codes, false};
ghost use Rattle.cta_examples.specs.Asks.{answer_at, retry_a};
ghost use Rattle.cta_examples.specs.Failures.{altered, failed_once, failed_twice, flush_failed, load_failed, put_down, read_again, reads_failed, retried, retried_on_tape, up_again, write_failed};
ghost use Rattle.cta_examples.specs.Recalling.{three_items};
ghost use Rattle.cta_examples.specs.Sites.{one_try_site, small_buffer_site, small_two_copy_site};
ghost use Rattle.cta_model.specs.Answers.{answer_of};
ghost use Rattle.cta_model.specs.Charges.{charges_of};
ghost use Rattle.cta_model.specs.Examples.{first_job, one_copy_site};
ghost use Rattle.cta_model.specs.History.{weight_of};
ghost use Rattle.cta_model.specs.Mounts.{job_of};
ghost use Rattle.cta_model.specs.Legal.{IsLegal};
ghost use Rattle.cta_model.specs.Localities.{locality_of};
ghost use Rattle.cta_model.specs.Looks.{look_answer_of};
ghost use Rattle.cta_model.specs.Recalls.{recall_job};
ghost use Rattle.cta_model.specs.declared.answers.Answer.TheVariants as answer;
ghost use Rattle.cta_model.specs.declared.asks.Ask.TheVariants as ask;
ghost use Rattle.cta_model.specs.declared.asks.Direction.TheVariants as direction;
ghost use Rattle.cta_model.specs.declared.asks.Fault.TheVariants as fault;
ghost use Rattle.cta_model.specs.declared.asks.Look.TheVariants as look;
ghost use Rattle.cta_model.specs.declared.reports.FileState.TheVariants as file;
ghost use Rattle.cta_model.specs.declared.reports.Locality.TheVariants as locality;
ghost use Rattle.cta_site.specs.Listed.{rows};

/// A flush fault leaves no file of the batch on tape. It charges each job, and all are claimed again in the same order.
pub fn flush_fault_charges_the_batch()
    ensures legal { IsLegal one_copy_site flush_failed }
    ensures first { locality_of one_copy_site flush_failed 1 ≡ locality.Disk }
    ensures second { locality_of one_copy_site flush_failed 2 ≡ locality.Disk }
    ensures third { locality_of one_copy_site flush_failed 3 ≡ locality.Disk }
    ensures charged { charges_of flush_failed (first_job 3) ≡ record { drive = 0; tape = 0; fault = fault.Flush } ∷ [] }
    ensures again { answer_at flush_failed 9 ≡ Some (answer.Batch (rows three_items) (rows [])) }
{}

/// A Failed with one job charged and two returned weighs 4 beside three Puts of 1, a Next of 1 and a Claim of 4. The
/// returned jobs have no charge.
pub fn returned_jobs_weigh_too()
    ensures legal { IsLegal one_copy_site write_failed }
    ensures weight { weight_of write_failed ≡ 3 + 1 + 4 + 4 }
    ensures charged { charges_of write_failed (first_job 1) ≡ record { drive = 0; tape = 0; fault = fault.Write } ∷ [] }
    ensures returned { charges_of write_failed (first_job 2) ≡ [] }
{}

/// Each read fault moves the recall to the next of its file's tapes; the third is the last, and fails the file with all
/// three in order.
pub fn last_read_fault_fails_the_file()
    ensures legal { IsLegal small_two_copy_site reads_failed }
    ensures first { answer_at reads_failed 13 ≡ Some (answer.Mounted 13 direction.Retrieve 0) }
    ensures second { answer_at reads_failed 17 ≡ Some (answer.Mounted 17 direction.Retrieve 1) }
    ensures third { answer_at reads_failed 21 ≡ Some (answer.Mounted 21 direction.Retrieve 0) }
    ensures request { look_answer_of small_two_copy_site reads_failed 100 (look.StageInfo 12) ≡ answer.Stage (record {
      id = 12;
      created_at = 100;
      started_at = Some 100;
      completed_at = Some 100;
      files = rows (record {
        path = codes "/atlas/a";
        state = file.Failed;
        on_disk = false;
        started_at = Some 100;
        finished_at = Some 100;
        error = Some (codes "read fault on d1 V1; read fault on d1 V2; read fault on d1 V1");
      } ∷ []);
    }) }
    ensures idle { answer_of small_two_copy_site reads_failed 100 (ask.Next 0) ≡ answer.Idle }
{}

/// A file that is read with another SHA-256 than the catalogue's charges its recall, and the same mount reads it again.
pub fn mismatch_charges_one_and_goes_on()
    ensures legal { IsLegal small_buffer_site read_again }
    ensures charged { charges_of read_again (recall_job 8 1) ≡ record { drive = 0; tape = 0; fault = altered } ∷ [] }
    ensures again { answer_at read_again 12 ≡ answer_at read_again 10 }
    ensures here { locality_of small_buffer_site read_again 1 ≡ locality.DiskAndTape }
{}

/// A copy whose last try failed is told with its error until a Retry bears a new job for it. Once that is flushed, a
/// further Retry bears none.
pub fn failed_copy_is_told_and_retried()
    ensures legal { IsLegal one_try_site failed_once }
    ensures failed { look_answer_of one_try_site failed_once 100 look.FailedList ≡ answer.FailedSeen (rows (
        record { path = codes "/atlas/a"; copy = 1; errors = rows (codes "write fault on d1 V1" ∷ []) } ∷ [])) }
    ensures retry { IsLegal one_try_site retried }
    ensures born { answer_at retried 6 ≡ Some (answer.Retried (rows (job_of 6 1 1 ∷ []))) }
    ensures none { look_answer_of one_try_site retried 100 look.FailedList ≡ answer.FailedSeen (rows []) }
    ensures written { IsLegal one_try_site retried_on_tape }
    ensures on_tape { locality_of one_try_site retried_on_tape 1 ≡ locality.DiskAndTape }
    ensures second { answer_of one_try_site retried_on_tape 100 retry_a.1 ≡ answer.Retried (rows []) }
{}

/// A copy that fails once more after a Retry is told with the errors of its last job alone.
pub fn failed_copy_tells_its_last_job()
    ensures legal { IsLegal one_try_site failed_twice }
    ensures failed { look_answer_of one_try_site failed_twice 100 look.FailedList ≡ answer.FailedSeen (rows (
        record { path = codes "/atlas/a"; copy = 1; errors = rows (codes "flush fault on d1 V1" ∷ []) } ∷ [])) }
{}

/// A load fault puts the drive down until a DriveUp.
pub fn drive_comes_up_again()
    ensures legal { IsLegal one_copy_site load_failed }
    ensures down { answer_of one_copy_site load_failed 100 (ask.Next 0) ≡ answer.DriveDown }
    ensures up { IsLegal one_copy_site up_again }
    ensures mount { answer_at up_again 5 ≡ Some (answer.Mounted 5 direction.Archive 0) }
    ensures on_tape { locality_of one_copy_site up_again 1 ≡ locality.DiskAndTape }
{}

/// A drive that its operator has put down mounts nothing.
pub fn drive_put_down_mounts_nothing()
    ensures legal { IsLegal one_copy_site put_down }
    ensures down { answer_of one_copy_site put_down 100 (ask.Next 0) ≡ answer.DriveDown }
{}
