// Histories that are legal, and what the definitions say of them: each shows one rule that a wrong definition would break.
ghost use Rattle.std.specs.Prelude.{Some, [], ◌∷◌, ◌≡◌};
ghost use Rattle.cta_model.specs.Answers.{answer_of};
ghost use Rattle.cta_model.specs.Examples.{both_copies_on_tape, empty_file_on_tape, first_copy_on_tape, first_job, one_claimed, one_copy_site, one_put, one_reads, one_returned, put_b, read_late, recalls_first_site, repack_read, repack_written, second_copy_queued, somebody, two_class_site, two_copy_site, two_priorities, two_tape_site, with_small_buffer};
ghost use Rattle.cta_model.specs.Legal.{IsLegal};
ghost use Rattle.cta_model.specs.Localities.{locality_of};
ghost use Rattle.cta_model.specs.Places.{place_of};
ghost use Rattle.cta_model.specs.Queues.{queue_of};
ghost use Rattle.cta_model.specs.Repacks.{repack_of};
ghost use Rattle.cta_model.specs.declared.answers.Answer.TheVariants as answer;
ghost use Rattle.cta_model.specs.declared.answers.Refusal.TheVariants as refusal;
ghost use Rattle.cta_model.specs.declared.asks.Ask.TheVariants as ask;
ghost use Rattle.cta_model.specs.declared.asks.Direction.TheVariants as direction;
ghost use Rattle.cta_model.specs.declared.reports.ItemState.TheVariants as item;
ghost use Rattle.cta_model.specs.declared.reports.Locality.TheVariants as locality;

/// A file that was put is on disk.
pub fn put_is_on_disk()
    ensures legal { IsLegal one_copy_site one_put }
    ensures locality { locality_of one_copy_site one_put 1 ≡ locality.Disk }
{}

/// A file of one copy that was flushed is on disk and tape.
pub fn flushed_is_on_tape()
    ensures legal { IsLegal one_copy_site empty_file_on_tape }
    ensures locality { locality_of one_copy_site empty_file_on_tape 1 ≡ locality.DiskAndTape }
{}

/// A file of two copies is on tape only when both were flushed.
pub fn both_copies_are_needed()
    ensures first { IsLegal two_copy_site first_copy_on_tape }
    ensures on_disk { locality_of two_copy_site first_copy_on_tape 1 ≡ locality.Disk }
    ensures second { IsLegal two_copy_site both_copies_on_tape }
    ensures on_tape { locality_of two_copy_site both_copies_on_tape 1 ≡ locality.DiskAndTape }
{}

/// A file whose second copy is queued is not evicted for another, though its first copy is on tape.
pub fn queued_copy_keeps_its_file()
    ensures legal { IsLegal (with_small_buffer two_copy_site) second_copy_queued }
    ensures full { answer_of (with_small_buffer two_copy_site) second_copy_queued 100 put_b.1 ≡ answer.Refused refusal.NoSpace }
{}

/// A claimed job is not queued, and the next claim finds nothing.
pub fn claimed_job_is_not_queued()
    ensures legal { IsLegal one_copy_site one_claimed }
    ensures queue { queue_of one_copy_site one_claimed direction.Archive 0 ≡ [] }
    ensures claim { answer_of one_copy_site one_claimed 100 (ask.Claim 2) ≡ answer.Nothing }
{}

/// Jobs that return, charged or not, stand again where their births put them, before what was put later.
pub fn returned_jobs_keep_their_place()
    ensures legal { IsLegal one_copy_site one_returned }
    ensures queue { queue_of one_copy_site one_returned direction.Archive 0 ≡ first_job 1 ∷ first_job 2 ∷ first_job 5 ∷ [] }
{}

/// The queue of the higher priority is mounted, though the other one is older.
pub fn priority_goes_before_age()
    ensures legal { IsLegal two_class_site two_priorities }
    ensures mount { answer_of two_class_site two_priorities 100 (ask.Next 0) ≡ answer.Mounted 3 direction.Archive 1 }
{}

/// A drive writes for a virtual organisation while another reads for it, where each direction has a quota of one drive.
pub fn directions_have_their_own_quotas()
    ensures legal { IsLegal (with_small_buffer recalls_first_site) one_reads }
    ensures mount { answer_of (with_small_buffer recalls_first_site) one_reads 100 (ask.Next 1) ≡ answer.Mounted 11 direction.Archive 1 }
{}

/// The late read of a cancelled recall does not bring the file into the buffer.
pub fn late_read_is_dropped()
    ensures legal { IsLegal (with_small_buffer one_copy_site) read_late }
    ensures locality { locality_of (with_small_buffer one_copy_site) read_late 1 ≡ locality.Tape }
{}

/// The old place of a repacked copy counts until the new one is flushed, and only then the tape may be reclaimed.
pub fn old_place_counts_until_the_new()
    ensures read { IsLegal (with_small_buffer two_tape_site) repack_read }
    ensures writing { repack_of (with_small_buffer two_tape_site) repack_read 9 ≡ Some (record { tape = 0; items = record { file = 1; copy = 1; state = item.Writing } ∷ [] }) }
    ensures old_place { place_of repack_read 1 1 ≡ Some (record { copy = 1; tape = 0; fseq = 1 }) }
    ensures kept { answer_of (with_small_buffer two_tape_site) repack_read 100 (ask.Reclaim somebody 0) ≡ answer.Refused refusal.LiveFiles }
    ensures written { IsLegal (with_small_buffer two_tape_site) repack_written }
    ensures done { repack_of (with_small_buffer two_tape_site) repack_written 9 ≡ Some (record { tape = 0; items = record { file = 1; copy = 1; state = item.Done } ∷ [] }) }
    ensures new_place { place_of repack_written 1 1 ≡ Some (record { copy = 1; tape = 1; fseq = 1 }) }
    ensures reclaimed { answer_of (with_small_buffer two_tape_site) repack_written 100 (ask.Reclaim somebody 0) ≡ answer.Done }
{}
