// Tapes that change their states, are repacked and reclaimed.
ghost use Rattle.std.specs.Prelude.{[], ◌∷◌, ◌≡◌, codes, false};
ghost use Rattle.cta_examples.specs.Asks.{answer_at, reclaim_first, repack_first, set_state};
ghost use Rattle.cta_examples.specs.Sites.{small_buffer_site, small_two_copy_site};
ghost use Rattle.cta_examples.specs.Tapes.{empty_repack, item_deleted, one_source_left, repack_lost, repack_waits, reclaimed, repack_write_failed, repacked, repacking, tape_active_again, tape_disabled, tape_lost, to_be_repacked, two_sources};
ghost use Rattle.cta_model.specs.Answers.{answer_of};
ghost use Rattle.cta_model.specs.Examples.{one_copy_site, two_tape_site};
ghost use Rattle.cta_model.specs.Mounts.{job_of};
ghost use Rattle.cta_model.specs.Legal.{IsLegal};
ghost use Rattle.cta_model.specs.Localities.{locality_of};
ghost use Rattle.cta_model.specs.Looks.{look_answer_of};
ghost use Rattle.cta_model.specs.declared.answers.Answer.TheVariants as answer;
ghost use Rattle.cta_model.specs.declared.answers.Refusal.TheVariants as refusal;
ghost use Rattle.cta_model.specs.declared.asks.Ask.TheVariants as ask;
ghost use Rattle.cta_model.specs.declared.asks.Direction.TheVariants as direction;
ghost use Rattle.cta_model.specs.declared.asks.Look.TheVariants as look;
ghost use Rattle.cta_model.specs.declared.reports.FileState.TheVariants as file;
ghost use Rattle.cta_model.specs.declared.reports.ItemState.TheVariants as item;
ghost use Rattle.cta_model.specs.declared.reports.Locality.TheVariants as locality;
ghost use Rattle.cta_site.specs.Listed.{rows};
ghost use Rattle.cta_site.specs.declared.site.TapeState.TheVariants as state;

/// A repack writes the one file of a tape to another, at the second try. The old tape keeps it until then, and is empty
/// once it is reclaimed.
pub fn repack_moves_a_copy()
    ensures marked { IsLegal two_tape_site to_be_repacked }
    ensures live { answer_of two_tape_site to_be_repacked 100 reclaim_first.1 ≡ answer.Refused refusal.LiveFiles }
    ensures made { IsLegal two_tape_site repacking }
    ensures items { answer_at repacking 7 ≡ Some (answer.Repacking 7 (rows (job_of 0 1 1 ∷ []))) }
    ensures writing { look_answer_of two_tape_site repacking 100 (look.RepackInfo 7) ≡ answer.RepackSeen (record {
      id = 7;
      vid = codes "V1";
      items = rows (record { path = codes "/atlas/a"; copy = 1; state = item.Writing } ∷ []);
    }) }
    ensures twice { answer_of two_tape_site repacking 100 repack_first.1 ≡ answer.Refused refusal.RepackLive }
    ensures failed { IsLegal two_tape_site repack_write_failed }
    ensures still_there { locality_of two_tape_site repack_write_failed 1 ≡ locality.DiskAndTape }
    ensures still_live { answer_of two_tape_site repack_write_failed 100 reclaim_first.1 ≡ answer.Refused refusal.LiveFiles }
    ensures moved { IsLegal two_tape_site repacked }
    ensures done { look_answer_of two_tape_site repacked 100 (look.RepackInfo 7) ≡ answer.RepackSeen (record {
      id = 7;
      vid = codes "V1";
      items = rows (record { path = codes "/atlas/a"; copy = 1; state = item.Done } ∷ []);
    }) }
    ensures empty { IsLegal two_tape_site reclaimed }
    ensures tape { look_answer_of two_tape_site reclaimed 100 (look.TapeInfo 0) ≡ answer.TapeSeen (record { vid = codes "V1"; state = state.Repacking; used = 0; files = 0; next_fseq = 1 }) }
{}

/// The item of a file that was deleted is GONE, and is told by the path of the file's Put.
pub fn deleted_item_is_gone()
    ensures legal { IsLegal two_tape_site item_deleted }
    ensures gone { look_answer_of two_tape_site item_deleted 100 (look.RepackInfo 7) ≡ answer.RepackSeen (record {
      id = 7;
      vid = codes "V1";
      items = rows (record { path = codes "/atlas/a"; copy = 1; state = item.Gone } ∷ []);
    }) }
{}

/// The item of a file that is not on disk is READING, and FAILED where the file's last tape is lost.
pub fn lost_tape_fails_its_repack()
    ensures waits { IsLegal small_buffer_site repack_waits }
    ensures reading { look_answer_of small_buffer_site repack_waits 100 (look.RepackInfo 9) ≡ answer.RepackSeen (record {
      id = 9;
      vid = codes "V1";
      items = rows (record { path = codes "/atlas/a"; copy = 1; state = item.Reading } ∷ []);
    }) }
    ensures lost { IsLegal small_buffer_site repack_lost }
    ensures failed { look_answer_of small_buffer_site repack_lost 100 (look.RepackInfo 9) ≡ answer.RepackSeen (record {
      id = 9;
      vid = codes "V1";
      items = rows (record { path = codes "/atlas/a"; copy = 1; state = item.Failed } ∷ []);
    }) }
{}

/// A tape is repacked only where it is REPACKING; one with no file gives a repack with no item.
pub fn empty_tape_gives_an_empty_repack()
    ensures active { answer_of one_copy_site [] 100 repack_first.1 ≡ answer.Refused refusal.NotRepacking }
    ensures legal { IsLegal one_copy_site empty_repack }
    ensures repack { look_answer_of one_copy_site empty_repack 100 (look.RepackInfo 2) ≡ answer.RepackSeen (record { id = 2; vid = codes "V1"; items = rows [] }) }
    ensures not_live { answer_of one_copy_site empty_repack 100 repack_first.1 ≡ answer.Repacking 3 (rows []) }
{}

/// Where the last tape of a file is BROKEN, the file that is not on disk is LOST, and its recall fails. The tape keeps
/// that state; what is told of it still counts the file.
pub fn broken_tape_loses_its_files()
    ensures legal { IsLegal small_buffer_site tape_lost }
    ensures request { look_answer_of small_buffer_site tape_lost 100 (look.StageInfo 8) ≡ answer.Stage (record {
      id = 8;
      created_at = 100;
      started_at = None;
      completed_at = Some 100;
      files = rows (record { path = codes "/atlas/a"; state = file.Failed; on_disk = false; started_at = None; finished_at = Some 100; error = Some (codes "no tape is left") } ∷ []);
    }) }
    ensures lost { locality_of small_buffer_site tape_lost 1 ≡ locality.Lost }
    ensures broken { answer_of small_buffer_site tape_lost 100 (set_state 0 state.Active).1 ≡ answer.Refused refusal.TapeBroken }
    ensures tape { look_answer_of small_buffer_site tape_lost 100 (look.TapeInfo 0) ≡ answer.TapeSeen (record { vid = codes "V1"; state = state.Broken; used = 5; files = 1; next_fseq = 2 }) }
{}

/// A file whose only tape is DISABLED is unavailable until the tape is ACTIVE again.
pub fn disabled_tape_is_unavailable()
    ensures disabled { IsLegal small_buffer_site tape_disabled }
    ensures unavailable { locality_of small_buffer_site tape_disabled 1 ≡ locality.Unavailable }
    ensures active { IsLegal small_buffer_site tape_active_again }
    ensures on_tape { locality_of small_buffer_site tape_active_again 1 ≡ locality.Tape }
{}

/// A recall waits for the first tape of its file, and where that is DISABLED, for the second.
pub fn recall_moves_to_another_source()
    ensures both { IsLegal small_two_copy_site two_sources }
    ensures first { answer_of small_two_copy_site two_sources 100 (ask.Next 0) ≡ answer.Mounted 13 direction.Retrieve 0 }
    ensures one { IsLegal small_two_copy_site one_source_left }
    ensures on_tape { locality_of small_two_copy_site one_source_left 1 ≡ locality.Tape }
    ensures second { answer_of small_two_copy_site one_source_left 100 (ask.Next 0) ≡ answer.Mounted 14 direction.Retrieve 1 }
{}
