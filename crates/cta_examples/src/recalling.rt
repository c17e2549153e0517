// Files recalled from tape, and what is told of the requests that wanted them.
ghost use Rattle.std.specs.Prelude.{[], ◌∷◌, ◌≡◌, codes, false, true};
ghost use Rattle.cta_examples.specs.Asks.{answer_at};
ghost use Rattle.cta_examples.specs.Recalling.{deleted_before_recall, one_path_unknown, one_recall_for_two, recalled, three_items, three_recalled, three_recalls, three_staged};
ghost use Rattle.cta_examples.specs.Sites.{small_buffer_site};
ghost use Rattle.cta_model.specs.Answers.{answer_of};
ghost use Rattle.cta_model.specs.Examples.{item_of, one_copy_site, read_late, sum_of_size, with_small_buffer};
ghost use Rattle.cta_model.specs.Jobs.{subscribers_of};
ghost use Rattle.cta_model.specs.Legal.{IsLegal};
ghost use Rattle.cta_model.specs.Localities.{locality_of};
ghost use Rattle.cta_model.specs.Looks.{look_answer_of};
ghost use Rattle.cta_model.specs.Recalls.{recall_job};
ghost use Rattle.cta_model.specs.declared.answers.Answer.TheVariants as answer;
ghost use Rattle.cta_model.specs.declared.answers.Refusal.TheVariants as refusal;
ghost use Rattle.cta_model.specs.declared.asks.Ask.TheVariants as ask;
ghost use Rattle.cta_model.specs.declared.asks.Direction.TheVariants as direction;
ghost use Rattle.cta_model.specs.declared.asks.Fate.TheVariants as fate;
ghost use Rattle.cta_model.specs.declared.asks.Look.TheVariants as look;
ghost use Rattle.cta_model.specs.declared.reports.FileState.TheVariants as file;
ghost use Rattle.cta_model.specs.declared.reports.Locality.TheVariants as locality;
ghost use Rattle.cta_site.specs.Listed.{rows};

/// A staged file is read from tape, for which another file is evicted, and its request is COMPLETED.
pub fn recall_is_reported()
    ensures legal { IsLegal small_buffer_site recalled }
    ensures mount { answer_at recalled 12 ≡ Some (answer.Mounted 12 direction.Retrieve 0) }
    ensures batch { answer_at recalled 13 ≡ Some (answer.Batch (rows (item_of (recall_job 11 1) 5 1 ∷ [])) (rows (6 ∷ []))) }
    ensures request { look_answer_of small_buffer_site recalled 200 (look.StageInfo 11) ≡ answer.Stage (record {
      id = 11;
      created_at = 200;
      started_at = Some 200;
      completed_at = Some 200;
      files = rows (record { path = codes "/atlas/a"; state = file.Completed; on_disk = true; started_at = Some 200; finished_at = Some 200; error = None } ∷ []);
    }) }
    ensures bytes { look_answer_of small_buffer_site recalled 200 (look.Fetch (codes "/atlas/a")) ≡ answer.Bytes (sum_of_size 5) }
    ensures here { locality_of small_buffer_site recalled 1 ≡ locality.DiskAndTape }
    ensures evicted { locality_of small_buffer_site recalled 6 ≡ locality.Tape }
{}

/// Two requests for a file wait for one recall; after the first is cancelled, the recall serves the second alone.
pub fn one_recall_serves_two_requests()
    ensures legal { IsLegal small_buffer_site one_recall_for_two }
    ensures subscribers { subscribers_of small_buffer_site one_recall_for_two (recall_job 8 1) ≡ 8 ∷ 9 ∷ [] }
    ensures cancelled { look_answer_of small_buffer_site one_recall_for_two 200 (look.StageInfo 8) ≡ answer.Stage (record {
      id = 8;
      created_at = 200;
      started_at = None;
      completed_at = Some 200;
      files = rows (record { path = codes "/atlas/a"; state = file.Cancelled; on_disk = true; started_at = None; finished_at = Some 200; error = None } ∷ []);
    }) }
    ensures completed { look_answer_of small_buffer_site one_recall_for_two 200 (look.StageInfo 9) ≡ answer.Stage (record {
      id = 9;
      created_at = 200;
      started_at = Some 200;
      completed_at = Some 200;
      files = rows (record { path = codes "/atlas/a"; state = file.Completed; on_disk = true; started_at = Some 200; finished_at = Some 200; error = None } ∷ []);
    }) }
    ensures idle { answer_of small_buffer_site one_recall_for_two 200 (ask.Next 0) ≡ answer.Idle }
{}

/// A recall that is cancelled after its claim and read all the same is Stale, and its file is not on disk.
pub fn late_read_is_told()
    ensures legal { IsLegal (with_small_buffer one_copy_site) read_late }
    ensures stale { answer_at read_late 12 ≡ Some (answer.Arrived fate.Stale) }
    ensures request { look_answer_of (with_small_buffer one_copy_site) read_late 200 (look.StageInfo 8) ≡ answer.Stage (record {
      id = 8;
      created_at = 200;
      started_at = Some 200;
      completed_at = Some 200;
      files = rows (record { path = codes "/atlas/a"; state = file.Cancelled; on_disk = false; started_at = Some 200; finished_at = Some 200; error = None } ∷ []);
    }) }
{}

/// Three files are written in one batch and read in another, by fSeq. The request names one of them twice and keeps it
/// once; it starts with its first file and is completed with its last.
pub fn whole_batch_is_read_by_fseq()
    ensures staged { IsLegal small_buffer_site three_staged }
    ensures recalled { IsLegal small_buffer_site three_recalled }
    ensures written { answer_at three_staged 5 ≡ Some (answer.Batch (rows three_items) (rows [])) }
    ensures evicted { answer_at three_staged 8 ≡ Some (answer.Stored (rows (1 ∷ 2 ∷ 3 ∷ []))) }
    ensures read { answer_at three_recalled 15 ≡ Some (answer.Batch (rows three_recalls) (rows (8 ∷ []))) }
    ensures waiting { look_answer_of small_buffer_site three_staged 200 (look.StageInfo 13) ≡ answer.Stage (record {
      id = 13;
      created_at = 200;
      started_at = None;
      completed_at = None;
      files = rows (record { path = codes "/atlas/f1"; state = file.Submitted; on_disk = false; started_at = None; finished_at = None; error = None }
          ∷ record { path = codes "/atlas/f2"; state = file.Submitted; on_disk = false; started_at = None; finished_at = None; error = None }
          ∷ record { path = codes "/atlas/f3"; state = file.Submitted; on_disk = false; started_at = None; finished_at = None; error = None }
          ∷ []);
    }) }
    ensures completed { look_answer_of small_buffer_site three_recalled 300 (look.StageInfo 13) ≡ answer.Stage (record {
      id = 13;
      created_at = 200;
      started_at = Some 200;
      completed_at = Some 203;
      files = rows (record { path = codes "/atlas/f1"; state = file.Completed; on_disk = true; started_at = Some 200; finished_at = Some 201; error = None }
          ∷ record { path = codes "/atlas/f2"; state = file.Completed; on_disk = true; started_at = Some 200; finished_at = Some 202; error = None }
          ∷ record { path = codes "/atlas/f3"; state = file.Completed; on_disk = true; started_at = Some 200; finished_at = Some 203; error = None }
          ∷ []);
    }) }
{}

/// A path that names no file is FAILED at once, and the other file of the request waits. A file that waits is not on
/// disk, so its bytes are refused.
pub fn unknown_path_fails_at_once()
    ensures legal { IsLegal small_buffer_site one_path_unknown }
    ensures request { look_answer_of small_buffer_site one_path_unknown 200 (look.StageInfo 8) ≡ answer.Stage (record {
      id = 8;
      created_at = 200;
      started_at = None;
      completed_at = None;
      files = rows (record { path = codes "/atlas/a"; state = file.Submitted; on_disk = false; started_at = None; finished_at = None; error = None }
          ∷ record { path = codes "/x"; state = file.Failed; on_disk = false; started_at = None; finished_at = Some 200; error = Some (codes "no such file") }
          ∷ []);
    }) }
    ensures bytes { look_answer_of small_buffer_site one_path_unknown 200 (look.Fetch (codes "/atlas/a")) ≡ answer.Refused refusal.NotResident }
{}

/// A file that is deleted while it waits is FAILED, and so its request is completed.
pub fn deletion_fails_the_request()
    ensures legal { IsLegal small_buffer_site deleted_before_recall }
    ensures request { look_answer_of small_buffer_site deleted_before_recall 210 (look.StageInfo 8) ≡ answer.Stage (record {
      id = 8;
      created_at = 200;
      started_at = None;
      completed_at = Some 210;
      files = rows (record { path = codes "/atlas/a"; state = file.Failed; on_disk = false; started_at = None; finished_at = Some 210; error = Some (codes "deleted") }
          ∷ record { path = codes "/x"; state = file.Failed; on_disk = false; started_at = None; finished_at = Some 200; error = Some (codes "no such file") }
          ∷ []);
    }) }
{}
