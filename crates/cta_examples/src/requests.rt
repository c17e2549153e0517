// Stage requests that pin files, are released and dropped.
ghost use Rattle.std.specs.Prelude.{[], ◌∷◌, ◌≡◌, codes, false, true};
ghost use Rattle.cta_examples.specs.Requests.{dropped, one_to_wait_for, pinned, released, staged_in_the_past, waited_for};
ghost use Rattle.cta_examples.specs.Sites.{small_buffer_site};
ghost use Rattle.cta_model.specs.Answers.{answer_of};
ghost use Rattle.cta_model.specs.Examples.{one_copy_site, put_b, somebody};
ghost use Rattle.cta_model.specs.Legal.{IsLegal};
ghost use Rattle.cta_model.specs.Looks.{look_answer_of};
ghost use Rattle.cta_model.specs.declared.answers.Answer.TheVariants as answer;
ghost use Rattle.cta_model.specs.declared.answers.Refusal.TheVariants as refusal;
ghost use Rattle.cta_model.specs.declared.asks.Ask.TheVariants as ask;
ghost use Rattle.cta_model.specs.declared.asks.Look.TheVariants as look;
ghost use Rattle.cta_model.specs.declared.reports.FileState.TheVariants as file;
ghost use Rattle.cta_site.specs.Listed.{rows};

/// A Stage that says an earlier moment than the newest entry happens at the moment of that entry.
pub fn moments_do_not_fall()
    ensures legal { IsLegal one_copy_site staged_in_the_past }
    ensures request { look_answer_of one_copy_site staged_in_the_past 100 (look.StageInfo 2) ≡ answer.Stage (record {
      id = 2;
      created_at = 100;
      started_at = Some 100;
      completed_at = Some 100;
      files = rows (record { path = codes "/atlas/a"; state = file.Completed; on_disk = true; started_at = Some 100; finished_at = Some 100; error = None } ∷ []);
    }) }
{}

/// A request starts with the first of its files that does, and is completed with the last, once all are.
pub fn request_is_completed_with_its_last_file()
    ensures waiting { IsLegal small_buffer_site one_to_wait_for }
    ensures started { look_answer_of small_buffer_site one_to_wait_for 200 (look.StageInfo 9) ≡ answer.Stage (record {
      id = 9;
      created_at = 200;
      started_at = Some 200;
      completed_at = None;
      files = rows (record { path = codes "/atlas/a"; state = file.Submitted; on_disk = false; started_at = None; finished_at = None; error = None }
          ∷ record { path = codes "/atlas/c"; state = file.Completed; on_disk = true; started_at = Some 200; finished_at = Some 200; error = None }
          ∷ record { path = codes "/x"; state = file.Failed; on_disk = false; started_at = None; finished_at = Some 200; error = Some (codes "no such file") }
          ∷ []);
    }) }
    ensures read { IsLegal small_buffer_site waited_for }
    ensures completed { look_answer_of small_buffer_site waited_for 300 (look.StageInfo 9) ≡ answer.Stage (record {
      id = 9;
      created_at = 200;
      started_at = Some 200;
      completed_at = Some 205;
      files = rows (record { path = codes "/atlas/a"; state = file.Completed; on_disk = true; started_at = Some 205; finished_at = Some 205; error = None }
          ∷ record { path = codes "/atlas/c"; state = file.Completed; on_disk = true; started_at = Some 200; finished_at = Some 200; error = None }
          ∷ record { path = codes "/x"; state = file.Failed; on_disk = false; started_at = None; finished_at = Some 200; error = Some (codes "no such file") }
          ∷ []);
    }) }
{}

/// A file that a request has staged for 60 seconds is not evicted until they are over.
pub fn lifetime_pins_a_file()
    ensures legal { IsLegal small_buffer_site pinned }
    ensures during { answer_of small_buffer_site pinned 200 put_b.1 ≡ answer.Refused refusal.NoSpace }
    ensures last { answer_of small_buffer_site pinned 259 put_b.1 ≡ answer.Refused refusal.NoSpace }
    ensures after { answer_of small_buffer_site pinned 260 put_b.1 ≡ answer.Stored (rows (1 ∷ [])) }
{}

/// A file that its request has released may be evicted.
pub fn release_unpins()
    ensures legal { IsLegal small_buffer_site released }
    ensures evicted { answer_of small_buffer_site released 210 put_b.1 ≡ answer.Stored (rows (1 ∷ [])) }
{}

/// A request that was dropped is unknown, and its recall has ended.
pub fn dropped_request_is_unknown()
    ensures legal { IsLegal small_buffer_site dropped }
    ensures unknown { look_answer_of small_buffer_site dropped 200 (look.StageInfo 8) ≡ answer.Refused refusal.NoRequest }
    ensures again { answer_of small_buffer_site dropped 200 (ask.DropStage somebody 8) ≡ answer.Refused refusal.NoRequest }
    ensures idle { answer_of small_buffer_site dropped 200 (ask.Next 0) ≡ answer.Idle }
{}
