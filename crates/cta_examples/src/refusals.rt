// Each refusal of the archive, met at least once, with the answers to a Next or a Claim that leave no entry.
ghost use Rattle.std.specs.Prelude.{[], ◌∷◌, ◌≡◌, codes};
ghost use Rattle.cta_examples.specs.Refusals.{full, one_mounted, staged, two_claimed};
ghost use Rattle.cta_examples.specs.Sites.{short_site};
ghost use Rattle.cta_model.specs.Answers.{answer_of};
ghost use Rattle.cta_model.specs.Examples.{first_item, first_job, one_copy_site, one_put, put_a, put_of, somebody, sum_of_size};
ghost use Rattle.cta_model.specs.Legal.{IsLegal};
ghost use Rattle.cta_model.specs.Looks.{look_answer_of};
ghost use Rattle.cta_model.specs.declared.answers.Answer.TheVariants as answer;
ghost use Rattle.cta_model.specs.declared.answers.Refusal.TheVariants as refusal;
ghost use Rattle.cta_model.specs.declared.asks.Ask.TheVariants as ask;
ghost use Rattle.cta_model.specs.declared.asks.Fault.TheVariants as fault;
ghost use Rattle.cta_model.specs.declared.asks.Look.TheVariants as look;
ghost use Rattle.cta_site.specs.Listed.{rows};
ghost use Rattle.cta_site.specs.declared.site.TapeState.TheVariants as state;

/// A Put, a Delete or a Retry that does not fit the paths and files.
pub fn callers_are_refused()
    ensures legal { IsLegal one_copy_site one_put }
    ensures no_path { answer_of one_copy_site one_put 100 (put_of (codes "atlas/a") 5).1 ≡ answer.Refused refusal.BadPath }
    ensures no_directory { answer_of one_copy_site one_put 100 (put_of (codes "/cms/a") 5).1 ≡ answer.Refused refusal.NoDirectory }
    ensures taken { answer_of one_copy_site one_put 100 put_a.1 ≡ answer.Refused refusal.PathTaken }
    ensures no_space { answer_of one_copy_site one_put 100 (put_of (codes "/atlas/b") 996).1 ≡ answer.Refused refusal.NoSpace }
    ensures delete { answer_of one_copy_site one_put 100 (ask.Delete somebody (codes "/atlas/b")) ≡ answer.Refused refusal.NoFile }
    ensures retry { answer_of one_copy_site one_put 100 (ask.Retry somebody (rows (codes "/atlas/a" ∷ codes "/atlas/b" ∷ []))) ≡ answer.Refused refusal.NoFile }
    ensures fetch { look_answer_of one_copy_site one_put 100 (look.Fetch (codes "/atlas/b")) ≡ answer.Refused refusal.NoFile }
{}

/// A Cancel or Release with one path that is not its request's, and any ask or look at a request or repack that was not
/// made. A number that names another entry is unknown too.
pub fn requests_are_refused()
    ensures legal { IsLegal one_copy_site staged }
    ensures foreign { answer_of one_copy_site staged 100 (ask.Cancel somebody 2 (rows (codes "/atlas/a" ∷ codes "/x" ∷ []))) ≡ answer.Refused refusal.ForeignPath }
    ensures release { answer_of one_copy_site staged 100 (ask.Release somebody 2 (rows (codes "/x" ∷ []))) ≡ answer.Refused refusal.ForeignPath }
    ensures cancel { answer_of one_copy_site staged 100 (ask.Cancel somebody 255 (rows (codes "/x" ∷ []))) ≡ answer.Refused refusal.NoRequest }
    ensures drop { answer_of one_copy_site staged 100 (ask.DropStage somebody 1) ≡ answer.Refused refusal.NoRequest }
    ensures request { look_answer_of one_copy_site staged 100 (look.StageInfo 255) ≡ answer.Refused refusal.NoRequest }
    ensures no_repack { look_answer_of one_copy_site staged 100 (look.RepackInfo 255) ≡ answer.Refused refusal.NoRepack }
    ensures other { look_answer_of one_copy_site staged 100 (look.RepackInfo 2) ≡ answer.Refused refusal.NoRepack }
{}

/// A path that names no file is told with an error, and the look at it is not refused.
pub fn unknown_path_is_told()
    ensures none { look_answer_of one_copy_site [] 100 (look.ArchiveInfo (rows (codes "/x" ∷ []))) ≡ answer.Places (rows (record { path = codes "/x"; locality = None; error = Some (codes "no such file") } ∷ [])) }
{}

/// A number that no drive or tape has, and a tape that is mounted.
pub fn operators_are_refused()
    ensures legal { IsLegal one_copy_site one_mounted }
    ensures up { answer_of one_copy_site one_mounted 100 (ask.DriveUp somebody 1) ≡ answer.Refused refusal.NoDrive }
    ensures down { answer_of one_copy_site one_mounted 100 (ask.DriveDown somebody 1) ≡ answer.Refused refusal.NoDrive }
    ensures next { answer_of one_copy_site one_mounted 100 (ask.Next 1) ≡ answer.Refused refusal.NoDrive }
    ensures no_tape { answer_of one_copy_site one_mounted 100 (ask.TapeState somebody 1 state.Active) ≡ answer.Refused refusal.NoTape }
    ensures no_reclaim { answer_of one_copy_site one_mounted 100 (ask.Reclaim somebody 1) ≡ answer.Refused refusal.NoTape }
    ensures no_repack { answer_of one_copy_site one_mounted 100 (ask.Repack somebody 1) ≡ answer.Refused refusal.NoTape }
    ensures told { look_answer_of one_copy_site one_mounted 100 (look.TapeInfo 1) ≡ answer.Refused refusal.NoTape }
    ensures in_use { answer_of one_copy_site one_mounted 100 (ask.TapeState somebody 0 state.Active) ≡ answer.Refused refusal.TapeMounted }
    ensures in_use_too { answer_of one_copy_site one_mounted 100 (ask.Reclaim somebody 0) ≡ answer.Refused refusal.TapeMounted }
{}

/// A session's ask is Unknown where the mount is not open, a job is not claimed by it, a job is named twice, the items are
/// not those of the last Claim, the mount has made none, or it ends while it claims something.
pub fn sessions_are_refused()
    ensures legal { IsLegal one_copy_site two_claimed }
    ensures busy { answer_of one_copy_site two_claimed 100 (ask.Next 0) ≡ answer.DriveBusy }
    ensures nothing { answer_of one_copy_site two_claimed 100 (ask.Claim 3) ≡ answer.Nothing }
    ensures not_open { answer_of one_copy_site two_claimed 100 (ask.Claim 1) ≡ answer.Refused refusal.Unknown }
    ensures not_claimed { answer_of one_copy_site two_claimed 100 (ask.Failed 3 fault.Write (rows (first_job 3 ∷ [])) (rows [])) ≡ answer.Refused refusal.Unknown }
    ensures named_twice { answer_of one_copy_site two_claimed 100 (ask.Failed 3 fault.Write (rows (first_job 1 ∷ [])) (rows (first_job 1 ∷ []))) ≡ answer.Refused refusal.Unknown }
    ensures other_order { answer_of one_copy_site two_claimed 100 (ask.Flushed 3 (rows (first_item 2 1 8 2 ∷ first_item 1 1 5 1 ∷ []))) ≡ answer.Refused refusal.Unknown }
    ensures too_few { answer_of one_copy_site two_claimed 100 (ask.Flushed 3 (rows (first_item 1 1 5 1 ∷ []))) ≡ answer.Refused refusal.Unknown }
    ensures still_claimed { answer_of one_copy_site two_claimed 100 (ask.End 3 None) ≡ answer.Refused refusal.Unknown }
    ensures no_claim { answer_of one_copy_site one_mounted 100 (ask.Flushed 2 (rows [])) ≡ answer.Refused refusal.Unknown }
{}

/// A history that may not weigh more refuses what would be accepted, and only that; looks are answered still.
pub fn full_history_refuses()
    ensures legal { IsLegal short_site full }
    ensures put { answer_of short_site full 100 (put_of (codes "/atlas/c") 1).1 ≡ answer.Refused refusal.HistoryFull }
    ensures next { answer_of short_site full 100 (ask.Next 0) ≡ answer.Refused refusal.HistoryFull }
    ensures delete { answer_of short_site full 100 (ask.Delete somebody (codes "/atlas/a")) ≡ answer.Refused refusal.HistoryFull }
    ensures earlier { answer_of short_site full 100 (put_of (codes "/atlas/a") 1).1 ≡ answer.Refused refusal.PathTaken }
    ensures bytes { look_answer_of short_site full 100 (look.Fetch (codes "/atlas/a")) ≡ answer.Bytes (sum_of_size 1) }
{}
