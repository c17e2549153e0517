// Files written to tape, and what is told of tapes and queues.
ghost use Rattle.std.specs.Prelude.{[], ◌∷◌, ◌≡◌, codes};
ghost use Rattle.cta_examples.specs.Asks.{answer_at};
ghost use Rattle.cta_examples.specs.Choices.{write_and_read};
ghost use Rattle.cta_examples.specs.Sites.{small_buffer_site, small_tape_site};
ghost use Rattle.cta_examples.specs.Writing.{deleted_while_claimed, little_room, stale_and_done};
ghost use Rattle.cta_model.specs.Answers.{answer_of};
ghost use Rattle.cta_model.specs.Examples.{empty_file_on_tape, first_item, one_copy_site};
ghost use Rattle.cta_model.specs.Legal.{IsLegal};
ghost use Rattle.cta_model.specs.Looks.{look_answer_of};
ghost use Rattle.cta_model.specs.declared.answers.Answer.TheVariants as answer;
ghost use Rattle.cta_model.specs.declared.asks.Ask.TheVariants as ask;
ghost use Rattle.cta_model.specs.declared.asks.Direction.TheVariants as direction;
ghost use Rattle.cta_model.specs.declared.asks.Fate.TheVariants as fate;
ghost use Rattle.cta_model.specs.declared.asks.Look.TheVariants as look;
ghost use Rattle.cta_site.specs.Listed.{rows};
ghost use Rattle.cta_site.specs.declared.site.TapeState.TheVariants as state;

/// An empty file on tape counts among the tape's files and takes an fSeq, but no byte; then the drive is idle.
pub fn empty_file_uses_no_byte()
    ensures legal { IsLegal one_copy_site empty_file_on_tape }
    ensures tape { look_answer_of one_copy_site empty_file_on_tape 100 (look.TapeInfo 0) ≡ answer.TapeSeen (record { vid = codes "V1"; state = state.Active; used = 0; files = 1; next_fseq = 2 }) }
    ensures idle { answer_of one_copy_site empty_file_on_tape 100 (ask.Next 0) ≡ answer.Idle }
{}

/// The item of a file that was deleted while it was claimed is Stale. It is no file of the tape, yet its bytes are used
/// and its fSeq is taken.
pub fn stale_item_keeps_its_bytes()
    ensures deleted { IsLegal one_copy_site deleted_while_claimed }
    ensures flushed { IsLegal one_copy_site stale_and_done }
    ensures stale { answer_at stale_and_done 6 ≡ Some (answer.Told (rows (fate.Stale ∷ []))) }
    ensures next { answer_at stale_and_done 7 ≡ Some (answer.Batch (rows (first_item 5 1 5 2 ∷ [])) (rows [])) }
    ensures done { answer_at stale_and_done 8 ≡ Some (answer.Told (rows (fate.Done ∷ []))) }
    ensures tape { look_answer_of one_copy_site stale_and_done 100 (look.TapeInfo 0) ≡ answer.TapeSeen (record { vid = codes "V1"; state = state.Active; used = 10; files = 1; next_fseq = 3 }) }
{}

/// A Claim skips the job that does not fit beside those taken, and takes a later one that does.
pub fn batch_skips_what_does_not_fit()
    ensures legal { IsLegal small_tape_site little_room }
    ensures batch { answer_of small_tape_site little_room 100 (ask.Claim 4) ≡ answer.Batch (rows (first_item 1 1 5 1 ∷ first_item 3 1 3 2 ∷ [])) (rows []) }
{}

/// The queues are told by pool and then by VID, each with the birth moment of its first job.
pub fn queues_are_told()
    ensures legal { IsLegal small_buffer_site write_and_read }
    ensures queues { look_answer_of small_buffer_site write_and_read 200 look.Queues ≡ answer.QueuesSeen (rows (
        record { direction = direction.Archive; key = codes "p1"; files = 1; bytes = 5; oldest = 100 }
        ∷ record { direction = direction.Retrieve; key = codes "V1"; files = 1; bytes = 5; oldest = 200 }
        ∷ [])) }
{}
