// Answers.
ghost use Rattle.std.specs.Prelude.{◌≡◌, ◌∷◌, ◌++◌, List, ℕ, OnOk};
ghost use Rattle.record_fields.specs.Fields.{TookRightly, TookUpTo};
ghost use Rattle.cta_records.specs.Answers.{answer_before, AnswerFits};
ghost use Rattle.cta_model.specs.declared.answers.Answer.{Answer};

use blob::Sum256;
use cta_model::{
    Answer, Direction, FailedCopy, Fate, Item, Job, PlaceInfo, QueueInfo, Refusal, RepackInfo,
    StageInfo, TapeInfo,
};
use record_fields::{Field, NoMemory, Rows, TakeError, put_none, put_one, put_three, put_two};
use std::alloc::Global;

// Adds the bytes of an answer.
pub(crate) fn put_answer(answer: &Answer, out: &mut Vec<u8>) -> Result<(), NoMemory>
    ensures fits { OnOk result (AnswerFits answer.now) }
    ensures bytes { OnOk result ((rest : List ℕ) → out.new.items ++ rest ≡ out.old.items ++ answer_before answer.now rest) }
{
    match answer {
        Answer::Stored { evicted } => put_one(0, evicted, out),
        Answer::Done => put_none(1, out),
        Answer::Staged { id } => put_one(2, id, out),
        Answer::Mounted {
            mount,
            direction,
            tape,
        } => put_three(3, mount, direction, tape, out),
        Answer::Idle => put_none(4, out),
        Answer::DriveDown => put_none(5, out),
        Answer::DriveBusy => put_none(6, out),
        Answer::Batch { items, evicted } => put_two(7, items, evicted, out),
        Answer::Nothing => put_none(8, out),
        Answer::Told { fates } => put_one(9, fates, out),
        Answer::Arrived { fate } => put_one(10, fate, out),
        Answer::Repacking { id, items } => put_two(11, id, items, out),
        Answer::Retried { jobs } => put_one(12, jobs, out),
        Answer::Bytes { sum } => put_one(13, sum, out),
        Answer::Stage(info) => put_one(14, info, out),
        Answer::Places(places) => put_one(15, places, out),
        Answer::RepackSeen(info) => put_one(16, info, out),
        Answer::FailedSeen(copies) => put_one(17, copies, out),
        Answer::TapeSeen(info) => put_one(18, info, out),
        Answer::QueuesSeen(queues) => put_one(19, queues, out),
        Answer::Refused(refusal) => put_one(20, refusal, out),
    }
}

fn take_stored(alloc: Global, bytes: &[u8]) -> Result<(Answer, &[u8]), TakeError>
    ensures right { TookRightly answer_before AnswerFits (λ rest. rest.now) (0 ∷ bytes.now) result }
    ensures again { (v : Answer) (rest : List ℕ) → AnswerFits v → 0 ∷ bytes.now ≡ answer_before v rest → TookUpTo (λ rest. rest.now) rest result }
{
    let (evicted, rest) = Rows::<u32>::take_field(alloc, bytes)?;
    Ok((Answer::Stored { evicted }, rest))
}

fn take_staged(alloc: Global, bytes: &[u8]) -> Result<(Answer, &[u8]), TakeError>
    ensures right { TookRightly answer_before AnswerFits (λ rest. rest.now) (2 ∷ bytes.now) result }
    ensures again { (v : Answer) (rest : List ℕ) → AnswerFits v → 2 ∷ bytes.now ≡ answer_before v rest → TookUpTo (λ rest. rest.now) rest result }
{
    let (id, rest) = u32::take_field(alloc, bytes)?;
    Ok((Answer::Staged { id }, rest))
}

fn take_mounted(alloc: Global, bytes: &[u8]) -> Result<(Answer, &[u8]), TakeError>
    ensures right { TookRightly answer_before AnswerFits (λ rest. rest.now) (3 ∷ bytes.now) result }
    ensures again { (v : Answer) (rest : List ℕ) → AnswerFits v → 3 ∷ bytes.now ≡ answer_before v rest → TookUpTo (λ rest. rest.now) rest result }
{
    let (mount, rest) = u32::take_field(alloc, bytes)?;
    let (direction, rest) = Direction::take_field(alloc, rest)?;
    let (tape, rest) = u32::take_field(alloc, rest)?;
    Ok((
        Answer::Mounted {
            mount,
            direction,
            tape,
        },
        rest,
    ))
}

fn take_batch(alloc: Global, bytes: &[u8]) -> Result<(Answer, &[u8]), TakeError>
    ensures right { TookRightly answer_before AnswerFits (λ rest. rest.now) (7 ∷ bytes.now) result }
    ensures again { (v : Answer) (rest : List ℕ) → AnswerFits v → 7 ∷ bytes.now ≡ answer_before v rest → TookUpTo (λ rest. rest.now) rest result }
{
    let (items, rest) = Rows::<Item>::take_field(alloc, bytes)?;
    let (evicted, rest) = Rows::<u32>::take_field(alloc, rest)?;
    Ok((Answer::Batch { items, evicted }, rest))
}

fn take_told(alloc: Global, bytes: &[u8]) -> Result<(Answer, &[u8]), TakeError>
    ensures right { TookRightly answer_before AnswerFits (λ rest. rest.now) (9 ∷ bytes.now) result }
    ensures again { (v : Answer) (rest : List ℕ) → AnswerFits v → 9 ∷ bytes.now ≡ answer_before v rest → TookUpTo (λ rest. rest.now) rest result }
{
    let (fates, rest) = Rows::<Fate>::take_field(alloc, bytes)?;
    Ok((Answer::Told { fates }, rest))
}

fn take_arrived(alloc: Global, bytes: &[u8]) -> Result<(Answer, &[u8]), TakeError>
    ensures right { TookRightly answer_before AnswerFits (λ rest. rest.now) (10 ∷ bytes.now) result }
    ensures again { (v : Answer) (rest : List ℕ) → AnswerFits v → 10 ∷ bytes.now ≡ answer_before v rest → TookUpTo (λ rest. rest.now) rest result }
{
    let (fate, rest) = Fate::take_field(alloc, bytes)?;
    Ok((Answer::Arrived { fate }, rest))
}

fn take_repacking(alloc: Global, bytes: &[u8]) -> Result<(Answer, &[u8]), TakeError>
    ensures right { TookRightly answer_before AnswerFits (λ rest. rest.now) (11 ∷ bytes.now) result }
    ensures again { (v : Answer) (rest : List ℕ) → AnswerFits v → 11 ∷ bytes.now ≡ answer_before v rest → TookUpTo (λ rest. rest.now) rest result }
{
    let (id, rest) = u32::take_field(alloc, bytes)?;
    let (items, rest) = Rows::<Job>::take_field(alloc, rest)?;
    Ok((Answer::Repacking { id, items }, rest))
}

fn take_retried(alloc: Global, bytes: &[u8]) -> Result<(Answer, &[u8]), TakeError>
    ensures right { TookRightly answer_before AnswerFits (λ rest. rest.now) (12 ∷ bytes.now) result }
    ensures again { (v : Answer) (rest : List ℕ) → AnswerFits v → 12 ∷ bytes.now ≡ answer_before v rest → TookUpTo (λ rest. rest.now) rest result }
{
    let (jobs, rest) = Rows::<Job>::take_field(alloc, bytes)?;
    Ok((Answer::Retried { jobs }, rest))
}

fn take_bytes(alloc: Global, bytes: &[u8]) -> Result<(Answer, &[u8]), TakeError>
    ensures right { TookRightly answer_before AnswerFits (λ rest. rest.now) (13 ∷ bytes.now) result }
    ensures again { (v : Answer) (rest : List ℕ) → AnswerFits v → 13 ∷ bytes.now ≡ answer_before v rest → TookUpTo (λ rest. rest.now) rest result }
{
    let (sum, rest) = Sum256::take_field(alloc, bytes)?;
    Ok((Answer::Bytes { sum }, rest))
}

fn take_stage(alloc: Global, bytes: &[u8]) -> Result<(Answer, &[u8]), TakeError>
    ensures right { TookRightly answer_before AnswerFits (λ rest. rest.now) (14 ∷ bytes.now) result }
    ensures again { (v : Answer) (rest : List ℕ) → AnswerFits v → 14 ∷ bytes.now ≡ answer_before v rest → TookUpTo (λ rest. rest.now) rest result }
{
    let (info, rest) = StageInfo::take_field(alloc, bytes)?;
    Ok((Answer::Stage(info), rest))
}

fn take_places(alloc: Global, bytes: &[u8]) -> Result<(Answer, &[u8]), TakeError>
    ensures right { TookRightly answer_before AnswerFits (λ rest. rest.now) (15 ∷ bytes.now) result }
    ensures again { (v : Answer) (rest : List ℕ) → AnswerFits v → 15 ∷ bytes.now ≡ answer_before v rest → TookUpTo (λ rest. rest.now) rest result }
{
    let (places, rest) = Rows::<PlaceInfo>::take_field(alloc, bytes)?;
    Ok((Answer::Places(places), rest))
}

fn take_repack_seen(alloc: Global, bytes: &[u8]) -> Result<(Answer, &[u8]), TakeError>
    ensures right { TookRightly answer_before AnswerFits (λ rest. rest.now) (16 ∷ bytes.now) result }
    ensures again { (v : Answer) (rest : List ℕ) → AnswerFits v → 16 ∷ bytes.now ≡ answer_before v rest → TookUpTo (λ rest. rest.now) rest result }
{
    let (info, rest) = RepackInfo::take_field(alloc, bytes)?;
    Ok((Answer::RepackSeen(info), rest))
}

fn take_failed_seen(alloc: Global, bytes: &[u8]) -> Result<(Answer, &[u8]), TakeError>
    ensures right { TookRightly answer_before AnswerFits (λ rest. rest.now) (17 ∷ bytes.now) result }
    ensures again { (v : Answer) (rest : List ℕ) → AnswerFits v → 17 ∷ bytes.now ≡ answer_before v rest → TookUpTo (λ rest. rest.now) rest result }
{
    let (copies, rest) = Rows::<FailedCopy>::take_field(alloc, bytes)?;
    Ok((Answer::FailedSeen(copies), rest))
}

fn take_tape_seen(alloc: Global, bytes: &[u8]) -> Result<(Answer, &[u8]), TakeError>
    ensures right { TookRightly answer_before AnswerFits (λ rest. rest.now) (18 ∷ bytes.now) result }
    ensures again { (v : Answer) (rest : List ℕ) → AnswerFits v → 18 ∷ bytes.now ≡ answer_before v rest → TookUpTo (λ rest. rest.now) rest result }
{
    let (info, rest) = TapeInfo::take_field(alloc, bytes)?;
    Ok((Answer::TapeSeen(info), rest))
}

fn take_queues_seen(alloc: Global, bytes: &[u8]) -> Result<(Answer, &[u8]), TakeError>
    ensures right { TookRightly answer_before AnswerFits (λ rest. rest.now) (19 ∷ bytes.now) result }
    ensures again { (v : Answer) (rest : List ℕ) → AnswerFits v → 19 ∷ bytes.now ≡ answer_before v rest → TookUpTo (λ rest. rest.now) rest result }
{
    let (queues, rest) = Rows::<QueueInfo>::take_field(alloc, bytes)?;
    Ok((Answer::QueuesSeen(queues), rest))
}

fn take_refused(alloc: Global, bytes: &[u8]) -> Result<(Answer, &[u8]), TakeError>
    ensures right { TookRightly answer_before AnswerFits (λ rest. rest.now) (20 ∷ bytes.now) result }
    ensures again { (v : Answer) (rest : List ℕ) → AnswerFits v → 20 ∷ bytes.now ≡ answer_before v rest → TookUpTo (λ rest. rest.now) rest result }
{
    let (refusal, rest) = Refusal::take_field(alloc, bytes)?;
    Ok((Answer::Refused(refusal), rest))
}

// The answer whose bytes stand at the front, and what follows them.
pub(crate) fn take_answer(alloc: Global, bytes: &[u8]) -> Result<(Answer, &[u8]), TakeError>
    ensures right { TookRightly answer_before AnswerFits (λ rest. rest.now) bytes.now result }
    ensures again { (v : Answer) (rest : List ℕ) → AnswerFits v → bytes.now ≡ answer_before v rest → TookUpTo (λ rest. rest.now) rest result }
{
    match bytes {
        [0, rest @ ..] => take_stored(alloc, rest),
        [1, rest @ ..] => Ok((Answer::Done, rest)),
        [2, rest @ ..] => take_staged(alloc, rest),
        [3, rest @ ..] => take_mounted(alloc, rest),
        [4, rest @ ..] => Ok((Answer::Idle, rest)),
        [5, rest @ ..] => Ok((Answer::DriveDown, rest)),
        [6, rest @ ..] => Ok((Answer::DriveBusy, rest)),
        [7, rest @ ..] => take_batch(alloc, rest),
        [8, rest @ ..] => Ok((Answer::Nothing, rest)),
        [9, rest @ ..] => take_told(alloc, rest),
        [10, rest @ ..] => take_arrived(alloc, rest),
        [11, rest @ ..] => take_repacking(alloc, rest),
        [12, rest @ ..] => take_retried(alloc, rest),
        [13, rest @ ..] => take_bytes(alloc, rest),
        [14, rest @ ..] => take_stage(alloc, rest),
        [15, rest @ ..] => take_places(alloc, rest),
        [16, rest @ ..] => take_repack_seen(alloc, rest),
        [17, rest @ ..] => take_failed_seen(alloc, rest),
        [18, rest @ ..] => take_tape_seen(alloc, rest),
        [19, rest @ ..] => take_queues_seen(alloc, rest),
        [20, rest @ ..] => take_refused(alloc, rest),
        _ => Err(TakeError::Bad),
    }
}
