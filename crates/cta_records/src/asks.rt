// Asks.
ghost use Rattle.std.specs.Prelude.{◌≡◌, ◌∷◌, ◌++◌, List, ℕ, OnOk};
ghost use Rattle.record_fields.specs.Fields.{TookRightly, TookUpTo};
ghost use Rattle.cta_records.specs.Asks.{ask_before, AskFits};
ghost use Rattle.cta_model.specs.declared.asks.Ask.{Ask};

use blob::Sum256;
use cta_model::{Ask, Fault, Item, Job, TapeState, Wanted, Who};
use record_fields::{
    Field, NoMemory, Rows, TakeError, Text, put_four, put_one, put_three, put_two,
};
use std::alloc::Global;

// Adds the bytes of an ask.
pub(crate) fn put_ask(ask: &Ask, out: &mut Vec<u8>) -> Result<(), NoMemory>
    ensures fits { OnOk result (AskFits ask.now) }
    ensures bytes { OnOk result ((rest : List ℕ) → out.new.items ++ rest ≡ out.old.items ++ ask_before ask.now rest) }
{
    match ask {
        Ask::Put { who, path, sum } => put_three(0, who, path, sum, out),
        Ask::Delete { who, path } => put_two(1, who, path, out),
        Ask::Stage { who, files } => put_two(2, who, files, out),
        Ask::Cancel { who, id, paths } => put_three(3, who, id, paths, out),
        Ask::DropStage { who, id } => put_two(4, who, id, out),
        Ask::Release { who, id, paths } => put_three(5, who, id, paths, out),
        Ask::Next { drive } => put_one(6, drive, out),
        Ask::Claim { mount } => put_one(7, mount, out),
        Ask::Flushed { mount, items } => put_two(8, mount, items, out),
        Ask::Recalled { mount, job } => put_two(9, mount, job, out),
        Ask::Failed {
            mount,
            fault,
            charged,
            returned,
        } => put_four(10, mount, fault, charged, returned, out),
        Ask::End { mount, fault } => put_two(11, mount, fault, out),
        Ask::DriveUp { who, drive } => put_two(12, who, drive, out),
        Ask::DriveDown { who, drive } => put_two(13, who, drive, out),
        Ask::TapeState { who, tape, state } => put_three(14, who, tape, state, out),
        Ask::Reclaim { who, tape } => put_two(15, who, tape, out),
        Ask::Repack { who, tape } => put_two(16, who, tape, out),
        Ask::Retry { who, paths } => put_two(17, who, paths, out),
    }
}

fn take_put(alloc: Global, bytes: &[u8]) -> Result<(Ask, &[u8]), TakeError>
    ensures right { TookRightly ask_before AskFits (λ rest. rest.now) (0 ∷ bytes.now) result }
    ensures again { (v : Ask) (rest : List ℕ) → AskFits v → 0 ∷ bytes.now ≡ ask_before v rest → TookUpTo (λ rest. rest.now) rest result }
{
    let (who, rest) = Who::take_field(alloc, bytes)?;
    let (path, rest) = Text::take_field(alloc, rest)?;
    let (sum, rest) = Sum256::take_field(alloc, rest)?;
    Ok((Ask::Put { who, path, sum }, rest))
}

fn take_delete(alloc: Global, bytes: &[u8]) -> Result<(Ask, &[u8]), TakeError>
    ensures right { TookRightly ask_before AskFits (λ rest. rest.now) (1 ∷ bytes.now) result }
    ensures again { (v : Ask) (rest : List ℕ) → AskFits v → 1 ∷ bytes.now ≡ ask_before v rest → TookUpTo (λ rest. rest.now) rest result }
{
    let (who, rest) = Who::take_field(alloc, bytes)?;
    let (path, rest) = Text::take_field(alloc, rest)?;
    Ok((Ask::Delete { who, path }, rest))
}

fn take_stage(alloc: Global, bytes: &[u8]) -> Result<(Ask, &[u8]), TakeError>
    ensures right { TookRightly ask_before AskFits (λ rest. rest.now) (2 ∷ bytes.now) result }
    ensures again { (v : Ask) (rest : List ℕ) → AskFits v → 2 ∷ bytes.now ≡ ask_before v rest → TookUpTo (λ rest. rest.now) rest result }
{
    let (who, rest) = Who::take_field(alloc, bytes)?;
    let (files, rest) = Rows::<Wanted>::take_field(alloc, rest)?;
    Ok((Ask::Stage { who, files }, rest))
}

fn take_cancel(alloc: Global, bytes: &[u8]) -> Result<(Ask, &[u8]), TakeError>
    ensures right { TookRightly ask_before AskFits (λ rest. rest.now) (3 ∷ bytes.now) result }
    ensures again { (v : Ask) (rest : List ℕ) → AskFits v → 3 ∷ bytes.now ≡ ask_before v rest → TookUpTo (λ rest. rest.now) rest result }
{
    let (who, rest) = Who::take_field(alloc, bytes)?;
    let (id, rest) = u32::take_field(alloc, rest)?;
    let (paths, rest) = Rows::<Text>::take_field(alloc, rest)?;
    Ok((Ask::Cancel { who, id, paths }, rest))
}

fn take_drop_stage(alloc: Global, bytes: &[u8]) -> Result<(Ask, &[u8]), TakeError>
    ensures right { TookRightly ask_before AskFits (λ rest. rest.now) (4 ∷ bytes.now) result }
    ensures again { (v : Ask) (rest : List ℕ) → AskFits v → 4 ∷ bytes.now ≡ ask_before v rest → TookUpTo (λ rest. rest.now) rest result }
{
    let (who, rest) = Who::take_field(alloc, bytes)?;
    let (id, rest) = u32::take_field(alloc, rest)?;
    Ok((Ask::DropStage { who, id }, rest))
}

fn take_release(alloc: Global, bytes: &[u8]) -> Result<(Ask, &[u8]), TakeError>
    ensures right { TookRightly ask_before AskFits (λ rest. rest.now) (5 ∷ bytes.now) result }
    ensures again { (v : Ask) (rest : List ℕ) → AskFits v → 5 ∷ bytes.now ≡ ask_before v rest → TookUpTo (λ rest. rest.now) rest result }
{
    let (who, rest) = Who::take_field(alloc, bytes)?;
    let (id, rest) = u32::take_field(alloc, rest)?;
    let (paths, rest) = Rows::<Text>::take_field(alloc, rest)?;
    Ok((Ask::Release { who, id, paths }, rest))
}

fn take_next(alloc: Global, bytes: &[u8]) -> Result<(Ask, &[u8]), TakeError>
    ensures right { TookRightly ask_before AskFits (λ rest. rest.now) (6 ∷ bytes.now) result }
    ensures again { (v : Ask) (rest : List ℕ) → AskFits v → 6 ∷ bytes.now ≡ ask_before v rest → TookUpTo (λ rest. rest.now) rest result }
{
    let (drive, rest) = u32::take_field(alloc, bytes)?;
    Ok((Ask::Next { drive }, rest))
}

fn take_claim(alloc: Global, bytes: &[u8]) -> Result<(Ask, &[u8]), TakeError>
    ensures right { TookRightly ask_before AskFits (λ rest. rest.now) (7 ∷ bytes.now) result }
    ensures again { (v : Ask) (rest : List ℕ) → AskFits v → 7 ∷ bytes.now ≡ ask_before v rest → TookUpTo (λ rest. rest.now) rest result }
{
    let (mount, rest) = u32::take_field(alloc, bytes)?;
    Ok((Ask::Claim { mount }, rest))
}

fn take_flushed(alloc: Global, bytes: &[u8]) -> Result<(Ask, &[u8]), TakeError>
    ensures right { TookRightly ask_before AskFits (λ rest. rest.now) (8 ∷ bytes.now) result }
    ensures again { (v : Ask) (rest : List ℕ) → AskFits v → 8 ∷ bytes.now ≡ ask_before v rest → TookUpTo (λ rest. rest.now) rest result }
{
    let (mount, rest) = u32::take_field(alloc, bytes)?;
    let (items, rest) = Rows::<Item>::take_field(alloc, rest)?;
    Ok((Ask::Flushed { mount, items }, rest))
}

fn take_recalled(alloc: Global, bytes: &[u8]) -> Result<(Ask, &[u8]), TakeError>
    ensures right { TookRightly ask_before AskFits (λ rest. rest.now) (9 ∷ bytes.now) result }
    ensures again { (v : Ask) (rest : List ℕ) → AskFits v → 9 ∷ bytes.now ≡ ask_before v rest → TookUpTo (λ rest. rest.now) rest result }
{
    let (mount, rest) = u32::take_field(alloc, bytes)?;
    let (job, rest) = Job::take_field(alloc, rest)?;
    Ok((Ask::Recalled { mount, job }, rest))
}

fn take_failed(alloc: Global, bytes: &[u8]) -> Result<(Ask, &[u8]), TakeError>
    ensures right { TookRightly ask_before AskFits (λ rest. rest.now) (10 ∷ bytes.now) result }
    ensures again { (v : Ask) (rest : List ℕ) → AskFits v → 10 ∷ bytes.now ≡ ask_before v rest → TookUpTo (λ rest. rest.now) rest result }
{
    let (mount, rest) = u32::take_field(alloc, bytes)?;
    let (fault, rest) = Fault::take_field(alloc, rest)?;
    let (charged, rest) = Rows::<Job>::take_field(alloc, rest)?;
    let (returned, rest) = Rows::<Job>::take_field(alloc, rest)?;
    Ok((
        Ask::Failed {
            mount,
            fault,
            charged,
            returned,
        },
        rest,
    ))
}

fn take_end(alloc: Global, bytes: &[u8]) -> Result<(Ask, &[u8]), TakeError>
    ensures right { TookRightly ask_before AskFits (λ rest. rest.now) (11 ∷ bytes.now) result }
    ensures again { (v : Ask) (rest : List ℕ) → AskFits v → 11 ∷ bytes.now ≡ ask_before v rest → TookUpTo (λ rest. rest.now) rest result }
{
    let (mount, rest) = u32::take_field(alloc, bytes)?;
    let (fault, rest) = Option::<Fault>::take_field(alloc, rest)?;
    Ok((Ask::End { mount, fault }, rest))
}

fn take_drive_up(alloc: Global, bytes: &[u8]) -> Result<(Ask, &[u8]), TakeError>
    ensures right { TookRightly ask_before AskFits (λ rest. rest.now) (12 ∷ bytes.now) result }
    ensures again { (v : Ask) (rest : List ℕ) → AskFits v → 12 ∷ bytes.now ≡ ask_before v rest → TookUpTo (λ rest. rest.now) rest result }
{
    let (who, rest) = Who::take_field(alloc, bytes)?;
    let (drive, rest) = u32::take_field(alloc, rest)?;
    Ok((Ask::DriveUp { who, drive }, rest))
}

fn take_drive_down(alloc: Global, bytes: &[u8]) -> Result<(Ask, &[u8]), TakeError>
    ensures right { TookRightly ask_before AskFits (λ rest. rest.now) (13 ∷ bytes.now) result }
    ensures again { (v : Ask) (rest : List ℕ) → AskFits v → 13 ∷ bytes.now ≡ ask_before v rest → TookUpTo (λ rest. rest.now) rest result }
{
    let (who, rest) = Who::take_field(alloc, bytes)?;
    let (drive, rest) = u32::take_field(alloc, rest)?;
    Ok((Ask::DriveDown { who, drive }, rest))
}

fn take_tape_state(alloc: Global, bytes: &[u8]) -> Result<(Ask, &[u8]), TakeError>
    ensures right { TookRightly ask_before AskFits (λ rest. rest.now) (14 ∷ bytes.now) result }
    ensures again { (v : Ask) (rest : List ℕ) → AskFits v → 14 ∷ bytes.now ≡ ask_before v rest → TookUpTo (λ rest. rest.now) rest result }
{
    let (who, rest) = Who::take_field(alloc, bytes)?;
    let (tape, rest) = u32::take_field(alloc, rest)?;
    let (state, rest) = TapeState::take_field(alloc, rest)?;
    Ok((Ask::TapeState { who, tape, state }, rest))
}

fn take_reclaim(alloc: Global, bytes: &[u8]) -> Result<(Ask, &[u8]), TakeError>
    ensures right { TookRightly ask_before AskFits (λ rest. rest.now) (15 ∷ bytes.now) result }
    ensures again { (v : Ask) (rest : List ℕ) → AskFits v → 15 ∷ bytes.now ≡ ask_before v rest → TookUpTo (λ rest. rest.now) rest result }
{
    let (who, rest) = Who::take_field(alloc, bytes)?;
    let (tape, rest) = u32::take_field(alloc, rest)?;
    Ok((Ask::Reclaim { who, tape }, rest))
}

fn take_repack(alloc: Global, bytes: &[u8]) -> Result<(Ask, &[u8]), TakeError>
    ensures right { TookRightly ask_before AskFits (λ rest. rest.now) (16 ∷ bytes.now) result }
    ensures again { (v : Ask) (rest : List ℕ) → AskFits v → 16 ∷ bytes.now ≡ ask_before v rest → TookUpTo (λ rest. rest.now) rest result }
{
    let (who, rest) = Who::take_field(alloc, bytes)?;
    let (tape, rest) = u32::take_field(alloc, rest)?;
    Ok((Ask::Repack { who, tape }, rest))
}

fn take_retry(alloc: Global, bytes: &[u8]) -> Result<(Ask, &[u8]), TakeError>
    ensures right { TookRightly ask_before AskFits (λ rest. rest.now) (17 ∷ bytes.now) result }
    ensures again { (v : Ask) (rest : List ℕ) → AskFits v → 17 ∷ bytes.now ≡ ask_before v rest → TookUpTo (λ rest. rest.now) rest result }
{
    let (who, rest) = Who::take_field(alloc, bytes)?;
    let (paths, rest) = Rows::<Text>::take_field(alloc, rest)?;
    Ok((Ask::Retry { who, paths }, rest))
}

// The ask whose bytes stand at the front, and what follows them.
pub(crate) fn take_ask(alloc: Global, bytes: &[u8]) -> Result<(Ask, &[u8]), TakeError>
    ensures right { TookRightly ask_before AskFits (λ rest. rest.now) bytes.now result }
    ensures again { (v : Ask) (rest : List ℕ) → AskFits v → bytes.now ≡ ask_before v rest → TookUpTo (λ rest. rest.now) rest result }
{
    match bytes {
        [0, rest @ ..] => take_put(alloc, rest),
        [1, rest @ ..] => take_delete(alloc, rest),
        [2, rest @ ..] => take_stage(alloc, rest),
        [3, rest @ ..] => take_cancel(alloc, rest),
        [4, rest @ ..] => take_drop_stage(alloc, rest),
        [5, rest @ ..] => take_release(alloc, rest),
        [6, rest @ ..] => take_next(alloc, rest),
        [7, rest @ ..] => take_claim(alloc, rest),
        [8, rest @ ..] => take_flushed(alloc, rest),
        [9, rest @ ..] => take_recalled(alloc, rest),
        [10, rest @ ..] => take_failed(alloc, rest),
        [11, rest @ ..] => take_end(alloc, rest),
        [12, rest @ ..] => take_drive_up(alloc, rest),
        [13, rest @ ..] => take_drive_down(alloc, rest),
        [14, rest @ ..] => take_tape_state(alloc, rest),
        [15, rest @ ..] => take_reclaim(alloc, rest),
        [16, rest @ ..] => take_repack(alloc, rest),
        [17, rest @ ..] => take_retry(alloc, rest),
        _ => Err(TakeError::Bad),
    }
}
