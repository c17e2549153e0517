// One ask, made once more.
ghost use Rattle.std.specs.Prelude.{◌≡◌, ◌+◌, ◌∷◌, ◌≤◌, ℕ, IfOk, IsErrOf, List, OnOk, length, true};
ghost use Rattle.cta_model.specs.declared.entries.Entry.{Entry};
ghost use Rattle.cta_model.specs.Answers as said;
ghost use Rattle.cta_model.specs.Bare.{bare_answer, bare_entry};
ghost use Rattle.cta_model.specs.Hands.{HandIn};
ghost use Rattle.cta_model.specs.History as histories;
ghost use Rattle.cta_model.specs.Legal.{IsFit, IsNext, greatest_moment};
ghost use Rattle.cta_model.specs.Newest.{history_in};
ghost use Rattle.archive_restore.specs.Same.{answer_kept};

use crate::error::RestoreError;
use crate::same::is_same;
use archive::Archive;
use cta_model::{Actor, Answer, Ask, Entry, Hand, NoMemory, Told};
use cta_records::Kept;
use std::alloc::Global;

// Whether an answer is of an accepted ask.
fn is_accepted(answer: &Answer) -> bool
    ensures { result ≡ said.is_accepted (bare_answer answer.now) }
{
    !matches!(
        answer,
        Answer::Idle | Answer::DriveDown | Answer::DriveBusy | Answer::Nothing | Answer::Refused(_)
    )
}

// The same actor once more.
fn copy_of(actor: &Actor) -> Result<Actor, NoMemory>
    ensures { IfOk result (λ copy. copy ≡ actor.now) }
{
    match actor {
        Actor::Drive(drive) => Ok(Actor::Drive(*drive)),
        Actor::Caller(who) => Ok(Actor::Caller(who.copy()?)),
    }
}

// A record of an entry with this moment, actor and answer, whatever was asked.
fn answer_record(at: u64, actor: Actor, answer: Answer) -> Kept
    ensures { result ≡ answer_kept at actor answer }
{
    let ask = Ask::Next { drive: 0 };
    Kept {
        entry: Entry {
            at,
            actor,
            ask,
            answer,
        },
        blob: None,
    }
}

// The record of an answer with the moment and the actor of the last of these entries.
fn record_of_last(entries: &[Entry], answer: Answer) -> Result<Kept, NoMemory>
    ensures { (e : Entry) (h : List Entry) → history_in entries.now ≡ e ∷ h → IfOk result (λ kept. kept ≡ answer_kept e.at e.actor answer) }
{
    match entries.last() {
        Some(entry) => Ok(answer_record(entry.at, copy_of(&entry.actor)?, answer)),
        None => Err(NoMemory),
    }
}

// The number of the entry that comes next.
pub(crate) fn next_number<M: Told + Drop>(archive: &Archive<M>) -> u32
    ensures { result ≡ histories.next_number archive.now.history }
{
    archive.entries().len() as u32 + 1
}

// Makes an ask once more, which must be accepted, and leave the very entry that was recorded.
pub(crate) fn play<M: Told + Drop>(
    alloc: Global,
    archive: &mut Archive<M>,
    entry: Entry,
    hand: Hand<M>,
) -> Result<(), RestoreError>
    requires at { entry.at ≤ greatest_moment }
    requires fit { IsFit archive.old.site archive.old.history entry.ask }
    requires hand { HandIn M.told archive.old.history entry.ask hand }
    ensures right { OnOk result (IsNext archive.old.site archive.old.history (bare_entry entry)) }
    ensures history { OnOk result (archive.new.history ≡ bare_entry entry ∷ archive.old.history) }
    ensures site { OnOk result (archive.new.site ≡ archive.old.site) }
    ensures wrong { (n : ℕ) → IsErrOf result (RestoreError.Differs n)
        → (n ≡ histories.next_number archive.old.history) × (IsNext archive.old.site archive.old.history (bare_entry entry) → ⊥) }
{
    let number = next_number(archive);
    let Entry {
        at,
        actor,
        ask,
        answer,
    } = entry;
    let Ok((told, _out)) = archive.ask(at, ask, hand) else {
        return Err(RestoreError::NoMemory);
    };
    if !is_accepted(&told) {
        return Err(RestoreError::Differs { entry: number });
    }
    let made = record_of_last(archive.entries(), told)?;
    let kept = answer_record(at, actor, answer);
    if !is_same(alloc, &made, &kept)? {
        return Err(RestoreError::Differs { entry: number });
    }
    Ok(())
}
