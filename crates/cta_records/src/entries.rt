// Entries, and who made them.
ghost use Rattle.std.specs.Prelude.{◌≡◌, ◌++◌, List, ℕ, OnOk};
ghost use Rattle.record_fields.specs.Fields.{TookRightly, TookUpTo};
ghost use Rattle.cta_records.specs.Records.{actor_before, ActorFits, entry_before, EntryFits};
ghost use Rattle.cta_model.specs.declared.entries.Actor.{Actor};
ghost use Rattle.cta_model.specs.declared.entries.Entry.{Entry};

use crate::answers::{put_answer, take_answer};
use crate::asks::{put_ask, take_ask};
use cta_model::{Actor, Entry, Who};
use record_fields::{Field, NoMemory, TakeError, put_one};
use std::alloc::Global;

fn put_actor(actor: &Actor, out: &mut Vec<u8>) -> Result<(), NoMemory>
    ensures fits { OnOk result (ActorFits actor.now) }
    ensures bytes { OnOk result ((rest : List ℕ) → out.new.items ++ rest ≡ out.old.items ++ actor_before actor.now rest) }
{
    match actor {
        Actor::Drive(drive) => put_one(0, drive, out),
        Actor::Caller(who) => put_one(1, who, out),
    }
}

fn take_actor(alloc: Global, bytes: &[u8]) -> Result<(Actor, &[u8]), TakeError>
    ensures right { TookRightly actor_before ActorFits (λ rest. rest.now) bytes.now result }
    ensures again { (v : Actor) (rest : List ℕ) → ActorFits v → bytes.now ≡ actor_before v rest → TookUpTo (λ rest. rest.now) rest result }
{
    match bytes {
        [0, rest @ ..] => {
            let (drive, rest) = u32::take_field(alloc, rest)?;
            Ok((Actor::Drive(drive), rest))
        }
        [1, rest @ ..] => {
            let (who, rest) = Who::take_field(alloc, rest)?;
            Ok((Actor::Caller(who), rest))
        }
        _ => Err(TakeError::Bad),
    }
}

// Adds the bytes of an entry.
pub(crate) fn put_entry(entry: &Entry, out: &mut Vec<u8>) -> Result<(), NoMemory>
    ensures fits { OnOk result (EntryFits entry.now) }
    ensures bytes { OnOk result ((rest : List ℕ) → out.new.items ++ rest ≡ out.old.items ++ entry_before entry.now rest) }
{
    entry.at.put_field(out)?;
    put_actor(&entry.actor, out)?;
    put_ask(&entry.ask, out)?;
    put_answer(&entry.answer, out)
}

// The entry whose bytes stand at the front, and what follows them.
pub(crate) fn take_entry(alloc: Global, bytes: &[u8]) -> Result<(Entry, &[u8]), TakeError>
    ensures right { TookRightly entry_before EntryFits (λ rest. rest.now) bytes.now result }
    ensures again { (v : Entry) (rest : List ℕ) → EntryFits v → bytes.now ≡ entry_before v rest → TookUpTo (λ rest. rest.now) rest result }
{
    let (at, rest) = u64::take_field(alloc, bytes)?;
    let (actor, rest) = take_actor(alloc, rest)?;
    let (ask, rest) = take_ask(alloc, rest)?;
    let (answer, rest) = take_answer(alloc, rest)?;
    Ok((
        Entry {
            at,
            actor,
            ask,
            answer,
        },
        rest,
    ))
}
