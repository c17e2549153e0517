// Asks.
ghost use Rattle.std.specs.Prelude.{◌≡◌, ◌≤◌, IfOk, IfErr, OnErr};
ghost use Rattle.cta_model.specs.declared.asks.Ask.TheVariants as ask;
ghost use Rattle.cta_model.specs.declared.asks.Direction.TheVariants as direction;
ghost use Rattle.cta_model.specs.Answers.{answer_of, is_accepted};
ghost use Rattle.cta_model.specs.Bare.{bare_answer, bare_ask};
ghost use Rattle.cta_model.specs.Hands.{HandBack, HandIn, TakesOut, medium_in};
ghost use Rattle.cta_model.specs.Kept.{kept_after};
ghost use Rattle.cta_model.specs.Legal.{IsEndFault, IsFit, IsMount, IsMountOf, greatest_moment};
ghost use Rattle.cta_model.specs.Mounts.{mount_of};

use crate::archive::Archive;
use crate::cancels::cancel;
use crate::claims::claim;
use crate::deletes::delete;
use crate::drives::{drive_down, drive_up};
use crate::drops::drop_request;
use crate::ends::end;
use crate::faults::failed;
use crate::flushes::flushed;
use crate::nexts::next;
use crate::puts::put;
use crate::recalls::recalled;
use crate::releases::release;
use crate::repacks::repack;
use crate::retries::retry;
use crate::stages::stage;
use crate::tapes::{reclaim, set_tape_state};
use archive_state::ArchiveState;
use blob::Sum256;
use cta_model::{Answer, Ask, Fault, Hand, Job, NoMemory, Told, Who};
use cta_site::Text;

// A Put with its hand, which is its content.
fn put_with<M: Told + Drop>(
    state: &mut ArchiveState<M>,
    at: u64,
    who: Who,
    path: Text,
    sum: Sum256,
    hand: Hand<M>,
) -> Result<(Answer, Hand<M>), (NoMemory, Ask, Hand<M>)>
    requires at { at ≤ greatest_moment }
    requires hand { HandIn M.told state.old.history (Ask.Put who path sum) hand }
    ensures answer { IfOk result (λ r. bare_answer r.0 ≡ answer_of state.old.site state.old.history at (Ask.Put who path sum)) }
    ensures kept { IfOk result (λ r. state.new ≡ kept_after state.old at (Ask.Put who path sum) (bare_answer r.0) None) }
    ensures hand { IfOk result (λ r. HandBack M.told (is_accepted (bare_answer r.0)) state.old.history state.new.history (Ask.Put who path sum) (bare_answer r.0) hand r.1) }
    ensures back { IfErr result (λ e. (e.1 ≡ Ask.Put who path sum) × (e.2 ≡ hand)) }
    ensures same { OnErr result (state.new ≡ state.old) }
{
    match hand {
        Hand::Blob(blob) => put(state, at, who, path, blob),
        _ => unreachable!(),
    }
}

// A Recalled with its hand, which is the content of its file.
fn recalled_with<M: Told + Drop>(
    state: &mut ArchiveState<M>,
    at: u64,
    mount: u32,
    job: Job,
    hand: Hand<M>,
) -> Result<(Answer, Hand<M>), (NoMemory, Ask, Hand<M>)>
    requires at { at ≤ greatest_moment }
    requires fit { IsMountOf direction.Retrieve (mount_of state.old.history mount) }
    requires hand { HandIn M.told state.old.history (Ask.Recalled mount job) hand }
    ensures answer { IfOk result (λ r. bare_answer r.0 ≡ answer_of state.old.site state.old.history at (Ask.Recalled mount job)) }
    ensures kept { IfOk result (λ r. state.new ≡ kept_after state.old at (Ask.Recalled mount job) (bare_answer r.0) None) }
    ensures hand { IfOk result (λ r. HandBack M.told (is_accepted (bare_answer r.0)) state.old.history state.new.history (Ask.Recalled mount job) (bare_answer r.0) hand r.1) }
    ensures back { IfErr result (λ e. (e.1 ≡ Ask.Recalled mount job) × (e.2 ≡ hand)) }
    ensures same { OnErr result (state.new ≡ state.old) }
{
    match hand {
        Hand::Blob(blob) => recalled(state, at, mount, job, blob),
        _ => unreachable!(),
    }
}

// An End with its hand, which is the medium of its mount.
fn end_with<M: Told + Drop>(
    state: &mut ArchiveState<M>,
    at: u64,
    mount: u32,
    fault: Option<Fault>,
    hand: Hand<M>,
) -> Result<(Answer, Hand<M>), (NoMemory, Ask, Hand<M>)>
    requires at { at ≤ greatest_moment }
    requires fit { IsMount (mount_of state.old.history mount) }
    requires fault { IsEndFault fault }
    requires hand { HandIn M.told state.old.history (Ask.End mount fault) hand }
    ensures answer { IfOk result (λ r. bare_answer r.0 ≡ answer_of state.old.site state.old.history at (Ask.End mount fault)) }
    ensures kept { IfOk result (λ r. state.new ≡ kept_after state.old at (Ask.End mount fault) (bare_answer r.0) (medium_in M.told hand)) }
    ensures hand { IfOk result (λ r. HandBack M.told (is_accepted (bare_answer r.0)) state.old.history state.new.history (Ask.End mount fault) (bare_answer r.0) hand r.1) }
    ensures back { IfErr result (λ e. (e.1 ≡ Ask.End mount fault) × (e.2 ≡ hand)) }
    ensures same { OnErr result (state.new ≡ state.old) }
{
    match hand {
        Hand::Medium(medium) => end(state, at, mount, fault, medium),
        _ => unreachable!(),
    }
}

impl<M: Told + Drop> Archive<M> {
    /// Answers an ask at this moment, in seconds since 1970, or at the last entry's where that is later, with the hand that belongs to it.
    ///
    /// The answer is the sequential archive's on the history. An accepted ask appends its one entry, and the hand of its answer comes out:
    /// with a Next the medium that was at the place of its tape on the shelf. The medium of an End goes to the place that its label says.
    /// One that is refused changes nothing, and its hand comes back. After NoMemory nothing has changed, and the ask and the hand come back.
    ///
    /// A session asks only what a session may: a Next of a drive of the site, and all else of a mount of the history. Its cost is that of
    /// the call of `archive` for the ask. None goes through the history or through all files; a TapeState and a Repack go through
    /// the live copies on their tape.
    pub fn ask(
        &mut self,
        at: u64,
        ask: Ask,
        hand: Hand<M>,
    ) -> Result<(Answer, Hand<M>), (NoMemory, Ask, Hand<M>)>
        requires at { at ≤ greatest_moment }
        requires fit { IsFit self.old.site self.old.history ask }
        requires hand { HandIn M.told self.old.history ask hand }
        ensures answer { IfOk result (λ r. bare_answer r.0 ≡ answer_of self.old.site self.old.history at (bare_ask ask)) }
        ensures kept { IfOk result (λ r. self.new ≡ kept_after self.old at (bare_ask ask) (bare_answer r.0) (medium_in M.told hand)) }
        ensures hand { IfOk result (λ r. HandBack M.told (is_accepted (bare_answer r.0)) self.old.history self.new.history (bare_ask ask) (bare_answer r.0) hand r.1) }
        ensures shelf { IfOk result (λ r. TakesOut M.told self.old.shelf (bare_ask ask) (bare_answer r.0) r.1) }
        ensures back { IfErr result (λ e. (e.1 ≡ ask) × (e.2 ≡ hand)) }
        ensures same { OnErr result (self.new ≡ self.old) }
    {
        match ask {
            Ask::Put { who, path, sum } => put_with(&mut self.state, at, who, path, sum, hand),
            Ask::Delete { who, path } => delete(&mut self.state, at, who, path),
            Ask::Stage { who, files } => stage(&mut self.state, at, who, files),
            Ask::Cancel { who, id, paths } => cancel(&mut self.state, at, who, id, paths),
            Ask::DropStage { who, id } => drop_request(&mut self.state, at, who, id),
            Ask::Release { who, id, paths } => release(&mut self.state, at, who, id, paths),
            Ask::Next { drive } => next(&mut self.state, at, drive),
            Ask::Claim { mount } => claim(&mut self.state, at, mount),
            Ask::Flushed { mount, items } => flushed(&mut self.state, at, mount, items),
            Ask::Recalled { mount, job } => recalled_with(&mut self.state, at, mount, job, hand),
            Ask::Failed {
                mount,
                fault,
                charged,
                returned,
            } => failed(&mut self.state, at, mount, fault, charged, returned),
            Ask::End { mount, fault } => end_with(&mut self.state, at, mount, fault, hand),
            Ask::DriveUp { who, drive } => drive_up(&mut self.state, at, who, drive),
            Ask::DriveDown { who, drive } => drive_down(&mut self.state, at, who, drive),
            Ask::TapeState { who, tape, state } => set_tape_state(
                &mut self.state,
                at,
                who,
                tape,
                state,
            ),
            Ask::Reclaim { who, tape } => reclaim(&mut self.state, at, who, tape),
            Ask::Repack { who, tape } => repack(&mut self.state, at, who, tape),
            Ask::Retry { who, paths } => retry(&mut self.state, at, who, paths),
        }
    }
}
