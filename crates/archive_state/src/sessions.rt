// The ask of a drive that mounts, and the one that ends a mount, where they are accepted.
ghost use Rattle.std.specs.Prelude.{◌≡◌, ◌≤◌, ◌<◌, Some, IfOk, IfErr, OnErr, length, true};
ghost use Rattle.cta_model.specs.declared.hands.Hand.TheVariants as hand;
ghost use Rattle.cta_model.specs.declared.asks.Ask.TheVariants as ask;
ghost use Rattle.cta_model.specs.Answers.{answer_of, is_accepted};
ghost use Rattle.cta_model.specs.Bare.{bare_answer};
ghost use Rattle.cta_model.specs.Choice.{mount_choice};
ghost use Rattle.cta_model.specs.Hands.{TakesOut};
ghost use Rattle.cta_model.specs.History.{moment_of};
ghost use Rattle.cta_model.specs.Kept.{kept_after};
ghost use Rattle.cta_model.specs.Legal.{IsEndFault, IsMount, greatest_moment};
ghost use Rattle.cta_model.specs.Media.{IsMediumOf};
ghost use Rattle.cta_model.specs.Mounts.{mount_of, tape_of_mount};

use crate::state::ArchiveState;
use blob::Told;
use cta_model::{Answer, Candidate, Fault};
use cta_site::NoMemory;
use drive_asks::{end_mount, open_mount};

impl<M: Told + Drop> ArchiveState<M> {
    /// Carries out a Next that is accepted at this moment, in seconds since 1970, or at the last entry's where that is later: the choice
    /// is mounted, and the medium of its tape is taken off the shelf. NoMemory changes nothing. Its cost is the number of open mounts.
    pub fn open(&mut self, at: u64, drive: u32, choice: Candidate) -> Result<(Answer, M), NoMemory>
        requires at { at ≤ greatest_moment }
        requires fit { drive < length self.old.site.drives.items }
        requires choice { mount_choice self.old.site self.old.history (moment_of self.old.history at) drive ≡ Some choice }
        requires accepted { is_accepted (answer_of self.old.site self.old.history at (ask.Next drive)) ≡ true }
        ensures answer { IfOk result (λ r. bare_answer r.0 ≡ answer_of self.old.site self.old.history at (ask.Next drive)) }
        ensures kept { IfOk result (λ r. self.new ≡ kept_after self.old at (ask.Next drive) (bare_answer r.0) None) }
        ensures medium { IfOk result (λ r. IsMediumOf self.new.history choice.tape (M.told r.1)) }
        ensures shelf { IfOk result (λ r. TakesOut M.told self.old.shelf (ask.Next drive) (bare_answer r.0) (hand.Medium r.1)) }
        ensures same { OnErr result (self.new ≡ self.old) }
    {
        let answer = open_mount(
            &self.site,
            &mut self.history,
            &mut self.parts,
            at,
            drive,
            choice,
        )?;
        match self.shelf.take(choice.tape) {
            Some(medium) => Ok((answer, medium)),
            None => unreachable!(),
        }
    }

    /// Carries out an End that is accepted at this moment, in seconds since 1970, or at the last entry's where that is later: the medium
    /// of the mount's tape, which is true where it tells its records, is put back on the shelf. NoMemory changes nothing, and gives the
    /// medium back. Its cost is the number of open mounts.
    pub fn end(
        &mut self,
        at: u64,
        mount: u32,
        fault: Option<Fault>,
        medium: M,
    ) -> Result<Answer, (NoMemory, M)>
        requires at { at ≤ greatest_moment }
        requires fit { IsMount (mount_of self.old.history mount) }
        requires fault { IsEndFault fault }
        requires accepted { is_accepted (answer_of self.old.site self.old.history at (ask.End mount fault)) ≡ true }
        requires medium { IsMediumOf self.old.history (tape_of_mount self.old.history mount) (M.told medium) }
        ensures answer { IfOk result (λ a. bare_answer a ≡ answer_of self.old.site self.old.history at (ask.End mount fault)) }
        ensures kept { IfOk result (λ a. self.new ≡ kept_after self.old at (ask.End mount fault) (bare_answer a) (Some (M.told medium))) }
        ensures back { IfErr result (λ e. e.1 ≡ medium) }
        ensures same { OnErr result (self.new ≡ self.old) }
    {
        let Some(row) = self.parts.mounts.find(mount) else {
            unreachable!();
        };
        let tape = row.tape;
        match end_mount(
            &self.site,
            &mut self.history,
            &mut self.parts,
            at,
            mount,
            fault,
        ) {
            Ok(answer) => {
                self.shelf.put(tape, medium);
                Ok(answer)
            }
            Err(error) => Err((error, medium)),
        }
    }
}
