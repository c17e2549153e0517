// Looks.
ghost use Rattle.std.specs.Prelude.{◌≡◌, ◌≤◌, IfOk};
ghost use Rattle.cta_model.specs.Bare.{bare_answer, bare_look};
ghost use Rattle.cta_model.specs.Hands.{LookHand};
ghost use Rattle.cta_model.specs.Legal.{greatest_moment};
ghost use Rattle.cta_model.specs.Looks.{look_answer_of};

use crate::archive::Archive;
use crate::copy_looks::failed_list;
use crate::file_looks::{archive_info, fetch};
use crate::repacks::repack_info;
use crate::stage_looks::stage_info;
use crate::tape_looks::{queues, tape_info};
use cta_model::{Answer, Hand, Look, NoMemory, Told};

impl<M: Told + Drop> Archive<M> {
    /// Answers a look at this moment, in seconds since 1970, and changes nothing.
    ///
    /// The answer is the sequential archive's on the history. With a Fetch that finds its file the content comes out, and with any other
    /// look nothing. NoMemory gives nothing. Its cost is that of the call of `archive` for the look.
    pub fn look(&self, at: u64, look: &Look) -> Result<(Answer, Hand<M>), NoMemory>
        requires at { at ≤ greatest_moment }
        ensures answer { IfOk result (λ r. bare_answer r.0 ≡ look_answer_of self.now.site self.now.history at (bare_look look.now)) }
        ensures hand { IfOk result (λ r. LookHand (bare_answer r.0) r.1) }
    {
        match look {
            Look::Fetch { path } => fetch(&self.state, path),
            Look::ArchiveInfo { paths } => archive_info(self.alloc, &self.state, paths),
            Look::TapeInfo { tape } => tape_info(&self.state, *tape),
            Look::Queues => queues(&self.state),
            Look::StageInfo { id } => stage_info(&self.state, *id),
            Look::RepackInfo { id } => repack_info(&self.state, *id),
            Look::FailedList => failed_list(&self.state),
        }
    }
}
