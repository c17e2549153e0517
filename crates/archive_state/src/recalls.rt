// What the state tells of jobs that were read.
ghost use Rattle.std.specs.Prelude.{◌≡◌, ◌∷◌, []};
ghost use Rattle.cta_model.specs.Answers.{is_known};

use crate::claims::claims;
use crate::state::ArchiveState;
use blob::Told;
use cta_model::Job;

impl<M: Told + Drop> ArchiveState<M> {
    /// Whether a Recalled of this job is known: the mount is open and claims it. Its cost is the number of open mounts.
    pub fn knows_job(&self, mount: u32, job: Job) -> bool
        ensures { result ≡ is_known self.now.history mount (job ∷ []) }
    {
        let _history = &self.history;
        match self.parts.mounts.find(mount) {
            Some(_) => claims(&self.parts.book, mount, job),
            None => false,
        }
    }
}
