// The lines of a queue whose files fit in some room.
ghost use Rattle.std.specs.Prelude.{◌≡◌, ◌<◌, length};
ghost use Rattle.part_model.specs.Order.{InOrder};
ghost use Rattle.part_model.specs.Queues.{lines_in};
ghost use Rattle.job_queues.specs.Fitting.{first_fitting, next_fitting};
ghost use Rattle.job_queues.specs.Waiting.{jobs_of, line_of};

use crate::queued::Queued;
use crate::queues::{JobQueues, line_like};
use cta_model::Job;
use part_model::Line;

// The line that waits.
fn line_of(queued: Queued) -> Line
    ensures { result ≡ line_of queued }
{
    Line {
        job: queued.job,
        len: queued.len,
        born: queued.born,
        priority: queued.priority,
        age: queued.age,
    }
}

impl JobQueues {
    /// That the lines of a key are in order of birth, file and copy, none twice. A law, which does nothing when it runs.
    pub fn keeps_order(&self, key: u32)
        requires key { key < length self.now.value }
        ensures { InOrder (jobs_of (lines_in self.now.value key)) }
    {
        let _sum = self.forest.sum(key);
    }

    /// The first line of a key whose file has at most so many bytes, None exactly where there is none. Its cost is the
    /// logarithm of the number of the key's lines.
    pub fn first_fitting(&self, key: u32, room: u64) -> Option<Line>
        requires key { key < length self.now.value }
        ensures { result ≡ first_fitting room (lines_in self.now.value key) }
    {
        match self.forest.first_passing(key, room) {
            None => None,
            Some(queued) => Some(line_of(queued)),
        }
    }

    /// The first line of a key behind a job whose file has at most so many bytes, None exactly where there is none. The job
    /// need not be there. Its cost is the logarithm of the number of the key's lines.
    pub fn next_fitting(&self, key: u32, job: Job, room: u64) -> Option<Line>
        requires key { key < length self.now.value }
        ensures { result ≡ next_fitting room job (lines_in self.now.value key) }
    {
        match self.forest.next_passing(key, line_like(job), room) {
            None => None,
            Some(queued) => Some(line_of(queued)),
        }
    }
}
