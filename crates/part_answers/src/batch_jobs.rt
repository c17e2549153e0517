// The jobs of a queue that fit beside each other.
ghost use Rattle.std.specs.Prelude.{◌≡◌, ◌<◌, length, IfOk};
ghost use Rattle.part_model.specs.Queues.{lines_in};
ghost use Rattle.part_laws.specs.Batches.{taken_lines};
ghost use Rattle.job_queues.specs.Fitting.{first_fitting};
ghost use Rattle.part_answers.specs.Taken.{bytes_taken, lines_behind};

use cta_model::Job;
use cta_site::{NoMemory, Rows};
use job_queues::JobQueues;
use part_model::Line;
use std::alloc::Global;

/// The jobs that a Claim takes, in order of birth, and the bytes of their files. This project's own.
#[derive(Drop)]
pub struct Taken {
    pub jobs: Rows<Job>,
    pub bytes: u64,
}

// The first line behind the job taken last, or of all where none was taken, whose file fits in the room.
fn next_line(queues: &JobQueues, key: u32, last: Option<Job>, room: u64) -> Option<Line>
    requires { key < length queues.now.value }
    ensures { result ≡ first_fitting room (lines_behind last (lines_in queues.now.value key)) }
{
    match last {
        None => queues.first_fitting(key, room),
        Some(job) => queues.next_fitting(key, job, room),
    }
}

/// The jobs that a Claim takes of the queue of a key: in order of birth each whose file fits in so many bytes beside those
/// taken, at most `count`. Those that do not fit are passed over. NoMemory gives nothing. Its cost is the number of jobs
/// taken, each with the logarithm of the number of the key's lines. CTA; that what does not fit is passed over is this
/// project's own.
pub fn taken_jobs(
    alloc: Global,
    queues: &JobQueues,
    key: u32,
    count: u32,
    room: u64,
) -> Result<Taken, NoMemory>
    requires key { key < length queues.now.value }
    ensures jobs { IfOk result (λ taken. taken.jobs.items ≡ taken_lines count room (lines_in queues.now.value key)) }
    ensures bytes { IfOk result (λ taken. taken.bytes ≡ bytes_taken count room (lines_in queues.now.value key)) }
{
    queues.keeps_order(key);
    let mut jobs = Rows::of(Vec::new(alloc));
    let mut last = None;
    let mut bytes = 0;
    for _ in 0..count {
        let Some(line) = next_line(queues, key, last, room - bytes) else {
            return Ok(Taken { jobs, bytes });
        };
        jobs.reserve(1)?;
        jobs.push(line.job);
        last = Some(line.job);
        bytes += line.len;
    }
    Ok(Taken { jobs, bytes })
}
