// A queue of two jobs.
ghost use Rattle.std.specs.Prelude.{◌≡◌, ◌<◌, ◌≤◌, [], IfSome, length};
ghost use Rattle.part_model.specs.Queues.{lines_in};

use cta_model::{Job, Sums};
use job_queues::JobQueues;
use part_model::Line;
use std::alloc::Global;
use std::test::Fail;

// The job that is added first and comes second.
const LATER: Job = Job {
    birth: 2,
    file: 7,
    copy: 1,
};

// The job that is added second and comes first.
const SOONER: Job = Job {
    birth: 1,
    file: 9,
    copy: 2,
};

// Adds both jobs to an empty queue.
fn add_both(queue: &mut JobQueues)
    requires key { 0 < length queue.old.value }
    requires room { 2 ≤ queue.old.room }
    requires empty { lines_in queue.old.value 0 ≡ [] }
    ensures { length queue.new.value ≡ length queue.old.value }
{
    queue.add(
        0,
        Line {
            job: LATER,
            len: 100,
            born: 50,
            priority: 3,
            age: 20,
        },
    );
    queue.add(
        0,
        Line {
            job: SOONER,
            len: 30,
            born: 40,
            priority: 5,
            age: 10,
        },
    );
}

// Two queues, with both jobs in the first one.
fn filled(alloc: Global) -> Option<JobQueues>
    ensures { IfSome result (λ queue. 0 < length queue.value) }
{
    let mut queue = JobQueues::new(alloc, 2).ok()?;
    queue.reserve(2).ok()?;
    add_both(&mut queue);
    Some(queue)
}

// Two jobs stand in their order, with their sums.
#[test]
fn jobs_stand_in_order(rt: HostRuntime) -> Result<(), Fail> {
    let queue = filled(rt.alloc()).ok_or("no queue")?;
    let order = [
        queue.front(0),
        queue.after(0, SOONER),
        queue.after(0, LATER),
    ];
    assert_eq!(rt; order, [Some(SOONER), Some(LATER), None]);
    let sums = Sums {
        files: 2,
        bytes: 130,
        least: 30,
        oldest: SOONER,
        born: 40,
        priority: 5,
        age: 10,
    };
    assert_eq!(rt; queue.sums(0), Some(sums));
    Ok(())
}

// A job that was taken is not there, and the other one stays.
#[test]
fn jobs_leave(rt: HostRuntime) -> Result<(), Fail> {
    let mut queue = filled(rt.alloc()).ok_or("no queue")?;
    let taken = [queue.take(0, SOONER), queue.take(0, SOONER)];
    assert_eq!(rt; queue.front(0), Some(LATER));
    let last = queue.take(0, LATER);
    assert_eq!(rt; (taken, last), ([true, false], true));
    assert_eq!(rt; queue.sums(0), None);
    Ok(())
}
