// Laws.
ghost use Rattle.part_laws.specs.Queued.{QueueIsSorted};
ghost use Rattle.part_laws.specs.LastBirths.{LastBirthTellsErrors};
ghost use Rattle.part_laws.specs.QueueLaws.{FitsTell, FlushedLeavesQueues, OthersLeaveQueues, SumsTell};
ghost use Rattle.part_laws.specs.FailedLaws.{FailedMove, FailedStartEmpty, FailedTell};

/// A queue is in order of birth, file and copy, and has each job that stands in it. This project's own.
pub fn queue_is_in_order()
    ensures { QueueIsSorted }
{}

/// What is told of a failed copy are the charges of the job that was born last for it. This project's own.
pub fn last_birth_tells_errors()
    ensures { LastBirthTellsErrors }
{}

/// An ask that changes no job, no claim and no key leaves each queue. This project's own.
pub fn others_leave_queues()
    ensures { OthersLeaveQueues }
{}

/// A Flushed leaves each queue. This project's own.
pub fn flushed_leaves_queues()
    ensures { FlushedLeavesQueues }
{}

/// The sums of the lines of a queue are those of the queue. This project's own.
pub fn sums_tell()
    ensures { SumsTell }
{}

/// The sums of a queue's lines tell whether some job of the queue fits. This project's own.
pub fn fits_tell()
    ensures { FitsTell }
{}

/// The failed copies of a legal history, moved by the calls for its next entry, are those behind it: a Delete takes out those of its
/// file, a Failed adds those that it charges for the last time, and a Retry takes out those that it tries. This project's own.
pub fn failed_move()
    ensures { FailedMove }
{}

/// An empty history has no failed copy. This project's own.
pub fn failed_start_empty()
    ensures { FailedStartEmpty }
{}

/// What is told of the failed copies is told of the list, copy by copy. This project's own.
pub fn failed_tell()
    ensures { FailedTell }
{}
