// Laws.
ghost use Rattle.part_laws.specs.MountLaws.{DownsMove, EndIsCounted, MountsStartEmpty, NextIsCounted, OthersLeaveCounts, RowsMove, RowsTellMounts};
ghost use Rattle.part_laws.specs.Turns.{BookCallsAgree, BookCallsInTurn, DropIsTwoCalls, QueueCallsInTurn};
ghost use Rattle.part_laws.specs.JobLaws.{ClaimMovesParts, DeleteMovesParts, EndMovesParts, FailedMovesParts, FlushedMovesParts, NextMovesParts, OthersLeaveParts, PartsStartEmpty, PutMovesParts, StaleMovesParts};
ghost use Rattle.part_laws.specs.BirthLaws.{BirthsMoveParts, RepackMovesParts, RetryMovesParts, StageMovesParts};
ghost use Rattle.part_laws.specs.AllAsks.{JobPartsMove};
ghost use Rattle.part_laws.specs.RecallLaws.{CancelMovesParts, DropMovesParts, RecalledMovesParts, StateListsAreRecalls, TapeStateMovesParts};

/// Rows that stand for the open mounts of a legal history stand for them behind the next entry, once the calls for the entry are
/// made: a Next opens a row, an End ends it, and a Claim sets its last items. This project's own.
pub fn rows_move()
    ensures { RowsMove }
{}

/// So it is for the drives that are down: a DriveDown and an End with a load or unload fault set one down, a DriveUp sets it up.
/// This project's own.
pub fn downs_move()
    ensures { DownsMove }
{}

/// An empty history has no open mount, and no drive that is down. This project's own.
pub fn mounts_start_empty()
    ensures { MountsStartEmpty }
{}

/// Rows tell whether a mount is open, a tape mounted and a drive busy, how many mounts a key has, and the last items of each mount.
/// This project's own.
pub fn rows_tell_mounts()
    ensures { RowsTellMounts }
{}

/// A Next counts its mount for its direction and VO. This project's own.
pub fn next_is_counted()
    ensures { NextIsCounted }
{}

/// An End counts its mount no more. This project's own.
pub fn end_is_counted()
    ensures { EndIsCounted }
{}

/// Every other ask leaves the counts. This project's own.
pub fn others_leave_counts()
    ensures { OthersLeaveCounts }
{}

/// A Put adds its jobs to the book, and at the ends of the queues of their pools. This project's own.
pub fn put_moves_parts()
    ensures { PutMovesParts }
{}

/// A Delete ends the live jobs of the file, and takes them out of their queues. This project's own.
pub fn delete_moves_parts()
    ensures { DeleteMovesParts }
{}

/// A Next counts its mount. This project's own.
pub fn next_moves_parts()
    ensures { NextMovesParts }
{}

/// An End counts its mount no more. This project's own.
pub fn end_moves_parts()
    ensures { EndMovesParts }
{}

/// A Claim takes its batch out of the queue of its mount's key, and its mount claims each job of it. This project's own.
pub fn claim_moves_parts()
    ensures { ClaimMovesParts }
{}

/// A Flushed gives back the jobs that it names, and ends those that were live. This project's own.
pub fn flushed_moves_parts()
    ensures { FlushedMovesParts }
{}

/// A Failed gives back and charges jobs; those that are live still stand at their places again. This project's own.
pub fn failed_moves_parts()
    ensures { FailedMovesParts }
{}

/// A Recalled of a recall that had ended gives it back. This project's own.
pub fn stale_moves_parts()
    ensures { StaleMovesParts }
{}

/// The parts of an empty history have nothing. This project's own.
pub fn parts_start_empty()
    ensures { PartsStartEmpty }
{}

/// Every other ask leaves the parts as they are. This project's own.
pub fn others_leave_parts()
    ensures { OthersLeaveParts }
{}

/// Calls of the job book for one job after the other do what one call for all of them says. This project's own.
pub fn book_calls_in_turn()
    ensures { BookCallsInTurn }
{}

/// Where a request leaves a recall and the recall is ended where it was the last, the book is as where the request is dropped.
/// This project's own.
pub fn drop_is_two_calls()
    ensures { DropIsTwoCalls }
{}

/// Jobs that are taken out of a queue one after the other leave it as all of them at once do. This project's own.
pub fn queue_calls_in_turn()
    ensures { QueueCallsInTurn }
{}

/// The same call leaves two job books that tell the same so that they do again. This project's own.
pub fn book_calls_agree()
    ensures { BookCallsAgree }
{}

/// A Stage bears recalls, and waits for those that are live. This project's own.
pub fn stage_moves_parts()
    ensures { StageMovesParts }
{}

/// An entry that bears jobs puts them into the queues of their keys. This project's own.
pub fn births_move_parts()
    ensures { BirthsMoveParts }
{}

/// A Repack bears recalls of the files that are not resident and archive jobs of the copies of those that are. This project's own.
pub fn repack_moves_parts()
    ensures { RepackMovesParts }
{}

/// A Retry bears the jobs that it is told. This project's own.
pub fn retry_moves_parts()
    ensures { RetryMovesParts }
{}

/// A Recalled ends its recall, and bears archive jobs of repacked copies. This project's own.
pub fn recalled_moves_parts()
    ensures { RecalledMovesParts }
{}

/// A Cancel ends the recalls for which its request was the last. This project's own.
pub fn cancel_moves_parts()
    ensures { CancelMovesParts }
{}

/// A DropStage ends the recalls for which its request was the last. This project's own.
pub fn drop_moves_parts()
    ensures { DropMovesParts }
{}

/// A TapeState moves recalls to the queues of their sources, and ends those that have none. This project's own.
pub fn tape_state_moves_parts()
    ensures { TapeStateMovesParts }
{}

/// The recalls that a TapeState moves and ends are made of the files that have a place on its tape. This project's own.
pub fn state_lists_are_recalls()
    ensures { StateListsAreRecalls }
{}

/// The job book, the queues and the counts that stand for a legal history stand for it with one entry more, once the calls for the
/// entry are made, whichever of the eighteen asks it is. This project's own.
pub fn job_parts_move()
    ensures { JobPartsMove }
{}
