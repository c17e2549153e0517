// Laws of stage requests.
ghost use Rattle.cta_laws.specs.Stages.{
  AskedHasWaiting,
  AwayIsUnpinned,
  FinishesAfterStart,
  SubscribersWait,
  WaitingHasRecall,
};

/// A stage file's finish is never before its start. This project's own.
pub fn finishes_after_start()
    ensures { FinishesAfterStart }
{}

/// A waiting file of a request has a live recall, for which the request waits. This project's own.
pub fn waiting_has_recall()
    ensures { WaitingHasRecall }
{}

/// A request that a live recall has waiting is there, and has a file that waits for the recall's file. This project's
/// own.
pub fn asked_has_waiting()
    ensures { AskedHasWaiting }
{}

/// A live recall has its subscribers waiting, in order, but for those whose path a Cancel took or whose request was
/// dropped. This project's own.
pub fn subscribers_wait()
    ensures { SubscribersWait }
{}

/// No request pins a live file that is not resident. This project's own.
pub fn away_is_unpinned()
    ensures { AwayIsUnpinned }
{}
