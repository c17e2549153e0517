// The law of laws.
ghost use Rattle.cta_laws.specs.Holding.{LegalHistoriesHold};

/// Of each legal history of every site these laws hold: a file is said to be on tape only where each copy was flushed, and a live file
/// is in the buffer or each of its copies was flushed once; a recall ends at most once, is dropped when it comes late, and what it
/// brought is in the buffer; a live job is queued once or claimed once; each Next mounted the choice, and no quota is passed; and no copy
/// is lost: a live file keeps a place of each copy that had one, and no tape is reclaimed under it. A law, which does nothing when it
/// runs. This project's own.
pub fn legal_histories_hold()
    ensures { LegalHistoriesHold }
{}
