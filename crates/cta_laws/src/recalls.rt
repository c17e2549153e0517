// Laws of recalls.
ghost use Rattle.cta_laws.specs.Recalls.{CompletesOnce, RecalledIsResident, StaleAfterEnd, StaysResident};

/// At most one entry completes a recall. This project's own.
pub fn completes_once()
    ensures { CompletesOnce }
{}

/// A Recalled of a recall that has ended is told `Stale`. This project's own.
pub fn stale_after_end()
    ensures { StaleAfterEnd }
{}

/// The file of a recall is resident after the entry that completes the recall. This project's own.
pub fn recalled_is_resident()
    ensures { RecalledIsResident }
{}

/// A resident file is resident as long as it is live and no answer lists it as evicted. This project's own.
pub fn stays_resident()
    ensures { StaysResident }
{}
