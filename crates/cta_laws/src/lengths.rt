// Laws of a history's length and moments, and of how long lists get.
ghost use Rattle.cta_laws.specs.Lengths.{ClaimsAreShort, FlushesAreShort, FseqsAreLow, MomentsNeverFall, StaysShort};

/// A history has at most twice as many entries as its site's limit `history`. This project's own.
pub fn stays_short()
    ensures { StaysShort }
{}

/// Moments never fall. This project's own.
pub fn moments_never_fall()
    ensures { MomentsNeverFall }
{}

/// The next fSeq of a tape is at most 1 plus the site's limit `history`. This project's own.
pub fn fseqs_are_low()
    ensures { FseqsAreLow }
{}

/// A Claim takes at most as many items as the site's limit `batch_files`. This project's own.
pub fn claims_are_short()
    ensures { ClaimsAreShort }
{}

/// A Flushed names at most as many items as the site's limit `batch_files`. This project's own.
pub fn flushes_are_short()
    ensures { FlushesAreShort }
{}
