// Laws of localities.
ghost use Rattle.cta_laws.specs.Localities.{ResidentOrFlushed, TapeIsFlushed, ToldTapeIsFlushed};

/// A file is on tape, with or without disk, only where each copy of its class was flushed. This project's own.
pub fn tape_is_flushed()
    ensures { TapeIsFlushed }
{}

/// An ArchiveInfo tells `TAPE` or `DISK_AND_TAPE` of a path only where it names a file of which each copy of its class was
/// flushed. The localities are those of the WLCG Tape REST API v1; the law is this project's own.
pub fn told_tape_is_flushed()
    ensures { ToldTapeIsFlushed }
{}

/// Each live file is in the buffer, or each copy of its class was flushed once. Whether a copy has its place still is said by
/// `places_stay` and `places_are_never_reclaimed`. This project's own.
pub fn resident_or_flushed()
    ensures { ResidentOrFlushed }
{}
