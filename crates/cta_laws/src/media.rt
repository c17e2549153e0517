// Laws of media.
ghost use Rattle.cta_laws.specs.Media.{FlushedIsTrue, MountedStaysTrue, ShelfStaysTrue, TrueMediumStays};

/// A true medium stays true through an entry that puts nothing on its tape. This project's own.
pub fn true_medium_stays()
    ensures { TrueMediumStays }
{}

/// The medium of a tape that is not mounted stays true. This project's own.
pub fn shelf_stays_true()
    ensures { ShelfStaysTrue }
{}

/// The medium of an open mount stays true through entries that are about others. This project's own.
pub fn mounted_stays_true()
    ensures { MountedStaysTrue }
{}

/// A true medium with a safe record of each flushed item is true behind the entry of the flush. This project's own.
pub fn flushed_is_true()
    ensures { FlushedIsTrue }
{}
