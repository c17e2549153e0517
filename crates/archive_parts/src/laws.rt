// Laws of parts that are kept.
ghost use Rattle.archive_parts.specs.Laws.{KeptPartsMove, SamePartsAreKept};

/// Parts that tell what kept ones tell are kept for the same history. This project's own.
pub fn same_parts_are_kept()
    ensures { SamePartsAreKept }
{}

/// Parts that are kept for a legal history are kept for it with one entry more, once the calls for the entry are made. This project's
/// own.
pub fn kept_parts_move()
    ensures { KeptPartsMove }
{}
