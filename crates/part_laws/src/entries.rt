// Laws.
ghost use Rattle.part_laws.specs.EntryLaws.{CallsMoveAllParts, EmptyPartsStand};
ghost use Rattle.part_laws.specs.AnswerLaws.{
  PartsTellEnds,
  PartsTellLooks,
  PartsTellMounts,
  PartsTellOperators,
};
ghost use Rattle.part_laws.specs.Contents.{ContentsMove, ContentsStartEmpty};
ghost use Rattle.part_laws.specs.Shelf.{
  EndBringsMedium,
  NextTakesMedium,
  ShelfStartsFull,
  ShelfStays,
};
ghost use Rattle.part_laws.specs.KeptLaws.{AcceptedAskMovesKept, KeptBegins, KeptMoves};

/// The empty parts stand for the empty history. This project's own.
pub fn empty_parts_stand()
    ensures { EmptyPartsStand }
{}

/// Parts that stand for a legal history stand for it with one entry more once the calls for the entry are made, whichever of the
/// eighteen asks it is. This project's own.
pub fn calls_move_all_parts()
    ensures { CallsMoveAllParts }
{}

/// Parts that stand for a legal history tell what a Next and a Claim are answered. This project's own.
pub fn parts_tell_mounts()
    ensures { PartsTellMounts }
{}

/// Parts that stand for a legal history tell what a Flushed, a Recalled, a Failed and an End are answered. This project's
/// own.
pub fn parts_tell_ends()
    ensures { PartsTellEnds }
{}

/// Parts that stand for a legal history tell what a TapeState, a Reclaim, a Repack and a Retry are answered. This project's
/// own.
pub fn parts_tell_operators()
    ensures { PartsTellOperators }
{}

/// Parts that stand for a legal history tell what a Fetch, an ArchiveInfo, a FailedList, a TapeInfo and a Queues are
/// answered. This project's own.
pub fn parts_tell_looks()
    ensures { PartsTellLooks }
{}

/// Media that are true for the empty history are its shelf. This project's own.
pub fn shelf_starts_full()
    ensures { ShelfStartsFull }
{}

/// An entry that opens and ends no mount leaves the shelf. This project's own.
pub fn shelf_stays()
    ensures { ShelfStays }
{}

/// A Next takes the medium of its tape off the shelf. This project's own.
pub fn next_takes_medium()
    ensures { NextTakesMedium }
{}

/// An End puts the medium of its mount back. This project's own.
pub fn end_brings_medium()
    ensures { EndBringsMedium }
{}

/// An empty history has no content. This project's own.
pub fn contents_start_empty()
    ensures { ContentsStartEmpty }
{}

/// One more entry moves the contents as it moves the resident files. This project's own.
pub fn contents_move()
    ensures { ContentsMove }
{}

/// Empty parts, no content and a medium for each tape are kept for the empty history. This project's own.
pub fn kept_begins()
    ensures { KeptBegins }
{}

/// What is kept for a history is kept for it with one entry more, once the calls for the entry are made. This project's own.
pub fn kept_moves()
    ensures { KeptMoves }
{}

/// What is kept for a history is kept for it with the entry of an accepted ask, once the calls for the entry are made. This
/// project's own.
pub fn accepted_ask_moves_kept()
    ensures { AcceptedAskMovesKept }
{}
