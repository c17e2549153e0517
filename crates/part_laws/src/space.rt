// Laws.
ghost use Rattle.part_laws.specs.SpaceLaws.{BufferTells, BufferTellsFiles, TableCountsLive};
ghost use Rattle.part_laws.specs.TableLaws.{CallsMoveNames, CallsMoveTable, FlagIsFound};
ghost use Rattle.part_laws.specs.BookLaws.{
  RepackCallsAgree,
  RequestCallsAgree,
  CallsMoveRepacks,
  CallsMoveRequests,
  CopiesEndAsTold,
  RecallsEndAsTold,
  RepacksTellLive,
};
ghost use Rattle.part_laws.specs.BufferLaws.{BufferCallsAgree, CallsKeepPinsHeld, CallsMoveBuffer};
ghost use Rattle.part_laws.specs.PartLaws.{
  CallsMoveParts,
  FirstPartsStand,
  PartsTellFiles,
  PartsTellRepacks,
  PartsTellRequests,
  PartsTellTapes,
};

/// A table of tapes has as many places on a tape as live copies have. This project's own.
pub fn table_counts_live()
    ensures { TableCountsLive }
{}

/// A buffer tells which files are resident. This project's own.
pub fn buffer_tells_files()
    ensures { BufferTellsFiles }
{}

/// A buffer tells the free and the evictable space, evicts what the archive evicts, and tells which resident files are
/// pinned. This project's own.
pub fn buffer_tells()
    ensures { BufferTells }
{}

/// An index of paths that stands for a history stands for it with one entry more once the calls for the entry are made.
/// This project's own.
pub fn calls_move_names()
    ensures { CallsMoveNames }
{}

/// A table that stands for a legal history stands for it with one entry more once the calls for the entry are made. This
/// project's own.
pub fn calls_move_table()
    ensures { CallsMoveTable }
{}

/// Whether a live file is safe on tape is found in the table and a book of jobs. This project's own.
pub fn flag_is_found()
    ensures { FlagIsFound }
{}

/// Which live recalls an entry ends while somebody waits for them. This project's own.
pub fn recalls_end_as_told()
    ensures { RecallsEndAsTold }
{}

/// Which live archive jobs an entry ends. This project's own.
pub fn copies_end_as_told()
    ensures { CopiesEndAsTold }
{}

/// A book of stage requests that stands for a legal history stands for it with one entry more once the calls for the entry
/// are made. This project's own.
pub fn calls_move_requests()
    ensures { CallsMoveRequests }
{}

/// A book of repacks that stands for a legal history stands for it with one entry more once the calls for the entry are
/// made. This project's own.
pub fn calls_move_repacks()
    ensures { CallsMoveRepacks }
{}

/// A book of repacks tells which tapes have a live repack. This project's own.
pub fn repacks_tell_live()
    ensures { RepacksTellLive }
{}

/// The same call leaves two books of stage requests that tell the same so that they do again. This project's own.
pub fn request_calls_agree()
    ensures { RequestCallsAgree }
{}

/// The same call leaves two books of repacks that tell the same so that they do again. This project's own.
pub fn repack_calls_agree()
    ensures { RepackCallsAgree }
{}

/// A buffer that stands for a legal history stands for it with one entry more once the calls for the entry are made. This
/// project's own.
pub fn calls_move_buffer()
    ensures { CallsMoveBuffer }
{}

/// The calls for an entry keep the rule that each pin is of a file that the buffer holds. This project's own.
pub fn calls_keep_pins_held()
    ensures { CallsKeepPinsHeld }
{}

/// The same call leaves two buffers that agree so that they do again. This project's own.
pub fn buffer_calls_agree()
    ensures { BufferCallsAgree }
{}

/// The parts at the start stand for the empty history. This project's own.
pub fn first_parts_stand()
    ensures { FirstPartsStand }
{}

/// Parts that stand for a legal history stand for it with one entry more once the calls for the entry are made. This
/// project's own.
pub fn calls_move_parts()
    ensures { CallsMoveParts }
{}

/// Parts that stand for a history tell what a Put and a Delete are answered. This project's own.
pub fn parts_tell_files()
    ensures { PartsTellFiles }
{}

/// Parts that stand for a history tell what looks at stage requests and asks of them are answered. This project's own.
pub fn parts_tell_requests()
    ensures { PartsTellRequests }
{}

/// Parts that stand for a history tell what looks at repacks are answered. This project's own.
pub fn parts_tell_repacks()
    ensures { PartsTellRepacks }
{}

/// Parts that stand for a legal history tell how a tape of the site stands. This project's own.
pub fn parts_tell_tapes()
    ensures { PartsTellTapes }
{}
