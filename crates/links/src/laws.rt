// What the definitions of a run say.
ghost use Rattle.links.specs.Laws.{BeginsEmpty, HasFreeOrder, HasFreePieces, HasOneRun, IsEachAlone, RunsFollow};

use conn::{no_bytes, one_outcome};

/// Feeding a link and then another is feeding the other and then the first.
pub fn free_order()
    ensures { HasFreeOrder }
{}

/// What a link gives doesn't depend on the bytes of another: turns are a run exactly where those of each link are one.
pub fn each_alone()
    ensures { IsEachAlone }
{}

/// The events of the links are told by what they were fed, but for the two exceptions of a connection, in which a cut may wait
/// where another refuses.
pub fn one_run()
    ensures { HasOneRun }
{
    one_outcome();
}

/// A record's bytes in pieces, with all events given behind each piece, are a run of the record as a whole, with the same
/// events in the same order.
pub fn pieces_join()
    ensures { HasFreePieces }
{}

/// A run of turns and then of others is a run of the first, and one of the others behind them. So records that come later
/// change nothing of the run of the first ones.
pub fn runs_follow()
    ensures { RunsFollow }
{}

/// A record of which no byte has come yet is a turn of the run that completes nothing: all that its link's bytes give was
/// given before it.
pub fn begins_empty()
    ensures { BeginsEmpty }
{
    no_bytes();
}
