// Laws of places.
ghost use Rattle.cta_laws.specs.Places.{BatchesAreRising, FlushedInTurn, ItemsAreOfFiles, ItemsInTurn, LiveItemsInOrder, PlacesAreNeverReclaimed, OnePlaceOnTape, PlacesAreApart, PlacesAreOfCopies, PlacesAreOnSite, PlacesBelow, PlacesOnTape, PlacesStay};

use cta_site::{numbers_are_known, routes_go_apart};

/// A live file that has a place of a copy has one as long as it is live. This project's own.
pub fn places_stay()
    ensures { PlacesStay }
{}

/// The item of a live file's place is among those that were flushed on its tape since the tape's last Reclaim. This
/// project's own.
pub fn places_on_tape()
    ensures { PlacesOnTape }
{}

/// The fSeq of a live file's place is below the next fSeq of its tape. This project's own.
pub fn places_below()
    ensures { PlacesBelow }
{}

/// Where an entry made the place that a copy has, no later entry reclaims its tape, and its fSeq stays below the next. This
/// project's own.
pub fn places_are_never_reclaimed()
    ensures { PlacesAreNeverReclaimed }
{}

/// The items of a tape have the fSeqs 1, 2, 3 in turn. This project's own.
pub fn items_in_turn()
    ensures { ItemsInTurn }
{}

/// The items of a Flushed have the fSeqs from the next of its tape in turn. This project's own.
pub fn flushed_in_turn()
    ensures { FlushedInTurn }
{}

/// Each item of a tape has the length and SHA-256 of its file. This project's own.
pub fn items_are_of_files()
    ensures { ItemsAreOfFiles }
{}

/// Two places on one tape at one fSeq are of one copy of one file. This project's own.
pub fn places_are_apart()
    ensures { PlacesAreApart }
{}

/// The live items of a tape are in order of fSeq, and each place on the tape has its item there. This project's own.
pub fn live_items_in_order()
    ensures { LiveItemsInOrder }
{}

/// The items of a Claim are in order of fSeq, and no two have the same: a batch for reading has one order by fSeq. This
/// project's own.
pub fn batches_are_rising()
    ensures { BatchesAreRising }
{}

/// A file has at most one place on a tape, where the site is valid. This project's own.
pub fn one_place_on_tape()
    ensures { OnePlaceOnTape }
{
    numbers_are_known();
    routes_go_apart();
}

/// Each place is on a tape of the site. This project's own.
pub fn places_are_on_site()
    ensures { PlacesAreOnSite }
{}

/// Each place is of a copy of the file's class. This project's own.
pub fn places_are_of_copies()
    ensures { PlacesAreOfCopies }
{}
