// Where a file may be read from.
ghost use Rattle.std.specs.Prelude.{◌≡◌, slice_get};
ghost use Rattle.cta_model.specs.Tapes.{may_be_read};
ghost use Rattle.part_model.specs.Tapes.{Table};
ghost use Rattle.tape_table.specs.Sources as said;

use crate::tapes::row_at;
use cta_model::Place;
use cta_site::TapeState;
use part_model::TapeRow;

// A place, where its tape may be read.
pub(crate) fn readable(rows: &[TapeRow], place: Option<Place>) -> Option<Place>
    ensures { (v : Table) → v.rows ≡ rows.now → result ≡ said.place_if may_be_read v place }
{
    let Some(place) = place else {
        return None;
    };
    match row_at(rows, place.tape).state {
        TapeState::Active => Some(place),
        TapeState::Disabled => None,
        TapeState::Broken => None,
        TapeState::Repacking => Some(place),
    }
}

// A place, where its tape is not broken.
pub(crate) fn whole(rows: &[TapeRow], place: Option<Place>) -> Option<Place>
    ensures { (v : Table) → v.rows ≡ rows.now → result ≡ said.place_if said.is_whole v place }
{
    let Some(place) = place else {
        return None;
    };
    match row_at(rows, place.tape).state {
        TapeState::Active => Some(place),
        TapeState::Disabled => Some(place),
        TapeState::Broken => None,
        TapeState::Repacking => Some(place),
    }
}

// A place by its number among those that there are.
pub(crate) fn nth(places: &[Option<Place>], index: u8) -> Option<Place>
    ensures { result ≡ slice_get (said.somes places.now) index }
{
    let mut left = index;
    for place in places {
        let Some(place) = *place else {
            continue;
        };
        if left == 0 {
            return Some(place);
        }
        left -= 1;
    }
    None
}
