// The places of the copies of a file.
ghost use Rattle.std.specs.Prelude.{◌≡◌, ◌≤◌};
ghost use Rattle.std.specs.List.{list_any, range_with_len};
ghost use Rattle.cta_model.specs.Tapes as states;
ghost use Rattle.part_model.specs.Tapes as said;
ghost use Rattle.part_answers.specs.Copies.{is_on};

use cta_model::Place;
use cta_site::TapeState;
use tape_table::TapeTable;

// Whether each copy from 1 to `copies` has a place.
pub(crate) fn all_placed(table: &TapeTable, file: u32, copies: u8) -> bool
    requires { copies ≤ 4 }
    ensures { result ≡ said.all_placed table.now.value file copies }
{
    (1..copies + 1).all(|copy| table.place(file, copy).is_some())
}

// Whether one of the copies from 1 to `copies` has a place on a tape that is not BROKEN.
pub(crate) fn some_whole(table: &TapeTable, file: u32, copies: u8) -> bool
    requires { copies ≤ 4 }
    ensures { result ≡ said.some_whole table.now.value file copies }
{
    (1..copies + 1).any(|copy| table.is_whole(file, copy))
}

// Whether there is a place, on a tape that may be read.
fn is_readable(table: &TapeTable, place: Option<Place>) -> bool
    ensures { result ≡ is_on states.may_be_read table.now.value place }
{
    let Some(place) = place else {
        return false;
    };
    match table.row(place.tape).state {
        TapeState::Active => true,
        TapeState::Disabled => false,
        TapeState::Broken => false,
        TapeState::Repacking => true,
    }
}

// Whether there is a place, on a tape that is DISABLED.
fn is_disabled(table: &TapeTable, place: Option<Place>) -> bool
    ensures { result ≡ is_on states.is_disabled table.now.value place }
{
    let Some(place) = place else {
        return false;
    };
    match table.row(place.tape).state {
        TapeState::Active => false,
        TapeState::Disabled => true,
        TapeState::Broken => false,
        TapeState::Repacking => false,
    }
}

// Whether one of the copies from 1 to `copies` has a place on a tape that may be read.
pub(crate) fn some_readable(table: &TapeTable, file: u32, copies: u8) -> bool
    requires { copies ≤ 4 }
    ensures { result ≡ list_any (λ c. is_on states.may_be_read table.now.value (said.place_in table.now.value file c)) (range_with_len 1 copies) }
{
    (1..copies + 1).any(|copy| is_readable(table, table.place(file, copy)))
}

// Whether one of the copies from 1 to `copies` has a place on a tape that is DISABLED.
pub(crate) fn some_disabled(table: &TapeTable, file: u32, copies: u8) -> bool
    requires { copies ≤ 4 }
    ensures { result ≡ list_any (λ c. is_on states.is_disabled table.now.value (said.place_in table.now.value file c)) (range_with_len 1 copies) }
{
    (1..copies + 1).any(|copy| is_disabled(table, table.place(file, copy)))
}
