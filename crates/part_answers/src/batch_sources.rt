// The fSeqs of the sources of files.
ghost use Rattle.std.specs.Prelude.{◌≡◌, ◌≤◌, true};
ghost use Rattle.std.specs.List.{list_any, range_with_len};
ghost use Rattle.part_laws.specs.Files.{fseq_told};
ghost use Rattle.part_model.specs.Tapes.{place_in};
ghost use Rattle.part_answers.specs.Sources as said;
ghost use Rattle.part_answers.specs.Sources.{copy_on, fseq_of_copy};

use cta_model::Place;
use cta_site::TapeState;
use tape_table::TapeTable;

// Whether a place is on a tape that is not BROKEN, and that may be read where only such tapes count.
fn is_source(table: &TapeTable, place: Place, readable: bool) -> bool
    ensures { result ≡ said.is_source readable table.now.value place }
{
    match table.row(place.tape).state {
        TapeState::Active => true,
        TapeState::Disabled => !readable,
        TapeState::Broken => false,
        TapeState::Repacking => true,
    }
}

// Whether a copy has a place on a tape that may be read.
fn is_readable(table: &TapeTable, place: Option<Place>) -> bool
    ensures { result ≡ said.has_source true table.now.value place }
{
    match place {
        Some(place) => is_source(table, place, true),
        None => false,
    }
}

// Whether there is a place, and it is a source on a tape.
fn is_source_on(table: &TapeTable, place: Option<Place>, tape: u32, readable: bool) -> bool
    ensures { result ≡ said.has_source_on readable table.now.value tape place }
{
    match place {
        Some(place) => is_source(table, place, readable) && place.tape == tape,
        None => false,
    }
}

// Whether one of the copies from 1 to `copies` of a file has a place on a tape that may be read.
fn some_readable(table: &TapeTable, file: u32, copies: u8) -> bool
    requires { copies ≤ 4 }
    ensures { result ≡ list_any (λ c. said.has_source true table.now.value (place_in table.now.value file c)) (range_with_len 1 copies) }
{
    (1..copies + 1).any(|copy| is_readable(table, table.place(file, copy)))
}

// The first of the copies from 1 to `copies` of a file that has a source on a tape, None exactly where none has.
fn copy_on(table: &TapeTable, file: u32, tape: u32, copies: u8, readable: bool) -> Option<u8>
    requires { copies ≤ 4 }
    ensures { result ≡ copy_on readable table.now.value tape file copies }
{
    (1..copies + 1).find(|copy| is_source_on(table, table.place(file, *copy), tape, readable))
}

// The fSeq of a copy, 0 where there is no copy or it has no place.
fn fseq_at(table: &TapeTable, file: u32, copy: Option<u8>) -> u32
    ensures { result ≡ fseq_of_copy table.now.value file copy }
{
    let Some(copy) = copy else {
        return 0;
    };
    match table.place(file, copy) {
        Some(place) => place.fseq,
        None => 0,
    }
}

// The fSeq of the source of a file of so many copies on a tape, 0 where it has none there.
pub(crate) fn source_fseq(table: &TapeTable, file: u32, tape: u32, copies: u8) -> u32
    requires { copies ≤ 4 }
    ensures { result ≡ fseq_told table.now.value tape file copies }
{
    let readable = some_readable(table, file, copies);
    fseq_at(table, file, copy_on(table, file, tape, copies, readable))
}
