ghost use Rattle.std.specs.Prelude.{◌≡◌};

use crate::site::valid_site;
use cta_model::{Fate, Item, Job, Sum256};
use cta_site::{NoMemory, SiteError, TapeState};
use std::alloc::Global;
use std::process::Abort;
use std::test::Fail;
use tape_table::TapeTable;

// The tapes of the small site, with no file.
fn no_files(alloc: Global) -> Result<TapeTable, SiteError> {
    let site = valid_site(alloc)?;
    let files = TapeTable::new(alloc, &site);
    drop(site);
    Ok(files?)
}

// An item for a copy of the file 7.
fn item(copy: u8) -> Item
    ensures { result.job.copy ≡ copy }
{
    Item {
        job: Job {
            birth: 1,
            file: 7,
            copy,
        },
        fseq: 1,
        sum: Sum256 {
            len: 5,
            digest: [0; 32],
        },
    }
}

// Flushes a copy of the file 7 to a tape.
fn flush(rt: &impl Abort, table: &mut TapeTable, tape: u32, copy: u8, fate: Fate, fseq: u32) {
    assert!(rt; (tape as usize) < table.tapes() && table.room() > 0);
    assert!(rt; table.row(tape).next == fseq && fseq < 9);
    assert!(rt; copy > 0 && copy < 5);
    assert_eq!(rt; table.flushed(tape, item(copy), fate), fseq);
}

// On which tape the first source of the file 7 is, and how many copies are on the first tape.
fn compare(rt: &impl Abort, table: &TapeTable, source: Option<u32>, live: u32) {
    assert_eq!(rt; table.place_at(7, 0).map(|place| place.tape), source);
    assert_eq!(rt; table.live(0), live);
}

// A walk along the first tape from an fSeq: the copy and the fSeq that are found.
fn walk(table: &TapeTable, fseq: u32) -> Option<(u8, u32)> {
    table
        .next_live(0, fseq)
        .map(|next| (next.copy, next.place.fseq))
}

// Changes a state.
fn set(rt: &impl Abort, table: &mut TapeTable, tape: u32, state: TapeState) {
    assert!(rt; (tape as usize) < table.tapes());
    table.set_state(tape, state);
    assert_eq!(rt; table.row(tape).state, state);
}

// Bytes are claimed and given up, and the tape is written anew.
fn claim(rt: &impl Abort, table: &mut TapeTable) {
    assert!(rt; table.tapes() == 2 && table.row(0).used == 0);
    table.claim(0, 9);
    table.unclaim(0, 4);
    let claimed = table.row(0).used;
    assert_eq!(rt; table.live(0), 0);
    table.reclaim(0);
    let row = table.row(0);
    assert_eq!(rt; [claimed, row.used], [5, 0]);
    assert_eq!(rt; row.next, 1);
}

// Three copies, of which the third is flushed late at first, and then twice.
fn fill(rt: &impl Abort, table: &mut TapeTable) {
    flush(rt, table, 0, 1, Fate::Done, 1);
    flush(rt, table, 1, 2, Fate::Done, 1);
    flush(rt, table, 0, 3, Fate::Stale, 2);
    compare(rt, table, Some(0), 1);
    flush(rt, table, 0, 3, Fate::Done, 3);
}

// The third copy moves away from the first tape.
fn walk_all(rt: &impl Abort, table: &mut TapeTable) {
    let walked = [walk(table, 0), walk(table, 2), walk(table, 4)];
    assert_eq!(rt; walked, [Some((1, 1)), Some((3, 3)), None]);
    compare(rt, table, Some(0), 2);
    flush(rt, table, 1, 3, Fate::Done, 2);
    compare(rt, table, Some(0), 1);
}

// Sources by the states of the tapes.
fn read_all(rt: &impl Abort, table: &mut TapeTable) {
    set(rt, table, 0, TapeState::Disabled);
    compare(rt, table, Some(1), 1);
    set(rt, table, 1, TapeState::Broken);
    compare(rt, table, Some(0), 1);
    assert!(rt; table.is_whole(7, 1) && !table.is_whole(7, 2));
}

// Each call once.
fn play(rt: &impl Abort, table: &mut TapeTable) -> Result<(), NoMemory> {
    table.reserve(4)?;
    fill(rt, table);
    walk_all(rt, table);
    read_all(rt, table);
    table.drop_file(7);
    compare(rt, table, None, 0);
    claim(rt, table);
    Ok(())
}

#[test]
fn places_come_and_go(rt: HostRuntime) -> Result<(), Fail> {
    let mut table = no_files(rt.alloc())?;
    play(&rt, &mut table)?;
    Ok(())
}
