// A tape repacked.
ghost use Rattle.std.specs.Prelude.{◌≡◌, IfErr};
ghost use Rattle.archive_parts.specs.Carrying.{CanCarryOut, IsCarriedOut};

use crate::ready::{RepackReady, make_ready};
use crate::settled::settle;
use archive_parts::{ArchiveParts, kept_parts_move, same_parts_are_kept};
use cta_laws::{fseqs_are_low, places_are_of_copies, places_are_on_site, stays_short};
use cta_model::{Actor, Answer, Ask, Who};
use cta_site::NoMemory;
use kept_history::KeptHistory;
use part_laws::{files_fit_buffer, lines_are_small};
use site_index::SiteIndex;
use std::alloc::Global;

/// Repacks a tape: carries out the accepted `Repack` of a caller at a moment, in seconds since 1970. The answer tells the number of the
/// repack, which is that of its entry, and its items: the copies that have their place on the tape, by fSeq. An item of a file in the
/// buffer is WRITING, and an archive job of its copy is born and waits in the queue of its pool; any other item is READING, and its file's
/// recall is born and queued where none is live, and else joined. The repack pins the files of its items that are in the buffer, without
/// an end, and the items' files get their flags, whether they are safe on tape. NoMemory changes nothing that is told, and gives the
/// caller back. Its cost is that of the rooms that it makes, the length of the items' paths, and the number of items, each with the
/// logarithm of their number, of the lines of a queue, of the files and pins of the buffer and of the live items of repacks. CTA; the
/// conditions of a repack are this project's own.
pub fn repack_tape(
    alloc: Global,
    site: &SiteIndex,
    history: &mut KeptHistory,
    parts: &mut ArchiveParts,
    at: u64,
    who: Who,
    tape: u32,
) -> Result<Answer, (NoMemory, Who)>
    requires { CanCarryOut site.now history.old.value parts.old at (Ask.Repack who tape) }
    ensures carried { IsCarriedOut site.now history.old.value at (Ask.Repack who tape) result history.new.value parts.new }
    ensures back { IfErr result (λ e. e.1 ≡ who) }
{
    same_parts_are_kept();
    kept_parts_move();
    stays_short();
    fseqs_are_low();
    files_fit_buffer();
    lines_are_small();
    places_are_of_copies();
    places_are_on_site();
    let rules = site.site();
    rules.keeps_rules();
    rules.numbers_are_known();
    let number = history.next_number();
    let ready = match make_ready(alloc, site, history, parts, at, &who, number, tape) {
        Ok(ready) => ready,
        Err(error) => return Err((error, who)),
    };
    let RepackReady {
        caller,
        told,
        found,
    } = ready;
    if let Err(error) = parts
        .repacks
        .add(number, tape, told.vid, told.book, told.paths)
    {
        return Err((error, who));
    }
    history.append(
        at,
        Actor::Caller(caller),
        Ask::Repack { who, tape },
        Answer::Repacking {
            id: number,
            items: told.entry,
        },
    );
    settle(
        rules,
        history,
        parts,
        number,
        found.items.as_slice(),
        found.joined.as_slice(),
        found.newborn.as_slice(),
        found.written.as_slice(),
    );
    Ok(Answer::Repacking {
        id: number,
        items: told.answer,
    })
}
