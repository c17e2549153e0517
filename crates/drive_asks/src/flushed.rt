// A Flushed carried out.
ghost use Rattle.std.specs.Prelude.{◌≡◌, IfErr};
ghost use Rattle.cta_site.specs.Listed.{rows};
ghost use Rattle.archive_parts.specs.Carrying.{CanCarryOut, IsCarriedOut};

use crate::carried::carry_out;
use crate::rooms::{Fates, make_room};
use archive_parts::{ArchiveParts, same_parts_are_kept};
use cta_model::{Answer, Ask, Direction, Item};
use cta_site::{NoMemory, Rows};
use kept_history::KeptHistory;
use site_index::SiteIndex;
use std::alloc::Global;

/// Carries out the Flushed of an open mount that writes: these items of its last batch were flushed to its tape. The answer
/// tells of each item whether its job was live (Done) or had ended (Stale). Each item has the next fSeq of the tape from then
/// on, and a Done one its place there; the claims of the items end, and so do the live jobs; the files of Done items get their
/// flags, whether they are safe on tape; items of repacks that were WRITING a Done copy are DONE, and repacks that pin a file
/// no more take their pins off. The ask is one that is accepted at this moment, in seconds since 1970. NoMemory gives the
/// items back, and nothing that is told has changed. Its cost is the number of items, each with the logarithm of the number of
/// the files, pins and live items of repacks, and with each repack that is WRITING its copy. CTA; what depends on a flush is
/// this project's own.
pub fn flush_batch(
    alloc: Global,
    site: &SiteIndex,
    history: &mut KeptHistory,
    parts: &mut ArchiveParts,
    at: u64,
    mount: u32,
    items: Rows<Item>,
) -> Result<Answer, (NoMemory, Rows<Item>)>
    requires { CanCarryOut site.now history.old.value parts.old at (Ask.Flushed mount (rows items.items)) }
    ensures carried { IsCarriedOut site.now history.old.value at (Ask.Flushed mount (rows items.items)) result history.new.value parts.new }
    ensures back { IfErr result (λ e. e.1 ≡ items) }
{
    site.site().keeps_rules();
    same_parts_are_kept();
    match make_room(alloc, history, parts, items.as_slice()) {
        Ok(room) => {
            let Fates { kept, told, live } = room;
            carry_out(
                site,
                history,
                parts,
                at,
                mount,
                items,
                kept,
                live.as_slice(),
            );
            Ok(Answer::Told { fates: told })
        }
        Err(error) => Err((error, items)),
    }
}
