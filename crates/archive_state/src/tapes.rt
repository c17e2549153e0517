// What the state tells of tapes and of repacks.
ghost use Rattle.std.specs.Prelude.{None, Some, ◌≡◌, IfOk, if◌then◌else◌, length, nat_le, option_map};
ghost use Rattle.cta_model.specs.Mounts.{is_mounted};
ghost use Rattle.cta_model.specs.Places.{live_items_on};
ghost use Rattle.cta_model.specs.Repacks.{is_repack_live, repack_of};
ghost use Rattle.cta_model.specs.Reports.{repack_report};
ghost use Rattle.cta_model.specs.Tapes.{tape_state};
ghost use Rattle.repack_book.specs.Reports.{bare_info};

use crate::state::ArchiveState;
use blob::Told;
use cta_model::RepackInfo;
use cta_site::{NoMemory, TapeState};

impl<M: Told + Drop> ArchiveState<M> {
    /// The state of a tape, None exactly where the site has no such tape. In constant time.
    pub fn tape_state(&self, tape: u32) -> Option<TapeState>
        ensures { result ≡ (if nat_le (length self.now.site.tapes.items) tape then None else Some (tape_state self.now.site self.now.history tape)) }
    {
        let _history = &self.history;
        if self.site.site().tapes().len() <= tape as usize {
            return None;
        }
        Some(self.parts.tapes.row(tape).state)
    }

    /// Whether an open mount has a tape. Its cost is the number of open mounts.
    pub fn is_mounted(&self, tape: u32) -> bool
        ensures { result ≡ is_mounted self.now.history tape }
    {
        let _history = &self.history;
        self.parts.mounts.of_tape(tape).is_some()
    }

    /// How many copies of live files have their place on a tape. In constant time.
    pub fn live_copies(&self, tape: u32) -> u32
        ensures { result ≡ length (live_items_on self.now.history tape) }
    {
        let _history = &self.history;
        self.parts.tapes.live(tape)
    }

    /// Whether a repack of a tape is live. Its cost is the logarithm of the number of live items of repacks.
    pub fn has_live_repack(&self, tape: u32) -> bool
        ensures { result ≡ is_repack_live self.now.site self.now.history tape }
    {
        let _history = &self.history;
        self.parts.repacks.live(tape)
    }

    /// What is told of a repack, None exactly where there is none of this number: its tape, and how each of its items stands. NoMemory
    /// gives nothing. Its cost is the number of the repack's items and the length of their paths.
    pub fn repack_info(&self, id: u32) -> Result<Option<RepackInfo>, NoMemory>
        ensures { IfOk result (λ told. option_map bare_info told ≡ option_map (repack_report self.now.site self.now.history id) (repack_of self.now.site self.now.history id)) }
    {
        let _history = &self.history;
        self.parts.repacks.info(id)
    }
}
