// The state.
ghost use Rattle.std.specs.Prelude.{◌≡◌, [], IfOk, Ok, Some, map};
ghost use Rattle.cta_model.specs.History.{moment_of, weight_of};
ghost use Rattle.cta_model.specs.Legal.{IsLegal};
ghost use Rattle.archive_state.specs.States.{AreFirstMedia, AreShelved};

use archive_parts::ArchiveParts;
use blob::Told;
use cta_site::{NoMemory, ValidSite};
use kept_history::KeptHistory;
use media_shelf::MediaShelf;
use site_index::SiteIndex;
use std::alloc::Global;
use std::hash::RandomState;
use std::marker::Model;

/// The state of an archive. Contracts see its site, its history, newest entry first, and the media on its shelf. The history is legal; the
/// parts stand for it, the buffer has a content of each resident file and of no other, and each tape that is not mounted has its medium on
/// the shelf, which is true where it tells its records. This project's own.
#[derive(Drop)]
pub struct ArchiveState<M: Told + Drop> {
    /// The allocator of what the archive keeps.
    pub alloc: Global,
    /// The site.
    pub site: SiteIndex,
    /// The history.
    pub history: KeptHistory,
    /// The parts, which stand for the history.
    pub parts: ArchiveParts,
    /// The media that no drive has, by their tapes.
    pub shelf: MediaShelf<M>,
}

impl<M: Told + Drop> Model for ArchiveState<M> {
    ghost use Rattle.cta_model.specs.Kept.{Kept};
    ghost use Rattle.archive_state.specs.States.{IsState};

    ghost Value = { Kept };

    ghost view = { λ s. record { site = s.site; history = s.history.value; shelf = s.shelf } };

    ghost invariant = { λ s. IsState s.site s.history.value s.parts s.shelf };
}

// Three values, where there was memory for all of them. That the others are dropped where one is missing is proved here for any values,
// and not in a function that knows all of their fields.
fn all_of<A: Drop, B: Drop, C: Drop>(
    first: Result<A, NoMemory>,
    second: Result<B, NoMemory>,
    third: Result<C, NoMemory>,
) -> Result<(A, B, C), NoMemory>
    ensures { IfOk result (λ all. (first ≡ Ok all.0) × (second ≡ Ok all.1) × (third ≡ Ok all.2)) }
{
    Ok((first?, second?, third?))
}

impl<M: Told + Drop> ArchiveState<M> {
    /// The state of an archive with no history, with the medium of each tape of the site. Paths are hashed with these keys. After
    /// NoMemory the site and the media are dropped. Its cost is the size of the site, and that of `SiteIndex::new`.
    pub fn new(
        alloc: Global,
        site: ValidSite,
        media: Vec<M>,
        keys: RandomState,
    ) -> Result<ArchiveState<M>, NoMemory>
        requires { AreFirstMedia M.told site media.items }
        ensures { IfOk result (λ state. state ≡ record { site = site; history = []; shelf = map (λ m. Some (M.told m)) media.items }) }
    {
        let parts = ArchiveParts::new(alloc, &site, keys);
        let shelf = MediaShelf::new(alloc, media);
        let site = SiteIndex::new(alloc, site);
        let (site, shelf, parts) = all_of(site, shelf, parts)?;
        Ok(ArchiveState {
            alloc,
            site,
            history: KeptHistory::new(alloc),
            parts,
            shelf,
        })
    }

    /// The site, in constant time.
    pub fn site(&self) -> &ValidSite
        ensures { result.now ≡ self.now.site }
    {
        self.site.site()
    }

    /// That the history is legal for the site: a law, which does nothing when it runs.
    pub fn keeps_history(&self)
        ensures { IsLegal self.now.site self.now.history }
    {
        let _history = &self.history;
    }

    /// That each tape of the site that no open mount has has its medium on the shelf, which is true for the history where it tells its
    /// records: a law, which does nothing when it runs.
    pub fn keeps_media(&self)
        ensures { AreShelved self.now.site self.now.history self.now.shelf }
    {
        let _history = &self.history;
    }
}
