// What a script meets: a desk with an archive and its drives, and the links.
ghost use Rattle.std.specs.Prelude.{[], IfOk};
ghost use Rattle.links.specs.Standing.{LinksStand};
ghost use Rattle.archive_opening.specs.SiteReading.{IsOpened};
ghost use Rattle.replay.specs.Desk.{Begins};

use crate::desk::Desk;
use archive::Archive;
use cta_model::NoMemory;
use links::Links;
use media::{Bench, TapeDrive};
use std::alloc::Global;

// A desk, and the links over which requests come to it. It is let go by `let_go` alone.
pub(crate) struct Front<D: TapeDrive + Drop> {
    pub(crate) desk: Desk<D>,
    pub(crate) links: Links,
}

impl<D: TapeDrive + Drop> Front<D> {
    // A desk for an archive that has kept nothing yet, over drives that the bench makes, with links of which nothing was read.
    // NoMemory lets the archive go.
    pub(crate) fn new<B: Bench<D>>(
        alloc: Global,
        archive: Archive<D::Medium>,
        bench: &mut B,
    ) -> Result<Front<D>, NoMemory>
        requires { IsOpened (B.tells bench.old) archive }
        ensures begins { IfOk result (λ front. Begins (B.tells bench.old) archive.site front.desk) }
        ensures links { IfOk result (λ front. LinksStand front.links archive.site.limits.file (λ link. []) (λ link. [])) }
    {
        let links = match Links::new(alloc, archive.site().limits().file) {
            Ok(links) => links,
            Err(error) => {
                archive.let_go();
                return Err(error);
            }
        };
        let desk = Desk::new(alloc, archive, bench)?;
        Ok(Front { desk, links })
    }

    // Lets the desk and the links go.
    pub(crate) fn let_go(self) {
        let Front {
            desk,
            links: _links,
        } = self;
        desk.let_go();
    }
}
