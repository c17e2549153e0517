// The front of an archive that a hall keeps.
ghost use Rattle.std.specs.Prelude.{◌≡◌, IfOk};
ghost use Rattle.archive_front.specs.Questions.{question_of};
ghost use Rattle.archive_front.specs.Backs.{IsForCallers};
ghost use Rattle.link_server.specs.Fronts.{needs_of, says_of};

use archive::Archive;
use archive_front::{Called, Question, call_of, callers_are_served, reply_to_back};
use archive_turns::{ArchiveBack, ArchiveCall};
use cta_model::Told;
use cta_site::{NoMemory, ValidSite};
use link_loop::{Front, Routed, Said};
use std::alloc::Global;
use tape_routes::Routes;
use wire_http::{Reply, Request};

/// The front of an archive: its site. Its tools are the routes by which requests reach the archive.
#[derive(Clone, Copy, Drop)]
pub struct ArchiveFront<'a> {
    pub(crate) site: &'a ValidSite,
}

impl<'a> ArchiveFront<'a> {
    /// The front of an archive of this site. It takes no memory and constant time.
    pub fn new(site: &'a ValidSite) -> ArchiveFront<'a>
        ensures { result.site.now ≡ site.now }
    {
        ArchiveFront { site }
    }
}

impl<'a, M: Told + Drop> Front<Archive<M>> for ArchiveFront<'a> {
    type Question = Question;

    type Cause = ();

    type Tools = Routes;

    ghost site = { λ f. f.site.now };

    ghost question = { question_of };

    ghost needs = { needs_of };

    ghost gets = { λ s. IsForCallers };

    ghost says = { says_of };

    fn tools(&self, alloc: Global) -> Result<Routes, NoMemory> {
        Routes::new(alloc)
    }

    fn put_away(tools: Routes) {
        drop(tools);
    }

    fn route(
        &self,
        tools: &Routes,
        alloc: Global,
        moment: u64,
        request: Request,
    ) -> Result<Routed<ArchiveCall<M>>, NoMemory> {
        callers_are_served::<M>();
        match call_of(alloc, tools, self.site, moment, request)? {
            Called::Call(call) => Ok(Routed::Call(call)),
            Called::Reply(reply) => Ok(Routed::Reply(reply)),
        }
    }

    fn told(&self, alloc: Global, back: ArchiveBack<M>, close: bool) -> Result<Said<()>, NoMemory> {
        let reply = reply_to_back(alloc, self.site, back, close)?;
        Ok(Said::Reply(reply))
    }

    fn let_go(_cause: ()) {}
}
