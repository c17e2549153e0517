// What callers ask of an archive, apart from what the sessions of drives ask.

use crate::front::ArchiveFront;
use archive::Archive;
use cta_model::Told;
use link_crew::Callers;

impl<'a, M: Told + Drop> Callers<Archive<M>> for ArchiveFront<'a> {
    ghost use Rattle.link_server.specs.Callers.{is_callers};

    ghost is_callers = { is_callers };

    fn callers_ask(&self) {
        tape_routes::callers_ask();
    }
}
