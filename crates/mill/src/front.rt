// The callers of an archive that a hall keeps.
ghost use Rattle.std.specs.Prelude.{◌≡◌, ◌≤◌, List, None};
ghost use Rattle.cta_model.specs.Legal.{greatest_moment};

use archive::Archive;
use archive_turns::{ArchiveBack, ArchiveCall};
use cta_model::{Ask, Hand, Look, Told, Who};
use cta_site::Text;
use mill_crew::{Heard, MillCall, MillFront};
use std::alloc::Global;

// The front of an archive for the callers of a mill.
#[derive(Clone, Copy)]
pub(crate) struct ArchiveMill {
    pub(crate) alloc: Global,
}

impl ArchiveMill {
    // A requester and a group that are not said.
    fn nobody(&self) -> Who {
        Who {
            requester: Text::of(String::new(self.alloc)),
            group: Text::of(String::new(self.alloc)),
        }
    }
}

impl<M: Told + Drop> MillFront<Archive<M>> for ArchiveMill {
    fn call(&self, at: u64, call: MillCall) -> ArchiveCall<M> {
        let who = self.nobody();
        match call {
            MillCall::Put { path, blob } => {
                let sum = blob.sum();
                let ask = Ask::Put { who, path, sum };
                let hand = Hand::Blob(blob);
                ArchiveCall::Ask { at, ask, hand }
            }
            MillCall::Delete { path } => {
                let ask = Ask::Delete { who, path };
                let hand = Hand::Nothing;
                ArchiveCall::Ask { at, ask, hand }
            }
            MillCall::Stage { files } => {
                let ask = Ask::Stage { who, files };
                let hand = Hand::Nothing;
                ArchiveCall::Ask { at, ask, hand }
            }
            MillCall::Fetch { path } => {
                let look = Look::Fetch { path };
                ArchiveCall::Look { at, look }
            }
            MillCall::Places { paths } => {
                let look = Look::ArchiveInfo { paths };
                ArchiveCall::Look { at, look }
            }
            MillCall::Report { id } => {
                let look = Look::StageInfo { id };
                ArchiveCall::Look { at, look }
            }
        }
    }

    fn hear(&self, back: ArchiveBack<M>) -> Heard {
        match back {
            ArchiveBack::Ask(Ok((answer, _))) => Heard::Answer(answer),
            ArchiveBack::Look(Ok((answer, hand))) => match hand {
                Hand::Blob(blob) => Heard::Content(blob),
                _ => Heard::Answer(answer),
            },
            _ => Heard::Nothing,
        }
    }
}
