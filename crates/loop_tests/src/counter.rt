// A request with a body puts it, and gets it back.
ghost use Rattle.loop_tests.specs.Contents.{length_in, needed, said};

use crate::contents::{Back, Contents, Put};
use cta_site::NoMemory;
use link_crew::Callers;
use link_loop::{Front, Routed, Said};
use std::alloc::Global;
use std::sync::Arc;
use wire_http::{Kind, Reply, Request, error_reply};

/// The front of contents.
pub struct Counter;

impl Front<Contents> for Counter {
    type Question = u64;

    type Cause = u64;

    type Tools = ();

    ghost site = { λ s. tt };

    ghost question = { length_in };

    ghost needs = { λ s. needed };

    ghost gets = { λ s back. Unit {0} };

    ghost says = { λ s. said };

    fn tools(&self, _alloc: Global) -> Result<(), NoMemory> {
        Ok(())
    }

    fn put_away(_tools: ()) {}

    fn route(
        &self,
        _tools: &(),
        alloc: Global,
        moment: u64,
        request: Request,
    ) -> Result<Routed<Put>, NoMemory> {
        if request.body.sum().len == 0 {
            let reply = error_reply(alloc, 404, "nothing", request.close)?;
            return Ok(Routed::Reply(reply));
        }
        let blob = Arc::new(alloc, request.body)?;
        Ok(Routed::Call(Put { at: moment, blob }))
    }

    fn told(&self, alloc: Global, back: Back, close: bool) -> Result<Said<u64>, NoMemory> {
        match back {
            Back::Counted(blob) => Ok(Said::Reply(Reply {
                code: 200,
                kind: Kind::Bytes(blob),
                location: None,
                allow: None,
                close,
            })),
            Back::Full(count) => Ok(Said::Stop(count)),
            Back::NoMemory => {
                let reply = error_reply(alloc, 500, "no memory", close)?;
                Ok(Said::Reply(reply))
            }
        }
    }

    fn let_go(_cause: u64) {}
}

impl Callers<Contents> for Counter {
    ghost use Rattle.std.specs.Prelude.{true};

    ghost is_callers = { λ k. true };

    fn callers_ask(&self) {}
}
