// Requests, asked of the archive and answered.
ghost use Rattle.std.specs.Prelude.{◌≡◌, ◌≤◌, IfOk, OnOk};
ghost use Rattle.cta_model.specs.Legal.{greatest_moment};
ghost use Rattle.wire_http.specs.Reply.{reply_view};
ghost use Rattle.tape_routes.specs.Answering.{IsReplyTo, RepliesWith, kept_then, request_keeps};
ghost use Rattle.archive_front.specs.Questions.{IsCallersCall, asked_of_call, moment_of_call};

use archive::Archive;
use archive_front::{Called, call_of, callers_are_served, found_no_memory, reply_to_back};
use archive_turns::ArchiveCall;
use cta_model::{NoMemory, Told};
use std::alloc::Global;
use tape_routes::Routes;
use wire_http::{Reply, Request, write_reply};

// The reply to a caller's call.
fn call_reply<M: Told + Drop>(
    alloc: Global,
    archive: &mut Archive<M>,
    call: ArchiveCall<M>,
    close: bool,
) -> Result<Reply, NoMemory>
    requires { IsCallersCall call }
    ensures reply { IfOk result (λ reply. RepliesWith archive.old (moment_of_call call) close (asked_of_call call) (reply_view reply)) }
    ensures kept { OnOk result (archive.new ≡ kept_then archive.old (moment_of_call call) (asked_of_call call)) }
{
    callers_are_served::<M>();
    let back = archive.call(call);
    if found_no_memory(&back) {
        drop(back);
        return Err(NoMemory);
    }
    reply_to_back(alloc, archive.site(), back, close)
}

// An archive behind the routes by which requests reach it.
pub(crate) struct Service<M: Told + Drop> {
    pub(crate) archive: Archive<M>,
    pub(crate) routes: Routes,
}

impl<M: Told + Drop> Service<M> {
    // The text of the reply to a request, given at a moment, in seconds since 1970. An ask that is accepted is kept. After
    // NoMemory it may have been kept, and the reply is lost.
    pub(crate) fn answer(
        &mut self,
        alloc: Global,
        moment: u64,
        request: Request,
    ) -> Result<Vec<u8>, NoMemory>
        requires { moment ≤ greatest_moment }
        ensures text { IfOk result (λ text. IsReplyTo self.old.archive moment request text.items) }
        ensures kept { OnOk result (self.new.archive ≡ request_keeps self.old.archive moment request) }
    {
        let close = request.close;
        match call_of(alloc, &self.routes, self.archive.site(), moment, request)? {
            Called::Call(call) => {
                let reply = call_reply(alloc, &mut self.archive, call, close)?;
                write_reply(alloc, &reply)
            }
            Called::Reply(reply) => write_reply(alloc, &reply),
        }
    }
}
