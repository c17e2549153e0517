// Requests as calls.
ghost use Rattle.std.specs.Prelude.{◌≡◌, ◌≤◌, IfOk};
ghost use Rattle.cta_model.specs.Legal.{greatest_moment};
ghost use Rattle.tape_routes.specs.Asked.{asked, routed_view};
ghost use Rattle.tape_routes.specs.Callers.{IsCallers};
ghost use Rattle.archive_front.specs.Hands.{hand_with};
ghost use Rattle.archive_front.specs.Questions.{ComesTo};

use crate::questions::Called;
use archive_turns::{ArchiveCall, Hand};
use blob::Blob;
use cta_site::{NoMemory, ValidSite};
use std::alloc::Global;
use std::sync::Arc;
use tape_routes::{Routed, Routes, callers_ask};
use wire_http::Request;

// The hand of an ask that comes with this content.
fn hand_with<M>(content: Option<Arc<Blob>>) -> Hand<M>
    ensures { result ≡ hand_with content }
{
    match content {
        Some(blob) => Hand::Blob(blob),
        None => Hand::Nothing,
    }
}

// The call of what the routes make of a request.
fn called<M>(at: u64, routed: Routed) -> Called<M>
    requires moment { at ≤ greatest_moment }
    requires caller { IsCallers (routed_view routed) }
    ensures { ComesTo (routed_view routed) at result }
{
    match routed {
        Routed::Ask(ask, content) => {
            let hand = hand_with(content);
            Called::Call(ArchiveCall::Ask { at, ask, hand })
        }
        Routed::Look(look) => Called::Call(ArchiveCall::Look { at, look }),
        Routed::Reply(reply) => Called::Reply(reply),
    }
}

/// What a request comes to on this site: a caller's call at the moment `at`, in seconds since 1970, at most the last second of the
/// year 9999; or the reply that needs no archive. NoMemory drops the request. Its cost is that of `Routes::route`.
pub fn call_of<M>(
    alloc: Global,
    routes: &Routes,
    site: &ValidSite,
    at: u64,
    request: Request,
) -> Result<Called<M>, NoMemory>
    requires { at ≤ greatest_moment }
    ensures { IfOk result (λ c. ComesTo (asked site.now request) at c) }
{
    callers_ask();
    let routed = routes.route(alloc, site, request)?;
    Ok(called(at, routed))
}
