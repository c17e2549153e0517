// Requests to asks.
ghost use Rattle.std.specs.Prelude.{◌≡◌, IfOk};
ghost use Rattle.tape_routes.specs.Asked.{asked, asked_by, routed_view};

use crate::ids::request_number;
use crate::parameters::{decoded, tape_number};
use crate::refusals::{no_method, no_route};
use crate::routed::Routed;
use crate::router::Routes;
use crate::routes::Meaning;
use crate::{asks, bodiless};
use cta_model::Look;
use cta_site::{NoMemory, ValidSite};
use std::alloc::Global;
use wire_http::Request;

// What a request asks whose method means this, with the parameter of its target.
fn asked_by(
    alloc: Global,
    site: &ValidSite,
    request: Request,
    parameter: &[u8],
    meaning: Meaning,
) -> Result<Routed, NoMemory>
    ensures { IfOk result (λ routed. routed_view routed ≡ asked_by site.now request parameter.now meaning) }
{
    match meaning {
        Meaning::Service => bodiless::service(alloc, site, request.close),
        Meaning::Stage => asks::stage(alloc, request),
        Meaning::StageInfo => Ok(bodiless::stage_info(parameter)),
        Meaning::DropStage => Ok(bodiless::drop_stage(request, parameter)),
        Meaning::Cancel => asks::cancel(alloc, request, request_number(parameter)),
        Meaning::Release => asks::release(alloc, request, request_number(parameter)),
        Meaning::ArchiveInfo => asks::archive_info(alloc, &request),
        Meaning::Put => asks::put(alloc, request, parameter),
        Meaning::Fetch => asks::fetch(alloc, request.close, parameter),
        Meaning::Delete => asks::delete(alloc, request, parameter),
        Meaning::DriveUp => Ok(bodiless::drive_up(site, request, parameter)),
        Meaning::DriveDown => Ok(bodiless::drive_down(site, request, parameter)),
        Meaning::TapeInfo => Ok(bodiless::tape_info(site, parameter)),
        Meaning::TapeState => asks::tape_state(alloc, request, tape_number(site, parameter)),
        Meaning::Reclaim => Ok(bodiless::reclaim(site, request, parameter)),
        Meaning::Repack => asks::repack(alloc, site, request),
        Meaning::RepackInfo => Ok(bodiless::repack_info(parameter)),
        Meaning::FailedList => Ok(Routed::Look(Look::FailedList)),
        Meaning::Retry => asks::retry(alloc, request),
        Meaning::Queues => Ok(Routed::Look(Look::Queues)),
    }
}

impl Routes {
    /// What a request comes to on this site, by the route table of the WLCG Tape REST API v1 and of this project's own routes
    /// for files and the administration. The target is matched before percent-decoding, with letter case; a parameter is
    /// never empty. The table is in `specs/Routes.antt`.
    ///
    /// - A Put comes with its body, whose sum the ask has; no other ask brings a content. The body of a route that reads none
    ///   is ignored. An id is read in every form of a UUID; one that is no request's is asked as 0, and the name of no drive
    ///   or no tape as 2^32 - 1.
    /// - 404 `no such route` comes exactly where no route has the target, and 405 `no such method` with `Allow` exactly where
    ///   the route has not the method (RFC 9110, 15.5.6); to a HEAD both have no body (RFC 9110, 9.3.2).
    /// - 400 `bad path` comes exactly where the rest of a `/data` target is no UTF-8 once it is percent-decoded (RFC 3986,
    ///   2.1); `bad body`, `bad lifetime` and `empty list` come exactly where the body's reader says so.
    ///
    /// NoMemory drops the request. Its cost is the length of the target and, where a body is read or put, of the body.
    pub fn route(
        &self,
        alloc: Global,
        site: &ValidSite,
        request: Request,
    ) -> Result<Routed, NoMemory>
        ensures { IfOk result (λ routed. routed_view routed ≡ asked site.now request) }
    {
        let Some((endpoint, parameter)) = self.find(request.target.as_str()) else {
            return no_route(alloc, &request);
        };
        match endpoint.meaning(&request.method) {
            Some(meaning) => {
                let parameter = decoded(alloc, parameter)?;
                asked_by(alloc, site, request, parameter.as_slice(), meaning)
            }
            None => no_method(alloc, &request, endpoint),
        }
    }
}
