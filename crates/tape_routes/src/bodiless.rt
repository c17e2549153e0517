// What requests ask whose body is not read.
ghost use Rattle.std.specs.Prelude.{◌≡◌, IfOk, None};
ghost use Rattle.cta_model.specs.declared.asks.Ask.TheVariants as ask;
ghost use Rattle.cta_model.specs.declared.asks.Look.TheVariants as look;
ghost use Rattle.tape_routes.specs.Fixed.{well_known_reply};
ghost use Rattle.tape_routes.specs.Parameters.{request_number, drive_number, tape_number};
ghost use Rattle.tape_routes.specs.Asked.{Asks, Looks, Replies, routed_view};

use crate::ids::request_number;
use crate::parameters::{drive_number, tape_number};
use crate::routed::Routed;
use crate::well_known::well_known_reply;
use cta_model::{Ask, Look};
use cta_site::{NoMemory, ValidSite};
use std::alloc::Global;
use wire_http::Request;

// The service.
pub(crate) fn service(alloc: Global, site: &ValidSite, close: bool) -> Result<Routed, NoMemory>
    ensures { IfOk result (λ routed. routed_view routed ≡ Replies (well_known_reply site.now close)) }
{
    let reply = well_known_reply(alloc, site, close)?;
    Ok(Routed::Reply(reply))
}

// How a stage request stands.
pub(crate) fn stage_info(id: &[u8]) -> Routed
    ensures { routed_view result ≡ Looks (look.StageInfo (request_number id.now)) }
{
    Routed::Look(Look::StageInfo {
        id: request_number(id),
    })
}

// How a repack stands.
pub(crate) fn repack_info(id: &[u8]) -> Routed
    ensures { routed_view result ≡ Looks (look.RepackInfo (request_number id.now)) }
{
    Routed::Look(Look::RepackInfo {
        id: request_number(id),
    })
}

// What is on a tape.
pub(crate) fn tape_info(site: &ValidSite, vid: &[u8]) -> Routed
    ensures { routed_view result ≡ Looks (look.TapeInfo (tape_number site.now vid.now)) }
{
    Routed::Look(Look::TapeInfo {
        tape: tape_number(site, vid),
    })
}

// A stage request is given up.
pub(crate) fn drop_stage(request: Request, id: &[u8]) -> Routed
    ensures { routed_view result ≡ Asks (ask.DropStage request.who (request_number id.now)) None }
{
    let id = request_number(id);
    let who = request.who;
    Routed::Ask(Ask::DropStage { who, id }, None)
}

// A drive takes mounts again.
pub(crate) fn drive_up(site: &ValidSite, request: Request, name: &[u8]) -> Routed
    ensures { routed_view result ≡ Asks (ask.DriveUp request.who (drive_number site.now name.now)) None }
{
    let drive = drive_number(site, name);
    let who = request.who;
    Routed::Ask(Ask::DriveUp { who, drive }, None)
}

// A drive takes no more mounts.
pub(crate) fn drive_down(site: &ValidSite, request: Request, name: &[u8]) -> Routed
    ensures { routed_view result ≡ Asks (ask.DriveDown request.who (drive_number site.now name.now)) None }
{
    let drive = drive_number(site, name);
    let who = request.who;
    Routed::Ask(Ask::DriveDown { who, drive }, None)
}

// A tape is written from its beginning again.
pub(crate) fn reclaim(site: &ValidSite, request: Request, vid: &[u8]) -> Routed
    ensures { routed_view result ≡ Asks (ask.Reclaim request.who (tape_number site.now vid.now)) None }
{
    let tape = tape_number(site, vid);
    let who = request.who;
    Routed::Ask(Ask::Reclaim { who, tape }, None)
}
