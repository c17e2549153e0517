// What requests ask of the archive.
ghost use Rattle.std.specs.Prelude.{◌≡◌, IfOk, Some, None};
ghost use Rattle.blob.specs.Sums.{sum_of};
ghost use Rattle.cta_site.specs.Listed.{rows};
ghost use Rattle.cta_model.specs.declared.asks.Ask.TheVariants as ask;
ghost use Rattle.cta_model.specs.declared.asks.Look.TheVariants as look;
ghost use Rattle.tape_json.specs.Bodies.{stage_of, paths_of, state_of, vid_of};
ghost use Rattle.tape_routes.specs.Parameters.{tape_number, text_in};
ghost use Rattle.tape_routes.specs.Asked.{Asks, Looks, with_body, with_path, routed_view};

use crate::bodies::{paths_in, stage_in, state_in, vid_in};
use crate::parameters::{path_in, tape_number};
use crate::refusals::{bad_body, bad_request};
use crate::routed::Routed;
use cta_model::{Ask, Look, Who};
use cta_site::{NoMemory, Text, ValidSite};
use std::alloc::Global;
use std::sync::Arc;
use wire_http::Request;

// Files are wanted on disk.
pub(crate) fn stage(alloc: Global, request: Request) -> Result<Routed, NoMemory>
    ensures { IfOk result (λ routed. routed_view routed ≡ with_body request.close (λ files. Asks (ask.Stage request.who (rows files)) None) (stage_of request.body)) }
{
    match stage_in(alloc, &request.body) {
        Ok(files) => Ok(Routed::Ask(
            Ask::Stage {
                who: request.who,
                files,
            },
            None,
        )),
        Err(fault) => bad_body(alloc, fault, request.close),
    }
}

// Files of a stage request are not wanted any more.
pub(crate) fn cancel(alloc: Global, request: Request, id: u32) -> Result<Routed, NoMemory>
    ensures { IfOk result (λ routed. routed_view routed ≡ with_body request.close (λ paths. Asks (ask.Cancel request.who id (rows paths)) None) (paths_of request.body)) }
{
    match paths_in(alloc, &request.body) {
        Ok(paths) => Ok(Routed::Ask(
            Ask::Cancel {
                who: request.who,
                id,
                paths,
            },
            None,
        )),
        Err(fault) => bad_body(alloc, fault, request.close),
    }
}

// Files of a stage request need not stay on disk.
pub(crate) fn release(alloc: Global, request: Request, id: u32) -> Result<Routed, NoMemory>
    ensures { IfOk result (λ routed. routed_view routed ≡ with_body request.close (λ paths. Asks (ask.Release request.who id (rows paths)) None) (paths_of request.body)) }
{
    match paths_in(alloc, &request.body) {
        Ok(paths) => Ok(Routed::Ask(
            Ask::Release {
                who: request.who,
                id,
                paths,
            },
            None,
        )),
        Err(fault) => bad_body(alloc, fault, request.close),
    }
}

// The failed copies of files are tried again.
pub(crate) fn retry(alloc: Global, request: Request) -> Result<Routed, NoMemory>
    ensures { IfOk result (λ routed. routed_view routed ≡ with_body request.close (λ paths. Asks (ask.Retry request.who (rows paths)) None) (paths_of request.body)) }
{
    match paths_in(alloc, &request.body) {
        Ok(paths) => Ok(Routed::Ask(
            Ask::Retry {
                who: request.who,
                paths,
            },
            None,
        )),
        Err(fault) => bad_body(alloc, fault, request.close),
    }
}

// Where files are kept.
pub(crate) fn archive_info(alloc: Global, request: &Request) -> Result<Routed, NoMemory>
    ensures { IfOk result (λ routed. routed_view routed ≡ with_body request.now.close (λ paths. Looks (look.ArchiveInfo (rows paths))) (paths_of request.now.body)) }
{
    match paths_in(alloc, &request.body) {
        Ok(paths) => Ok(Routed::Look(Look::ArchiveInfo { paths })),
        Err(fault) => bad_body(alloc, fault, request.close),
    }
}

// A tape gets a state.
pub(crate) fn tape_state(alloc: Global, request: Request, tape: u32) -> Result<Routed, NoMemory>
    ensures { IfOk result (λ routed. routed_view routed ≡ with_body request.close (λ state. Asks (ask.TapeState request.who tape state) None) (state_of request.body)) }
{
    match state_in(alloc, &request.body) {
        Ok(state) => Ok(Routed::Ask(
            Ask::TapeState {
                who: request.who,
                tape,
                state,
            },
            None,
        )),
        Err(fault) => bad_body(alloc, fault, request.close),
    }
}

// A repack of the tape of this VID.
fn repack_of(site: &ValidSite, who: Who, vid: &Text) -> Routed
    ensures { routed_view result ≡ Asks (ask.Repack who (tape_number site.now vid.now)) None }
{
    let tape = tape_number(site, vid.as_bytes());
    Routed::Ask(Ask::Repack { who, tape }, None)
}

// The files of a tape are written to others.
pub(crate) fn repack(alloc: Global, site: &ValidSite, request: Request) -> Result<Routed, NoMemory>
    ensures { IfOk result (λ routed. routed_view routed ≡ with_body request.close (λ vid. Asks (ask.Repack request.who (tape_number site.now vid)) None) (vid_of request.body)) }
{
    match vid_in(alloc, &request.body) {
        Ok(vid) => Ok(repack_of(site, request.who, &vid)),
        Err(fault) => bad_body(alloc, fault, request.close),
    }
}

// The body of a request as what is put under a path.
fn put_of(alloc: Global, request: Request, path: Text) -> Result<Routed, NoMemory>
    ensures { IfOk result (λ routed. routed_view routed ≡ Asks (ask.Put request.who path (sum_of request.body)) (Some request.body)) }
{
    let sum = request.body.sum();
    let who = request.who;
    let blob = Arc::new(alloc, request.body)?;
    Ok(Routed::Ask(Ask::Put { who, path, sum }, Some(blob)))
}

// A file is put.
pub(crate) fn put(alloc: Global, request: Request, path: &[u8]) -> Result<Routed, NoMemory>
    ensures { IfOk result (λ routed. routed_view routed ≡ with_path request.close (λ path. Asks (ask.Put request.who path (sum_of request.body)) (Some request.body)) (text_in path.now)) }
{
    match path_in(alloc, path)? {
        Some(path) => put_of(alloc, request, path),
        None => bad_request(alloc, "bad path", request.close),
    }
}

// The bytes of a file.
pub(crate) fn fetch(alloc: Global, close: bool, path: &[u8]) -> Result<Routed, NoMemory>
    ensures { IfOk result (λ routed. routed_view routed ≡ with_path close (λ path. Looks (look.Fetch path)) (text_in path.now)) }
{
    match path_in(alloc, path)? {
        Some(path) => Ok(Routed::Look(Look::Fetch { path })),
        None => bad_request(alloc, "bad path", close),
    }
}

// A path names no file any more.
pub(crate) fn delete(alloc: Global, request: Request, path: &[u8]) -> Result<Routed, NoMemory>
    ensures { IfOk result (λ routed. routed_view routed ≡ with_path request.close (λ path. Asks (ask.Delete request.who path) None) (text_in path.now)) }
{
    match path_in(alloc, path)? {
        Some(path) => Ok(Routed::Ask(
            Ask::Delete {
                who: request.who,
                path,
            },
            None,
        )),
        None => bad_request(alloc, "bad path", request.close),
    }
}
