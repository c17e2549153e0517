// Answers to replies.
ghost use Rattle.std.specs.Prelude.{◌≡◌, ◌++◌, IsTrue, IsSome, IfOk, Some, codes, string_bytes};
ghost use Rattle.wire_http.specs.Reply.{error_reply};
ghost use Rattle.wire_http.specs.declared.reply.Kind.TheVariants.{Json};
ghost use Rattle.tape_json.specs.Reports.{report_of};
ghost use Rattle.tape_routes.specs.Replies.{is_for_callers, HasContent, plain_reply, status_of, text_of, json_text, location_of, bytes_kind, reply_for};

use crate::ids::push_id;
use crate::statuses::{status_of, text_of};
use blob::Blob;
use cta_model::{Answer, Refusal};
use cta_site::{NoMemory, Text, ValidSite};
use std::alloc::Global;
use std::sync::Arc;
use tape_json::write_answer;
use wire_http::{Kind, Reply, error_reply};

fn plain_reply(code: u16, kind: Kind, close: bool) -> Reply
    ensures { result ≡ plain_reply code kind close }
{
    Reply {
        code,
        kind,
        location: None,
        allow: None,
        close,
    }
}

// The address of the requests.
fn requests_address(alloc: Global, site: &ValidSite) -> Result<String, NoMemory>
    ensures { IfOk result (λ address. string_bytes address ≡ site.now.endpoint ++ codes "/stage/") }
{
    let mut address = String::from_str(alloc, site.endpoint().as_str())?;
    address.push_str("/stage/")?;
    Ok(address)
}

// The address of a stage request.
fn location_of(alloc: Global, site: &ValidSite, id: u32) -> Result<Text, NoMemory>
    ensures { IfOk result (λ address. address ≡ location_of site.now id) }
{
    let mut address = requests_address(alloc, site)?;
    push_id(&mut address, id)?;
    Ok(Text::of(address))
}

// The JSON text of an answer that has one.
fn json_kind(alloc: Global, site: &ValidSite, answer: &Answer) -> Result<Kind, NoMemory>
    requires { IsSome (report_of answer.now) }
    ensures { IfOk result (λ kind. kind ≡ Json (json_text answer.now)) }
{
    let text = write_answer(alloc, site, answer)?;
    Ok(Kind::Json(text))
}

// The reply with the JSON text of an answer.
fn reported(
    alloc: Global,
    site: &ValidSite,
    answer: &Answer,
    code: u16,
    close: bool,
) -> Result<Reply, NoMemory>
    requires { IsSome (report_of answer.now) }
    ensures { IfOk result (λ reply. reply ≡ plain_reply code (Json (json_text answer.now)) close) }
{
    let kind = json_kind(alloc, site, answer)?;
    Ok(plain_reply(code, kind, close))
}

// The reply to a stage request.
fn staged(
    alloc: Global,
    site: &ValidSite,
    answer: &Answer,
    id: u32,
    close: bool,
) -> Result<Reply, NoMemory>
    requires { IsSome (report_of answer.now) }
    ensures { IfOk result (λ reply. reply ≡ record (plain_reply 201 (Json (json_text answer.now)) close) { location = Some (location_of site.now id) }) }
{
    let location = location_of(alloc, site, id)?;
    let kind = json_kind(alloc, site, answer)?;
    Ok(Reply {
        location: Some(location),
        ..plain_reply(201, kind, close)
    })
}

// The reply to a refusal.
fn refused(alloc: Global, refusal: Refusal, close: bool) -> Result<Reply, NoMemory>
    ensures { IfOk result (λ reply. reply ≡ error_reply (status_of refusal) (text_of refusal) close) }
{
    error_reply(alloc, status_of(refusal), text_of(refusal), close)
}

// The reply with the bytes of a file.
fn content_reply(blob: Option<Arc<Blob>>, close: bool) -> Reply
    requires { IsSome blob }
    ensures { result ≡ plain_reply 200 (bytes_kind blob) close }
{
    match blob {
        Some(blob) => plain_reply(200, Kind::Bytes(blob), close),
        None => unreachable!(),
    }
}

/// The reply to an answer that a caller gets: not one of a drive session, nor the refusal Unknown. With Bytes comes the
/// content of the file, which has the answer's sum; a content that comes with another answer is dropped.
///
/// Its status, its JSON text, its `Location` for a stage request (the site's endpoint, `/stage/` and the id) and its bytes
/// are those of WLCG Tape REST v1 and, for the other routes and the texts of refusals, this project's own; `close` is as it
/// is passed. NoMemory drops the content. Its cost is the length of the text; the bytes of a file are not copied.
pub fn reply_of(
    alloc: Global,
    site: &ValidSite,
    answer: &Answer,
    blob: Option<Arc<Blob>>,
    close: bool,
) -> Result<Reply, NoMemory>
    requires caller { IsTrue (is_for_callers answer.now) }
    requires content { HasContent answer.now blob }
    ensures { IfOk result (λ reply. reply ≡ reply_for site.now answer.now blob close) }
{
    match answer {
        Answer::Stored { .. } => Ok(plain_reply(201, Kind::Empty, close)),
        Answer::Done => Ok(plain_reply(200, Kind::Empty, close)),
        Answer::Staged { id } => staged(alloc, site, answer, *id, close),
        Answer::Repacking { .. } => reported(alloc, site, answer, 201, close),
        Answer::Retried { .. } => reported(alloc, site, answer, 200, close),
        Answer::Bytes { .. } => Ok(content_reply(blob, close)),
        Answer::Stage(_) => reported(alloc, site, answer, 200, close),
        Answer::Places(_) => reported(alloc, site, answer, 200, close),
        Answer::RepackSeen(_) => reported(alloc, site, answer, 200, close),
        Answer::FailedSeen(_) => reported(alloc, site, answer, 200, close),
        Answer::TapeSeen(_) => reported(alloc, site, answer, 200, close),
        Answer::QueuesSeen(_) => reported(alloc, site, answer, 200, close),
        Answer::Refused(refusal) => refused(alloc, *refusal, close),
        _ => unreachable!(),
    }
}
