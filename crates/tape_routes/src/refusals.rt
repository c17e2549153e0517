// Replies to requests that are refused before the archive is asked.
ghost use Rattle.std.specs.Prelude.{◌≡◌, ◌≢◌, IfOk, OnOk, Some, None, codes};
ghost use Rattle.wire_http.specs.Reply.{error_reply};
ghost use Rattle.tape_routes.specs.Routes.{allowed_at};
ghost use Rattle.tape_routes.specs.Fixed.{refused_reply, body_fault};
ghost use Rattle.tape_routes.specs.Asked.{Replies, routed_view, bad_request};

use crate::routed::Routed;
use crate::routes::Endpoint;
use cta_site::{NoMemory, Text};
use std::alloc::Global;
use tape_json::BodyError;
use wire_http::{Kind, Reply, Request, error_reply};

// The reply to HEAD has no body.
fn refused_reply(
    alloc: Global,
    request: &Request,
    code: u16,
    text: &str,
    allow: Option<Text>,
) -> Result<Reply, NoMemory>
    ensures { IfOk result (λ reply. reply ≡ refused_reply request.now code text.now allow) }
{
    if request.method.is(b"HEAD") {
        return Ok(Reply {
            code,
            kind: Kind::Empty,
            location: None,
            allow,
            close: request.close,
        });
    }
    let reply = error_reply(alloc, code, text, request.close)?;
    Ok(Reply { allow, ..reply })
}

// No route has the target.
pub(crate) fn no_route(alloc: Global, request: &Request) -> Result<Routed, NoMemory>
    ensures { IfOk result (λ routed. routed_view routed ≡ Replies (refused_reply request.now 404 (codes "no such route") None)) }
{
    let reply = refused_reply(alloc, request, 404, "no such route", None)?;
    Ok(Routed::Reply(reply))
}

// A refusal that tells the methods of the route.
fn refused_method(
    alloc: Global,
    request: &Request,
    text: &str,
    methods: &str,
) -> Result<Routed, NoMemory>
    ensures { IfOk result (λ routed. routed_view routed ≡ Replies (refused_reply request.now 405 text.now (Some methods.now))) }
{
    let methods = String::from_str(alloc, methods)?;
    let reply = refused_reply(alloc, request, 405, text, Some(Text::of(methods)))?;
    Ok(Routed::Reply(reply))
}

// The route of the target has other methods.
pub(crate) fn no_method(
    alloc: Global,
    request: &Request,
    endpoint: Endpoint,
) -> Result<Routed, NoMemory>
    ensures { IfOk result (λ routed. routed_view routed ≡ Replies (refused_reply request.now 405 (codes "no such method") (Some (allowed_at endpoint)))) }
{
    refused_method(alloc, request, "no such method", endpoint.allowed())
}

// The request can't be asked.
#[tactic(auto, unfolding(crate::specs::Asked::bad_request))]
pub(crate) fn bad_request(alloc: Global, text: &str, close: bool) -> Result<Routed, NoMemory>
    ensures { IfOk result (λ routed. routed_view routed ≡ bad_request close text.now) }
{
    let reply = error_reply(alloc, 400, text, close)?;
    Ok(Routed::Reply(reply))
}

// What is said of a body that is refused.
fn body_fault(fault: BodyError) -> &'static str
    ensures { result.now ≡ body_fault fault }
{
    match fault {
        BodyError::BadBody => "bad body",
        BodyError::BadLifetime => "bad lifetime",
        BodyError::EmptyList => "empty list",
        BodyError::NoMemory => "",
    }
}

// The body is refused, unless it is memory that was wanted.
pub(crate) fn bad_body(alloc: Global, fault: BodyError, close: bool) -> Result<Routed, NoMemory>
    ensures memory { OnOk result (fault ≢ BodyError.NoMemory) }
    ensures reply { IfOk result (λ routed. routed_view routed ≡ bad_request close (body_fault fault)) }
{
    match fault {
        BodyError::NoMemory => Err(NoMemory),
        _ => bad_request(alloc, body_fault(fault), close),
    }
}
