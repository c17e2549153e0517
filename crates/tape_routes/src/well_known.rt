// The document that names the service.
ghost use Rattle.std.specs.Prelude.{◌≡◌, ◌++◌, IfOk, OnOk};
ghost use Rattle.json.specs.Print.{print};
ghost use Rattle.tape_routes.specs.Fixed.{text_member, endpoint_tokens, endpoints_tokens, well_known_tokens, well_known_reply};

use cta_site::{NoMemory, Text, ValidSite};
use json::Writer;
use std::alloc::{AllocError, Global};
use wire_http::{Kind, Reply};

// A member that is a text.
fn write_member(out: &mut Writer, name: &str, text: &str) -> Result<(), AllocError>
    ensures before { out.new.before ≡ out.old.before }
    ensures tokens { OnOk result (out.new.tokens ≡ out.old.tokens ++ text_member name.now text.now) }
{
    out.key(name)?;
    out.string(text)
}

// The one endpoint.
fn write_endpoint(out: &mut Writer, site: &ValidSite) -> Result<(), AllocError>
    ensures before { out.new.before ≡ out.old.before }
    ensures tokens { OnOk result (out.new.tokens ≡ out.old.tokens ++ endpoint_tokens site.now) }
{
    out.begin_object()?;
    write_member(out, "uri", site.endpoint().as_str())?;
    write_member(out, "version", "v1")?;
    out.end_object()
}

// The list of it.
fn write_endpoints(out: &mut Writer, site: &ValidSite) -> Result<(), AllocError>
    ensures before { out.new.before ≡ out.old.before }
    ensures tokens { OnOk result (out.new.tokens ≡ out.old.tokens ++ endpoints_tokens site.now) }
{
    out.begin_array()?;
    write_endpoint(out, site)?;
    out.end_array()
}

// The document.
fn write_document(out: &mut Writer, site: &ValidSite) -> Result<(), AllocError>
    ensures before { out.new.before ≡ out.old.before }
    ensures tokens { OnOk result (out.new.tokens ≡ out.old.tokens ++ well_known_tokens site.now) }
{
    out.begin_object()?;
    out.key("endpoints")?;
    write_endpoints(out, site)?;
    write_member(out, "sitename", site.sitename().as_str())?;
    out.end_object()
}

fn document(alloc: Global, site: &ValidSite) -> Result<Text, NoMemory>
    ensures { IfOk result (λ text. text ≡ print (well_known_tokens site.now)) }
{
    let mut out = Writer::new(Vec::new(alloc));
    write_document(&mut out, site)?;
    match String::from_utf8(out.into_inner()) {
        Ok(text) => Ok(Text::of(text)),
        Err(_) => unreachable!(),
    }
}

// The reply with the document.
pub(crate) fn well_known_reply(
    alloc: Global,
    site: &ValidSite,
    close: bool,
) -> Result<Reply, NoMemory>
    ensures { IfOk result (λ reply. reply ≡ well_known_reply site.now close) }
{
    let text = document(alloc, site)?;
    Ok(Reply {
        code: 200,
        kind: Kind::Json(text),
        location: None,
        allow: None,
        close,
    })
}
