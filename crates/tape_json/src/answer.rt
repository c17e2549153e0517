// The text of an answer.
ghost use Rattle.std.specs.Prelude.{◌≡◌, ◌<◌, ◌^◌, Some, IsSome, IfSome, IfOk, OnOk, codes};
ghost use Rattle.serde_json.specs.Data.{string};
ghost use Rattle.serde_json.specs.Read.{read};
ghost use Rattle.tape_json.specs.Reports.{count, id_text, one_member, report_of, report_text};
ghost use Rattle.tape_json.specs.Shown.{value_tokens, Appends, IsReadable};

use crate::ids::id_member;
use crate::members::{count_member, text_member};
use crate::names::refusal_text;
use crate::reported::{Reported, write_list};
use cta_model::Answer;
use cta_site::{NoMemory, Text, ValidSite};
use json::Writer;
use std::alloc::{AllocError, Global};

// An object with the id of a request as its one member.
fn write_id(out: &mut Writer, name: &str, id: u32) -> Result<(), AllocError>
    ensures appends { Appends result out.old out.new (value_tokens (one_member name.now (string (id_text id)))) }
    ensures reads { OnOk result (IsReadable 1 (one_member name.now (string (id_text id)))) }
{
    out.begin_object()?;
    id_member(out, name, id)?;
    out.end_object()
}

// An object with a number as its one member.
fn write_count(out: &mut Writer, name: &str, n: u64) -> Result<(), AllocError>
    ensures appends { Appends result out.old out.new (value_tokens (one_member name.now (count n))) }
    ensures reads { OnOk result (IsReadable 1 (one_member name.now (count n))) }
{
    out.begin_object()?;
    count_member(out, name, n)?;
    out.end_object()
}

// An object with a text as its one member.
fn write_text(out: &mut Writer, name: &str, text: &str) -> Result<(), AllocError>
    ensures appends { Appends result out.old out.new (value_tokens (one_member name.now (string text.now))) }
    ensures reads { OnOk result (IsReadable 1 (one_member name.now (string text.now))) }
{
    out.begin_object()?;
    text_member(out, name, text)?;
    out.end_object()
}

// The value of an answer whose reply has a JSON body.
fn write_report(out: &mut Writer, answer: &Answer) -> Result<(), AllocError>
    requires { IsSome (report_of answer.now) }
    ensures appends { IfSome (report_of answer.now) (λ d. Appends result out.old out.new (value_tokens d)) }
    ensures reads { IfSome (report_of answer.now) (λ d. OnOk result (IsReadable 3 d)) }
{
    match answer {
        Answer::Staged { id } => write_id(out, "requestId", *id),
        Answer::Repacking { id, .. } => write_id(out, "repackId", *id),
        Answer::Retried { jobs } => write_count(out, "retried", jobs.len() as u64),
        Answer::Stage(stage) => stage.write(out),
        Answer::Places(places) => write_list(out, places.as_slice()),
        Answer::RepackSeen(repack) => repack.write(out),
        Answer::FailedSeen(failed) => write_list(out, failed.as_slice()),
        Answer::TapeSeen(tape) => tape.write(out),
        Answer::QueuesSeen(queues) => write_list(out, queues.as_slice()),
        Answer::Refused(refusal) => match refusal_text(*refusal) {
            Some(text) => write_text(out, "error", text),
            None => unreachable!(),
        },
        _ => unreachable!(),
    }
}

/// The JSON text (RFC 8259) of an answer whose reply has one: compact, the members in byte order of their names, those
/// that have no value left out. The reports are those of the WLCG Tape REST API v1, those of the administration and
/// `{"error":TEXT}` for a refusal are this project's own. No report tells anything of the site. NoMemory leaves
/// nothing. Its cost is the length of the text.
pub fn write_answer(alloc: Global, _site: &ValidSite, answer: &Answer) -> Result<Text, NoMemory>
    requires { IsSome (report_of answer.now) }
    ensures text { IfOk result (λ text. report_text answer.now ≡ Some text) }
    ensures value { IfOk result (λ text. read text ≡ report_of answer.now) }
{
    let mut out = Writer::new(Vec::new(alloc));
    write_report(&mut out, answer)?;
    match String::from_utf8(out.into_inner()) {
        Ok(text) => Ok(Text::of(text)),
        Err(_) => unreachable!(),
    }
}
