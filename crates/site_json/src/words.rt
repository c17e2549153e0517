// Words that stand for one of a few things.
ghost use Rattle.std.specs.Prelude.{◌≡◌};
ghost use Rattle.serde_json.specs.View.{view};
ghost use Rattle.site_json.specs.Words as said;

use crate::members::text_at;
use cta_site::{CallKind, RuleKind, TapeState};
use serde_json::Value;

// Whom a mount rule names.
fn kind_spelled(word: &str) -> Option<RuleKind>
    ensures { result ≡ said.kind_spelled word.now }
{
    match word {
        "requester" => Some(RuleKind::Requester),
        "group" => Some(RuleKind::Group),
        _ => None,
    }
}

// The state of a tape.
fn state_spelled(word: &str) -> Option<TapeState>
    ensures { result ≡ said.state_spelled word.now }
{
    match word {
        "ACTIVE" => Some(TapeState::Active),
        "DISABLED" => Some(TapeState::Disabled),
        "BROKEN" => Some(TapeState::Broken),
        "REPACKING" => Some(TapeState::Repacking),
        _ => None,
    }
}

// A call of a tape drive.
fn call_spelled(word: &str) -> Option<CallKind>
    ensures { result ≡ said.call_spelled word.now }
{
    match word {
        "load" => Some(CallKind::Load),
        "write" => Some(CallKind::Write),
        "flush" => Some(CallKind::Flush),
        "read" => Some(CallKind::Read),
        "unload" => Some(CallKind::Unload),
        _ => None,
    }
}

// The kind of a mount rule, where its member is such a word.
#[tactic(auto, unfolding(crate::specs::Words::kind_at))]
pub(crate) fn kind_at(value: &Value) -> Option<RuleKind>
    ensures { result ≡ said.kind_at (view value.now) }
{
    match text_at(value, "kind") {
        Some(word) => kind_spelled(word),
        None => None,
    }
}

// The state of a tape, where its member is such a word.
#[tactic(auto, unfolding(crate::specs::Words::state_at))]
pub(crate) fn state_at(value: &Value) -> Option<TapeState>
    ensures { result ≡ said.state_at (view value.now) }
{
    match text_at(value, "state") {
        Some(word) => state_spelled(word),
        None => None,
    }
}

// The call of a planned failure, where its member is such a word.
#[tactic(auto, unfolding(crate::specs::Words::call_at))]
pub(crate) fn call_at(value: &Value) -> Option<CallKind>
    ensures { result ≡ said.call_at (view value.now) }
{
    match text_at(value, "call") {
        Some(word) => call_spelled(word),
        None => None,
    }
}

// Whether a planned failure alters bytes, where its member is true, false or absent.
#[tactic(auto, unfolding(crate::specs::Words::alter_at))]
pub(crate) fn alter_at(value: &Value) -> Option<bool>
    ensures { result ≡ said.alter_at (view value.now) }
{
    match value.get("alter") {
        Some(member) => member.as_bool(),
        None => Some(false),
    }
}
