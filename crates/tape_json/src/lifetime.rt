// Lifetimes.
ghost use Rattle.std.specs.Prelude.{◌≡◌, option_map};
ghost use Rattle.jiff_fmt.specs.Units.{signed_magnitudes};
ghost use Rattle.serde_json.specs.View.{view};
ghost use Rattle.tape_json.specs.Bodies.{whole_seconds, lifetime_seconds, lifetime_of};

use jiff::fmt::temporal;
use jiff_core::Span;
use serde_json::Value;

// The whole seconds of a span in weeks and smaller units.
fn whole_seconds(span: &Span) -> Option<u64>
    ensures { result ≡ whole_seconds (signed_magnitudes span.now) }
{
    if span.negative || span.years != 0 || span.months != 0 {
        return None;
    }
    let days = span.weeks as u64 * 604800 + span.days as u64 * 86400;
    Some(days + span.hours as u64 * 3600 + span.minutes * 60 + span.seconds)
}

// The seconds of a duration in ISO 8601 that is a lifetime.
fn lifetime_seconds(text: &str) -> Option<u64>
    ensures { result ≡ lifetime_seconds text.now }
{
    match temporal::parse_span(text.as_bytes()) {
        Ok(span) => whole_seconds(&span),
        Err(_) => None,
    }
}

// What a member says of the lifetime, None where it is bad.
pub(crate) fn lifetime_of(member: Option<&Value>) -> Option<Option<u64>>
    ensures { result ≡ lifetime_of (option_map (λ v. view v.now) member.entry) }
{
    match member {
        None => Some(None),
        Some(Value::Null) => Some(None),
        Some(Value::String(text)) => match lifetime_seconds(text.as_str()) {
            Some(seconds) => Some(Some(seconds)),
            None => None,
        },
        Some(_) => None,
    }
}
