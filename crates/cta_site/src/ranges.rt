// The rule on the ranges of elements.
ghost use Rattle.std.specs.Prelude.{◌≡◌, ◌<◌, ◌≤◌, ◌^◌, length, IfSome};
ghost use Rattle.cta_site.specs.Forms as rule;
ghost use Rattle.cta_site.specs.Items.{first_failing};
ghost use Rattle.cta_site.specs.WellFormed.{AreCounts};

use crate::items::{is_within, item};
use crate::site::{CallKind, Class, Failure, Policy, Route, Rule, Site, Tape, Vo};

// What has numbers that are to be in their ranges.
trait Ranged {
    ghost use Rattle.std.specs.Prelude.{Bool};

    ghost in_range: { Self → Bool };

    fn is_in_range(&self) -> bool
        ensures { result ≡ in_range self.now };
}

impl Ranged for Vo {
    ghost in_range = { rule.is_vo };

    // 0 to 64 drives in each direction.
    fn is_in_range(&self) -> bool {
        self.read_drives <= 64 && self.write_drives <= 64
    }
}

impl Ranged for Class {
    ghost in_range = { rule.is_class };

    // 1 to 4 copies.
    fn is_in_range(&self) -> bool {
        is_within(1, 4, u64::from(self.copies))
    }
}

impl Ranged for Route {
    ghost in_range = { rule.is_route };

    // Copy 1 to 4.
    fn is_in_range(&self) -> bool {
        is_within(1, 4, u64::from(self.copy))
    }
}

impl Ranged for Policy {
    ghost in_range = { rule.is_policy };

    // Priorities to 1,000,000, and ages to a year of 365 days.
    fn is_in_range(&self) -> bool {
        self.archive_priority <= 1_000_000
            && self.archive_min_age <= 31_536_000
            && self.retrieve_priority <= 1_000_000
            && self.retrieve_min_age <= 31_536_000
    }
}

impl Ranged for Rule {
    ghost in_range = { rule.is_rule };

    // A caller's name of 1 to 128 bytes.
    fn is_in_range(&self) -> bool {
        is_within(1, 128, self.name.as_bytes().len() as u64)
    }
}

impl Ranged for Tape {
    ghost in_range = { rule.is_tape };

    // 1 byte to 1 PiB.
    fn is_in_range(&self) -> bool {
        is_within(1, 1_125_899_906_842_624, self.capacity)
    }
}

// Whether a call is a read.
fn is_read(call: CallKind) -> bool
    ensures { result ≡ rule.is_read call }
{
    match call {
        CallKind::Read => true,
        CallKind::Load | CallKind::Write | CallKind::Flush | CallKind::Unload => false,
    }
}

impl Ranged for Failure {
    ghost in_range = { rule.is_failure };

    // A call from the first on, and altered bytes only of a read.
    fn is_in_range(&self) -> bool {
        is_within(1, 4_294_967_295, u64::from(self.number)) && (!self.alter || is_read(self.call))
    }
}

// The place of the first element out of its ranges.
fn out_of_range_in<T: Ranged>(items: &[T]) -> Option<usize>
    requires { length items.now ≤ 4096 }
    ensures value { result ≡ first_failing T.in_range items.now }
    ensures within { IfSome result (λ i. i < 2 ^ 32) }
{
    items.iter().position(|x| !x.is_in_range())
}

// The place of the first element out of its ranges, list by list.
pub(crate) fn out_of_range(site: &Site) -> Option<u32>
    requires { AreCounts site.now }
    ensures { result ≡ rule.out_of_range site.now }
{
    let vos = item(out_of_range_in(site.vos.as_slice()));
    let classes = item(out_of_range_in(site.classes.as_slice()));
    let routes = item(out_of_range_in(site.routes.as_slice()));
    let policies = item(out_of_range_in(site.policies.as_slice()));
    let rules = item(out_of_range_in(site.rules.as_slice()));
    let tapes = item(out_of_range_in(site.tapes.as_slice()));
    let failures = item(out_of_range_in(site.failures.as_slice()));
    vos.or(classes.or(routes.or(policies.or(rules.or(tapes.or(failures))))))
}
