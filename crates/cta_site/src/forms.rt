// The rules on the site's own members and on names.
ghost use Rattle.std.specs.Prelude.{◌≡◌, ◌<◌, ◌≤◌, ◌^◌, length, IfSome};
ghost use Rattle.cta_site.specs.Forms as rule;
ghost use Rattle.cta_site.specs.Items.{first_failing};
ghost use Rattle.cta_site.specs.WellFormed.{AreCounts};

use crate::items::{fault, is_within, item, unless};
use crate::ranges::out_of_range;
use crate::site::{Limits, Site};
use crate::spelling::{are_address_bytes, is_name};
use cta_values::Named;

// Whether the site's own texts are of their form.
fn are_texts(site: &Site) -> bool
    ensures { result ≡ rule.are_texts site.now }
{
    is_within(1, 128, site.sitename.as_bytes().len() as u64)
        && is_within(1, 512, site.endpoint.as_bytes().len() as u64)
        && are_address_bytes(site.endpoint.as_bytes())
        && is_name(site.default_policy.as_bytes())
        && is_name(site.repack_policy.as_bytes())
}

// Whether the limits on bytes are in their ranges.
fn are_byte_limits(limits: &Limits) -> bool
    ensures { result ≡ rule.are_byte_limits limits.now }
{
    is_within(1, 2_147_483_648, limits.buffer)
        && is_within(0, 1_073_741_824, limits.file)
        && is_within(1, 1_125_899_906_842_624, limits.archive_bytes)
        && is_within(1, 1_125_899_906_842_624, limits.retrieve_bytes)
}

// Whether the limits on numbers of things and on time are in their ranges.
fn are_number_limits(limits: &Limits) -> bool
    ensures { result ≡ rule.are_number_limits limits.now }
{
    is_within(1, 1_000_000, u64::from(limits.archive_files))
        && is_within(1, 1_000_000, u64::from(limits.retrieve_files))
        && is_within(1, 1000, u64::from(limits.batch_files))
        && is_within(1, 16, u64::from(limits.tries))
        && is_within(1, 1_000_000, u64::from(limits.history))
        && is_within(0, 3_153_600_000, limits.lifetime)
}

// Whether each limit is in its range.
fn are_limits(limits: &Limits) -> bool
    ensures { result ≡ rule.are_limits limits.now }
{
    are_byte_limits(limits) && are_number_limits(limits)
}

// Whether a file of the greatest size has room in the buffer.
fn fits_buffer(limits: &Limits) -> bool
    ensures { result ≡ rule.fits_buffer limits.now }
{
    limits.file <= limits.buffer
}

// Whether the lists that say what is stored where are no longer than they may be.
fn are_store_counts(site: &Site) -> bool
    ensures { result ≡ rule.are_store_counts site.now }
{
    site.vos.len() <= 64
        && site.classes.len() <= 256
        && site.pools.len() <= 256
        && site.routes.len() <= 1024
}

// Whether the lists that say for whom are no longer than they may be.
fn are_caller_counts(site: &Site) -> bool
    ensures { result ≡ rule.are_caller_counts site.now }
{
    site.policies.len() <= 64 && site.rules.len() <= 1024 && site.directories.len() <= 1024
}

// Whether the lists that say what there is to store with are no longer than they may be.
fn are_device_counts(site: &Site) -> bool
    ensures { result ≡ rule.are_device_counts site.now }
{
    site.libraries.len() <= 32
        && site.tapes.len() <= 4096
        && site.drives.len() <= 64
        && site.failures.len() <= 1024
}

// Whether no list is longer than it may be.
fn are_counts(site: &Site) -> bool
    ensures { result ≡ rule.are_counts site.now }
{
    are_store_counts(site) && are_caller_counts(site) && are_device_counts(site)
}

// The place of the first element whose name, or VID, is not of the form.
fn misnamed_of<T: Named>(items: &[T]) -> Option<usize>
    requires { length items.now ≤ 4096 }
    ensures value { result ≡ first_failing (λ x. rule.is_name (T.name_of x)) items.now }
    ensures within { IfSome result (λ i. i < 2 ^ 32) }
{
    items.iter().position(|x| !is_name(x.name()))
}

// The place of the first element whose name or VID is not of the form, list by list.
fn misnamed(site: &Site) -> Option<u32>
    requires { AreCounts site.now }
    ensures { result ≡ rule.misnamed site.now }
{
    let vos = item(misnamed_of(site.vos.as_slice()));
    let classes = item(misnamed_of(site.classes.as_slice()));
    let pools = item(misnamed_of(site.pools.as_slice()));
    let policies = item(misnamed_of(site.policies.as_slice()));
    let libraries = item(misnamed_of(site.libraries.as_slice()));
    let tapes = item(misnamed_of(site.tapes.as_slice()));
    let drives = item(misnamed_of(site.drives.as_slice()));
    vos.or(classes.or(pools.or(policies.or(libraries.or(tapes.or(drives))))))
}

// The first broken one of rules 3 to 6.
pub(crate) fn size_fault(site: &Site) -> Option<(u8, u32)>
    ensures { result ≡ rule.size_fault site.now }
{
    let texts = fault(3, unless(are_texts(site)));
    let limits = fault(4, unless(are_limits(&site.limits)));
    let buffer = fault(5, unless(fits_buffer(&site.limits)));
    let counts = fault(6, unless(are_counts(site)));
    texts.or(limits.or(buffer.or(counts)))
}

// The first broken one of rules 7 and 8.
pub(crate) fn form_fault(site: &Site) -> Option<(u8, u32)>
    requires { AreCounts site.now }
    ensures { result ≡ rule.form_fault site.now }
{
    fault(7, out_of_range(site)).or(fault(8, misnamed(site)))
}

// That a site that keeps rules 3 to 6 has no list that is too long: a law, which does nothing when it runs.
pub(crate) fn counts_kept(site: &Site)
    requires { rule.size_fault site.now ≡ None }
    ensures { AreCounts site.now }
{
    let _site = site;
}
