// The rules on a site file as such.
ghost use Rattle.std.specs.Prelude.{◌≡◌};
ghost use Rattle.serde_json.specs.Data.{null};
ghost use Rattle.serde_json.specs.View.{view};
ghost use Rattle.site_json.specs.File as said;
ghost use Rattle.site_json.specs.Tested.{AreGood, AreShort};

use crate::element::first_bad;
use crate::members::{
    has_list, has_name, has_number, has_text, is_absent, list, number, text_bytes,
};
use cta_site::{
    Class, Directory, Drive, Failure, Policy, Route, Rule, Tape, TapePool, Text, Vo,
    are_address_bytes, fault, unless,
};
use serde_json::Value;

// Whether the version is 1.
fn has_version(file: &Value) -> bool
    ensures { result ≡ said.has_version (view file.now) }
{
    has_number(file, 1, 1, "version")
}

// Whether the site's own texts are there and of their form.
fn has_texts(file: &Value) -> bool
    ensures { result ≡ said.has_texts (view file.now) }
{
    has_text(file, 1, 128, "sitename")
        && has_text(file, 1, 512, "endpoint")
        && are_address_bytes(text_bytes(file, "endpoint"))
        && has_name(file, "defaultPolicy")
        && has_name(file, "repackPolicy")
}

// Whether the limits on bytes are in their ranges.
fn has_byte_limits(limits: &Value) -> bool
    ensures { result ≡ said.has_byte_limits (view limits.now) }
{
    has_number(limits, 1, 2_147_483_648, "buffer")
        && has_number(limits, 0, 1_073_741_824, "file")
        && has_number(limits, 1, 1_125_899_906_842_624, "archiveBytes")
        && has_number(limits, 1, 1_125_899_906_842_624, "retrieveBytes")
}

// Whether the limits on numbers of things and on time are in their ranges.
fn has_number_limits(limits: &Value) -> bool
    ensures { result ≡ said.has_number_limits (view limits.now) }
{
    has_number(limits, 1, 1_000_000, "archiveFiles")
        && has_number(limits, 1, 1_000_000, "retrieveFiles")
        && has_number(limits, 1, 1000, "batchFiles")
        && has_number(limits, 1, 16, "tries")
        && has_number(limits, 1, 1_000_000, "history")
        && has_number(limits, 0, 3_153_600_000, "lifetime")
}

// Whether each limit is there, in its range.
fn has_limits(limits: &Value) -> bool
    ensures { result ≡ said.has_limits (view limits.now) }
{
    has_byte_limits(limits) && has_number_limits(limits)
}

// Whether a file of the greatest size has room in the buffer.
fn fits_buffer(limits: &Value) -> bool
    ensures { result ≡ said.fits_buffer (view limits.now) }
{
    number(limits, "file") <= number(limits, "buffer")
}

// Whether the lists that say what is stored where are there, and no longer than they may be.
fn has_store_lists(file: &Value) -> bool
    ensures { result ≡ said.has_store_lists (view file.now) }
{
    has_list(file, 64, "vos")
        && has_list(file, 256, "classes")
        && has_list(file, 256, "pools")
        && has_list(file, 1024, "routes")
}

// Whether the lists that say for whom are there, the rules maybe not, and no longer than they may be.
fn has_caller_lists(file: &Value) -> bool
    ensures { result ≡ said.has_caller_lists (view file.now) }
{
    has_list(file, 64, "policies")
        && (is_absent(file, "rules") || has_list(file, 1024, "rules"))
        && has_list(file, 1024, "directories")
}

// Whether the lists that say what there is to store with are there, the failures maybe not, and no longer than they may be.
fn has_device_lists(file: &Value) -> bool
    ensures { result ≡ said.has_device_lists (view file.now) }
{
    has_list(file, 32, "libraries")
        && has_list(file, 4096, "tapes")
        && has_list(file, 64, "drives")
        && (is_absent(file, "failures") || has_list(file, 1024, "failures"))
}

// Whether each list is there, and no longer than it may be.
fn has_lists(file: &Value) -> bool
    ensures { result ≡ said.has_lists (view file.now) }
{
    has_store_lists(file) && has_caller_lists(file) && has_device_lists(file)
}

// The place of the first bad element of the lists that say what is stored where, list by list.
fn bad_store(file: &Value) -> Option<u32>
    requires { AreShort (view file.now) }
    ensures { result ≡ said.bad_store (view file.now) }
{
    let vos = first_bad::<Vo>(list(file, "vos"));
    let classes = first_bad::<Class>(list(file, "classes"));
    let pools = first_bad::<TapePool>(list(file, "pools"));
    let routes = first_bad::<Route>(list(file, "routes"));
    vos.or(classes.or(pools.or(routes)))
}

// The place of the first bad element of the policies and rules, list by list.
fn bad_caller(file: &Value) -> Option<u32>
    requires { AreShort (view file.now) }
    ensures { result ≡ said.bad_caller (view file.now) }
{
    let policies = first_bad::<Policy>(list(file, "policies"));
    let rules = first_bad::<Rule>(list(file, "rules"));
    policies.or(rules)
}

// The place of the first bad element of the lists that follow, list by list.
fn bad_device(file: &Value) -> Option<u32>
    requires { AreShort (view file.now) }
    ensures { result ≡ said.bad_device (view file.now) }
{
    let libraries = first_bad::<Text>(list(file, "libraries"));
    let tapes = first_bad::<Tape>(list(file, "tapes"));
    let drives = first_bad::<Drive>(list(file, "drives"));
    let directories = first_bad::<Directory>(list(file, "directories"));
    let failures = first_bad::<Failure>(list(file, "failures"));
    libraries.or(tapes.or(drives.or(directories.or(failures))))
}

// The place of the first bad element, list by list.
fn bad_element(file: &Value) -> Option<u32>
    requires { AreShort (view file.now) }
    ensures { result ≡ said.bad_element (view file.now) }
{
    bad_store(file).or(bad_caller(file).or(bad_device(file)))
}

// The first broken one of rules 2 to 6.
fn member_fault(file: &Value) -> Option<(u8, u32)>
    ensures { result ≡ said.member_fault (view file.now) }
{
    let none = Value::Null;
    let limits = limits_in(file, &none);
    let version = fault(2, unless(has_version(file)));
    let texts = fault(3, unless(has_texts(file)));
    let ranges = fault(4, unless(has_limits(limits)));
    let buffer = fault(5, unless(fits_buffer(limits)));
    let lists = fault(6, unless(has_lists(file)));
    version.or(texts.or(ranges.or(buffer.or(lists))))
}

// That no list is too long where rules 2 to 6 are kept: a law, which does nothing when it runs.
fn lists_are_short(file: &Value)
    requires { said.member_fault (view file.now) ≡ None }
    ensures { AreShort (view file.now) }
{
    let _file = file;
}

// That each limit and each element is as it should be where rules 2 to 7 are kept: a law, which does nothing when it runs.
pub(crate) fn elements_are_good(file: &Value)
    requires { said.object_fault (view file.now) ≡ None }
    ensures { AreGood (view file.now) }
{
    let _file = file;
}

// The first broken one of rules 2 to 7.
pub(crate) fn object_fault(file: &Value) -> Option<(u8, u32)>
    ensures { result ≡ said.object_fault (view file.now) }
{
    match member_fault(file) {
        Some(fault) => Some(fault),
        None => {
            lists_are_short(file);
            fault(7, bad_element(file))
        }
    }
}

// The limits, `null` where there are none.
#[tactic(auto, unfolding(crate::specs::File::limits_in))]
pub(crate) fn limits_in<'v>(file: &'v Value, none: &'v Value) -> &'v Value
    requires { view none.now ≡ null }
    ensures { view result.now ≡ said.limits_in (view file.now) }
{
    match file.get("limits") {
        Some(limits) => limits,
        None => none,
    }
}
