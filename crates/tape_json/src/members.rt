// Members of an object.
ghost use Rattle.std.specs.Prelude.{◌<◌, ◌^◌, Some, IfSome, option_map};
ghost use Rattle.serde_json.specs.Data.{string, boolean};
ghost use Rattle.tape_json.specs.Reports.{count};
ghost use Rattle.tape_json.specs.Shown.{shown, Appends};

use cta_site::Text;
use json::Writer;
use std::alloc::AllocError;

pub(crate) fn text_member(out: &mut Writer, name: &str, text: &str) -> Result<(), AllocError>
    ensures { Appends result out.old out.new (shown name.now (Some (string text.now))) }
{
    out.key(name)?;
    out.string(text)
}

pub(crate) fn text_member_if(
    out: &mut Writer,
    name: &str,
    text: &Option<Text>,
) -> Result<(), AllocError>
    ensures { Appends result out.old out.new (shown name.now (option_map string text.now)) }
{
    match text {
        Some(text) => text_member(out, name, text.as_str()),
        None => Ok(()),
    }
}

pub(crate) fn count_member(out: &mut Writer, name: &str, n: u64) -> Result<(), AllocError>
    ensures appends { Appends result out.old out.new (shown name.now (Some (count n))) }
    ensures fits { n < 2 ^ 64 }
{
    out.key(name)?;
    out.u64(n)
}

pub(crate) fn count_member_if(
    out: &mut Writer,
    name: &str,
    n: Option<u64>,
) -> Result<(), AllocError>
    ensures appends { Appends result out.old out.new (shown name.now (option_map count n)) }
    ensures fits { IfSome n (λ k. k < 2 ^ 64) }
{
    match n {
        Some(n) => count_member(out, name, n),
        None => Ok(()),
    }
}

pub(crate) fn flag_member(out: &mut Writer, name: &str, flag: bool) -> Result<(), AllocError>
    ensures { Appends result out.old out.new (shown name.now (Some (boolean flag))) }
{
    out.key(name)?;
    out.boolean(flag)
}
