// What is reported as a JSON value, and lists of it.
ghost use Rattle.std.specs.Prelude.{suc, ℕ, Some, OnOk};
ghost use Rattle.serde_json.specs.Data.{Data, string};
ghost use Rattle.tape_json.specs.Reports.{list_report};
ghost use Rattle.tape_json.specs.Shown.{value_tokens, shown, Appends, IsReadable};

use cta_site::Text;
use json::Writer;
use std::alloc::AllocError;

// What is reported as a JSON value that nests at most so deep.
pub(crate) trait Reported {
    ghost report: { Self → Data };

    ghost levels: { ℕ };

    // Appends the value.
    fn write(&self, out: &mut Writer) -> Result<(), AllocError>
        ensures appends { Appends result out.old out.new (value_tokens (report self.now)) }
        ensures reads { OnOk result (IsReadable levels (report self.now)) };
}

impl Reported for Text {
    ghost report = { string };

    ghost levels = { 0 };

    fn write(&self, out: &mut Writer) -> Result<(), AllocError> {
        out.string(self.as_str())
    }
}

// Appends the array of these.
pub(crate) fn write_list<T: Reported>(out: &mut Writer, items: &[T]) -> Result<(), AllocError>
    ensures appends { Appends result out.old out.new (value_tokens (list_report T.report items.now)) }
    ensures reads { OnOk result (IsReadable (suc T.levels) (list_report T.report items.now)) }
{
    out.begin_array()?;
    'items: for item in items {
        item.write(out)?;
    }
    out.end_array()
}

// Appends a member that is the array of these.
pub(crate) fn list_member<T: Reported>(
    out: &mut Writer,
    name: &str,
    items: &[T],
) -> Result<(), AllocError>
    ensures appends { Appends result out.old out.new (shown name.now (Some (list_report T.report items.now))) }
    ensures reads { OnOk result (IsReadable (suc T.levels) (list_report T.report items.now)) }
{
    out.key(name)?;
    write_list(out, items)
}
