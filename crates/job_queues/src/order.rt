// The order of jobs.
ghost use Rattle.std.specs.Prelude.{◌≡◌};
ghost use Rattle.part_model.specs.Order.{goes_before};

use cta_model::Job;

// Whether a job comes before another: earlier birth, then lower file, then lower copy.
pub(crate) fn comes_before(a: &Job, b: &Job) -> bool
    ensures { result ≡ goes_before a.now b.now }
{
    if a.birth < b.birth {
        return true;
    }
    if b.birth < a.birth {
        return false;
    }
    if a.file < b.file {
        return true;
    }
    if b.file < a.file {
        return false;
    }
    a.copy < b.copy
}
