// What holds of every file.
ghost use Rattle.std.specs.Prelude.{◌≡◌, ◌<◌, ◌^◌, List, ℕ, length};
ghost use Rattle.cta_journal.specs.Log.{HasLog};
ghost use Rattle.cta_journal.specs.Damage.{IsDamaged};

use crate::record::Record;

/// That a file below 2^64 bytes has at most one log. A law, which does nothing when it runs.
pub fn file_has_one_log()
    ensures { (file : List ℕ) (one other : List (List ℕ)) → length file < 2 ^ 64 → HasLog file one → HasLog file other → one ≡ other }
{}

/// That a file below 2^64 bytes is damaged in at most one place. A law, which does nothing when it runs.
pub fn file_is_damaged_once<R: Record>()
    ensures { (file : List ℕ) (one other : ℕ) → length file < 2 ^ 64 → IsDamaged R.body R.fits file one → IsDamaged R.body R.fits file other → one ≡ other }
{}
