// The Stage.
ghost use Rattle.std.specs.Prelude.{◌≡◌, ◌<◌, ◌^◌, [], ◌∷◌, length, map, option_map, true, IfSome};
ghost use Rattle.cta_model.specs.Bare.{bare_ask};
ghost use Rattle.cta_model.specs.Newest.{history_in};
ghost use Rattle.load_mill.specs.Files.{file_path};
ghost use Rattle.mill_history.specs.Paths.{file_paths};
ghost use Rattle.mill_history.specs.Stages.{staged_in, stages_of, wanted_path};

use crate::paths::is_path_of;
use cta_model::{Ask, Entry, Wanted};

// The files that a Stage names.
fn staged_in(ask: &Ask) -> Option<&[Wanted]>
    ensures { option_map (λ files. map wanted_path files.now) result ≡ staged_in (bare_ask ask.now) }
{
    match ask {
        Ask::Stage { files, .. } => Some(files.as_slice()),
        _ => None,
    }
}

// Whether a wanted file is that of this index.
fn is_wanted(wanted: &Wanted, k: u32) -> bool
    ensures { result ≡ true → wanted_path wanted.now ≡ file_path k }
{
    is_path_of(wanted.path.as_bytes(), k)
}

// Whether these are so many files of a mill, in their order.
#[tactic(auto, using(crate::proofs::Told::told_none, crate::proofs::Told::told_more, crate::proofs::Told::told_all))]
fn are_named(wanted: &[Wanted], files: u32) -> bool
    ensures { result ≡ true → map wanted_path wanted.now ≡ file_paths files }
{
    if wanted.len() != files as usize {
        return false;
    }
    for at in 0..files {
        let file = &wanted[at as usize];
        if !is_wanted(file, at) {
            return false;
        }
    }
    true
}

/// The number of the one Stage; None where there is none or more than one, and where it does not name so many files of
/// a mill in their order.
#[tactic(auto, using(cta_model::proofs::Newest::scans))]
pub(crate) fn one_stage(entries: &[Entry], files: u32) -> Option<u32>
    requires { length entries.now < 2 ^ 32 }
    ensures { IfSome result (λ n. stages_of (history_in entries.now) ≡ (n, file_paths files) ∷ []) }
{
    let mut found: Option<u32> = None;
    let mut number: u32 = 0;
    for entry in entries {
        number += 1;
        if let Some(wanted) = staged_in(&entry.ask) {
            if found.is_some() || !are_named(wanted, files) {
                return None;
            }
            found = Some(number);
        }
    }
    found
}
