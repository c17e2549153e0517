// The names that a repack keeps: the VID of its tape, and the paths of its items' files.
ghost use Rattle.std.specs.Prelude.{◌≡◌, map, IfOk};
ghost use Rattle.cta_site.specs.Lookups as said;
ghost use Rattle.cta_model.specs.declared.asks.Job.{Job};
ghost use Rattle.cta_model.specs.Bare.{bare_ask};
ghost use Rattle.cta_model.specs.Files as files;
ghost use Rattle.cta_model.specs.Files.{path_of};

use cta_model::{Ask, Job};
use cta_site::{NoMemory, Rows, Text, ValidSite};
use kept_history::KeptHistory;
use std::alloc::Global;

// The path that an ask puts, empty where it puts none. NoMemory gives nothing.
fn path_in(alloc: Global, ask: &Ask) -> Result<Text, NoMemory>
    ensures { IfOk result (λ text. text ≡ files.path_in (bare_ask ask.now)) }
{
    match ask {
        Ask::Put { path, .. } => path.copy(),
        _ => Ok(Text::of(String::new(alloc))),
    }
}

// The path in the Put of a file, empty where there is no such file. NoMemory gives nothing.
fn path_once(alloc: Global, history: &KeptHistory, file: u32) -> Result<Text, NoMemory>
    ensures { IfOk result (λ text. text ≡ path_of history.now.value file) }
{
    match history.entry(file) {
        Some(entry) => path_in(alloc, &entry.ask),
        None => Ok(Text::of(String::new(alloc))),
    }
}

// The paths of the files of items. NoMemory gives nothing.
pub(crate) fn paths_of(
    alloc: Global,
    history: &KeptHistory,
    items: &[Job],
) -> Result<Rows<Text>, NoMemory>
    ensures { IfOk result (λ paths. paths.items ≡ map (λ (j : Job). path_of history.now.value j.file) items.now) }
{
    let mut paths = Vec::new(alloc);
    for item in items {
        paths.push(path_once(alloc, history, item.file)?)?;
    }
    Ok(Rows::of(paths))
}

// The VID of a tape, empty where there is none. NoMemory gives nothing.
pub(crate) fn vid_of(alloc: Global, site: &ValidSite, tape: u32) -> Result<Text, NoMemory>
    ensures { IfOk result (λ vid. vid ≡ said.vid_of site.now tape) }
{
    match site.tapes().get(tape as usize) {
        Some(tape) => tape.vid.copy(),
        None => Ok(Text::of(String::new(alloc))),
    }
}
