// Looks at files.
ghost use Rattle.std.specs.Prelude.{ℕ, ◌≡◌, IfOk};
ghost use Rattle.cta_site.specs.Listed.{rows};
ghost use Rattle.cta_model.specs.Bare.{bare_answer};
ghost use Rattle.cta_model.specs.Hands.{LookHand};
ghost use Rattle.cta_model.specs.declared.asks.Look.TheVariants as look;
ghost use Rattle.cta_model.specs.Looks.{look_answer_of};
ghost use Rattle.cta_model.specs.Reports.{place_infos};

use archive_state::ArchiveState;
use blob::{Blob, Told};
use cta_model::{Answer, Hand, PlaceInfo, Refusal};
use cta_site::{NoMemory, Rows, Text};
use std::alloc::Global;
use std::sync::Arc;

// A second owner of a content.
fn shared(blob: &Arc<Blob>) -> Result<Arc<Blob>, NoMemory>
    ensures { IfOk result (λ other. other.value ≡ blob.now.value) }
{
    match Arc::try_clone(blob) {
        Ok(other) => Ok(other),
        Err(_) => Err(NoMemory),
    }
}

/// Answers a Fetch of a path: the content of the file that it names, where the buffer holds it. It changes nothing, and NoMemory gives
/// nothing. Its cost is the length of the path.
pub(crate) fn fetch<M: Told + Drop>(
    state: &ArchiveState<M>,
    path: &Text,
) -> Result<(Answer, Hand<M>), NoMemory>
    ensures answer { IfOk result (λ r. (at : ℕ) → bare_answer r.0 ≡ look_answer_of state.now.site state.now.history at (look.Fetch path.now)) }
    ensures hand { IfOk result (λ r. LookHand (bare_answer r.0) r.1) }
{
    let Some(file) = state.live_file(path.as_bytes()) else {
        return Ok((Answer::Refused(Refusal::NoFile), Hand::Nothing));
    };
    let Some(blob) = state.content(file) else {
        return Ok((Answer::Refused(Refusal::NotResident), Hand::Nothing));
    };
    let sum = blob.sum();
    let content = shared(blob)?;
    Ok((Answer::Bytes { sum }, Hand::Blob(content)))
}

// What is told of each path, in their order.
#[tactic(auto, using(std::proofs::lemmas::Grind::common_steps, crate::proofs::PlaceInfos::path_by_path))]
fn place_infos<M: Told + Drop>(
    alloc: Global,
    state: &ArchiveState<M>,
    paths: &[Text],
) -> Result<Rows<PlaceInfo>, NoMemory>
    ensures { IfOk result (λ infos. infos.items ≡ place_infos state.now.site state.now.history paths.now) }
{
    let mut infos = Vec::new(alloc);
    for path in paths {
        let info = state.place_info(path)?;
        infos.push(info)?;
    }
    Ok(Rows::of(infos))
}

/// Answers an ArchiveInfo of paths, in their order: the locality of each file, or that a path names none. It changes nothing, and
/// NoMemory gives nothing. Its cost is the length of the paths.
pub(crate) fn archive_info<M: Told + Drop>(
    alloc: Global,
    state: &ArchiveState<M>,
    paths: &Rows<Text>,
) -> Result<(Answer, Hand<M>), NoMemory>
    ensures answer { IfOk result (λ r. (at : ℕ) → bare_answer r.0 ≡ look_answer_of state.now.site state.now.history at (look.ArchiveInfo paths.now)) }
    ensures hand { IfOk result (λ r. LookHand (bare_answer r.0) r.1) }
{
    let infos = place_infos(alloc, state, paths.as_slice())?;
    Ok((Answer::Places(infos), Hand::Nothing))
}
