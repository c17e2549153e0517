// Labels, which stand in for media while a log is replayed.
ghost use Rattle.std.specs.Prelude.{◌≡◌, ◌^◌, ◌<◌, IfOk, length};
ghost use Rattle.archive_restore.specs.Labels.{AreLabels};

use cta_model::{NoMemory, Told};
use std::alloc::Global;

// A label with the number of a tape, as a medium that tells no records.
#[derive(Drop)]
pub(crate) struct Label {
    pub(crate) tape: u32,
}

impl Told for Label {
    ghost use Rattle.std.specs.Prelude.{None};

    ghost told = { λ l. record { label = l.tape; records = None } };
}

// The labels of so many tapes, in order of their numbers.
pub(crate) fn labels_of(alloc: Global, count: usize) -> Result<Vec<Label>, NoMemory>
    requires { count < 2 ^ 32 }
    ensures { IfOk result (λ labels. AreLabels count labels.items) }
{
    let mut labels = Vec::new(alloc);
    for tape in 0..count {
        labels.push(Label { tape: tape as u32 })?;
    }
    Ok(labels)
}
