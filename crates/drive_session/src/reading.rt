// The step of a batch that is read.
ghost use Rattle.std.specs.Prelude.{◌≡◌, None, Some, true};
ghost use Rattle.drive_session.specs.Steps.{FitsSome, IsChargedFor, IsStep};

use crate::claims::{is_no_memory, is_same, item_at};
use crate::mounts::claim_step;
use crate::reports::{Call, Done, Report, StepLine};
use crate::states::{Asked, Mounted, Outcome, State, Step};
use blob::{Blob, Sum256};
use cta_model::{Ask, Fault, Hand, Item, Job};
use cta_site::Rows;
use media::TapeDrive;
use std::alloc::Global;
use std::sync::Arc;

// Reads the next item, which is charged after a fault or where its sum is another; where none is left, asks for a batch.
// What the ask after a fault needs is made before the read.
pub(crate) fn read_step<D: TapeDrive>(
    alloc: Global,
    number: u32,
    x: Mounted<D::Medium>,
    items: Rows<Item>,
    at: usize,
    drive: &mut D,
) -> Step<D::Medium>
    requires loaded { (D.seen drive.old).loaded ≡ true }
    requires fits { FitsSome D.Medium.told number (State.Reading x items at) }
    ensures { IsStep D.Medium.told number (State.Reading x items at) (D.seen drive.old) (D.seen drive.new) result }
{
    let Some(item) = item_at(items.as_slice(), at) else {
        return claim_step(number, x, drive);
    };
    let Ok(one) = vec![in alloc; item.job] else {
        return waiting(x, items, at, None);
    };
    let mut x = x;
    match drive.read(&mut x.medium, item.fseq) {
        Ok(blob) => {
            let found = blob.sum();
            if !is_same(&found, &item.sum) {
                return mismatched(alloc, x, items, at + 1, one, item, found);
            }
            let Ok(blob) = Arc::new(alloc, blob) else {
                return waiting(x, items, at, Some(Done::Ok(Call::Read(item.fseq))));
            };
            recalled(x, items, at + 1, item, blob)
        }
        Err(error) => {
            if is_no_memory(error) {
                return waiting(x, items, at, Some(Done::NoMemory(Call::Read(item.fseq))));
            }
            unread(alloc, x, items, at + 1, one, item.fseq)
        }
    }
}

// A step that hands a content in, after which so many items are read.
fn recalled<M: Drop>(
    x: Mounted<M>,
    items: Rows<Item>,
    read: usize,
    item: Item,
    blob: Arc<Blob>,
) -> Step<M>
    ensures { result ≡ record { state = State.Reading x items read; asked = Asked.Recalled item.fseq; report = record { device = Some (Done.Ok (Call.Read item.fseq)); ask = Some (Ask.Recalled x.mount item.job, Hand.Blob blob) } } }
{
    let mount = x.mount;
    Step {
        state: State::Reading(x, items, read),
        asked: Asked::Recalled(item.fseq),
        report: Report {
            device: Some(Done::Ok(Call::Read(item.fseq))),
            ask: Some((
                Ask::Recalled {
                    mount,
                    job: item.job,
                },
                Hand::Blob(blob),
            )),
        },
    }
}

// A step that wanted memory.
fn waiting<M: Drop>(x: Mounted<M>, items: Rows<Item>, at: usize, device: Option<Done>) -> Step<M>
    ensures { result ≡ record { state = State.Reading x items at; asked = Asked.Nothing StepLine.Memory; report = record { device = device; ask = None } } }
{
    Step {
        state: State::Reading(x, items, at),
        asked: Asked::Nothing(StepLine::Memory),
        report: Report { device, ask: None },
    }
}

// A step that charges an item whose content has another sum.
fn mismatched<M: Drop>(
    alloc: Global,
    x: Mounted<M>,
    items: Rows<Item>,
    next: usize,
    one: Vec<Job>,
    item: Item,
    found: Sum256,
) -> Step<M>
    ensures { IsChargedFor x items next one.items (Fault.Mismatch found item.sum) (Done.Mismatch found item.sum) (Outcome.Mismatch item.fseq) result }
{
    let wanted = item.sum;
    failed(
        alloc,
        x,
        items,
        next,
        one,
        Fault::Mismatch { found, wanted },
        Done::Mismatch { found, wanted },
        Outcome::Mismatch(item.fseq),
    )
}

// A step that charges an item that was not read.
fn unread<M: Drop>(
    alloc: Global,
    x: Mounted<M>,
    items: Rows<Item>,
    next: usize,
    one: Vec<Job>,
    fseq: u32,
) -> Step<M>
    ensures { IsChargedFor x items next one.items Fault.Read (Done.Fault (Call.Read fseq)) (Outcome.Read fseq) result }
{
    failed(
        alloc,
        x,
        items,
        next,
        one,
        Fault::Read,
        Done::Fault(Call::Read(fseq)),
        Outcome::Read(fseq),
    )
}

// A step that charges one job.
fn failed<M: Drop>(
    alloc: Global,
    x: Mounted<M>,
    items: Rows<Item>,
    next: usize,
    one: Vec<Job>,
    fault: Fault,
    device: Done,
    outcome: Outcome,
) -> Step<M>
    ensures { IsChargedFor x items next one.items fault device outcome result }
{
    let mount = x.mount;
    Step {
        state: State::Reading(x, items, next),
        asked: Asked::Known(outcome),
        report: Report {
            device: Some(device),
            ask: Some((
                Ask::Failed {
                    mount,
                    fault,
                    charged: Rows::of(one),
                    returned: Rows::of(Vec::new(alloc)),
                },
                Hand::Nothing,
            )),
        },
    }
}
