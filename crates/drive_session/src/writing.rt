// The steps of a batch that is written.
ghost use Rattle.std.specs.Prelude.{◌≡◌, None, Some, length, true};
ghost use Rattle.drive_session.specs.Steps.{FitsSome, IsStep};

use crate::claims::{is_no_memory, item_at, parted, rows_of};
use crate::reports::{Call, Done, Report, StepLine};
use crate::states::{Asked, Batch, Mounted, Outcome, State, Step};
use blob::Blob;
use cta_model::{Ask, Fault, Hand, Item, Job};
use cta_site::Rows;
use media::TapeDrive;
use std::alloc::Global;
use std::sync::Arc;

// The first write of a batch, before which the lists for the asks that may follow are made.
pub(crate) fn begin_step<D: TapeDrive>(
    alloc: Global,
    number: u32,
    x: Mounted<D::Medium>,
    items: Rows<Item>,
    blobs: Rows<Arc<Blob>>,
    drive: &mut D,
) -> Step<D::Medium>
    requires loaded { (D.seen drive.old).loaded ≡ true }
    requires fits { FitsSome D.Medium.told number (State.Claimed x items blobs) }
    ensures { IsStep D.Medium.told number (State.Claimed x items blobs) (D.seen drive.old) (D.seen drive.new) result }
{
    match rows_of(alloc, items.as_slice()) {
        Ok((jobs, one)) => write_step(
            number,
            x,
            Batch {
                items,
                blobs,
                at: 0,
                jobs,
                one,
            },
            drive,
        ),
        Err(_) => Step {
            state: State::Claimed(x, items, blobs),
            asked: Asked::Nothing(StepLine::Memory),
            report: Report {
                device: None,
                ask: None,
            },
        },
    }
}

// Writes the next item; after a fault it is charged, and all others go back.
pub(crate) fn write_step<D: TapeDrive>(
    number: u32,
    x: Mounted<D::Medium>,
    b: Batch,
    drive: &mut D,
) -> Step<D::Medium>
    requires loaded { (D.seen drive.old).loaded ≡ true }
    requires fits { FitsSome D.Medium.told number (State.Writing x b) }
    ensures { IsStep D.Medium.told number (State.Writing x b) (D.seen drive.old) (D.seen drive.new) result }
{
    let mut x = x;
    let mut b = b;
    let Some(item) = item_at(b.items.as_slice(), b.at) else {
        return flush_step(number, x, b, drive);
    };
    let fseq = item.fseq;
    let answer = drive.write(&mut x.medium, fseq, &b.blobs.as_slice()[b.at]);
    match answer {
        Ok(()) => {
            b.at += 1;
            let line = StepLine::Write(fseq, true);
            still_writing(x, b, line, Done::Ok(Call::Write(fseq)))
        }
        Err(error) => {
            if is_no_memory(error) {
                let done = Done::NoMemory(Call::Write(fseq));
                return still_writing(x, b, StepLine::Memory, done);
            }
            let (charged, returned) = parted(b.jobs, b.one, b.at);
            let (call, outcome) = (Call::Write(fseq), Outcome::Write(fseq));
            leaving(x, Fault::Write, charged, returned, call, outcome)
        }
    }
}

// A step with no ask in a batch that is written.
fn still_writing<M: Drop>(x: Mounted<M>, b: Batch, line: StepLine, done: Done) -> Step<M>
    ensures { result ≡ record { state = State.Writing x b; asked = Asked.Nothing line; report = record { device = Some done; ask = None } } }
{
    Step {
        state: State::Writing(x, b),
        asked: Asked::Nothing(line),
        report: Report {
            device: Some(done),
            ask: None,
        },
    }
}

// A fault, after which the mount is left.
fn leaving<M: Drop>(
    x: Mounted<M>,
    fault: Fault,
    charged: Rows<Job>,
    returned: Rows<Job>,
    call: Call,
    outcome: Outcome,
) -> Step<M>
    ensures { result ≡ record { state = State.Leaving x; asked = Asked.Known outcome; report = record { device = Some (Done.Fault call); ask = Some (Ask.Failed x.mount fault charged returned, Hand.Nothing) } } }
{
    let mount = x.mount;
    Step {
        state: State::Leaving(x),
        asked: Asked::Known(outcome),
        report: Report {
            device: Some(Done::Fault(call)),
            ask: Some((
                Ask::Failed {
                    mount,
                    fault,
                    charged,
                    returned,
                },
                Hand::Nothing,
            )),
        },
    }
}

// Flushes a batch whose items are all written; after a fault all are charged. It takes no memory.
pub(crate) fn flush_step<D: TapeDrive>(
    number: u32,
    x: Mounted<D::Medium>,
    b: Batch,
    drive: &mut D,
) -> Step<D::Medium>
    requires loaded { (D.seen drive.old).loaded ≡ true }
    requires fits { FitsSome D.Medium.told number (State.Writing x b) }
    requires all { b.at ≡ length b.items.items }
    ensures { IsStep D.Medium.told number (State.Writing x b) (D.seen drive.old) (D.seen drive.new) result }
{
    let mut x = x;
    let mount = x.mount;
    match drive.flush(&mut x.medium) {
        Ok(()) => Step {
            state: State::Ready(x),
            asked: Asked::Flushed,
            report: Report {
                device: Some(Done::Ok(Call::Flush)),
                ask: Some((
                    Ask::Flushed {
                        mount,
                        items: b.items,
                    },
                    Hand::Nothing,
                )),
            },
        },
        Err(_) => {
            let mut none = b.one;
            none.clear();
            let charged = Rows::of(b.jobs);
            let returned = Rows::of(none);
            leaving(
                x,
                Fault::Flush,
                charged,
                returned,
                Call::Flush,
                Outcome::Flush,
            )
        }
    }
}
