// The steps of a drive with no batch: Next, load, Claim and unload.
ghost use Rattle.std.specs.Prelude.{◌≡◌, None, Some, false, true};
ghost use Rattle.drive_session.specs.Steps.{IsStep};

use crate::reports::{Call, Done, Report, StepLine};
use crate::states::{Asked, Mounted, Outcome, State, Step};
use cta_model::{Ask, Fault, Hand};
use media::TapeDrive;

// Asks what to mount.
pub(crate) fn next_step<D: TapeDrive>(number: u32, drive: &D) -> Step<D::Medium>
    requires { (D.seen drive.now).loaded ≡ false }
    ensures { IsStep D.Medium.told number State.Free (D.seen drive.now) (D.seen drive.now) result }
{
    Step {
        state: State::Free,
        asked: Asked::Next,
        report: Report {
            device: None,
            ask: Some((Ask::Next { drive: number }, Hand::Nothing)),
        },
    }
}

// Loads the medium; after a fault the mount ends.
pub(crate) fn load_step<D: TapeDrive>(
    number: u32,
    x: Mounted<D::Medium>,
    drive: &mut D,
) -> Step<D::Medium>
    requires loaded { (D.seen drive.old).loaded ≡ false }
    ensures { IsStep D.Medium.told number (State.Held x) (D.seen drive.old) (D.seen drive.new) result }
{
    let mut x = x;
    match drive.load(&mut x.medium) {
        Ok(()) => Step {
            state: State::Ready(x),
            asked: Asked::Nothing(StepLine::Load(true)),
            report: Report {
                device: Some(Done::Ok(Call::Load)),
                ask: None,
            },
        },
        Err(_) => Step {
            state: State::Free,
            asked: Asked::Known(Outcome::Load),
            report: Report {
                device: Some(Done::Fault(Call::Load)),
                ask: Some((
                    Ask::End {
                        mount: x.mount,
                        fault: Some(Fault::Load),
                    },
                    Hand::Medium(x.medium),
                )),
            },
        },
    }
}

// Asks for a batch.
pub(crate) fn claim_step<D: TapeDrive>(
    number: u32,
    x: Mounted<D::Medium>,
    drive: &D,
) -> Step<D::Medium>
    requires loaded { (D.seen drive.now).loaded ≡ true }
    ensures step { IsStep D.Medium.told number (State.Ready x) (D.seen drive.now) (D.seen drive.now) result }
    ensures is { result ≡ record { state = State.Ready x; asked = Asked.Claim; report = record { device = None; ask = Some (Ask.Claim x.mount, Hand.Nothing) } } }
{
    let mount = x.mount;
    Step {
        state: State::Ready(x),
        asked: Asked::Claim,
        report: Report {
            device: None,
            ask: Some((Ask::Claim { mount }, Hand::Nothing)),
        },
    }
}

// Unloads the medium and ends the mount.
pub(crate) fn unload_step<D: TapeDrive>(
    number: u32,
    x: Mounted<D::Medium>,
    drive: &mut D,
) -> Step<D::Medium>
    requires loaded { (D.seen drive.old).loaded ≡ true }
    ensures { IsStep D.Medium.told number (State.Leaving x) (D.seen drive.old) (D.seen drive.new) result }
{
    let mut x = x;
    match drive.unload(&mut x.medium) {
        Ok(()) => Step {
            state: State::Free,
            asked: Asked::Known(Outcome::Unload(true)),
            report: Report {
                device: Some(Done::Ok(Call::Unload)),
                ask: Some((
                    Ask::End {
                        mount: x.mount,
                        fault: None,
                    },
                    Hand::Medium(x.medium),
                )),
            },
        },
        Err(_) => Step {
            state: State::Free,
            asked: Asked::Known(Outcome::Unload(false)),
            report: Report {
                device: Some(Done::Fault(Call::Unload)),
                ask: Some((
                    Ask::End {
                        mount: x.mount,
                        fault: Some(Fault::Unload),
                    },
                    Hand::Medium(x.medium),
                )),
            },
        },
    }
}
