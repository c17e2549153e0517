// What a drive over files tells of itself.
ghost use Rattle.std.specs.Prelude.{◌≡◌, Some, None};
ghost use Rattle.media.specs.Drives.{HasAnswered};

use cta_site::CallKind;
use media::{Counts, DeviceErr};

// Whether a drive is loaded, how many calls were made, and how often each failed.
#[derive(Clone, Copy)]
pub(crate) struct Tally {
    pub(crate) loaded: bool,
    pub(crate) calls: u64,
    pub(crate) faults: Counts,
}

impl Tally {
    ghost use Rattle.file_media.specs.Views.{new_view, tally_view};

    // That of a drive that is not loaded and was not called.
    pub(crate) fn new() -> Tally
        ensures { tally_view result ≡ new_view }
    {
        Tally {
            loaded: false,
            calls: 0,
            faults: Counts::new(),
        }
    }

    // Counts a call that failed.
    pub(crate) fn fail(&mut self, kind: CallKind) -> DeviceErr
        ensures fault { result ≡ DeviceErr.Fault }
        ensures drive { HasAnswered kind (tally_view self.old) (tally_view self.new) (Some DeviceErr.Fault) }
    {
        if kind == CallKind::Unload {
            self.loaded = false;
        }
        self.calls = self.calls.saturating_add(1);
        self.faults.raise(kind);
        DeviceErr::Fault
    }

    // Notes a call that succeeded.
    pub(crate) fn succeed(&mut self, kind: CallKind)
        ensures { HasAnswered kind (tally_view self.old) (tally_view self.new) None }
    {
        self.calls = self.calls.saturating_add(1);
        self.loaded = match kind {
            CallKind::Load => true,
            CallKind::Unload => false,
            _ => self.loaded,
        };
    }

    // Notes a read that found no memory.
    pub(crate) fn want(&mut self) -> DeviceErr
        ensures error { result ≡ DeviceErr.NoMemory }
        ensures drive { HasAnswered CallKind.Read (tally_view self.old) (tally_view self.new) (Some DeviceErr.NoMemory) }
    {
        self.calls = self.calls.saturating_add(1);
        DeviceErr::NoMemory
    }
}
