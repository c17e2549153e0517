// A drive in memory.
ghost use Rattle.std.specs.Prelude.{◌≡◌};
ghost use Rattle.media.specs.Counted.{count_of, counted};
ghost use Rattle.media.specs.Drives.{HasAnswered, alters_at, called_in_vain, error_of, fails_at, fault_if, loaded_after};

use crate::counts::Counts;
use crate::drive::{DeviceErr, TapeDrive};
use crate::mem_medium::MemMedium;
use crate::planned::Planned;
use blob::Blob;
use cta_site::CallKind;
use std::alloc::Global;
use std::sync::Arc;

/// A drive in memory that fails, and alters what it reads, as its plan says, and tells its plan. With an `alter` in its plan
/// it is not honest. An altered read gives the record with its first byte raised by 1 modulo 256; an empty record isn't
/// changed. A call takes time in proportion to the plan, and a read also memory and time for the record.
#[derive(Drop)]
pub struct MemDrive {
    alloc: Global,
    loaded: bool,
    calls: u64,
    plan: Vec<Planned>,
    made: Counts,
    faults: Counts,
}

impl MemDrive {
    ghost use Rattle.media.specs.Memory.{mem_drive, new_drive};

    /// A drive that is not loaded and made no call. It takes the plan over, in constant time.
    pub fn new(alloc: Global, plan: Vec<Planned>) -> MemDrive
        ensures { mem_drive result ≡ new_drive plan.items }
    {
        MemDrive {
            alloc,
            loaded: false,
            calls: 0,
            plan,
            made: Counts::new(),
            faults: Counts::new(),
        }
    }

    // Whether the next call of the kind is to fail.
    fn fails(&self, call: CallKind) -> bool
        ensures { result ≡ fails_at call self.now.plan.items self.now.made }
    {
        let number = self.next_of(call);
        self.plan.iter().any(|p| p.call == call && u64::from(p.number) == number && !p.alter)
    }

    // Whether what the next call of the kind gives is to be altered.
    fn alters(&self, call: CallKind) -> bool
        ensures { result ≡ alters_at call self.now.plan.items self.now.made }
    {
        let number = self.next_of(call);
        self.plan.iter().any(|p| p.call == call && u64::from(p.number) == number && p.alter)
    }

    // The number of the next call of the kind.
    fn next_of(&self, call: CallKind) -> u64
        ensures { result ≡ count_of call (counted call self.now.made) }
    {
        let mut next = self.made;
        next.raise(call);
        next.of(call)
    }

    // A call that finds no memory.
    fn wanting(&mut self) -> DeviceErr
        ensures error { result ≡ DeviceErr.NoMemory }
        ensures drive { mem_drive self.new ≡ called_in_vain (mem_drive self.old) }
    {
        self.calls = self.calls.saturating_add(1);
        DeviceErr::NoMemory
    }

    // Makes a call, which fails where that is planned.
    fn call(&mut self, call: CallKind) -> Result<(), DeviceErr>
        ensures answered { HasAnswered call (mem_drive self.old) (mem_drive self.new) (error_of result) }
        ensures fails { error_of result ≡ fault_if (fails_at call self.old.plan.items self.old.made) }
    {
        let fails = self.fails(call);
        self.calls = self.calls.saturating_add(1);
        self.made.raise(call);
        self.loaded = loaded_after(call, fails, self.loaded);
        if fails {
            self.faults.raise(call);
            return Err(DeviceErr::Fault);
        }
        Ok(())
    }
}

// Whether a drive is loaded after a call that fails or not.
fn loaded_after(call: CallKind, fails: bool, before: bool) -> bool
    ensures { result ≡ loaded_after call (fault_if fails) before }
{
    match call {
        CallKind::Load => before || !fails,
        CallKind::Unload => false,
        _ => before,
    }
}

impl TapeDrive for MemDrive {
    type Medium = MemMedium;

    ghost use Rattle.media.specs.Memory.{mem_drive};

    ghost seen = { λ d. mem_drive d };

    fn load(&mut self, _medium: &mut MemMedium) -> Result<(), DeviceErr> {
        self.call(CallKind::Load)
    }

    fn write(
        &mut self,
        medium: &mut MemMedium,
        fseq: u32,
        blob: &Arc<Blob>,
    ) -> Result<(), DeviceErr> {
        if self.fails(CallKind::Write) {
            return self.call(CallKind::Write);
        }
        match medium.write(fseq, blob) {
            Ok(()) => self.call(CallKind::Write),
            Err(_) => Err(self.wanting()),
        }
    }

    fn flush(&mut self, medium: &mut MemMedium) -> Result<(), DeviceErr> {
        let answer = self.call(CallKind::Flush);
        if answer.is_ok() {
            medium.flush();
        }
        answer
    }

    fn read(&mut self, medium: &mut MemMedium, fseq: u32) -> Result<Blob, DeviceErr> {
        let alter = self.alters(CallKind::Read);
        let Ok(blob) = medium.read(self.alloc, fseq, alter) else {
            return Err(self.wanting());
        };
        self.call(CallKind::Read)?;
        Ok(blob)
    }

    fn unload(&mut self, medium: &mut MemMedium) -> Result<(), DeviceErr> {
        medium.unload();
        self.call(CallKind::Unload)
    }
}
