// The folder of a server's media.
ghost use Rattle.std.specs.Prelude.{◌≡◌, false};

use crate::stop::Muster;
use cta_site::{NoMemory, ValidSite};
use file_media::{FileBench, FileDrive, FileMedium, MachineDisk};
use media::Bench;
use std::io::Eprint;
use std::rt::Files;

// A bench over a folder, which counts the drives that it makes, and tells of each tape of which the folder holds records of an earlier process that it is not loaded.
#[derive(Drop)]
pub(crate) struct ToldBench<'r, R: Files + Eprint> {
    pub(crate) rt: &'r R,
    pub(crate) bench: FileBench<'r, R>,
    pub(crate) muster: &'r Muster,
}

// Says that a tape is not loaded. That this may fail is not told.
fn say_left_alone<E: Eprint>(errors: &E, vid: &str) {
    let _ = eprintln!(errors; "cta: tape {vid} has records of an earlier run and is not loaded");
}

// A bench over a folder whose records it goes on with, which counts the drives that it makes, and says where the folder can't be listed.
#[derive(Drop)]
pub(crate) struct ResumingBench<'r, R: Files + Eprint> {
    rt: &'r R,
    bench: FileBench<'r, R>,
    muster: &'r Muster,
    is_told: bool,
}

impl<'r, R: Files + Eprint> ResumingBench<'r, R> {
    pub(crate) fn new(
        rt: &'r R,
        bench: FileBench<'r, R>,
        muster: &'r Muster,
    ) -> ResumingBench<'r, R> {
        ResumingBench {
            rt,
            bench,
            muster,
            is_told: false,
        }
    }
}

// Says that the folder can't be listed. That this may fail is not told.
fn say_not_listed<E: Eprint>(errors: &E) {
    let _ = eprintln!(errors; "cta: media folder can't be listed, and no tape is loaded");
}

impl<'r, R: Files + Eprint> Bench<FileDrive<MachineDisk<'r, R>>> for ResumingBench<'r, R> {
    ghost tells = { λ _. false };

    fn drive(
        &mut self,
        site: &ValidSite,
        drive: u32,
    ) -> Result<FileDrive<MachineDisk<'r, R>>, NoMemory> {
        self.muster.add_drive();
        self.bench.drive(site, drive)
    }

    fn medium(&mut self, site: &ValidSite, tape: u32) -> Result<FileMedium, NoMemory> {
        let medium = self.bench.medium(site, tape)?;
        if !self.bench.loads(tape) && !self.is_told {
            say_not_listed(self.rt);
            self.is_told = true;
        }
        Ok(medium)
    }
}

impl<'r, R: Files + Eprint> Bench<FileDrive<MachineDisk<'r, R>>> for ToldBench<'r, R> {
    ghost tells = { λ _. false };

    fn drive(
        &mut self,
        site: &ValidSite,
        drive: u32,
    ) -> Result<FileDrive<MachineDisk<'r, R>>, NoMemory> {
        self.muster.add_drive();
        self.bench.drive(site, drive)
    }

    fn medium(&mut self, site: &ValidSite, tape: u32) -> Result<FileMedium, NoMemory> {
        let medium = self.bench.medium(site, tape)?;
        if self.bench.had_records(tape) {
            say_left_alone(self.rt, site.tapes()[tape as usize].vid.as_str());
        }
        Ok(medium)
    }
}
