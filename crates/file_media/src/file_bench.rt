// A bench over a folder.
ghost use Rattle.std.specs.Prelude.{◌≡◌, ◌<◌, false, true, not, IfOk, OnOk, OnErr, length};
ghost use Rattle.cta_site.specs.Lookups.{vid_of};
ghost use Rattle.media.specs.Made.{IsNewDrive, IsNewMedium};

use crate::earlier::found_records;
use crate::file_drive::FileDrive;
use crate::file_medium::FileMedium;
use crate::machine_disk::MachineDisk;
use cta_site::{NoMemory, Text, ValidSite};
use media::Bench;
use std::alloc::Global;
use std::rt::Files;

/// A bench whose drives keep the records of all tapes in one folder. It tells nothing, and reads no planned failures. It lists
/// the folder once, before it gives the first medium. One made by `new` knows nothing of records that the folder held then: a tape
/// that has some gets a medium that no drive loads. One made by `resuming` goes on with them. Where the folder couldn't be listed,
/// no drive loads any medium, of either. This project's own.
#[derive(Drop)]
pub struct FileBench<'r, R: Files> {
    alloc: Global,
    rt: &'r R,
    folder: Text,
    // Whether it goes on with the records that the folder holds.
    resumes: bool,
    // Of each tape the fSeq of the last record that the folder held, 0 for none; None before the folder was listed, and of no tape where
    // that failed.
    earlier: Option<Vec<u32>>,
}

impl<'r, R: Files> FileBench<'r, R> {
    ghost use Rattle.file_media.specs.Benches.{KnowsAllOrNone, found_last, held_records, is_listed, is_loadable, is_resuming, start_of};

    /// A bench over this folder, which no call looks at before the first medium. It leaves alone what the folder holds then. It takes
    /// no memory and constant time.
    pub fn new(alloc: Global, rt: &'r R, folder: Text) -> FileBench<'r, R>
        ensures listed { is_listed result ≡ false }
        ensures kind { is_resuming result ≡ false }
    {
        FileBench {
            alloc,
            rt,
            folder,
            resumes: false,
            earlier: None,
        }
    }

    /// A bench over this folder, as by `new`, that goes on with the records that the folder holds when it is listed: the medium of a
    /// tape begins with all records up to the last one that was found. It doesn't know which of them a history has: who writes at
    /// an fSeq drops what the folder holds from there on.
    pub fn resuming(alloc: Global, rt: &'r R, folder: Text) -> FileBench<'r, R>
        ensures listed { is_listed result ≡ false }
        ensures kind { is_resuming result ≡ true }
    {
        FileBench {
            alloc,
            rt,
            folder,
            resumes: true,
            earlier: None,
        }
    }

    // The fSeq of the last record of a tape that the listing found, 0 where it found none.
    fn found_last(&self, tape: u32) -> Option<u32>
        ensures { result ≡ found_last self.now tape }
    {
        match &self.earlier {
            Some(last) => last.get(tape as usize).copied(),
            None => None,
        }
    }

    /// Whether the folder held records of this tape when it was listed. Before the first medium, where the listing failed, and for a
    /// number of no tape of that site, it is so too. It takes constant time and no memory.
    pub fn had_records(&self, tape: u32) -> bool
        ensures { result ≡ held_records self.now tape }
    {
        match self.found_last(tape) {
            Some(last) => last > 0,
            None => true,
        }
    }

    /// Whether a drive loads the medium of this tape; where not, each load is a Fault. It is so where the folder was listed and, of
    /// a bench made by `new`, held no records of the tape. It takes constant time and no memory.
    pub fn loads(&self, tape: u32) -> bool
        ensures { result ≡ is_loadable self.now tape }
    {
        if self.resumes {
            self.found_last(tape).is_some()
        } else {
            !self.had_records(tape)
        }
    }

    // The fSeq up to which the medium of a tape begins with records.
    fn start_of(&self, tape: u32) -> u32
        ensures { result ≡ start_of self.now tape }
    {
        if self.resumes {
            self.found_last(tape).unwrap_or(0)
        } else {
            0
        }
    }

    // Lists the folder, where it wasn't listed before.
    fn list(&mut self, site: &ValidSite) -> Result<(), NoMemory>
        ensures listed { OnOk result (is_listed self.new ≡ true) }
        ensures once { is_listed self.old ≡ true → self.new ≡ self.old }
        ensures found { OnOk result (is_listed self.old ≡ false → KnowsAllOrNone self.new (length site.now.tapes.items)) }
        ensures kind { is_resuming self.new ≡ is_resuming self.old }
        ensures err { OnErr result (self.new ≡ self.old) }
    {
        if self.earlier.is_some() {
            return Ok(());
        }
        let mut disk = MachineDisk::new(self.alloc, self.rt, self.folder.copy()?)?;
        let earlier = found_records(self.alloc, &mut disk, site)?;
        self.earlier = Some(earlier);
        Ok(())
    }
}

impl<'r, R: Files> Bench<FileDrive<MachineDisk<'r, R>>> for FileBench<'r, R> {
    ghost use Rattle.file_media.specs.Benches.{KnowsAllOrNone, is_listed, is_loadable, is_resuming, start_of};
    ghost use Rattle.file_media.specs.Views.{BeginsAt, file_medium, file_view, is_foreign, medium_vid};

    ghost tells = { λ _. false };

    fn drive(
        &mut self,
        _site: &ValidSite,
        _drive: u32,
    ) -> Result<FileDrive<MachineDisk<'r, R>>, NoMemory>
        ensures made { IfOk result (λ d. IsNewDrive false _site.now _drive (file_view d)) }
        ensures same { self.new ≡ self.old }
    {
        let folder = self.folder.copy()?;
        let disk = MachineDisk::new(self.alloc, self.rt, folder)?;
        Ok(FileDrive::new(disk))
    }

    /// The medium of a tape, of which this process wrote nothing, by the tape's VID. Of a bench that goes on with records it has those
    /// up to the last one that was found, all of them safe; of any other it has none. The first call lists the folder, and takes
    /// memory for its names and time in proportion to them; after a NoMemory the next call is the first. A site with other tapes than
    /// at the first call's is told what that listing found at their numbers.
    fn medium(&mut self, site: &ValidSite, tape: u32) -> Result<FileMedium, NoMemory>
        requires { tape < length site.now.tapes.items }
        ensures made { IfOk result (λ m. IsNewMedium false tape (file_medium m)) }
        ensures vid { IfOk result (λ m. medium_vid m ≡ vid_of site.now tape) }
        ensures foreign { IfOk result (λ m. is_foreign m ≡ not (is_loadable self.new tape)) }
        ensures places { IfOk result (λ m. BeginsAt (start_of self.new tape) m) }
        ensures listed { OnOk result (is_listed self.new ≡ true) }
        ensures found { OnOk result (is_listed self.old ≡ false → KnowsAllOrNone self.new (length site.now.tapes.items)) }
        ensures kind { is_resuming self.new ≡ is_resuming self.old }
        ensures same { is_listed self.old ≡ true → self.new ≡ self.old }
        ensures memory { OnErr result (self.new ≡ self.old) }
    {
        let vid = site.tapes()[tape as usize].vid.copy()?;
        self.list(site)?;
        let foreign = !self.loads(tape);
        Ok(FileMedium::new(tape, vid, foreign, self.start_of(tape)))
    }
}
