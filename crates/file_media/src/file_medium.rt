// A medium over files.
ghost use Rattle.std.specs.Prelude.{◌≡◌, true, false};

use crate::disk::FileName;
use blob::Told;
use cta_site::Text;

/// A medium whose records are files of a folder, labelled with the number of its tape. It tells no records. It knows how far it was
/// written, by its own process or before it by those whose records its bench goes on with, and whether a drive may load it.
#[derive(Drop)]
pub struct FileMedium {
    pub(crate) tape: u32,
    pub(crate) vid: Text,
    // Whether each load is a Fault, since the folder may hold records of earlier processes that the bench doesn't go on with.
    pub(crate) foreign: bool,
    // The last fSeq at which there may be a file that a write drops, 0 where there is none.
    pub(crate) written: u32,
    // The last fSeq of a record, 0 where there is none. Files behind it are of records that an unload has dropped.
    pub(crate) records: u32,
    // The last fSeq of a safe record, 0 where there is none.
    pub(crate) safe: u32,
}

impl Told for FileMedium {
    ghost use Rattle.file_media.specs.Views.{file_medium};

    ghost told = { λ m. file_medium m };
}

impl FileMedium {
    ghost use Rattle.file_media.specs.Names.{record_name, part_name, file_text};
    ghost use Rattle.file_media.specs.Views.{BeginsAt, file_medium, medium_vid, is_foreign};

    // The medium of a tape of which this process wrote nothing, with the records up to an fSeq.
    pub(crate) fn new(tape: u32, vid: Text, foreign: bool, last: u32) -> FileMedium
        ensures label { (file_medium result).label ≡ tape }
        ensures vid { medium_vid result ≡ vid }
        ensures foreign { is_foreign result ≡ foreign }
        ensures places { BeginsAt last result }
    {
        FileMedium {
            tape,
            vid,
            foreign,
            written: last,
            records: last,
            safe: last,
        }
    }

    // The name of the record at this fSeq.
    pub(crate) fn record(&self, fseq: u32) -> FileName<'_>
        ensures { file_text result ≡ record_name (medium_vid self.now) fseq }
    {
        FileName {
            vid: self.vid.as_str(),
            fseq,
            whole: true,
        }
    }

    // The name of what is written of that record.
    pub(crate) fn part(&self, fseq: u32) -> FileName<'_>
        ensures { file_text result ≡ part_name (medium_vid self.now) fseq }
    {
        FileName {
            vid: self.vid.as_str(),
            fseq,
            whole: false,
        }
    }
}
