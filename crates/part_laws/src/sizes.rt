// Laws of the sizes of queues.
ghost use Rattle.part_laws.specs.Laws.{CopiesAreFew, FilesFitBuffer, LinesAreSmall, QueuesAreSmall};

use cta_site::{numbers_are_known, valid_is_well_formed};

/// A path has at most 4 copies, where the site is valid. This project's own.
pub fn copies_are_few()
    ensures { CopiesAreFew }
{
    numbers_are_known();
}

/// No file is larger than the site's limit `buffer`. This project's own.
pub fn files_fit_buffer()
    ensures { FilesFitBuffer }
{}

/// The files of a queue have at most 2^55 bytes together, where the site is valid, so that one more file keeps them below 2^64. This
/// project's own.
pub fn queues_are_small()
    ensures { QueuesAreSmall }
{
    numbers_are_known();
    valid_is_well_formed();
}

/// The lines that stand for a queue have at most 2^55 bytes together, where the site is valid, so that one more file keeps them
/// below 2^64. This project's own.
pub fn lines_are_small()
    ensures { LinesAreSmall }
{
    numbers_are_known();
    valid_is_well_formed();
}
