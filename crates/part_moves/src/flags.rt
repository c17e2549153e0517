// Flags of files, whether they are safe on tape.
ghost use Rattle.std.specs.Prelude.{◌≡◌, ◌≤◌};
ghost use Rattle.cta_model.specs.Files.{copies_of_file};
ghost use Rattle.part_model.specs.Held.{HeldAgree, set_all};
ghost use Rattle.part_model.specs.JobRows.{book_in};
ghost use Rattle.part_model.specs.Tapes.{safe_in};
ghost use Rattle.part_moves.specs.Flags.{job_files};

use cta_model::Job;
use cta_site::ValidSite;
use disk_buffer::DiskBuffer;
use job_book::JobBook;
use kept_history::KeptHistory;
use part_answers::is_safe;
use tape_table::TapeTable;

/// How many copies a file has, at most 4. Its cost is that of `ValidSite::copies_of`. CTA.
pub fn copies_of(site: &ValidSite, history: &KeptHistory, file: u32) -> u8
    ensures copies { result ≡ copies_of_file site.now history.now.value file }
    ensures few { result ≤ 4 }
{
    site.numbers_are_known();
    site.copies_of(history.path_of(file))
}

/// The files of these jobs get their flags, whether they are safe on tape, by the table of tapes and the job book. It takes no memory. Its
/// cost is the number of the jobs, each with the logarithm of the number of files and pins. This project's own.
pub fn set_flags(
    buffer: &mut DiskBuffer,
    table: &TapeTable,
    book: &JobBook,
    site: &ValidSite,
    history: &KeptHistory,
    jobs: &[Job],
)
    ensures held { HeldAgree buffer.new.held.value (set_all (λ f. safe_in table.now.value (book_in book.now.value).archive f (copies_of_file site.now history.now.value f)) (job_files jobs.now) buffer.old.held.value) }
    ensures contents { buffer.new.contents ≡ buffer.old.contents }
{
    for job in jobs {
        let copies = copies_of(site, history, job.file);
        buffer.set_safe(job.file, is_safe(table, book, job.file, copies));
    }
}
