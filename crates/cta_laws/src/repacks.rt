// Laws of repacks.
ghost use Rattle.cta_laws.specs.Repacks.{ReadingHasRecall, WritingHasJob};

/// An item of a repack that is READING has a live recall, for which the repack waits. This project's own.
pub fn reading_has_recall()
    ensures { ReadingHasRecall }
{}

/// An item of a repack that is WRITING has a live archive job. This project's own.
pub fn writing_has_job()
    ensures { WritingHasJob }
{}
