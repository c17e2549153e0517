// The rows of the table, and lines in a row.
ghost use Rattle.std.specs.declared.alloc.Global.{Global};
ghost use Rattle.std.specs.declared.sync.Arc.{Arc};
ghost use Rattle.blob.specs.declared.blobs.Blob.{Blob};
ghost use Rattle.blob.specs.declared.sum.Sum256.{Sum256};
ghost use Rattle.cta_site.specs.Listed.{Listed};
ghost use Rattle.drive_session.specs.Examples.{TableRows};
ghost use Rattle.drive_session.specs.Lawful.{LinesStayLawful};

use media::TapeDrive;

/// The rows of the table of a session, with the states before and after, for two items on one tape. A law, which does nothing
/// when it runs. This project's own.
pub fn table_rows<D: TapeDrive>()
    ensures { (m : D.Medium) (s found : Sum256) (blobs : Listed (Arc Blob Global)) → TableRows m s found blobs }
{}

/// Lawful lines stay so with one more that follows where they lead. A law, which does nothing when it runs. This project's own.
pub fn lines_stay_lawful()
    ensures { LinesStayLawful }
{}
