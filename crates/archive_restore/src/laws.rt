// What definitions of logs say of each other.
ghost use Rattle.archive_restore.specs.Logs.{IsWrongOnce};

/// A log has one first wrong record at most, and where it has one it isn't right. Laws (this project's own), which do nothing when they
/// run.
pub fn log_is_wrong_once()
    ensures { IsWrongOnce }
{}
