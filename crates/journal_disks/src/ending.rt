// The sign that a run ended well: how the next one takes it, and how it is given.
ghost use Rattle.std.specs.Prelude.{is_ok};
ghost use Rattle.journal_disks.specs.Folders.{IsMadeReady, IsRenewed, IsSaid};

use crate::folder::{FolderFault, JournalFolder};

// Gives a copy the journal's name.
fn renew<F: JournalFolder>(folder: &mut F) -> Result<(), FolderFault>
    ensures { IsRenewed (F.done folder.old) (F.done folder.new) (is_ok result) }
{
    folder.copy()?;
    folder.rename()
}

/// Makes a journal ready whose file is locked, before anything is read of it. Where the last run ended well, the mark of that is
/// dropped. Where it didn't say so, the file may hold what a read gives and the disk doesn't have, as after a sync that failed: a
/// copy of it, which is durable, gets the journal's name. Then the names are made durable.
pub fn make_ready<F: JournalFolder>(folder: &mut F) -> Result<(), FolderFault>
    ensures { IsMadeReady (F.done folder.old) (F.done folder.new) (is_ok result) }
{
    if folder.is_marked()? {
        folder.unmark()?;
        return folder.sync_names();
    }
    if renew(folder).is_err() {
        folder.drop_copy();
        return Err(FolderFault);
    }
    folder.sync_names()
}

/// Says that a run ended well, where it is clean: no call on its disk has failed.
pub fn say_ended<F: JournalFolder>(folder: &mut F, is_clean: bool) -> Result<(), FolderFault>
    ensures { IsSaid is_clean (F.done folder.old) (F.done folder.new) (is_ok result) }
{
    if is_clean {
        folder.sync_file()?;
        folder.mark()?;
        return folder.sync_names();
    }
    Err(FolderFault)
}
