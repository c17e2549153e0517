// The folder of a journal, as the opening and the end of a run use it.
ghost use Rattle.std.specs.Prelude.{◌≡◌, List, Option, is_ok};
ghost use Rattle.journal_disks.specs.Folders.{FolderCall, Looked, Forgot, Copied, Renamed, Dropped, SyncedFile, Marked, SyncedNames, after_call, answer_of};

/// An operation on the folder of a journal or on its files failed.
#[derive(Clone, Copy, Debug, PartialEq, Eq)]
pub struct FolderFault;

/// The folder of a journal with the operations that the opening and the end of a run need: on the journal's own file, on its
/// copy, which gets its name later, and on the mark that the last run ended well. It may tell which calls were made and what
/// each came to; the machine's folder doesn't. This project's own.
pub trait JournalFolder {
    // The calls that were made, the newest first, where it tells them. No call changes whether it does.
    ghost done: { Self → Option (List FolderCall) };

    /// Whether the mark is there. It changes nothing.
    fn is_marked(&mut self) -> Result<bool, FolderFault>
        ensures { done self.new ≡ after_call (Looked (answer_of result)) (done self.old) };

    /// Drops the mark.
    fn unmark(&mut self) -> Result<(), FolderFault>
        ensures { done self.new ≡ after_call (Forgot (is_ok result)) (done self.old) };

    /// Makes a copy of the journal's file from what reads of it give, takes the copy's lock before anything is in it, and makes its
    /// content durable.
    fn copy(&mut self) -> Result<(), FolderFault>
        ensures { done self.new ≡ after_call (Copied (is_ok result)) (done self.old) };

    /// Gives the copy the journal's name. From then on it is the journal's file.
    fn rename(&mut self) -> Result<(), FolderFault>
        ensures { done self.new ≡ after_call (Renamed (is_ok result)) (done self.old) };

    /// Drops a copy that didn't get the journal's name.
    fn drop_copy(&mut self)
        ensures { done self.new ≡ after_call Dropped (done self.old) };

    /// Makes the content of the journal's file durable.
    fn sync_file(&mut self) -> Result<(), FolderFault>
        ensures { done self.new ≡ after_call (SyncedFile (is_ok result)) (done self.old) };

    /// Makes the mark.
    fn mark(&mut self) -> Result<(), FolderFault>
        ensures { done self.new ≡ after_call (Marked (is_ok result)) (done self.old) };

    /// Makes the names of the folder durable.
    fn sync_names(&mut self) -> Result<(), FolderFault>
        ensures { done self.new ≡ after_call (SyncedNames (is_ok result)) (done self.old) };
}
