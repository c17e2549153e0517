// How a run ends.

/// How a run of the program ends. The numbers that a program ends with are 0, 2 to 9 and 12 to 14.
#[derive(Clone, Copy, Debug, PartialEq, Eq)]
pub enum Status {
    /// All was done: a script was read to its line `end` (0).
    Ok,
    /// The words are not of the form that the call takes (2).
    Usage,
    /// The site file breaks this rule, first at this item of its list (3).
    Site { rule: u8, item: u32 },
    /// No record of the script begins or goes on at this byte, counted from 0 (4).
    Script { offset: u64 },
    /// The site file or the script could not be read (5).
    ReadFault,
    /// The output could not be written (6).
    WriteFault,
    /// Memory was wanted (7).
    NoMemory,
    /// So many bytes of the script were taken as one may have, without its line `end` (8).
    TooLong,
    /// The address could not be listened on (9).
    ListenFault,
    /// The disk of the journal failed, or can't be had (12).
    JournalFault,
    /// The journal can't be read from this offset on, in bytes (13).
    JournalDamaged { offset: u64 },
    /// The record of this number, from 1, is the journal's first that is wrong (14).
    JournalDiffers { entry: u32 },
}
