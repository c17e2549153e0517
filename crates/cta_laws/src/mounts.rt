// Laws of mounts.
ghost use Rattle.cta_laws.specs.Mounts.{ClaimsNothingAfterEnd, KeepsQuota, MountsChoice, OpenMountStays, TapesAreMountedOnce};

/// Wherever a history is cut, the open mounts of a virtual organisation in one direction are at most its quota. This
/// project's own.
pub fn keeps_quota()
    ensures { KeepsQuota }
{}

/// Each accepted Next mounts the choice at its place: the first of all warranted queues that fit the drive. This project's own.
pub fn mounts_choice()
    ensures { MountsChoice }
{}

/// After its End a mount is not open, and claims nothing. This project's own.
pub fn claims_nothing_after_end()
    ensures { ClaimsNothingAfterEnd }
{}

/// An open mount stays: while entries are about others, it is open and claims the same jobs, the items of its tape are those of
/// before, and each place on its tape was one before. This project's own.
pub fn open_mount_stays()
    ensures { OpenMountStays }
{}

/// A tape is in at most one open mount. This project's own.
pub fn tapes_are_mounted_once()
    ensures { TapesAreMountedOnce }
{}
