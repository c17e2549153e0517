// What the asks of drives are answered.
ghost use Rattle.drive_server.specs.Drives.{NoAskIsUnknown};

use cta_model::Told;

/// A step of a drive adds one call to the pass's own or none, and what comes back from it is never that the ask is unknown. A law (this
/// project's own), which does nothing when it runs.
pub fn no_ask_is_unknown<M: Told>()
    ensures { NoAskIsUnknown M.told }
{}
