// What the definitions of the archive say of each other.
ghost use Rattle.cta_model.specs.Kept.{KeepsLegal};

/// The history behind an ask is legal where it was legal before, for each ask that a caller makes and each that fits a session. A
/// law (this project's own), which does nothing when it runs.
pub fn histories_stay_legal()
    ensures { KeepsLegal }
{}
