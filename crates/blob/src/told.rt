// Media of which contracts speak.

/// A medium, such as a tape, of which contracts may speak. It has no calls: its member is a meaning alone. Its label is the number of
/// the tape whose medium it is. Records count from 1 on a medium. A medium that doesn't tell its records, as one that others write too,
/// has none to name, and still has its label. This project's own.
pub trait Told {
    ghost use Rattle.blob.specs.Records.{MediumView};

    // Its label; and the records in their order with how many of the first are safe, none where the medium doesn't tell them. No call
    // changes the label, or whether it tells.
    ghost told: { Self → MediumView };
}
