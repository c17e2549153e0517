// What trees are searched for by their sums.
ghost use Rattle.std.specs.Prelude.{◌≡◌, Bool, ◌||◌};

use crate::summed::Summed;

/// What a tree can be searched for by its sums: a test that a joined sum passes exactly where one of the two does.
pub trait Sought: Summed {
    /// What is sought.
    type Wanted: Copy;

    ghost passes: { Self.Wanted → Self.Sum → Bool };

    /// Whether an item of this sum is one that is sought, where the sum of one item says so.
    fn has_sought(sum: Self::Sum, wanted: Self::Wanted) -> bool
        ensures { result ≡ passes wanted sum };

    ghost either: { (w : Self.Wanted) (a b : Self.Sum) → passes w (Self.sums.joined a b) ≡ (passes w a || passes w b) };
}
