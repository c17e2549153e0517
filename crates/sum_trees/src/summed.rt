// What trees order and sum.
ghost use Rattle.std.specs.Prelude.{◌≡◌, ℕ, Bool, true, false, ◌||◌};
ghost use Rattle.sum_trees.specs.Sums.{Sums};

/// What a tree can hold: items with an order, and with sums that can be joined.
pub trait Summed: Copy {
    /// The sum of items.
    type Sum: Copy;

    ghost before: { Self → Self → Bool };

    ghost sums: { Sums Self Self.Sum };

    /// Whether this item comes before the other one.
    fn is_before(&self, other: &Self) -> bool
        ensures { result ≡ before self.now other.now };

    /// The sum of this item alone.
    fn sum(&self) -> Self::Sum
        ensures { result ≡ sums.own self.now };

    /// The sum of the items of two sums, the first before the second.
    fn join(first: Self::Sum, second: Self::Sum) -> Self::Sum
        ensures { result ≡ sums.joined first second };

    ghost joins: { (a b c : Self.Sum) → sums.joined (sums.joined a b) c ≡ sums.joined a (sums.joined b c) };

    ghost one_way: { (a b : Self) → before a b ≡ true → before b a ≡ false };

    ghost splits: { (a b c : Self) → before a c ≡ true → (before a b || before b c) ≡ true };
}
