//! States that stand for a list of numbered entries.
ghost use Rattle.std.specs.Prelude.{◌≡◌, ℕ, Bool, List, []};

/// A state that stands for a list of entries, each under a number.
pub trait Entries {
    type Entry;

    /// What is known of where a state comes from.
    type Plain;

    /// The entries that a state stands for, in order.
    ghost entries: { Self → List Self.Entry };

    /// Whose entry it is. No single caller owns 0.
    ghost number: { Self.Entry → ℕ };

    /// Whether any caller may make entries under 0. Else the first one alone may.
    ghost is_zero_shared: { Bool };

    ghost plain: { Self → Self.Plain };

    /// Whether a state comes from another, by the plain data of the earlier one and of the later one.
    ghost comes: { Self.Plain → Self.Plain → Type 0 };

    /// A state without an entry comes from itself.
    ghost comes_from_itself: { (state : Self) → entries state ≡ [] → comes (plain state) (plain state) };
}
