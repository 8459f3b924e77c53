//! Clones that are equal to their source.
ghost use Rattle.std.specs.Prelude.{◌≡◌};

/// A type whose clones are equal to their source, as contracts see both.
pub trait ExactClone: Clone {
    ghost clone_is_equal: { (source copy : Self) → Self.is_clone source copy → copy ≡ source };
}
