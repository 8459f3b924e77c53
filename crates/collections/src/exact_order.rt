//! Orders that tell all apart that aren't equal.
ghost use Rattle.std.specs.Prelude.{◌≡◌};
ghost use Rattle.std.specs.declared.cmp.Ordering.TheVariants.{Equal};

/// A type whose order finds no difference only between equals, as contracts see both.
pub trait ExactOrder: Ord {
    ghost tied_is_equal: { (first second : Self) → Self.cmp first second ≡ Equal → first ≡ second };
}

impl ExactOrder for u32 {
    ghost use Rattle.std.specs.FinMap.{nat_cmp-IsAntisymmetric};

    ghost tied_is_equal = { nat_cmp-IsAntisymmetric };
}

impl ExactOrder for (u32, u32) {
    ghost use Rattle.collections.specs.Pairs.{pair_exact};

    ghost tied_is_equal = { pair_exact };
}
