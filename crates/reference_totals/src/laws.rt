//! What is promised of totals.
ghost use Rattle.reference_totals.specs.Totals.{OneTotalLaw};

/// A node has one total, where each node has one place.
pub fn totals_are_unique()
    ensures { OneTotalLaw }
{}
