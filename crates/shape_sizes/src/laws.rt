//! Laws of sizes, proved on a function that does nothing.
ghost use Rattle.shape_sizes.specs.Laws.{CountIsDefined, DeactivatedIsDefined};

/// The shapes that are deactivated, and those that have a qualified count, are those of which SHACL sections 2.1.6 and
/// 4.7.3 say so.
pub fn marks_are_those_defined()
    ensures deactivated { DeactivatedIsDefined }
    ensures count { CountIsDefined }
{}
