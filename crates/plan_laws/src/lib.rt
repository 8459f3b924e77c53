//! That a plan has as many looks as the rules of shapes graphs count, and so is never too wide for the shapes of a
//! well-formed graph.
//!
//! Each function promises a theorem on the definitions, and does nothing.
//!
//! Storey: laws.
#![tactic(auto)]

ghost use Rattle.plan_laws.specs.Numbers.{NoneTooWide, OnlyMemory, PathNumber, PlanNumber};

/// A path has as many rows as rule 40 counts looks of it, one for each predicate in it.
pub fn path_number()
    ensures { PathNumber }
{}

/// A shape that was compiled of a well-formed shapes graph has as many rows in its plan as rule 40 counts looks of it by its
/// triples.
pub fn plan_number()
    ensures { PlanNumber }
{}

/// So no plan of such a shape has more than 4,096 rows: `read_plans::plan` answers Ok, or Memory.
pub fn none_too_wide()
    ensures wide { NoneTooWide }
    ensures fault { OnlyMemory }
{}
