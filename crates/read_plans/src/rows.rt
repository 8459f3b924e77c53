//! Rows of looks, at most as many as a shape may have.
ghost use Rattle.std.specs.Prelude.{◌≡◌, ◌≤◌, ◌<◌, ◌+◌, ◌^◌, ◌∷◌, [], ◌++◌, MatchResult, length, map};
ghost use Rattle.path_ast.specs.PathReadings.{defined_path};
ghost use Rattle.shape_model.specs.Limits.{looks_limit};
ghost use Rattle.read_plans.specs.Rows.{Adds, IsStopped, read_kind};

use crate::ways::copied_way;
use crate::{LookKind, PlanFault, PlannedLook};
use path_ast::Path;
use rdf_model::Term;
use std::alloc::Global;
use std::marker::Model;

#[tactic(auto, unfolding(shape_model::specs::Limits::looks_limit))]
fn most_looks() -> usize
    ensures limit { result ≡ looks_limit }
    ensures small { result + 1 < 2 ^ 64 }
{
    4096
}

/// The rows of looks that were planned so far, at most as many as a shape may have.
#[derive(Drop)]
pub(crate) struct Rows {
    looks: Vec<PlannedLook>,
}

impl Model for Rows {
    ghost use Rattle.std.specs.Prelude.{◌≤◌, List, length};
    ghost use Rattle.read_plans.specs.declared.look.PlannedLook.{PlannedLook};
    ghost use Rattle.shape_model.specs.Limits.{looks_limit};

    ghost Value = { List PlannedLook };

    ghost use Rattle.path_ast.specs.contracts.path.Path as paths;
    ghost use Rattle.rdf_model.specs.contracts.term.Term as terms;
    ghost use Rattle.std.specs.Coded.{codes};

    ghost coded = { Prim.hlevel (codes, (paths.the_row terms.the_row).coded) };

    ghost view = { λ r. r.looks.items };

    ghost invariant = { λ r. length r.looks.items ≤ looks_limit };
}

impl Rows {
    pub(crate) fn new(alloc: Global) -> Rows
        ensures { result ≡ [] }
    {
        Rows {
            looks: Vec::new(alloc),
        }
    }

    pub(crate) fn into_vec(self) -> Vec<PlannedLook>
        ensures same { result.items ≡ self }
        ensures few { length self ≤ looks_limit }
    {
        let Rows { looks } = self;
        looks
    }

    fn push(&mut self, look: PlannedLook) -> Result<(), PlanFault>
        ensures { MatchResult result (λ done. self.new ≡ self.old ++ look ∷ []) (λ fault. IsStopped (length self.old + 1) fault) }
    {
        if self.looks.len() >= most_looks() {
            return Err(PlanFault::TooWide {
                count: most_looks() + 1,
            });
        }
        match self.looks.push(look) {
            Ok(()) => Ok(()),
            Err(_) => Err(PlanFault::Memory),
        }
    }
}

/// Adds a row with a copy of the way.
pub(crate) fn push_row(
    alloc: Global,
    way: &[Path<Term>],
    kind: LookKind,
    rows: &mut Rows,
) -> Result<(), PlanFault>
    ensures { Adds (record { way = map defined_path way.now; kind = read_kind kind } ∷ []) rows.old rows.new result }
{
    let way = copied_way(alloc, way)?;
    rows.push(PlannedLook { way, kind })
}
