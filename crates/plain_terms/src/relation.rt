//! The nodes that a path joins, as pairs.
ghost use Rattle.std.specs.Prelude.{◌≡◌, IfOk, IsTrue};
ghost use Rattle.plain_terms.specs.Finds.{Finds};

use collections::{Sequence, both};
use rdf_model::Term;
use std::alloc::{AllocError, Global};

/// Two nodes that a path joins.
#[derive(Debug)]
pub struct Pair {
    pub from: Term,
    pub to: Term,
}

// By hand, so that whoever lets go of a pair makes one call.
impl Drop for Pair {
    fn drop(self) {
        let Pair { from: _, to: _ } = self;
    }
}

/// The nodes that a path joins: some pairs, and each node with itself where it can be walked without a step.
#[derive(Debug)]
pub struct Relation {
    pub pairs: Sequence<Pair>,
    pub is_reflexive: bool,
}

// By hand, as that of `Pair`.
impl Drop for Relation {
    fn drop(self) {
        let Relation {
            pairs: _,
            is_reflexive: _,
        } = self;
    }
}

/// The pair of two nodes.
pub(crate) fn pair_of(from: &Term, to: &Term) -> Result<Pair, AllocError>
    ensures { IfOk result (λ pair. pair ≡ record { from = from.now; to = to.now }) }
{
    let (from, to) = both(from.clone(), to.clone())?;
    Ok(Pair { from, to })
}

/// That pair, or none.
pub(crate) fn pair_if(
    alloc: Global,
    is_so: bool,
    from: &Term,
    to: &Term,
) -> Result<Vec<Pair>, AllocError>
    ensures { IfOk result (λ pairs. Finds (λ pair. IsTrue is_so × (pair ≡ record { from = from.now; to = to.now })) pairs.items) }
{
    let mut pairs = Vec::new(alloc);
    if is_so {
        pairs.push(pair_of(from, to)?)?;
    }
    Ok(pairs)
}
