//! What is asked of a node.
ghost use Rattle.std.specs.Prelude.{◌≡◌, IfOk};

use rdf_model::Term;
use std::alloc::AllocError;

/// What is asked of a node.
#[derive(Debug, Drop)]
pub(crate) enum Claim {
    /// Whether it is a blank node that stands for a path.
    Path(Term),
    /// Whether it is the head of a list of one path or more.
    List(Term),
}

impl Claim {
    pub(crate) fn copied(&self) -> Result<Claim, AllocError>
        ensures { IfOk result (λ copy. copy ≡ self.now) }
    {
        match self {
            Claim::Path(node) => Ok(Claim::Path(node.clone()?)),
            Claim::List(node) => Ok(Claim::List(node.clone()?)),
        }
    }
}
