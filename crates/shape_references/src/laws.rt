// Each function promises a theorem on the definitions, and does nothing.
ghost use Rattle.shape_references.specs.Laws.{ChainLaw};

/// A chain of references leads on as the steps of a repeated path do.
pub fn chain_law()
    ensures { ChainLaw }
{}
