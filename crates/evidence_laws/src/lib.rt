//! Laws of evidence, each proved on a function of its own.
//!
//! The functions do nothing: what each ensures is a statement about the definitions alone. They say why a block is evidence:
//! whoever finds a result among the triples that the block lists knows that it is one of the whole graph.
//!
//! Storey: laws.
#![tactic(auto)]

ghost use Rattle.evidence_laws.specs.Shown.{EvidenceIsShown, LooksAloneDecide, ShownBlocksHold};

/// What a block shows by the triples that it lists is a result of the whole graph (SHACL section 3.4).
pub fn shown_blocks_hold()
    ensures { ShownBlocksHold }
{}

/// The evidence of a result shows it.
pub fn evidence_is_shown()
    ensures { EvidenceIsShown }
{}

/// The looks of a block alone decide its result: it is one in each graph that has the same triples at them.
pub fn looks_alone_decide()
    ensures { LooksAloneDecide }
{}
