//! Laws of verdicts on evidence, each proved on a function of its own.
//!
//! The functions do nothing: what each ensures is a statement about the definitions alone. A text has its blocks in one way, so that
//! it is verified or wrong at one block; what is verified are results; and the evidence of results is verified.
//!
//! Storey: laws.
#![tactic(auto)]

ghost use Rattle.verdict_laws.specs.Laws.{BlocksHaveOwnTexts, EvidenceIsVerified, VerdictsStayApart, VerifiedBlocksHold};

/// No text begins with two blocks of the format.
pub fn blocks_have_own_texts()
    ensures { BlocksHaveOwnTexts }
{}

/// No text is both verified and wrong at a block, and it is wrong at one block alone.
pub fn verdicts_stay_apart()
    ensures { VerdictsStayApart }
{}

/// Each block of a verified text shows a result of the graph, which its looks alone decide (SHACL section 3.4).
pub fn verified_blocks_hold()
    ensures { VerifiedBlocksHold }
{}

/// The text of evidence is verified.
pub fn evidence_is_verified()
    ensures { EvidenceIsVerified }
{}
