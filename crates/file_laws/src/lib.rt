//! Laws of the evidence of two files, each proved on a function of its own.
//!
//! The functions do nothing: what each ensures is a statement about the definitions alone. The evidence that is given of a data file
//! and a shapes file is verified of them, and no text has two verdicts.
//!
//! Storey: laws.
#![tactic(auto)]

ghost use Rattle.file_laws.specs.Laws.{ExplanationsAreVerified, GivenEvidenceIsVerified, VerdictsAreOne};

/// What explains the validation of two texts is verified of them, with the number of its blocks.
pub fn explanations_are_verified()
    ensures { ExplanationsAreVerified }
{}

/// A text of evidence has one verdict of two texts.
pub fn verdicts_are_one()
    ensures { VerdictsAreOne }
{}

/// Where a file holds the evidence that was given of two files, and these hold what they held, the verdict is that all its blocks show
/// their results.
pub fn given_evidence_is_verified()
    ensures { GivenEvidenceIsVerified }
{}
