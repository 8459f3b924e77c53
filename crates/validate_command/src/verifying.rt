//! Three files loaded, and their evidence verified.
ghost use Rattle.std.specs.Prelude.{◌≡◌, List, MatchResult};
ghost use Rattle.outside.specs.Faults.{Refusal};
ghost use Rattle.input_files.specs.Loads.{Loads};
ghost use Rattle.validate_command.specs.Verified.{AreVerified, HoldAll, LoadsAll, StopsVerification};

use crate::validating::{file_fault, load_texts, text_fault};
use crate::{ValidateFault, VerifiedFiles};
use file_validation::{EvidenceVerdict, verify};
use input_files::load_file;
use outside::{Files, Maker};
use std::alloc::Global;

// The number of the file of the evidence.
const EVIDENCE_FILE: u32 = 3;

// The texts of the data, of the shapes and of the evidence.
#[derive(Drop)]
struct Texts {
    data_text: Vec<u8>,
    shapes_text: Vec<u8>,
    evidence_text: Vec<u8>,
}

fn load_all<F: Files>(
    alloc: Global,
    verified: &VerifiedFiles,
    files: &mut F,
) -> Result<Texts, ValidateFault>
    ensures { (refused : List Refusal) → let before : Loads = record { loaded = F.loaded files.old; failed = F.failed files.old; refused = refused } in
        let after : Loads = record { loaded = F.loaded files.new; failed = F.failed files.new; refused = refused } in
        MatchResult result (λ all. HoldAll (F.holds files.old) verified.now all.data_text.items all.shapes_text.items all.evidence_text.items × LoadsAll verified.now before after)
        (λ fault. StopsVerification fault (F.holds files.old) verified.now before after) }
{
    let (data_text, shapes_text) = match load_texts(alloc, &verified.graphs, files) {
        Ok(both) => both,
        Err(fault) => return Err(fault),
    };
    let evidence_text = match load_file(alloc, files, verified.evidence_file.as_str()) {
        Ok(text) => text,
        Err(fault) => return Err(file_fault(fault, EVIDENCE_FILE)),
    };
    Ok(Texts {
        data_text,
        shapes_text,
        evidence_text,
    })
}

/// Says whether the evidence file's text is evidence of results of validating the data file's graph by the shapes file's graph
/// (SHACL section 3.6), block by block. The evidence is loaded last. All else is as `validate_files` has it.
pub fn verify_files<F: Files, M: Maker>(
    alloc: Global,
    verified: &VerifiedFiles,
    files: &mut F,
    maker: &mut M,
) -> Result<EvidenceVerdict, ValidateFault>
    ensures answer { let before : Loads = record { loaded = F.loaded files.old; failed = F.failed files.old; refused = M.refused maker.old } in
        let after : Loads = record { loaded = F.loaded files.new; failed = F.failed files.new; refused = M.refused maker.new } in
        MatchResult result (AreVerified (F.holds files.old) verified.now before after) (λ fault. StopsVerification fault (F.holds files.old) verified.now before after) }
{
    let texts = match load_all(alloc, verified, files) {
        Ok(texts) => texts,
        Err(fault) => return Err(fault),
    };
    match verify(
        alloc,
        maker,
        &texts.data_text,
        &texts.shapes_text,
        &texts.evidence_text,
    ) {
        Ok(verdict) => Ok(verdict),
        Err(fault) => Err(text_fault(fault)),
    }
}
