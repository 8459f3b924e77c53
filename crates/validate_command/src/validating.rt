//! Two files loaded, and validated or explained.
ghost use Rattle.std.specs.Prelude.{◌≡◌, List, IfErr, MatchResult};
ghost use Rattle.outside.specs.Faults.{Refusal};
ghost use Rattle.input_files.specs.Loads.{Loads};
ghost use Rattle.validate_command.specs.Faults.{IsFileFault, StopsValidation, of_file, of_texts};
ghost use Rattle.validate_command.specs.Validated.{AreExplained, AreValidated, HoldTexts, LoadsBoth};

use crate::{BadInput, ValidateFault, ValidatedFiles};
use file_validation::{Explanation, InputFault, Validation, explain, validate};
use input_files::{FileFault, load_file};
use outside::{Files, Maker};
use std::alloc::Global;
use std::thread::Threads;

// The numbers of the files.
const DATA_FILE: u32 = 1;

const SHAPES_FILE: u32 = 2;

// Why a file of this number gave no text.
pub(crate) fn file_fault(fault: FileFault, file: u32) -> ValidateFault
    ensures { result ≡ of_file fault file }
{
    match fault {
        FileFault::Failed => ValidateFault::ReadFault,
        FileFault::TooLong => ValidateFault::TooLong { file },
        FileFault::Memory => ValidateFault::Memory,
    }
}

// Why the texts were not validated.
pub(crate) fn text_fault(fault: InputFault) -> ValidateFault
    ensures { result ≡ of_texts fault }
{
    match fault {
        InputFault::Data { line, kind } => ValidateFault::BadInput(BadInput::Data { line, kind }),
        InputFault::Shapes { line, kind } => {
            ValidateFault::BadInput(BadInput::Shapes { line, kind })
        }
        InputFault::Rule(row) => ValidateFault::BadInput(BadInput::Rule(row)),
        InputFault::Pattern { node } => ValidateFault::BadInput(BadInput::Pattern { node }),
        InputFault::Memory => ValidateFault::Memory,
    }
}

// The texts of the data and of the shapes.
pub(crate) fn load_texts<F: Files>(
    alloc: Global,
    validated: &ValidatedFiles,
    files: &mut F,
) -> Result<(Vec<u8>, Vec<u8>), ValidateFault>
    ensures answer { (refused : List Refusal) → let before : Loads = record { loaded = F.loaded files.old; failed = F.failed files.old; refused = refused } in
        let after : Loads = record { loaded = F.loaded files.new; failed = F.failed files.new; refused = refused } in
        MatchResult result (λ both. HoldTexts (F.holds files.old) validated.now both.0.items both.1.items × LoadsBoth validated.now before after)
        (λ fault. StopsValidation fault (F.holds files.old) validated.now before after) }
    ensures fault { IfErr result IsFileFault }
    ensures holds { F.holds files.new ≡ F.holds files.old }
{
    let data_text = match load_file(alloc, files, validated.data_file.as_str()) {
        Ok(text) => text,
        Err(fault) => return Err(file_fault(fault, DATA_FILE)),
    };
    let shapes_text = match load_file(alloc, files, validated.shapes_file.as_str()) {
        Ok(text) => text,
        Err(fault) => return Err(file_fault(fault, SHAPES_FILE)),
    };
    Ok((data_text, shapes_text))
}

/// Validates the data file's graph by the shapes file's graph (SHACL section 3.4), and writes the report. Both are Turtle; the
/// maker builds the patterns of the shapes. The data is loaded and read first. A pattern that is told joined those that the
/// maker refused; no other one did.
pub fn validate_files<F: Files, M: Maker, R: Threads + Sync>(
    rt: &R,
    alloc: Global,
    validated: &ValidatedFiles,
    files: &mut F,
    maker: &mut M,
) -> Result<Validation, ValidateFault>
    ensures answer { let before : Loads = record { loaded = F.loaded files.old; failed = F.failed files.old; refused = M.refused maker.old } in
        let after : Loads = record { loaded = F.loaded files.new; failed = F.failed files.new; refused = M.refused maker.new } in
        MatchResult result (AreValidated (F.holds files.old) validated.now before after) (λ fault. StopsValidation fault (F.holds files.old) validated.now before after) }
{
    let (data_text, shapes_text) = match load_texts(alloc, validated, files) {
        Ok(both) => both,
        Err(fault) => return Err(fault),
    };
    match validate(rt, alloc, maker, data_text, shapes_text) {
        Ok(validation) => Ok(validation),
        Err(fault) => Err(text_fault(fault)),
    }
}

/// Explains the validation of the data file's graph by the shapes file's graph: the evidence of each of its results (SHACL
/// section 3.6), in their order. All else is as `validate_files` has it.
pub fn explain_files<F: Files, M: Maker>(
    alloc: Global,
    explained: &ValidatedFiles,
    files: &mut F,
    maker: &mut M,
) -> Result<Explanation, ValidateFault>
    ensures answer { let before : Loads = record { loaded = F.loaded files.old; failed = F.failed files.old; refused = M.refused maker.old } in
        let after : Loads = record { loaded = F.loaded files.new; failed = F.failed files.new; refused = M.refused maker.new } in
        MatchResult result (AreExplained (F.holds files.old) explained.now before after) (λ fault. StopsValidation fault (F.holds files.old) explained.now before after) }
{
    let (data_text, shapes_text) = match load_texts(alloc, explained, files) {
        Ok(both) => both,
        Err(fault) => return Err(fault),
    };
    match explain(alloc, maker, &data_text, &shapes_text) {
        Ok(explanation) => Ok(explanation),
        Err(fault) => Err(text_fault(fault)),
    }
}
