//! Why two texts were not validated.
ghost use Rattle.std.specs.Prelude.{◌≡◌};

use rdf_lexical::RefusalKind;
use rdf_model::Term;
use shape_reader::ShapeFault;
use shape_rules::RuleRow;
use std::alloc::AllocError;

/// Why two texts were not validated.
#[derive(Debug, Drop)]
pub enum InputFault {
    /// The data is no Turtle text: the refusal that counts, with its line, from 1.
    Data { line: u64, kind: RefusalKind },
    /// The data is read, and the shapes are no Turtle text.
    Shapes { line: u64, kind: RefusalKind },
    /// Both are read, and the shapes graph isn't well-formed (SHACL section 3.4.2): the least of its broken rules.
    Rule(RuleRow),
    /// Both are read and the shapes graph is well-formed, and the pattern of this shape was refused.
    Pattern { node: Term },
    /// There was not enough memory, or there were more terms than numbers for them, which are 2^32 - 1.
    Memory,
}

impl From<AllocError> for InputFault {
    ghost use Rattle.file_validation.specs.declared.fault.InputFault.TheVariants as faults;

    ghost from_gives = { λ _ fault. fault ≡ faults.Memory };

    fn from(_error: AllocError) -> InputFault {
        InputFault::Memory
    }
}

impl From<ShapeFault> for InputFault {
    ghost use Rattle.file_validation.specs.Validations.{input_fault};

    ghost from_gives = { λ reading fault. fault ≡ input_fault reading };

    fn from(reading: ShapeFault) -> InputFault {
        match reading {
            ShapeFault::Rule(row) => InputFault::Rule(row),
            ShapeFault::Pattern { node } => InputFault::Pattern { node },
            ShapeFault::Memory => InputFault::Memory,
        }
    }
}
