//! Why there are no listings.
ghost use Rattle.std.specs.Prelude.{◌≡◌};

use ntriples_text::RefusalKind;
use rdf_model::Term;
use shape_reader::ShapeFault;
use shape_rules::RuleRow;
use std::alloc::AllocError;

/// Why there are no listings.
#[derive(Debug, Drop)]
pub enum RowsFault {
    /// The data is no N-Triples text: the refusal that counts, with its line, from 1.
    Data { line: u64, kind: RefusalKind },
    /// The data is read, and the shapes are no N-Triples text.
    Shapes { line: u64, kind: RefusalKind },
    /// Both are read, and the shapes graph isn't well-formed: the broken rule that is reported.
    Rule(RuleRow),
    /// Both are read and the shapes graph is well-formed, and the pattern of this shape was refused.
    Pattern { node: Term },
    /// There was not enough memory.
    Memory,
}

impl From<AllocError> for RowsFault {
    ghost use Rattle.plain_validation.specs.declared.fault.RowsFault.TheVariants as faults;

    ghost from_gives = { λ _ fault. fault ≡ faults.Memory };

    fn from(_error: AllocError) -> RowsFault {
        RowsFault::Memory
    }
}

impl From<ShapeFault> for RowsFault {
    ghost use Rattle.std.specs.Prelude.{◌≡◌};
    ghost use Rattle.plain_validation.specs.Rows.{rows_fault};

    ghost from_gives = { λ reading fault. fault ≡ rows_fault reading };

    fn from(reading: ShapeFault) -> RowsFault {
        match reading {
            ShapeFault::Rule(broken) => RowsFault::Rule(broken),
            ShapeFault::Pattern { node } => RowsFault::Pattern { node },
            ShapeFault::Memory => RowsFault::Memory,
        }
    }
}
