//! Why no shapes were compiled or read.
use rdf_model::Term;
use shape_rules::RuleRow;
use std::alloc::AllocError;

/// Why the shapes of a well-formed shapes graph were not compiled.
#[derive(Debug, Drop)]
pub enum CompileFault {
    /// The maker refused the pattern of this shape.
    Pattern { node: Term },
    /// There was not enough memory.
    Memory,
}

impl From<AllocError> for CompileFault {
    ghost use Rattle.std.specs.Prelude.{◌≡◌};
    ghost use Rattle.shape_reader.specs.declared.fault.CompileFault.TheVariants as faults;

    ghost from_gives = { λ _ fault. fault ≡ faults.Memory };

    fn from(_error: AllocError) -> CompileFault {
        CompileFault::Memory
    }
}

/// Why no shapes were read of a shapes graph.
#[derive(Debug, Drop)]
pub enum ShapeFault {
    /// The graph isn't well-formed (SHACL section 3.4.2): the least of the broken rules.
    Rule(RuleRow),
    /// It is, and the maker refused the pattern of this shape.
    Pattern { node: Term },
    /// There was not enough memory.
    Memory,
}

impl From<AllocError> for ShapeFault {
    ghost use Rattle.std.specs.Prelude.{◌≡◌};
    ghost use Rattle.shape_reader.specs.declared.fault.ShapeFault.TheVariants as faults;

    ghost from_gives = { λ _ fault. fault ≡ faults.Memory };

    fn from(_error: AllocError) -> ShapeFault {
        ShapeFault::Memory
    }
}

impl From<CompileFault> for ShapeFault {
    ghost use Rattle.std.specs.Prelude.{◌≡◌};
    ghost use Rattle.shape_reader.specs.Faults.{shape_fault};

    ghost from_gives = { λ compiling fault. fault ≡ shape_fault compiling };

    fn from(compiling: CompileFault) -> ShapeFault {
        match compiling {
            CompileFault::Pattern { node } => ShapeFault::Pattern { node },
            CompileFault::Memory => ShapeFault::Memory,
        }
    }
}
