// What a follower serves.
use page_index::Pages;
use rdf_model::Triple;
use std::alloc::AllocError;
use term_dict::Dict;
use triple_index::Index;

/// A version: the graphs after its records. It stays as it is whatever the follower is fed later.
pub struct Served {
    /// How many records made it.
    pub version: u64,
    /// The data graph, by the numbers of its terms.
    pub graph: Index,
    /// The terms of the numbers. There may be more of them than the graph has.
    pub names: Dict,
    /// The triples of the shapes graph.
    pub shapes: Pages<Triple>,
}

// Written by hand, so that what owns one calls it in place of having it written out.
impl Drop for Served {
    fn drop(self) {
        let Served {
            version: _,
            graph: _,
            names: _,
            shapes: _,
        } = self;
    }
}

/// Why a version isn't served.
#[derive(Clone, Copy, Debug, PartialEq, Eq)]
pub enum AtFault {
    /// It is over this version, the newest there is.
    Unserved { version: u64 },
    /// Memory ran out.
    Memory,
}

impl From<AllocError> for AtFault {
    ghost use Rattle.std.specs.Prelude.{◌≡◌};
    ghost use Rattle.follower.specs.declared.served.AtFault.TheVariants.{Memory};

    ghost from_gives = { λ _ fault. fault ≡ Memory };

    fn from(_: AllocError) -> AtFault {
        AtFault::Memory
    }
}
