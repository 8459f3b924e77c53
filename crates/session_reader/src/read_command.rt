//! A command before its shapes graph is judged.
ghost use Rattle.std.specs.Prelude.{◌≡◌, [], IfOk};
ghost use Rattle.rdf_model.specs.Graphs.{with_each};
ghost use Rattle.record_text.specs.Records.{IsReadableGraph};

use bgp_query::JoinPattern;
use collections::Sequence;
use ntriples_text::TripleTable;
use rdf_model::{Pattern, Term, Triple};
use session_model::Block;
use std::alloc::AllocError;
use std::marker::Model;

/// The triples of a shapes graph, well-formed or not, each once, ascending: such as a text can give. Contracts see the list of
/// them.
#[derive(Debug, Drop)]
pub struct ShapesTriples {
    triples: Sequence<Triple>,
}

impl Model for ShapesTriples {
    ghost use Rattle.std.specs.Prelude.{List};
    ghost use Rattle.rdf_model.specs.declared.triple.Triple.{Triple};
    ghost use Rattle.record_text.specs.Records.{IsReadableGraph};

    ghost Value = { List Triple };

    ghost view = { λ s. s.triples };

    ghost invariant = { λ s. IsReadableGraph s.triples };
}

impl ShapesTriples {
    /// The triples of a table, each once, in their order.
    pub fn from_table(table: TripleTable) -> Result<ShapesTriples, AllocError>
        requires { IsReadableGraph (with_each [] table) }
        ensures { IfOk result (λ shapes. shapes ≡ with_each [] table) }
    {
        let triples = table.into_sorted()?;
        Ok(ShapesTriples { triples })
    }

    /// The triples, in their order, which ascend, and each of which a text can give.
    pub fn into_triples(self) -> Sequence<Triple>
        ensures triples { result ≡ self }
        ensures readable { IsReadableGraph result }
    {
        let ShapesTriples { triples } = self;
        triples
    }
}

/// A command as its lines are read, before its shapes graph is judged.
#[derive(Debug, Drop)]
pub enum ReadCommand {
    Begin,
    /// An addition of these triples.
    Add(Block),
    /// An addition whose block can't be read: the line of the block, from 1, and the number of the refusal's kind.
    BadAdd { line: u64, kind: u8 },
    /// A removal of these triples.
    Remove(Block),
    /// A removal whose block can't be read: the line of the block, from 1, and the number of the refusal's kind.
    BadRemove { line: u64, kind: u8 },
    /// An attachment of these triples.
    Attach(Block),
    /// An attachment whose block can't be read: the line of the block, from 1, and the number of the refusal's kind.
    BadAttach { line: u64, kind: u8 },
    /// A shapes graph, well-formed or not.
    Shapes(ShapesTriples),
    /// Shapes whose block can't be read: the line of the block, from 1, and the number of the refusal's kind.
    BadShapes { line: u64, kind: u8 },
    Commit,
    Find(Pattern),
    /// A select of the bindings of these patterns.
    Select(Sequence<JoinPattern<Term>>),
    /// A select whose block is refused: the first line of the block, from 1, that is no pattern or one too many.
    BadSelect { line: u64 },
    Report,
    Abort,
}
