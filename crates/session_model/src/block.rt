// What stands in the blocks of commands.
ghost use Rattle.std.specs.Prelude.{◌≡◌, ◌+◌, ◌<◌, ◌^◌, [], Ok, IfOk, MatchResult, length};
ghost use Rattle.rdf_lexical.specs.Refusals.{Refuses};
ghost use Rattle.rdf_model.specs.Graphs.{with_each};
ghost use Rattle.ntriples_text.specs.Document.{reads_named};
ghost use Rattle.record_text.specs.Records.{IsReadableGraph};

use ntriples_text::{ReadFault, TripleTable};
use numbered_lists::TripleList;
use shapes_graph::ShapesGraph;
use std::alloc::{AllocError, Global};
use std::marker::Model;

/// The triples of a block, each once, ascending: such as a text can give, with the blank nodes that the store names. They are kept
/// by the places of their terms. Contracts see the list of them.
#[derive(Debug, Drop)]
pub struct Block {
    list: TripleList,
}

impl Model for Block {
    ghost use Rattle.std.specs.Prelude.{List};
    ghost use Rattle.rdf_model.specs.declared.triple.Triple.{Triple};
    ghost use Rattle.record_text.specs.Records.{IsReadableGraph};

    ghost Value = { List Triple };

    ghost view = { λ b. b.list };

    ghost invariant = { λ b. IsReadableGraph b.list };
}

impl Block {
    /// The block of the triples of a table, each once, in their order. It fails for want of memory, or where there are more than
    /// 2^32 - 1 terms.
    pub fn from_table(alloc: Global, table: TripleTable) -> Result<Block, AllocError>
        requires { IsReadableGraph (with_each [] table) }
        ensures { IfOk result (λ block. block ≡ with_each [] table) }
    {
        let list = TripleList::from_table(alloc, table)?;
        Ok(Block { list })
    }

    /// The block of no triple. It takes no memory.
    pub fn empty(alloc: Global) -> Block
        ensures { result ≡ [] }
    {
        Block {
            list: TripleList::new(alloc),
        }
    }

    /// The block of a text of N-Triples 1.1 whose labels are those of the store, or the refusal that counts.
    pub fn read_named(alloc: Global, text: &[u8]) -> Result<Block, ReadFault>
        requires { 1 + length text.now < 2 ^ 32 }
        ensures { let reading = reads_named text.now in
            MatchResult result (λ block. reading ≡ Ok block) (λ fault. Refuses fault reading) }
    {
        let table = ntriples_text::read_named_numbered(alloc, text)?;
        let block = Block::from_table(alloc, table)?;
        Ok(block)
    }

    /// The triples, in their order, which ascend, and each of which a text can give.
    pub fn into_list(self) -> TripleList
        ensures triples { result ≡ self }
        ensures readable { IsReadableGraph result }
    {
        let Block { list } = self;
        list
    }

    /// How many triples there are.
    pub fn len(&self) -> usize
        ensures { result ≡ length self.now }
    {
        self.list.len()
    }
}

/// The shapes graph of a block, whose triples are such as a text can give, with the blank nodes that the store names.
/// Contracts see the list of its triples.
#[derive(Debug, Drop)]
pub struct ShapesBlock {
    shapes: ShapesGraph,
}

impl Model for ShapesBlock {
    ghost use Rattle.std.specs.Prelude.{List};
    ghost use Rattle.rdf_model.specs.declared.triple.Triple.{Triple};
    ghost use Rattle.record_text.specs.Records.{IsReadableGraph};

    ghost Value = { List Triple };

    ghost view = { λ b. b.shapes };

    ghost invariant = { λ b. IsReadableGraph b.shapes };
}

impl ShapesBlock {
    /// The block of this shapes graph.
    pub fn new(shapes: ShapesGraph) -> ShapesBlock
        requires { IsReadableGraph shapes }
        ensures { result ≡ shapes }
    {
        ShapesBlock { shapes }
    }

    /// The shapes graph.
    pub fn graph(&self) -> &ShapesGraph
        ensures { result.now ≡ self.now }
    {
        &self.shapes
    }

    /// The triples of the graph ascend, and a text can give each.
    pub fn recall_readable(&self)
        ensures { IsReadableGraph self.now }
    {
        let _ = &self.shapes;
    }
}
