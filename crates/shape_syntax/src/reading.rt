// Paths that are read from the triples of a graph (SHACL section 2.3.1).
ghost use Rattle.std.specs.Prelude.{◌≡◌, ◌+◌, ◌<◌, IfOk, MatchOption, MatchResult, map};
ghost use Rattle.std.specs.List.{Contains};
ghost use Rattle.collections.specs.Ordered.{IsAscending};
ghost use Rattle.rdf_model.specs.declared.term.Term.{Term as TermData};
ghost use Rattle.rdf_model.specs.Terms.{triple_cmp};
ghost use Rattle.shape_model.specs.Paths.{Path as DefinedPath, Paths as DefinedPaths};
ghost use Rattle.shape_model.specs.Triples.{IsBlank};
ghost use Rattle.path_ast.specs.PathReadings.{defined_path};
ghost use Rattle.shape_syntax.specs.PathNodes.{ArePathNodes, IsPath};
ghost use Rattle.shape_syntax.specs.PathDepth.{IsDeep, IsRead, IsTooDeep};
ghost use Rattle.shape_syntax.specs.PathWays.{AreDeep, AreRead, AreReadPaths, IsPathList, joined, modified};

use crate::IndexedGraph;
use crate::list::list_members;
use crate::paths::is_path;
use crate::steps::only_triple;
use crate::terms::is_iri;
use crate::way::{Join, PathModifier, joined_path, modified_path, modifier_of};
use path_ast::Path;
use rdf_model::{Term, Triple};
use std::alloc::{AllocError, Global};
use std::collections::BTreeSet;

// How deep a path is nested that is read.
const LEVELS: usize = 256;

/// Why no path was read at a node.
#[derive(Debug, Drop)]
pub enum PathFault {
    /// It stands for none.
    NotPath,
    /// It stands for one that is nested deeper than 256.
    TooDeep,
    /// There was not enough memory.
    Memory,
}

impl From<AllocError> for PathFault {
    ghost use Rattle.std.specs.Prelude.{◌≡◌};
    ghost use Rattle.shape_syntax.specs.declared.reading.PathFault.TheVariants as faults;

    ghost from_gives = { λ _ fault. fault ≡ faults.Memory };

    fn from(_error: AllocError) -> PathFault {
        PathFault::Memory
    }
}

// The path, unless it is deeper than so many levels.
#[cycle(reading)]
fn read_at(
    alloc: Global,
    graph: &IndexedGraph,
    node: &Term,
    levels: usize,
) -> Result<Option<Path<Term>>, AllocError>
    requires graph { IsAscending triple_cmp graph.now }
    requires path { IsPath graph.now node.now }
    ensures { IfOk result (λ found. MatchOption found (IsDeep graph.now node.now levels)
        (λ path. IsRead graph.now node.now levels (defined_path path))) }
{
    if is_iri(node) {
        return Ok(Some(Path::Predicate(node.clone()?)));
    }
    if levels == 0 {
        return Ok(None);
    }
    read_below(alloc, graph, node, levels - 1)
}

// The path of a blank node, unless one of its members is deeper than so many levels.
#[cycle(reading)]
fn read_below(
    alloc: Global,
    graph: &IndexedGraph,
    node: &Term,
    levels: usize,
) -> Result<Option<Path<Term>>, AllocError>
    requires graph { IsAscending triple_cmp graph.now }
    requires blank { IsBlank node.now }
    requires path { IsPath graph.now node.now }
    ensures { IfOk result (λ found. MatchOption found (IsDeep graph.now node.now (levels + 1))
        (λ path. IsRead graph.now node.now (levels + 1) (defined_path path))) }
{
    let Some(triple) = only_triple(graph, node) else {
        return read_list(alloc, graph, Join::Sequence, node, levels);
    };
    let Some(modifier) = modifier_of(&triple.predicate) else {
        return read_list(alloc, graph, Join::Alternative, &triple.object, levels);
    };
    read_modified(alloc, graph, modifier, &triple.object, levels)
}

// What the property makes of the path of its value.
#[cycle(reading)]
fn read_modified(
    alloc: Global,
    graph: &IndexedGraph,
    modifier: PathModifier,
    inner: &Term,
    levels: usize,
) -> Result<Option<Path<Term>>, AllocError>
    requires graph { IsAscending triple_cmp graph.now }
    requires path { IsPath graph.now inner.now }
    ensures { IfOk result (λ found. MatchOption found (IsDeep graph.now inner.now levels)
        (λ path. (p : DefinedPath) × IsRead graph.now inner.now levels p × (defined_path path ≡ modified modifier p))) }
{
    match read_at(alloc, graph, inner, levels)? {
        Some(path) => Ok(Some(modified_path(alloc, modifier, path)?)),
        None => Ok(None),
    }
}

// The path of the paths that the members of a list stand for, of which there are two at least.
#[cycle(reading)]
fn read_list(
    alloc: Global,
    graph: &IndexedGraph,
    join: Join,
    head: &Term,
    levels: usize,
) -> Result<Option<Path<Term>>, AllocError>
    requires graph { IsAscending triple_cmp graph.now }
    requires list { IsPathList graph.now head.now }
    ensures { IfOk result (λ found. MatchOption found (AreDeep graph.now head.now levels)
        (λ path. (ps : DefinedPaths) × AreReadPaths graph.now head.now levels ps × (defined_path path ≡ joined join ps))) }
{
    let Some(nodes) = list_members(alloc, graph, head)? else {
        return Ok(None);
    };
    let Some(mut paths) = read_each(alloc, graph, nodes.as_slice(), levels)? else {
        return Ok(None);
    };
    if paths.is_empty() {
        return Ok(None);
    }
    let first = paths.remove(0);
    Ok(Some(joined_path(alloc, join, first, paths)?))
}

#[cycle(reading)]
fn read_each(
    alloc: Global,
    graph: &IndexedGraph,
    nodes: &[Term],
    levels: usize,
) -> Result<Option<Vec<Path<Term>>>, AllocError>
    requires graph { IsAscending triple_cmp graph.now }
    requires paths { (n : TermData) → Contains nodes.now n → IsPath graph.now n }
    ensures { IfOk result (λ found. MatchOption found ((n : TermData) × Contains nodes.now n × IsDeep graph.now n levels)
        (λ paths. AreRead graph.now nodes.now levels (map defined_path paths.items))) }
{
    let mut paths = Vec::new(alloc);
    for node in nodes {
        let Some(path) = read_at(alloc, graph, node, levels)? else {
            return Ok(None);
        };
        paths.push(path)?;
    }
    Ok(Some(paths))
}

/// The path that the node stands for (SHACL section 2.3.1). The nodes are the graph's `path_nodes`. A predicate is
/// at depth 0, any other path one deeper than its deepest member.
///
/// Errors: `NotPath` where the node stands for no path, `TooDeep` where it stands for one that is deeper than 256.
pub fn read_path(
    alloc: Global,
    graph: &IndexedGraph,
    nodes: &BTreeSet<Term>,
    node: &Term,
) -> Result<Path<Term>, PathFault>
    requires graph { IsAscending triple_cmp graph.now }
    requires nodes { ArePathNodes graph.now nodes.now.keys }
    ensures { MatchResult result (λ path. IsRead graph.now node.now 256 (defined_path path))
        (λ fault. ((fault ≡ PathFault.NotPath) → IsPath graph.now node.now → ⊥) × ((fault ≡ PathFault.TooDeep) → IsTooDeep graph.now node.now 256)) }
{
    if !is_path(graph, nodes, node) {
        return Err(PathFault::NotPath);
    }
    match read_at(alloc, graph, node, LEVELS)? {
        Some(path) => Ok(path),
        None => Err(PathFault::TooDeep),
    }
}
