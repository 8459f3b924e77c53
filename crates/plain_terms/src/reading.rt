// The relations of the paths that nodes of a shapes graph stand for.
ghost use Rattle.std.specs.Prelude.{◌≡◌, ◌+◌, ◌≤◌, IfOk, MatchOption, codes, length};
ghost use Rattle.std.specs.List.{Contains};
ghost use Rattle.rdf_model.specs.declared.term.Term.{Term as TermData};
ghost use Rattle.shape_model.specs.Paths.{Path as DefinedPath, Paths as DefinedPaths};
ghost use Rattle.shape_model.specs.Triples.{IsBlank};
ghost use Rattle.shape_model.specs.Vocabulary.{sh};
ghost use Rattle.shape_syntax.specs.PathDepth.{IsRead};
ghost use Rattle.shape_syntax.specs.PathWays.{AreReadPaths};
ghost use Rattle.plain_terms.specs.Finds.{Finds};
ghost use Rattle.plain_terms.specs.Ways.{AreRelationsAt, AreUnread, IsOf, IsRelationAt, IsUnread, LeadsTo, joined, modified};

use crate::joins::{ends_of, of_predicate};
use crate::list_members;
use crate::relation::Relation;
use crate::ways::{
    Join, PathModifier, is_alternative, join_relations, modified_by, modifier_of, only_triple,
};
use rdf_model::{Term, Triple};
use shape_syntax::terms::{is_blank, is_iri};
use std::alloc::{AllocError, Global};

// The relation of the path that the node stands for, if that is no deeper than so many levels.
#[cycle(relations)]
fn relation_at(
    alloc: Global,
    graph: &[Triple],
    shapes: &[Triple],
    node: &Term,
    levels: usize,
) -> Result<Option<Relation>, AllocError>
    ensures { IfOk result (λ found. MatchOption found (IsUnread shapes.now node.now levels) (IsRelationAt graph.now shapes.now node.now levels)) }
{
    if is_iri(node) {
        return Ok(Some(of_predicate(alloc, graph, node)?));
    }
    if levels == 0 || !is_blank(node) {
        return Ok(None);
    }
    relation_below(alloc, graph, shapes, node, levels - 1)
}

// That of a blank node whose members are no deeper than so many levels.
#[cycle(relations)]
fn relation_below(
    alloc: Global,
    graph: &[Triple],
    shapes: &[Triple],
    node: &Term,
    levels: usize,
) -> Result<Option<Relation>, AllocError>
    requires { IsBlank node.now }
    ensures { IfOk result (λ found. MatchOption found (IsUnread shapes.now node.now (levels + 1)) (IsRelationAt graph.now shapes.now node.now (levels + 1))) }
{
    let Some(triple) = only_triple(shapes, node) else {
        return listed_relation(alloc, graph, shapes, Join::Sequence, node, levels);
    };
    let Some(modifier) = modifier_of(&triple.predicate) else {
        return offered_relation(alloc, graph, shapes, triple, levels);
    };
    modified_relation(alloc, graph, shapes, modifier, &triple.object, levels)
}

// What the property makes of the relation of its value.
#[cycle(relations)]
fn modified_relation(
    alloc: Global,
    graph: &[Triple],
    shapes: &[Triple],
    modifier: PathModifier,
    inner: &Term,
    levels: usize,
) -> Result<Option<Relation>, AllocError>
    ensures { IfOk result (λ found. MatchOption found (IsUnread shapes.now inner.now levels)
        (λ r. (p : DefinedPath) × IsRead shapes.now inner.now levels p × IsOf graph.now (modified modifier p) r)) }
{
    match relation_at(alloc, graph, shapes, inner, levels)? {
        Some(relation) => Ok(Some(modified_by(alloc, modifier, &relation)?)),
        None => Ok(None),
    }
}

// The relation of the alternatives that are the object of the triple, if its predicate says so.
#[cycle(relations)]
fn offered_relation(
    alloc: Global,
    graph: &[Triple],
    shapes: &[Triple],
    triple: &Triple,
    levels: usize,
) -> Result<Option<Relation>, AllocError>
    ensures { IfOk result (λ found. MatchOption found (triple.now.predicate ≡ sh (codes "alternativePath") → AreUnread shapes.now triple.now.object levels)
        (λ r. (triple.now.predicate ≡ sh (codes "alternativePath")) × ((ps : DefinedPaths) × AreReadPaths shapes.now triple.now.object levels ps × IsOf graph.now (joined Join.Alternative ps) r))) }
{
    if !is_alternative(&triple.predicate) {
        return Ok(None);
    }
    listed_relation(
        alloc,
        graph,
        shapes,
        Join::Alternative,
        &triple.object,
        levels,
    )
}

// The relation of the paths of the list, of which there are two at least.
#[cycle(relations)]
fn listed_relation(
    alloc: Global,
    graph: &[Triple],
    shapes: &[Triple],
    join: Join,
    head: &Term,
    levels: usize,
) -> Result<Option<Relation>, AllocError>
    ensures { IfOk result (λ found. MatchOption found (AreUnread shapes.now head.now levels)
        (λ r. (ps : DefinedPaths) × AreReadPaths shapes.now head.now levels ps × IsOf graph.now (joined join ps) r)) }
{
    let Some(members) = list_members(alloc, shapes, head)? else {
        return Ok(None);
    };
    if members.len() < 2 {
        return Ok(None);
    }
    match relations_at(alloc, graph, shapes, members.as_slice(), levels)? {
        Some(relations) => Ok(Some(join_relations(alloc, join, &relations)?)),
        None => Ok(None),
    }
}

// The relation of each of the nodes, if all stand for paths.
#[cycle(relations)]
fn relations_at(
    alloc: Global,
    graph: &[Triple],
    shapes: &[Triple],
    nodes: &[Term],
    levels: usize,
) -> Result<Option<Vec<Relation>>, AllocError>
    ensures { IfOk result (λ found. MatchOption found ((n : TermData) × Contains nodes.now n × IsUnread shapes.now n levels)
        (λ relations. AreRelationsAt graph.now shapes.now nodes.now levels relations.items)) }
{
    let mut relations = Vec::new(alloc);
    for node in nodes {
        let Some(relation) = relation_at(alloc, graph, shapes, node, levels)? else {
            return Ok(None);
        };
        relations.push(relation)?;
    }
    Ok(Some(relations))
}

/// The nodes to which the path leads from the focus node, maybe several times, where the node of the shapes graph stands
/// for a path; none where it stands for none.
pub fn path_values(
    alloc: Global,
    graph: &[Triple],
    shapes: &[Triple],
    node: &Term,
    focus: &Term,
) -> Result<Vec<Term>, AllocError>
    ensures { IfOk result (λ values. Finds (LeadsTo graph.now shapes.now node.now focus.now) values.items) }
{
    match relation_at(alloc, graph, shapes, node, shapes.len())? {
        Some(relation) => ends_of(alloc, &relation, focus),
        None => Ok(Vec::new(alloc)),
    }
}
