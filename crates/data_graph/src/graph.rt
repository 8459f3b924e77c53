//! A data graph with its shapes graph and numbers for the terms of both.
ghost use Rattle.std.specs.Prelude.{◌≡◌, ◌+◌, ◌<◌, ◌≤◌, ◌^◌, [], IfErr, IfOk, OnErr, OnOk, length, map};
ghost use Rattle.rdf_model.specs.Graphs.{after, differing, with_each};
ghost use Rattle.rdf_model.specs.Numbers.{AreNumbered, graph_of, triple_at};
ghost use Rattle.rdf_model.specs.Terms.{triple_cmp};
ghost use Rattle.collections.specs.Ordered.{IsAscending, has_item};
ghost use Rattle.std.specs.List.{AllByRecursion};
ghost use Rattle.bgp_query.specs.Selected.{AreSelected, IsJoinFault};
ghost use Rattle.store_model.specs.Finds.{found};
ghost use Rattle.store_model.specs.Store.{AreNamed, looked_at};
ghost use Rattle.parallel_validate.specs.Verdicts.{IsEvaluated};
ghost use Rattle.term_dict.specs.Faults.{IsCause};
ghost use Rattle.term_dict.specs.Names.{AreNumbersOf, first_terms, with_terms};
ghost use Rattle.triple_index.specs.Changes.{IsNumbered, IsNumberedChange, change_at};
ghost use Rattle.parallel_validate.specs.Counting.{GrowsByCount, IsTargetPair};
ghost use Rattle.parallel_validate.specs.Named.{AreNamedTriples};
ghost use Rattle.change_laws.specs.Pairs.{IsCheckFootprint};
ghost use Rattle.kept_rows.specs.Laws.{ChecksPairs, KeepsResults};
ghost use Rattle.data_graph.specs.Changes.{IsCheckByNumber};
ghost use Rattle.data_graph.specs.DataGraphs.{AreNamedChanges, IsIndexOf, names_of, triples_at, with_changes, with_names, with_shapes};

use crate::asked::sorted_after_asked;
use crate::at_once::set_after;
use crate::by_number::{has_triple, sorted_triples, triples_asked};
use crate::changed::ids_differing;
use crate::changes::{NumberedCheck, PairedChanges, check_by_number, paired_changes};
use crate::hints::NumberHints;
use crate::numbering::{CLASS_WORDS, index_after, kept_by, number_changes, triples_changed};
use crate::select::select_after;
use bgp_query::{JoinFault, JoinPattern};
use bound_shapes::BoundShapes;
use collections::{Sequence, both};
use kept_rows::{KeptRows, PairRows};
use numbered_lists::Net;
use overlay_view::Overlay;
use parallel_validate::is_without_shapes;
use rdf_model::{Ids, Pattern, Term, Triple, Triples};
use shape_eval::Steps;
use shapes_graph::ShapesGraph;
use std::alloc::{AllocError, Global};
use std::marker::Model;
use std::sync::ledger::Ledger;
use std::thread::Threads;
use term_dict::{Dict, NameFault};
use triple_index::{Index, NumberedChange};

/// A data graph with the shapes graph by which it is validated, and numbers for the terms of both. Contracts see its triples,
/// those of its shapes graph, the terms by their numbers, and how many may be named beside the two first. It keeps its triples
/// by their numbers alone. The shapes are bound to the numbers once.
pub struct DataGraph {
    alloc: Global,
    names: Dict,
    numbers: Index,
    shapes: BoundShapes,
}

impl Model for DataGraph {
    ghost use Rattle.bound_shapes.specs.Bound.{IsBoundTo};
    ghost use Rattle.rdf_model.specs.Numbers.{AreNumbered};
    ghost use Rattle.data_graph.specs.DataGraphs.{HaveClassWords, NamedGraph, triples_at};

    ghost Value = { NamedGraph };

    ghost view = { λ g. record { triples = triples_at g.names.terms g.numbers; shapes = g.shapes.graph; terms = g.names.terms; limit = g.names.limit } };

    ghost invariant = { λ g. HaveClassWords g.names.terms × AreNumbered g.names.terms g.numbers × IsBoundTo g.names.terms g.shapes };
}

// Written by hand, so that what owns one calls it in place of having it written out.
impl Drop for DataGraph {
    fn drop(self) {
        let DataGraph {
            alloc: _,
            names: _,
            numbers: _,
            shapes: _,
        } = self;
    }
}

impl DataGraph {
    /// A graph with no triple and no shape, where rdf:type and rdfs:subClassOf are named, and as many terms beside
    /// them may be as the limit says.
    pub fn new(alloc: Global, limit: usize) -> Result<DataGraph, AllocError>
        requires { limit + 2 < 2 ^ 32 }
        ensures { IfOk result (λ graph. graph ≡ record { triples = []; shapes = []; terms = first_terms; limit = limit }) }
    {
        let names = Dict::new(alloc, limit)?;
        let shapes = BoundShapes::new(alloc, &names, CLASS_WORDS, ShapesGraph::empty(alloc)?)?;
        Ok(DataGraph {
            alloc,
            names,
            numbers: Index::new(alloc),
            shapes,
        })
    }

    /// Another graph that is the same. It copies no triple and no term, and neither sees a later change of
    /// the other. It fails only where the owners of one page can't be counted.
    pub fn share(&self) -> Result<DataGraph, AllocError>
        ensures { IfOk result (λ share. share ≡ self.now) }
    {
        self.with_numbers(self.numbers.share()?)
    }

    // The graph of these triples, under the same shapes, by the same names.
    fn with_numbers(&self, numbers: Index) -> Result<DataGraph, AllocError>
        requires { AreNumbered self.now.terms numbers }
        ensures { IfOk result (λ graph. graph ≡ record { triples = triples_at self.now.terms numbers; shapes = self.now.shapes; terms = self.now.terms; limit = self.now.limit }) }
    {
        let (names, shapes) = both(self.names.share(), self.shapes.share())?;
        Ok(DataGraph {
            alloc: self.alloc,
            names,
            numbers,
            shapes,
        })
    }

    /// How many triples there are. It takes no memory.
    pub fn len(&self) -> usize
        ensures { result ≡ length self.now.triples }
    {
        self.names.recall_numbering();
        self.numbers.recall_ascending();
        self.numbers.len()
    }

    /// Whether the triple is in the graph. A triple of which a term has no number isn't. It takes no memory.
    pub fn contains(&self, triple: &Triple) -> bool
        ensures { result ≡ has_item triple_cmp triple.now self.now.triples }
    {
        has_triple(&self.names, &self.numbers, triple)
    }

    /// The shapes graph.
    pub fn shapes(&self) -> &ShapesGraph
        ensures { result.now ≡ self.now.shapes }
    {
        self.shapes.graph()
    }

    /// The names of terms.
    pub fn names(&self) -> &Dict
        ensures { result.now ≡ names_of self.now }
    {
        &self.names
    }

    /// Names terms, as `Dict::name_all` does. After an error the graph is as it was.
    pub fn name_all(&mut self, terms: &[Term]) -> Result<Vec<u32>, NameFault>
        ensures ok { OnOk result (self.new ≡ with_names self.old terms.now) }
        ensures numbers { IfOk result (λ numbers. AreNumbersOf self.new.terms terms.now numbers.items) }
        ensures fits { OnOk result (length (with_terms self.old.terms terms.now) ≤ self.old.limit + 2) }
        ensures err { OnErr result (self.new ≡ self.old) }
        ensures cause { IfErr result (λ fault. IsCause fault (names_of self.old) terms.now) }
    {
        let numbers = self.names.name_all(terms)?;
        Ok(numbers)
    }

    /// The triples by the numbers of their terms.
    pub fn index(&self) -> &Index
        ensures triples { triples_at self.now.terms result.now ≡ self.now.triples }
        ensures index { IsIndexOf self.now.terms result.now self.now.triples }
        ensures ascending { IsAscending triple_cmp self.now.triples }
    {
        &self.numbers
    }

    /// The graph after the changes, whose terms are all named. It shares with this one what they leave.
    pub fn after(&self, net: &Net, hints: &NumberHints) -> Result<DataGraph, AllocError>
        requires { AreNamedChanges self.now.terms net.now }
        ensures { IfOk result (λ next. next ≡ with_changes self.now net.now) }
    {
        let numbers = index_after(self.alloc, &self.names, &self.numbers, net, hints)?;
        self.with_numbers(numbers)
    }

    /// The graph after the changes, as `after` makes it; the numbers of the triples that are in exactly one of this graph and that
    /// one, in any order, and some maybe more than once; and the changes by the numbers of their terms, in their order.
    pub fn after_with_changed(
        &self,
        net: &Net,
        hints: &NumberHints,
    ) -> Result<(DataGraph, Vec<Ids>, Vec<NumberedChange>), AllocError>
        requires { AreNamedChanges self.now.terms net.now }
        ensures next { IfOk result (λ made. made.0 ≡ with_changes self.now net.now) }
        ensures changed { IfOk result (λ made. (with_each [] (graph_of self.now.terms made.1.items) ≡ differing self.now.triples (after self.now.triples net.now)) × AreNumbered self.now.terms made.1.items) }
        ensures net { IfOk result (λ made. (map (change_at self.now.terms) made.2.items ≡ net.now) × AllByRecursion (IsNumberedChange self.now.terms) made.2.items) }
    {
        self.names.recall_numbering();
        self.numbers.recall_ascending();
        let changes = number_changes(self.alloc, &self.names, net, hints)?;
        let numbers = set_after(self.alloc, &self.numbers, &changes)?;
        let changed = ids_differing(self.alloc, &self.names, &self.numbers, &numbers, &changes)?;
        let next = self.with_numbers(numbers)?;
        Ok((next, changed, changes))
    }

    /// Whether the triple of these numbers is in the graph. It takes no memory, and looks at no term.
    pub fn contains_numbers(&self, ids: Ids) -> bool
        requires { IsNumbered self.now.terms ids }
        ensures { result ≡ has_item triple_cmp (triple_at self.now.terms ids) self.now.triples }
    {
        self.names.recall_numbering();
        self.numbers.contains(ids)
    }

    /// The graph after changes by the numbers of their terms, as `after` makes it. It looks at no term.
    pub fn after_numbers(&self, changes: &[NumberedChange]) -> Result<DataGraph, AllocError>
        requires { AllByRecursion (IsNumberedChange self.now.terms) changes.now }
        ensures { IfOk result (λ next. next ≡ with_changes self.now (map (change_at self.now.terms) changes.now)) }
    {
        self.names.recall_numbering();
        self.numbers.recall_ascending();
        let numbers = set_after(self.alloc, &self.numbers, changes)?;
        self.with_numbers(numbers)
    }

    /// The triples of these numbers, ascending, each once.
    pub fn triples_of(&self, ids: &[Ids]) -> Result<Vec<Triple>, AllocError>
        requires { AreNumbered self.now.terms ids.now }
        ensures { IfOk result (λ triples. triples.items ≡ with_each [] (graph_of self.now.terms ids.now)) }
    {
        let triples = sorted_triples(self.alloc, &self.names, ids)?;
        Ok(triples)
    }

    /// Puts another shapes graph in the place of the one that is there. All its terms are named; its shapes are bound
    /// to their numbers here. After an error the graph is as it was.
    pub fn replace_shapes(&mut self, shapes: ShapesGraph) -> Result<(), AllocError>
        requires { AreNamedTriples self.old.terms shapes }
        ensures ok { OnOk result (self.new ≡ with_shapes self.old shapes) }
        ensures err { OnErr result (self.new ≡ self.old) }
    {
        self.shapes = BoundShapes::new(self.alloc, &self.names, CLASS_WORDS, shapes)?;
        Ok(())
    }

    /// The triples that the pattern asks for in the graph with these changes, in their order. It looks at
    /// the changes, and at those triples alone that stand side by side for the pattern in one of the orders of
    /// their numbers; at all where it gives no term.
    pub fn find(
        &self,
        alloc: Global,
        net: &Net,
        pattern: &Pattern,
    ) -> Result<Vec<Triple>, AllocError>
        ensures { IfOk result (λ v. v.items ≡ found (after self.now.triples net.now) pattern.now) }
    {
        let triples = triples_asked(alloc, &self.names, &self.numbers, pattern)?;
        sorted_after_asked(alloc, triples, net, pattern)
    }

    /// The bindings of the patterns in the graph with these changes: the terms of the variables, from the first on, under which
    /// each pattern stands there (SPARQL 1.1 Query, section 18.3), each once, ascending. `TooMany` comes exactly where there
    /// are more than 100,000.
    pub fn select(
        &self,
        net: &Net,
        patterns: &[JoinPattern<Term>],
    ) -> Result<Vec<Sequence<Term>>, JoinFault>
        ensures rows { IfOk result (λ rows. AreSelected (after self.now.triples net.now) patterns.now rows.items) }
        ensures fault { IfErr result (λ fault. IsJoinFault fault (after self.now.triples net.now) patterns.now) }
    {
        select_after(self.alloc, &self.names, self.index(), net, patterns)
    }

    /// The results of validating the graph by its shapes graph (SHACL section 3.6), each with the pair of a shape and a focus
    /// node that gives it. Without shapes the graph isn't read. The evaluations are counted in `steps`: there are as many as
    /// there are pairs of a shape and its target, and threads share them out among each other. After an error the count is what it
    /// was, or more.
    pub fn kept_results<L: Ledger, T: Threads + Sync>(
        &self,
        rt: &T,
        steps: &mut Steps<L>,
    ) -> Result<KeptRows, AllocError>
        ensures rows { IfOk result (KeepsResults self.now.terms self.now.triples self.now.shapes) }
        ensures steps { OnOk result (GrowsByCount (IsTargetPair self.now.triples self.now.shapes) steps.old steps.new) }
        ensures counted { steps.old ≤ steps.new }
    {
        if is_without_shapes(self.shapes.graph()) {
            return Ok(KeptRows::new(self.alloc));
        }
        kept_by(
            rt,
            self.alloc,
            &self.names,
            self.index(),
            &self.shapes,
            steps,
        )
    }

    // What checking the changes finds, by number; `later` has the triples after them.
    fn checked_after<S: Triples + Sync, L: Ledger, T: Threads + Sync>(
        &self,
        rt: &T,
        changes: &[NumberedChange],
        later: &S,
        steps: &mut Steps<L>,
    ) -> Result<NumberedCheck, AllocError>
        requires changes { AllByRecursion (IsNumberedChange self.now.terms) changes.now }
        requires later { IsIndexOf self.now.terms (S.triples later.now) (after self.now.triples (map (change_at self.now.terms) changes.now)) }
        ensures checked { IfOk result (λ checked. IsCheckByNumber self.now.terms self.now.triples self.now.shapes (map (change_at self.now.terms) changes.now) checked.pairs checked.looks) }
        ensures steps { OnOk result (GrowsByCount (IsEvaluated self.now.triples self.now.shapes (map (change_at self.now.terms) changes.now)) steps.old steps.new) }
        ensures counted { steps.old ≤ steps.new }
    {
        let changed = triples_changed(self.alloc, changes)?;
        check_by_number(
            rt,
            self.alloc,
            &self.names,
            self.index(),
            later,
            &self.shapes,
            &changed,
            steps,
        )
    }

    /// The pairs of a shape and a node that the changes touch, each with its results after them, whatever results the graph has
    /// besides. All terms of the changes are named. The evaluations are counted in `steps`: there are as many as there are pairs
    /// of a shape and a node that a changed triple touches and that are targets after the changes, and threads share them out
    /// among each other. After an error the count is what it was, or more.
    pub fn pairs_after<L: Ledger, T: Threads + Sync>(
        &self,
        rt: &T,
        net: &Net,
        hints: &NumberHints,
        next: &DataGraph,
        steps: &mut Steps<L>,
    ) -> Result<Sequence<PairRows>, AllocError>
        requires net { AreNamedChanges self.now.terms net.now }
        requires next { next.now ≡ with_changes self.now net.now }
        ensures checks { IfOk result (ChecksPairs self.now.terms self.now.triples self.now.shapes net.now) }
        ensures steps { OnOk result (GrowsByCount (IsEvaluated self.now.triples self.now.shapes net.now) steps.old steps.new) }
        ensures counted { steps.old ≤ steps.new }
    {
        if is_without_shapes(self.shapes.graph()) {
            return Ok(Sequence::new(self.alloc));
        }
        let changes = number_changes(self.alloc, &self.names, net, hints)?;
        let checked = self.checked_after(rt, &changes, next.index(), steps)?;
        Ok(checked.pairs)
    }

    /// The pairs that the changes touch, and all looks that were made, those by which it was found what they touch with them. All
    /// terms of the changes are named, and so are those of the looks. The graph after the changes isn't made: they are laid over
    /// the triples of this one. Threads share out the evaluations among each other.
    pub fn paired_after<L: Ledger, T: Threads + Sync>(
        &self,
        rt: &T,
        net: &Net,
        hints: &NumberHints,
        steps: &mut Steps<L>,
    ) -> Result<PairedChanges, AllocError>
        requires { AreNamedChanges self.now.terms net.now }
        ensures checks { IfOk result (λ found. ChecksPairs self.now.terms self.now.triples self.now.shapes net.now found.pairs) }
        ensures looks { IfOk result (λ found. IsCheckFootprint self.now.triples self.now.shapes net.now found.looks) }
        ensures named { IfOk result (λ found. AllByRecursion (λ look. AreNamed self.now.terms (looked_at look)) found.looks) }
        ensures steps { OnOk result (GrowsByCount (IsEvaluated self.now.triples self.now.shapes net.now) steps.old steps.new) }
        ensures counted { steps.old ≤ steps.new }
    {
        if is_without_shapes(self.shapes.graph()) {
            return Ok(PairedChanges::empty(self.alloc));
        }
        self.names.recall_numbering();
        let index = self.index();
        index.recall_ascending();
        let changes = number_changes(self.alloc, &self.names, net, hints)?;
        let later = Overlay::new(self.alloc, index, &changes)?;
        let checked = self.checked_after(rt, &changes, &later, steps)?;
        Ok(paired_changes(self.alloc, &self.names, checked)?)
    }
}
