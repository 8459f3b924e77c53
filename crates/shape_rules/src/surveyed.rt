//! A shapes graph with what was asked of it.
ghost use Rattle.std.specs.Prelude.{◌≡◌};
ghost use Rattle.collections.specs.Ordered.{IsAscending};
ghost use Rattle.rdf_model.specs.Terms.{triple_cmp};
ghost use Rattle.shape_sizes.specs.Surveys.{IsSurvey};

use shape_sizes::Survey;
use shape_syntax::IndexedGraph;
use std::alloc::Global;
use std::marker::Model;

/// An ascending shapes graph with its survey. Contracts see the triples.
#[derive(Drop)]
pub(crate) struct SurveyedGraph<'a> {
    alloc: Global,
    graph: &'a IndexedGraph<'a>,
    survey: &'a Survey,
}

impl<'a> Model for SurveyedGraph<'a> {
    ghost use Rattle.std.specs.Prelude.{List};
    ghost use Rattle.rdf_model.specs.declared.triple.Triple.{Triple as TripleData};
    ghost use Rattle.shape_rules.specs.Surveyed.{IsSurveyed};

    ghost Value = { List TripleData };

    ghost view = { λ s. s.graph.now };

    ghost invariant = { λ s. IsSurveyed s.graph.now s.survey.now };
}

impl<'a> SurveyedGraph<'a> {
    /// The graph with its survey. It takes no memory.
    pub(crate) fn new(
        alloc: Global,
        graph: &'a IndexedGraph<'a>,
        survey: &'a Survey,
    ) -> SurveyedGraph<'a>
        requires graph { IsAscending triple_cmp graph.now }
        requires survey { IsSurvey graph.now survey.now }
        ensures { result ≡ graph.entry.now }
    {
        SurveyedGraph {
            alloc,
            graph,
            survey,
        }
    }

    /// The allocator of what is made for the graph.
    pub(crate) fn alloc(&self) -> Global {
        self.alloc
    }

    /// The graph.
    pub(crate) fn indexed(&self) -> &'a IndexedGraph<'a>
        ensures value { result.now ≡ self.now }
        ensures ascending { IsAscending triple_cmp result.now }
    {
        self.graph
    }

    /// What was asked of the graph.
    pub(crate) fn survey(&self) -> &'a Survey
        ensures { IsSurvey self.now result.now }
    {
        self.survey
    }
}
