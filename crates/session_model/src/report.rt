ghost use Rattle.std.specs.Prelude.{◌≡◌, [], IfOk, string_bytes};
ghost use Rattle.rdf_model.specs.Graphs.{with_each};
ghost use Rattle.rdf_model.specs.Numbers.{graph_of};
ghost use Rattle.shape_model.specs.Validation.{Listing};
ghost use Rattle.session_model.specs.Reports.{IsReportText};

use collections::Sequence;
use report_writer::report;
use shape_model::ResultRow;
use shapes_graph::ShapesGraph;
use std::alloc::{AllocError, Global};
use std::fmt;
use std::marker::Model;
use term_dict::Dict;
use triple_index::Index;

/// The results of validating a graph by a shapes graph (SHACL section 3.6), each once, in the order of results. Contracts see
/// both graphs; the type keeps that the results are just theirs. The graph is kept by the numbers of its terms. Its text is made
/// when it is printed.
pub struct Report {
    names: Dict,
    numbers: Index,
    shapes: ShapesGraph,
    rows: Sequence<ResultRow>,
}

impl Model for Report {
    ghost use Rattle.std.specs.Prelude.{[]};
    ghost use Rattle.rdf_model.specs.Graphs.{with_each};
    ghost use Rattle.rdf_model.specs.Numbers.{graph_of};
    ghost use Rattle.shape_model.specs.Validation.{Listing};
    ghost use Rattle.session_model.specs.Reports.{ReportedGraph};

    ghost Value = { ReportedGraph };

    ghost view = { λ r. record { graph = with_each [] (graph_of r.names.terms r.numbers); shapes = r.shapes } };

    ghost invariant = { λ r. Listing (with_each [] (graph_of r.names.terms r.numbers)) r.shapes r.rows };
}

// Written by hand, so that what owns one calls it in place of having it written out.
impl Drop for Report {
    fn drop(self) {
        let Report {
            names: _,
            numbers: _,
            shapes: _,
            rows: _,
        } = self;
    }
}

impl fmt::Debug for Report {
    fn fmt<W: fmt::Write>(&self, f: &mut fmt::Formatter<W>) -> fmt::Result {
        let count = self.rows.len();
        write!(f, "Report of {count} results")
    }
}

impl Report {
    /// The report of a graph with these results: of the triples of the numbers, by the names of their terms.
    pub fn new(
        names: Dict,
        numbers: Index,
        shapes: ShapesGraph,
        rows: Sequence<ResultRow>,
    ) -> Report
        requires { Listing (with_each [] (graph_of names.terms numbers)) shapes rows }
        ensures { result ≡ record { graph = with_each [] (graph_of names.terms numbers); shapes = shapes } }
    {
        Report {
            names,
            numbers,
            shapes,
            rows,
        }
    }

    /// The results, and the shapes graph.
    pub fn into_parts(self) -> (Sequence<ResultRow>, ShapesGraph)
        ensures { Listing self.graph self.shapes result.0 × (result.1 ≡ self.shapes) }
    {
        let Report {
            names: _,
            numbers: _,
            shapes,
            rows,
        } = self;
        (rows, shapes)
    }

    /// What a session prints of it, without the end of the last line.
    pub fn text(&self, alloc: Global) -> Result<String, AllocError>
        ensures { IfOk result (λ text. IsReportText self.now (string_bytes text)) }
    {
        let lines = report(alloc, self.rows.as_slice(), self.shapes.shapes())?;
        let count = self.rows.len();
        let mut text = String::new(alloc);
        write!(text, "report {count}\n{lines}end")?;
        Ok(text)
    }
}
