//! The blank nodes of a text.
ghost use Rattle.std.specs.Prelude.{◌≡◌, ◌+◌, ◌<◌, ◌≤◌, ◌^◌, ◌++◌, ◌∷◌, [], length, OnOk};
ghost use Rattle.ntriples_text.specs.Blanks.{statement_labels, triple_of};
ghost use Rattle.ntriples_text.specs.Progress.{with_more};

use crate::labels::Labels;
use crate::statement::Statement;
use rdf_model::Term;
use std::alloc::AllocError;
use triple_table::TripleTable;

/// The blank nodes of a text: their session, the number of the first one, and the labels so far.
#[derive(Debug, Drop)]
pub struct Numbering {
    pub session: u32,
    pub first: u32,
    pub labels: Labels,
}

impl Numbering {
    /// Adds the triple of a statement to a table. A new label takes the next number, the subject's
    /// before the object's.
    pub fn push_triple(
        &mut self,
        table: &mut TripleTable,
        statement: Statement,
    ) -> Result<(), AllocError>
        requires { self.old.first + length self.old.labels + 1 < 2 ^ 32 }
        ensures triple { OnOk result (table.new ≡ table.old ++ triple_of self.old.session self.old.first self.new.labels statement ∷ []) }
        ensures labels { OnOk result (self.new.labels ≡ with_more self.old.labels (statement_labels statement)) }
        ensures same { OnOk result ((self.new.session ≡ self.old.session) × (self.new.first ≡ self.old.first)) }
        ensures room { OnOk result (length self.new.labels ≤ length self.old.labels + 2) }
    {
        let Statement {
            subject,
            predicate,
            object,
        } = statement;
        let subject = subject.numbered(self)?;
        let predicate = Term::Iri(predicate);
        let object = object.numbered(self)?;
        table.push_terms(&subject, &predicate, object)?;
        Ok(())
    }
}
