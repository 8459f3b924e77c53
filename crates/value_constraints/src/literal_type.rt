//! The component datatype (SHACL section 4.1.2).
ghost use Rattle.std.specs.Prelude.{IfOk};
ghost use Rattle.shape_model.specs.declared.component.Component.TheVariants as components;
ghost use Rattle.component_rows.specs.Listed.{untold};
ghost use Rattle.component_rows.specs.Sites.{ListsAt, at_values};

use component_rows::{Site, ValueTest, failing};
use literal_order::{Lexical, value};
use rdf_model::{Names, Term};
use shape_model::{Component, ResultRow};
use std::alloc::AllocError;

// A literal of the datatype that is not ill-typed.
#[derive(Drop)]
struct OfDatatype<'a> {
    datatype: &'a Term,
}

impl ValueTest for OfDatatype<'_> {
    ghost use Rattle.shape_model.specs.TermTests.{IsOfDatatype};

    ghost accepts = { λ t v. IsOfDatatype t.datatype.now v };

    fn passes(&self, term: &Term) -> bool {
        match (self.datatype, term) {
            (Term::Iri(wanted), Term::Literal { datatype, .. }) => {
                wanted == datatype && !matches!(value(term), Lexical::IllTyped)
            }
            _ => false,
        }
    }
}

/// The results of sh:datatype (SHACL section 4.1.2): one about each value node that is no literal of the
/// datatype, or is ill-typed.
pub fn datatype<N: Names>(site: &Site<'_, N>) -> Result<Vec<ResultRow>, AllocError>
    ensures { IfOk result (λ rows. ListsAt components.Datatype (at_values site.now) untold site.now rows.items) }
{
    let datatype = site.parameter_term();
    let test = OfDatatype { datatype };
    failing(site, Component::Datatype, &test)
}
