//! The hash of a term.
ghost use Rattle.std.specs.Prelude.{◌≡◌};
ghost use Rattle.std.specs.List.{fold};
ghost use Rattle.std.specs.Hash.DefaultHasher as sip;
ghost use Rattle.triple_table.specs.Hashes.{term_hash, term_writes};

use rdf_model::Term;
use std::collections::hash_map::DefaultHasher;
use std::hash::{Hash, Hasher};

// Feeds a hasher a term.
fn feed(term: &Term, state: &mut DefaultHasher)
    ensures { state.new ≡ fold sip.write state.old (term_writes term.now) }
{
    match term {
        Term::Blank { session, number } => {
            session.hash(state);
            number.hash(state);
        }
        Term::Iri(iri) => iri.as_str().hash(state),
        Term::Literal {
            lexical,
            datatype,
            language,
        } => {
            lexical.as_str().hash(state);
            datatype.as_str().hash(state);
            if let Some(tag) = language {
                tag.as_str().hash(state);
            }
        }
    }
}

// The hash of a term.
#[tactic(auto, unfolding(crate::specs::Hashes::term_hash))]
pub(crate) fn hash_of(term: &Term) -> u64
    ensures { result ≡ term_hash term.now }
{
    let mut state = DefaultHasher::new();
    feed(term, &mut state);
    state.finish()
}
