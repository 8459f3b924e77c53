//! A triple as its line has it.
ghost use Rattle.std.specs.Prelude.{◌≡◌, ◌+◌, ◌<◌, ◌≤◌, ◌^◌, length, IfOk, OnOk};
ghost use Rattle.ntriples_text.specs.Blanks.{node_labels, term_of};
ghost use Rattle.ntriples_text.specs.Grammar.{plain_term};
ghost use Rattle.ntriples_text.specs.Progress.{with_more};

use crate::numbering::Numbering;
use rdf_model::Term;
use rdf_text::Text;
use std::alloc::AllocError;

/// What the labels of a text stand for.
#[derive(Clone, Copy, Debug, PartialEq, Eq)]
pub enum LabelKind {
    /// Blank nodes of the text, which are numbered.
    OfText,
    /// Blank nodes of the store, as their labels say; no other label may stand.
    OfStore,
}

/// What stands for a term in a text: the label of a blank node, or the term itself.
#[derive(Debug)]
pub enum Node {
    Labelled(Text),
    Plain(Term),
}

// Written here so that a function with several nodes calls it, and doesn't hold it at each of its ends.
impl Drop for Node {
    fn drop(self) {
        match self {
            Node::Labelled(_) => {}
            Node::Plain(_) => {}
        }
    }
}

impl Node {
    /// The term that this is, if it is no label.
    pub fn into_term(self) -> Option<Term>
        ensures { result ≡ plain_term self }
    {
        match self {
            Node::Labelled(_) => None,
            Node::Plain(term) => Some(term),
        }
    }

    /// The term that this stands for. A new label takes the next number.
    pub fn numbered(self, numbering: &mut Numbering) -> Result<Term, AllocError>
        requires { numbering.old.first + length numbering.old.labels < 2 ^ 32 }
        ensures term { IfOk result (λ term. term ≡ term_of numbering.old.session numbering.old.first numbering.new.labels self) }
        ensures labels { OnOk result (numbering.new.labels ≡ with_more numbering.old.labels (node_labels self)) }
        ensures same { OnOk result ((numbering.new.session ≡ numbering.old.session) × (numbering.new.first ≡ numbering.old.first)) }
        ensures room { OnOk result (length numbering.new.labels ≤ length numbering.old.labels + 1) }
    {
        match self {
            Node::Labelled(label) => {
                let place = numbering.labels.place(label)?;
                Ok(Term::Blank {
                    session: numbering.session,
                    number: numbering.first + place as u32,
                })
            }
            Node::Plain(term) => Ok(term),
        }
    }
}

/// A triple as its line has it, the predicate by its IRI.
#[derive(Debug, Drop)]
pub struct Statement {
    pub subject: Node,
    pub predicate: Text,
    pub object: Node,
}
