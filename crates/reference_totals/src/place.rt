//! A place with its weight.
use collections::Sequence;
use rdf_model::Term;

/// A place: its node, its own weight, and the nodes of the places to which it refers, each as often as it refers to it.
#[derive(Debug)]
pub struct WeightedPlace {
    pub node: Term,
    pub own: u64,
    pub to: Sequence<Term>,
}

impl Drop for WeightedPlace {
    fn drop(self) {
        let WeightedPlace {
            node: _,
            own: _,
            to: _,
        } = self;
    }
}
