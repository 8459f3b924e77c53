// A record: what one commit changed, and the shapes graph that it staged.
use collections::Sequence;
use rdf_model::Triple;

/// What one commit did.
#[derive(Debug)]
pub struct Record {
    /// Which commit it was; the first one is 1.
    pub number: u64,
    /// The triples that it took out, ascending.
    pub removed: Sequence<Triple>,
    /// The triples that it put in, ascending.
    pub added: Sequence<Triple>,
    /// The triples of the shapes graph that it staged, ascending, if it staged one.
    pub shapes: Option<Sequence<Triple>>,
}

// Written by hand, so that what owns a record calls it in place of having it written out.
impl Drop for Record {
    fn drop(self) {
        let Record {
            number: _,
            removed: _,
            added: _,
            shapes: _,
        } = self;
    }
}
