// The answers to a record.
use rdf_model::Triple;

/// What a follower answers to a record that it is fed.
#[derive(Debug)]
pub enum Fed {
    /// An unequal record is kept or was applied under the number. Nothing changed.
    Differs { number: u64 },
    /// The same record is kept or was applied. Nothing changed.
    Known { version: u64 },
    /// The number is 0 or over the version and 1024. Nothing changed.
    Window { version: u64 },
    /// With those of this record so many terms would be named beside rdf:type and rdfs:subClassOf, more
    /// than 4294967293. Nothing changed.
    Full { count: usize },
    /// Records before it have yet to come; it is kept until then.
    Waiting { version: u64 },
    /// It removes an absent triple or adds a present one, of which this is the least. Nothing changed.
    Misfit { number: u64, triple: Triple },
    /// It was applied, and so were the kept records that follow it without a gap. A kept one that
    /// misfits was dropped, and ended it; `dropped` is its number.
    Applied { version: u64, dropped: Option<u64> },
}

// Written by hand, so that what owns one calls it in place of having it written out.
impl Drop for Fed {
    fn drop(self) {
        match self {
            Fed::Differs { number: _ } => {}
            Fed::Known { version: _ } => {}
            Fed::Window { version: _ } => {}
            Fed::Full { count: _ } => {}
            Fed::Waiting { version: _ } => {}
            Fed::Misfit {
                number: _,
                triple: _,
            } => {}
            Fed::Applied {
                version: _,
                dropped: _,
            } => {}
        }
    }
}
