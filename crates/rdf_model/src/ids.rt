/// The numbers of a triple's subject, predicate and object.
#[derive(Clone, Copy, Debug, PartialEq, Eq, PartialOrd, Ord)]
pub struct Ids {
    pub subject: u32,
    pub predicate: u32,
    pub object: u32,
}
