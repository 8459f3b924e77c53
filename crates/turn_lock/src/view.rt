//! What the lock's rule knows of a caller. No value of these types is made.
use std::collections::LinkedList;

/// What a caller has seen.
pub struct Known<E> {
    /// The entries that it has seen, a beginning of the history.
    pub front: LinkedList<E>,
    /// The numbers under which it makes entries.
    pub numbers: LinkedList<u32>,
    /// Whether it is the first caller, which makes new numbers.
    pub first: bool,
}

/// How far a caller's turn is.
pub enum Stage {
    Idle,
    /// It has the ticket of this number.
    Waiting(u64),
    /// Its ticket is served, and the state is out with it.
    Served(u64),
    /// It was met, and has no turn any more.
    Spent,
}

/// All that the rule knows of a caller.
pub struct View<E, D> {
    pub known: Known<E>,
    pub stage: Stage,
    /// How many callers it may still split off.
    pub spare: u64,
    /// What two callers knew that have just met, until the fronts are compared.
    pub olds: LinkedList<Known<E>>,
    /// The plain data of the state at the start.
    pub opening: Option<D>,
    /// The entries that it made, and behind them those of callers that it met.
    pub own: LinkedList<E>,
}
