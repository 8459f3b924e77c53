//! Validation of a whole graph, whose results are kept with the pairs of a shape and a focus node that give them. Threads share
//! out the evaluations among each other.
//!
//! `whole_kept` ensures exactly the results of each pair of a shape and its target, for each shapes graph that the shapes
//! stand for, in which no shape refers to itself and no chain of references is longer than 256. It takes as many steps as
//! there are such pairs. Which threads evaluated what makes no difference.
//!
//! Storey: validation.
#![tactic(auto)]

mod whole;

pub use whole::whole_kept;
