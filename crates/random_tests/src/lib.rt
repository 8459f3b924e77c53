//! The two listings of small graphs that are drawn at random are one, also where one is had of checking changes alone; and
//! how many pairs such a check evaluates.
//!
//! Storey: tests.
#![tactic(auto)]

#[cfg(test)]
mod changes;
#[cfg(test)]
mod evaluated;
#[cfg(test)]
mod listings;
