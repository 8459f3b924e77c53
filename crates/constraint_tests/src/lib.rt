//! Tests of the constraint components of SHACL Core, each as a table of rows that were worked out by hand.
//!
//! Storey: tests.
#![tactic(auto)]

#[cfg(test)]
mod case;
#[cfg(test)]
mod checks;
#[cfg(test)]
mod evaluations;
#[cfg(test)]
mod graphs;
#[cfg(test)]
mod properties;
#[cfg(test)]
mod shapes;
#[cfg(test)]
mod short_terms;
#[cfg(test)]
mod strings;
#[cfg(test)]
mod tables;
#[cfg(test)]
mod values;
