//! Tests of validation: the definitions, lists, classes, paths and shapes of shapes graphs, the table of rules, and whole listings in
//! two ways, each as a table of rows that were worked out by hand.
//!
//! Storey: tests.
#![tactic(auto)]

#[cfg(test)]
mod definitions;
#[cfg(test)]
mod graph_paths;
#[cfg(test)]
mod listings;
#[cfg(test)]
mod lists;
#[cfg(test)]
mod rules;
#[cfg(test)]
mod shapes;
#[cfg(test)]
mod short_forms;
