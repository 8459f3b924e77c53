//! Tests of the crates that read texts, with values from the standards: N-Triples 1.1, Turtle 1.1, RFC 3986, XML Schema
//! Datatypes 1.1, SPARQL 1.1 and RFC 4647.
//!
//! Storey: tests.
#![tactic(auto)]

#[cfg(test)]
mod tests;
