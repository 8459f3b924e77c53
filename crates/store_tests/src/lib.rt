//! Tests of the store and of what its sessions find.
//!
//! Storey: tests.
#![tactic(auto)]

#[cfg(test)]
mod core_calls;
#[cfg(test)]
mod finds;
#[cfg(test)]
mod made_texts;
#[cfg(test)]
mod orders;
#[cfg(test)]
mod patterns;
#[cfg(test)]
mod refused_patterns;
#[cfg(test)]
mod replay;
#[cfg(test)]
mod selects;
#[cfg(test)]
mod severities;
