//! Blocks of evidence, read.
//!
//! `read_block` ensures exactly the block that begins a text, or that none does: there is one spelling, byte for byte as
//! `write_block` of evidence_blocks gives it.
//!
//! Storey: validation.
#![tactic(auto)]

mod blocks;
mod components;
mod lines;
mod looks;
mod rows;
mod terms;

pub use blocks::read_block;
