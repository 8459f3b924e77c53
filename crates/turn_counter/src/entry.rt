//! Additions.

/// One addition: whose it is, and the amount.
#[derive(Debug, Clone, Copy)]
pub struct Entry {
    pub number: u32,
    pub amount: u64,
}
