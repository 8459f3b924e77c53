//! Nodes as the digits of a number.

// A number whose decimal digits are the nodes.
pub(crate) fn told(nodes: &[u32]) -> u64 {
    let mut all: u64 = 0;
    for node in nodes {
        all = all.wrapping_mul(10).wrapping_add(*node as u64);
    }
    all
}

// The number that the digits tell.
pub(crate) fn number(word: Option<&str>) -> u32 {
    let mut number: u32 = 0;
    for digit in word.unwrap_or("").as_bytes() {
        number = number
            .wrapping_mul(10)
            .wrapping_add(digit.wrapping_sub(b'0') as u32);
    }
    number
}
