//! The tests of walks and targets, by tables and at random.

mod digits;
mod random;
mod targets;
mod walks;
