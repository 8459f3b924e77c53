//! What lies outside the program: files, a sink, a maker of patterns and a gate.
//!
//! Each is a trait with a written meaning, and a fault of a file, a sink or a pattern is always
//! noted in a list or a count that never loses one, so that code over these traits cannot give up
//! by itself. Each has a form in memory, for tests and exact claims, and a real form, which is trusted
//! to be what it says and tells no contents.
//!
//! Storey: the outside.
#![tactic(auto)]

mod fake_maker;
mod files;
mod gate;
mod host;
mod maker;
mod mem_files;
mod mem_sink;
mod regex_maker;
mod request;
mod sink;

pub use fake_maker::FakeMaker;
pub use files::{Files, LoadFault};
pub use gate::{EventKind, Gate, OpenGate, Place};
pub use host::{HostFiles, HostSink};
pub use maker::{MakeFault, Maker};
pub use mem_files::{MemFile, MemFiles};
pub use mem_sink::MemSink;
pub use regex_maker::RegexMaker;
pub use sink::{Failed, Sink, write_all};
