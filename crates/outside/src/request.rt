//! What a maker is asked to build.
ghost use Rattle.std.specs.Prelude.{◌≡◌, IfOk};

use std::alloc::{AllocError, Global};
use std::marker::Model;

// What a maker is asked to build: a pattern with its flags.
#[derive(Debug, Drop)]
pub(crate) struct Request {
    pattern: String,
    flags: String,
}

impl Model for Request {
    ghost use Rattle.std.specs.Prelude.{string_bytes};
    ghost use Rattle.outside.specs.Faults.{Refusal};

    ghost Value = { Refusal };

    ghost view = { λ r. (string_bytes r.pattern, string_bytes r.flags) };
}

impl Request {
    pub(crate) fn new(alloc: Global, pattern: &str, flags: &str) -> Result<Request, AllocError>
        ensures { IfOk result (λ r. r ≡ (pattern.now, flags.now)) }
    {
        Ok(Request {
            pattern: String::from_str(alloc, pattern)?,
            flags: String::from_str(alloc, flags)?,
        })
    }
}
