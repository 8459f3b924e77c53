//! A maker of regular expressions.
ghost use Rattle.std.specs.Prelude.{◌≡◌, ℕ, List, Result, IfOk, MatchResult, ⊤};
ghost use Rattle.outside.specs.Faults.{NotesBuild, NotesRefusal, Refusal, Request};
ghost use Rattle.outside.specs.Patterns.{IsBuilt};
ghost use Rattle.outside.specs.declared.maker.MakeFault.{MakeFault};
ghost use Rattle.regex.specs.declared.string.regex.Regex.{Regex};

use regex::Regex;
use std::alloc::{AllocError, Global};

/// Why no pattern was built.
#[derive(Clone, Copy, Debug, PartialEq, Eq)]
pub enum MakeFault {
    /// The text is no pattern, or one that is too big.
    Refused,
    /// Memory ran out.
    Memory,
}

impl From<AllocError> for MakeFault {
    ghost use Rattle.outside.specs.declared.maker.MakeFault.TheVariants.{Memory};

    ghost from_gives = { λ _ fault. fault ≡ Memory };

    fn from(_: AllocError) -> MakeFault {
        MakeFault::Memory
    }
}

/// A maker of regular expressions.
pub trait Maker {
    /// What it was asked to build, in order, whether or not a pattern came. Nothing is ever lost.
    ghost asked: { Self → List Request };

    /// The patterns that were refused, each with its flags, in order. None is ever lost.
    ghost refused: { Self → List Refusal };

    /// What else is known of a build: of the maker before, the pattern, the flags, the answer and the
    /// maker after. It is nothing, unless an impl says so.
    ghost build_gives: { Self → List ℕ → List ℕ → Result Regex MakeFault → Self → Type 0 } = { λ _ _ _ _ _. ⊤ };

    /// What the grammar of the crate `regex` reads of the pattern, under the flags `i`, `s`, `m` and
    /// `x`; other letters change nothing.
    ///
    /// The pattern and its flags join the list of what was asked; where memory ran out they may have.
    /// `Refused` comes only where they joined the list of those that were refused, which is otherwise
    /// as it was.
    fn build(&mut self, alloc: Global, pattern: &str, flags: &str) -> Result<Regex, MakeFault>
        ensures built { IfOk result (IsBuilt pattern.now flags.now) }
        ensures refused { MatchResult result (λ _. refused self.new ≡ refused self.old)
            (λ fault. NotesRefusal fault (refused self.old) (pattern.now, flags.now) (refused self.new)) }
        ensures asked { NotesBuild result (asked self.old) (pattern.now, flags.now) (asked self.new) }
        ensures gives { build_gives self.old pattern.now flags.now result self.new };
}
