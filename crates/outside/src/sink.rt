//! Where bytes go.
ghost use Rattle.std.specs.Prelude.{◌≡◌, ℕ, ◌<◌, ◌≤◌, List, Option, Result, IfOk, IsErr, OnOk, OnErr, MatchResult, length, take, ⊤};
ghost use Rattle.outside.specs.Counts.{Rose};
ghost use Rattle.outside.specs.Files.{grown};
ghost use Rattle.outside.specs.declared.sink.Failed.{Failed};

/// A write that took nothing.
#[derive(Clone, Copy, Debug, PartialEq, Eq)]
pub struct Failed;

/// Where bytes go.
pub trait Sink {
    /// All bytes that it took, where that is told.
    ghost taken: { Self → Option (List ℕ) };

    /// How many faults it had. It never falls.
    ghost faults: { Self → ℕ };

    /// What else is known of a write: of the sink before, the piece, the answer and the sink after. It
    /// is nothing, unless an impl says so.
    ghost write_gives: { Self → List ℕ → Result ℕ Failed → Self → Type 0 } = { λ _ _ _ _. ⊤ };

    /// Takes bytes of the piece from its front, and answers how many.
    ///
    /// To take nothing of a piece that isn't empty is a fault, and `Failed` comes only with one.
    fn write(&mut self, piece: &[u8]) -> Result<usize, Failed>
        ensures bound { IfOk result (λ n. n ≤ length piece.now) }
        ensures taken { MatchResult result
            (λ n. taken self.new ≡ grown (taken self.old) (take n piece.now))
            (λ _. taken self.new ≡ taken self.old) }
        ensures failed { IsErr result → Rose (faults self.old) (faults self.new) }
        ensures idle { IfOk result (λ n. n ≡ 0 → 0 < length piece.now →
            Rose (faults self.old) (faults self.new)) }
        ensures kept { faults self.old ≤ faults self.new }
        ensures gives { write_gives self.old piece.now result self.new };
}

/// Writes all of the bytes, or fails with a part of them taken where the sink had a fault. Each write
/// offers all that is left.
pub fn write_all<K: Sink>(sink: &mut K, bytes: &[u8]) -> Result<(), Failed>
    ensures all { OnOk result (K.taken sink.new ≡ grown (K.taken sink.old) bytes.now) }
    ensures part { OnErr result ((n : ℕ) × (n < length bytes.now)
        × (K.taken sink.new ≡ grown (K.taken sink.old) (take n bytes.now))) }
    ensures failed { IsErr result → Rose (K.faults sink.old) (K.faults sink.new) }
    ensures kept { K.faults sink.old ≤ K.faults sink.new }
{
    let mut at = 0usize;
    while at < bytes.len() {
        let n = sink.write(&bytes[at..])?;
        if n == 0 {
            return Err(Failed);
        }
        at += n;
    }
    Ok(())
}
