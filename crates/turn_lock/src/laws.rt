//! What follows from the definitions alone.
ghost use Rattle.std.specs.Prelude.{◌≡◌, ◌≢◌, ℕ, true, false, List, [], ◌∷◌, ◌++◌};
ghost use Rattle.turn_lock.specs.declared.view.Known.{Known};
ghost use Rattle.turn_lock.specs.History.{under, is_reserved, reserved, OthersAdded, MayAdd};

use crate::entries::Entries;

/// A caller that may add an entry to what it has seen may still add it once others have added theirs. So what it may add
/// can be told before its turn.
pub fn may_still_add<S: Entries>()
    ensures { (known : Known S.Entry) (history : List S.Entry) (e : S.Entry) → OthersAdded S.number S.is_zero_shared known history
        → MayAdd S.number S.is_zero_shared known e → MayAdd S.number S.is_zero_shared (record known { front = history }) e }
{}

/// What one turn adds: under the entry's own number this entry, under other numbers nothing; to the entries that the first
/// caller alone makes this one, if it is reserved, and else nothing.
pub fn a_turn_adds_its_entry<S: Entries>()
    ensures own { (history : List S.Entry) (e : S.Entry) → under S.number (S.number e) (history ++ e ∷ []) ≡ under S.number (S.number e) history ++ e ∷ [] }
    ensures others { (history : List S.Entry) (e : S.Entry) (n : ℕ) → S.number e ≢ n → under S.number n (history ++ e ∷ []) ≡ under S.number n history }
    ensures reserved { (history : List S.Entry) (e : S.Entry) → is_reserved S.number S.is_zero_shared history e ≡ true
        → reserved S.number S.is_zero_shared (history ++ e ∷ []) ≡ reserved S.number S.is_zero_shared history ++ e ∷ [] }
    ensures unreserved { (history : List S.Entry) (e : S.Entry) → is_reserved S.number S.is_zero_shared history e ≡ false
        → reserved S.number S.is_zero_shared (history ++ e ∷ []) ≡ reserved S.number S.is_zero_shared history }
{}
