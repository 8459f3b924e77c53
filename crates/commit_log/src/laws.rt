//! Laws of the format, each of all images, and why each sync is needed.
ghost use Rattle.std.specs.Prelude.{◌+◌, ◌++◌, ◌∷◌, [], ℕ, List};
ghost use Rattle.disk.specs.Crashes.{IsTorn};
ghost use Rattle.record_text.specs.declared.record.Record.{Record};
ghost use Rattle.commit_log.specs.Bad.{NoLogIsBad, OneIsToBlame, OpensToOne};
ghost use Rattle.commit_log.specs.Format.{header, Opens};

/// An image opens to one list of records.
pub fn an_image_opens_to_one_list()
    ensures { OpensToOne }
{}

/// An image that opens is not bad.
pub fn a_log_is_not_bad()
    ensures { NoLogIsBad }
{}

/// Where an image is bad, one record is to blame.
pub fn one_record_is_to_blame()
    ensures { OneIsToBlame }
{}

/// Without the sync between a block and its gate, or with both in one write, a crash may leave an open
/// gate with nothing behind it; until a sync what was there may still be there, and so may no byte at
/// all. Neither opens to any list of records.
pub fn each_sync_is_needed()
    ensures two_writes { (n : ℕ) → IsTorn (header ++ 0 ∷ []) ((9, n) ∷ (8, 1) ∷ []) (header ++ 1 ∷ []) }
    ensures one_write { (n : ℕ) → IsTorn (header ++ 0 ∷ []) ((8, n + 1) ∷ []) (header ++ 1 ∷ []) }
    ensures not_yet { (durable : List ℕ) (ranges : List (ℕ × ℕ)) → IsTorn durable ranges durable }
    ensures torn_gate { (records : List Record) → Opens (header ++ 1 ∷ []) records → ⊥ }
    ensures nothing { (records : List Record) → Opens [] records → ⊥ }
{}
