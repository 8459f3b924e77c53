//! The keys of a leaf.
ghost use Rattle.std.specs.Prelude.{◌≡◌, not, MatchResult};
ghost use Rattle.collections.specs.Ordered.{IsAscending, with_item, without_item, has_item};

use std::alloc::AllocError;

// Puts a key into its place among the ascending keys, and says whether it is new.
pub(crate) fn insert_key<K: Ord + Drop>(keys: &mut Vec<K>, key: K) -> Result<bool, AllocError>
    requires { IsAscending K.cmp keys.old.items }
    ensures { MatchResult result
        (λ added. (keys.new.items ≡ with_item K.cmp key keys.old.items) × (added ≡ not (has_item K.cmp key keys.old.items)))
        (λ _. keys.new.items ≡ keys.old.items) }
{
    match keys.binary_search(&key) {
        Ok(_) => Ok(false),
        Err(at) => {
            keys.insert(at, key)?;
            Ok(true)
        }
    }
}

// Takes a key out of the ascending keys, and says whether it was there.
pub(crate) fn remove_key<K: Ord + Drop>(keys: &mut Vec<K>, key: &K) -> bool
    requires { IsAscending K.cmp keys.old.items }
    ensures keys { keys.new.items ≡ without_item K.cmp key.now keys.old.items }
    ensures removed { result ≡ has_item K.cmp key.now keys.old.items }
{
    match keys.binary_search(key) {
        Ok(at) => {
            let _ = keys.remove(at);
            true
        }
        Err(_) => false,
    }
}
