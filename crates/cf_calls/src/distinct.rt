//! Whether the keys of a list differ.
ghost use Rattle.std.specs.Prelude.{◌≡◌, IfOk};
ghost use Rattle.cf_calls.specs.Form.{is_distinct};
ghost use Rattle.cf_calls.specs.Keys.{same_key};

use std::alloc::{AllocError, Global};
use std::collections::BTreeSet;

/// Whether no two of the keys that are there are equal. Its time is n log n.
pub fn are_distinct<K: Ord + Copy>(alloc: Global, keys: &[Option<K>]) -> Result<bool, AllocError>
    ensures { IfOk result (λ b. b ≡ is_distinct (same_key K.eq) keys.now) }
{
    let mut seen = BTreeSet::new(alloc);
    for key in keys {
        if let Some(key) = *key {
            if !seen.insert(key)? {
                return Ok(false);
            }
        }
    }
    Ok(true)
}
