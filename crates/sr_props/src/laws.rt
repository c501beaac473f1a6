//! Laws of the order of own keys, each the contract of a function that does nothing.

ghost use Rattle.std.specs.Prelude.{List, IsPermutation, IsSortedBy};
ghost use Rattle.sr_props.specs.OwnKeys.{own_keys, is_listed_before};

use crate::PropKey;

/// The own keys are the keys that were created.
pub fn own_keys_are_the_keys<K: PropKey>()
    ensures { (keys : List K) → IsPermutation keys (own_keys K.rank_of keys) }
{}

/// No own key has a lower rank than the one before it.
pub fn own_keys_ascend<K: PropKey>()
    ensures { (keys : List K) → IsSortedBy (λ k l. is_listed_before (K.rank_of k) (K.rank_of l)) (own_keys K.rank_of keys) }
{}
