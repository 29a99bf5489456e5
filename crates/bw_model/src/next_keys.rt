//! The law of the neighbours of a key.
ghost use Rattle.std.specs.Prelude.{◌≡◌, List, ℕ, [], None, Some, not};
ghost use Rattle.bw_model.specs.Bytes.{IsShort, is_below};
ghost use Rattle.bw_model.specs.NextKeys.{IsGreatestBelow, key_after, key_before};

/// The keys below a key, unless it is empty, are exactly those at or below `key_before` of it, which is a key too; the lists below
/// `key_after` of a key are exactly those at or below the key.
pub fn keys_have_neighbours()
    ensures first { (key : List ℕ) → key_before key ≡ None → key ≡ [] }
    ensures short { (key other : List ℕ) → IsShort key → key_before key ≡ Some other → IsShort other }
    ensures before { (key other : List ℕ) → IsShort key → key_before key ≡ Some other → IsGreatestBelow key other }
    ensures after { (key x : List ℕ) → is_below x (key_after key) ≡ not (is_below key x) }
{}
