//! Laws of the neighbours of keys: each function does nothing, and its contract is proved of all keys and walks.
ghost use Rattle.std.specs.Prelude.{ℕ, Bool, List, Option, ◌≡◌, ◌∷◌, ◌++◌, [], false};
ghost use Rattle.bw_model.specs.Bytes.{IsShort, is_below, longest};
ghost use Rattle.bw_model.specs.NextKeys.{filled};
ghost use Rattle.traces.specs.declared.trace.Entry.{Entry};
ghost use Rattle.walks.specs.BackWalks.{TellKeys, TellNextBack};
ghost use Rattle.walks.specs.Neighbours.{IsSplitBy, key_above};
ghost use Rattle.walks.specs.Walks.{TellMap, TellNext};

/// The keys above a key are exactly those at or above `key_above` of it; and no key is above 64 times 255.
pub fn keys_have_least_above()
    ensures least { (key x : List ℕ) → IsShort key → IsShort x → IsSplitBy (key_above key) key x }
    ensures greatest { (x : List ℕ) → IsShort x → is_below (filled longest) x ≡ false }
{}

/// The first pair of a walk, as `seek` finds it, was in the map at some time in between, and no key before it was there all the while.
/// Likewise the first pair of a walk down, which is the last one read from the walk's end.
pub fn next_pairs_are_told()
    ensures next { (run : List Entry) (points : List Bool) (since till : ℕ) (from : List ℕ) (end : Option (List ℕ)) (key value : List ℕ)
        (pairs : List (List ℕ × List ℕ))
        → TellMap run points since till from end ((key, value) ∷ pairs) → TellNext run points since till from key value }
    ensures back { (run : List Entry) (points : List Bool) (since till : ℕ) (from : List ℕ) (end : Option (List ℕ)) (key value : List ℕ)
        (pairs : List (List ℕ × List ℕ))
        → TellKeys run points since till from end (pairs ++ (key, value) ∷ []) → TellNextBack run points since till end key value }
{}
