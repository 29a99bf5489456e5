//! What the places of operations are: laws. Each function does nothing, and its contract is proved.
ghost use Rattle.std.specs.Prelude.{◌≡◌, ◌<◌, ◌≤◌, ◌++◌, ◌∷◌, ◌↔◌, ℕ, List, [], All, Option, None, Some, IsTrue, codes, map, true, false, take};
ghost use Rattle.std.specs.List.Sorted.{IsStrictlySortedBy};
ghost use Rattle.bw_model.specs.Bytes.{IsShort, key_cmp};
ghost use Rattle.bw_model.specs.Log.{Update, set, updated_key};
ghost use Rattle.bw_model.specs.NextKeys.{key_after, key_before};
ghost use Rattle.bw_model.specs.Pairs.{IsPairsOf};
ghost use Rattle.bw_model.specs.declared.command.Command.{Command};
ghost use Rattle.bw_model.specs.declared.command.Command.TheVariants.{Get, Page, Back};
ghost use Rattle.bw_model.specs.declared.command.Reply.{Reply};
ghost use Rattle.bw_model.specs.declared.command.Reply.TheVariants as reply;
ghost use Rattle.filming.specs.Places.{are_pairs, is_told, is_told_of, place_below};

use bw_model::keys_have_neighbours;

/// Of pairs in order, and of no other keys than those of the page: `are_pairs` says that they are exactly the log's in the page's range, as the theorem has it
/// of a page, and of a page backward, whose range begins at the low key behind which it goes on.
pub fn pages_are_told()
    ensures page { (log : List Update) (from : List ℕ) (next : Option (List ℕ)) (pairs : List (List ℕ × List ℕ))
        → IsStrictlySortedBy key_cmp (map (λ pair. pair.0) pairs)
        → All (λ pair. IsTrue (is_told_of (Page from) next pair.0)) pairs
        → (are_pairs log (Page from) next pairs ≡ true) ↔ IsPairsOf log from next pairs }
    ensures back { (log : List Update) (low upto : List ℕ) (next : Option (List ℕ)) (pairs : List (List ℕ × List ℕ))
        → IsShort low
        → key_before low ≡ next
        → All (λ update. IsShort (updated_key update)) log
        → IsStrictlySortedBy key_cmp (map (λ pair. pair.0) pairs)
        → All (λ pair. IsShort pair.0 × IsTrue (is_told_of (Back upto) next pair.0)) pairs
        → (are_pairs log (Back upto) next pairs ≡ true) ↔ IsPairsOf log low (Some (key_after upto)) pairs }
{
    keys_have_neighbours();
}

/// The place of a reply is the latest one, behind so many updates at most, at which the map was as it tells.
pub fn places_are_latest()
    ensures latest { (log : List Update) (command : Command) (answer : Reply) (many place : ℕ)
        → place_below log command answer many ≡ Some place
        → (place ≤ many) × (is_told (take place log) command answer ≡ true)
        × ((later : ℕ) → place < later → later ≤ many → is_told (take later log) command answer ≡ false) }
    ensures none { (log : List Update) (command : Command) (answer : Reply) (many : ℕ)
        → place_below log command answer many ≡ None
        → (place : ℕ) → place ≤ many → is_told (take place log) command answer ≡ false }
{}

/// Three pairs are set, of which a page of two keys was asked before the last one was, and one backward before the second one was. A lookup finds its key's
/// value.
pub fn places_are_found()
    ensures page { place_below (set 0 (codes "a") (codes "1") ∷ set 0 (codes "b") (codes "2") ∷ set 0 (codes "c") (codes "3") ∷ [])
        (Page (codes "a")) (reply.Page ((codes "a", codes "1") ∷ (codes "b", codes "2") ∷ []) None) 3 ≡ Some 2 }
    ensures ends { place_below (set 0 (codes "a") (codes "1") ∷ set 0 (codes "b") (codes "2") ∷ set 0 (codes "c") (codes "3") ∷ [])
        (Page (codes "a")) (reply.Page ((codes "a", codes "1") ∷ (codes "b", codes "2") ∷ []) (Some (codes "c"))) 3 ≡ Some 3 }
    ensures back { place_below (set 0 (codes "a") (codes "1") ∷ set 0 (codes "b") (codes "2") ∷ set 0 (codes "c") (codes "3") ∷ [])
        (Back (codes "b")) (reply.BackPage ((codes "a", codes "1") ∷ []) None) 3 ≡ Some 1 }
    ensures above { place_below (set 0 (codes "a") (codes "1") ∷ set 0 (codes "b") (codes "2") ∷ set 0 (codes "c") (codes "3") ∷ [])
        (Back (codes "c")) (reply.BackPage ((codes "c", codes "3") ∷ []) (Some (codes "b"))) 3 ≡ Some 3 }
    ensures value { place_below (set 0 (codes "a") (codes "1") ∷ set 0 (codes "b") (codes "2") ∷ set 0 (codes "b") (codes "3") ∷ [])
        (Get (codes "b")) (reply.Value (codes "2")) 3 ≡ Some 2 }
    ensures update { place_below (set 0 (codes "a") (codes "1") ∷ []) (Get (codes "a")) reply.Inserted 1 ≡ None }
{}
