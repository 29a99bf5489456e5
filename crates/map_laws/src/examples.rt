//! Worked examples: each function does nothing, and its contract computes the definitions.
ghost use Rattle.std.specs.Prelude.{codes, ◌≡◌, ◌∷◌, [], IsFalse, IsTrue, None, Some};
ghost use Rattle.bw_model.specs.declared.command.Command.TheVariants.{Get, Insert, Upsert, Delete, DeleteIf, Swap, Add, Page, Back, Tidy};
ghost use Rattle.bw_model.specs.declared.command.Reply.TheVariants as reply;
ghost use Rattle.bw_model.specs.Numbers.{number_bytes};
ghost use Rattle.running_tree.specs.Calls.{calls_of};
ghost use Rattle.running_tree.specs.Examples.{two_actors};
ghost use Rattle.map_laws.specs.Fits.{fits};
ghost use Rattle.map_laws.specs.Examples.{own_calls};
ghost use Rattle.map_laws.specs.InOrder.{AreInOrder};
ghost use Rattle.map_laws.specs.OwnKeys.{AreOwnReplies, value_through};

/// A finished call and one that is under way, in their order; not the other way round, and not with the reply of another command.
pub fn calls_stand_in_order()
    ensures order { AreInOrder two_actors 0 0 (calls_of 0 two_actors) }
    ensures turned { AreInOrder two_actors 0 0 ((Upsert (codes "a") (codes "1"), None) ∷ (Get (codes "a"), Some reply.None) ∷ []) → ⊥ }
    ensures early { AreInOrder two_actors 0 1 ((Get (codes "a"), Some reply.None) ∷ []) → ⊥ }
{}

/// Replies of each kind, and some that don't fit.
pub fn kinds_of_replies()
    ensures lookup { IsTrue (fits (Get (codes "a")) reply.None) }
    ensures insert { IsTrue (fits (Insert (codes "a") (codes "1")) (reply.Exists (codes "2"))) }
    ensures upsert { IsTrue (fits (Upsert (codes "a") (codes "1")) (reply.Replaced (codes "2"))) }
    ensures delete { IsTrue (fits (Delete (codes "a")) reply.Absent) }
    ensures swap { IsTrue (fits (Swap (codes "a") (codes "1") (codes "2")) reply.Full) }
    ensures delete_if { IsTrue (fits (DeleteIf (codes "a") (codes "1")) (reply.Differs (codes "2"))) }
    ensures add { IsTrue (fits (Add (codes "a") 1) (reply.Replaced (codes "2"))) }
    ensures page { IsTrue (fits (Page (codes "a")) (reply.Page [] None)) }
    ensures back { IsTrue (fits (Back (codes "a")) (reply.BackPage [] None)) }
    ensures tidy { IsTrue (fits (Tidy (codes "a")) reply.Tidied) }
    ensures reader { IsFalse (fits (Get (codes "a")) reply.Full) }
    ensures set { IsFalse (fits (Insert (codes "a") (codes "1")) reply.Set) }
    ensures swapped { IsFalse (fits (Upsert (codes "a") (codes "1")) reply.Swapped) }
    ensures none { IsFalse (fits (Delete (codes "a")) reply.None) }
    ensures differs { IsFalse (fits (Delete (codes "a")) (reply.Differs (codes "2"))) }
    ensures swapped_if { IsFalse (fits (DeleteIf (codes "a") (codes "1")) reply.Swapped) }
    ensures absent { IsFalse (fits (Add (codes "a") 1) reply.Absent) }
    ensures forward { IsFalse (fits (Back (codes "a")) (reply.Page [] None)) }
    ensures backward { IsFalse (fits (Page (codes "a")) (reply.BackPage [] None)) }
    ensures back_full { IsFalse (fits (Back (codes "a")) reply.Full) }
{}

/// Replies of a map with the key "a" that had no value before; not where it had one, and not with a lookup that misses what was set.
pub fn own_replies_are_a_maps()
    ensures own { AreOwnReplies (codes "a") None own_calls }
    ensures value { value_through (codes "a") None own_calls ≡ Some (number_bytes 256) }
    ensures other_key { value_through (codes "b") None own_calls ≡ None }
    ensures before { AreOwnReplies (codes "a") (Some (codes "1")) own_calls → ⊥ }
    ensures missed { AreOwnReplies (codes "a") None ((Upsert (codes "a") (codes "1"), Some reply.Set) ∷ (Get (codes "a"), Some reply.None) ∷ []) → ⊥ }
    ensures unwritten { AreOwnReplies (codes "a") None ((Upsert (codes "a") (codes "1"), Some reply.Full) ∷ (Get (codes "a"), Some (reply.Value (codes "1"))) ∷ []) → ⊥ }
{}
