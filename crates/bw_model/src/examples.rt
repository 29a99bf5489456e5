//! The definitions at small values: each function does nothing, and its contract computes them.
ghost use Rattle.std.specs.Prelude.{codes, ◌≡◌, ◌∷◌, [], true, false, None, Some};
ghost use Rattle.bw_model.specs.declared.command.Command.TheVariants.{Get, Insert, Upsert, Delete, DeleteIf, Swap, Add, Page, Back, Tidy};
ghost use Rattle.bw_model.specs.declared.command.Reply.TheVariants as reply;
ghost use Rattle.bw_model.specs.Bytes.{is_below, is_in_range};
ghost use Rattle.bw_model.specs.Examples.{small_log};
ghost use Rattle.bw_model.specs.Log.{set, unset, logged_value};
ghost use Rattle.bw_model.specs.NextKeys.{before, key_after, key_before};
ghost use Rattle.bw_model.specs.Numbers.{added, is_number, number_bytes};
ghost use Rattle.bw_model.specs.Pairs.{IsPairsOf};
ghost use Rattle.bw_model.specs.Replies.{command_key, is_writer, reply_of, update_of};
ghost use Rattle.bw_model.specs.Schedules.{drawn, schedule_of};

/// A proper front of a key is below it, bytes are unsigned, and the empty key is the lowest.
pub fn keys_are_ordered()
    ensures front { is_below (codes "k01") (codes "k011") ≡ true }
    ensures byte { is_below (codes "k09") (255 ∷ []) ≡ true }
    ensures itself { is_below (codes "k09") (codes "k09") ≡ false }
    ensures empty { is_below [] (0 ∷ []) ≡ true }
    ensures low { is_in_range (codes "k09") (Some (codes "k10")) (codes "k09") ≡ true }
    ensures high { is_in_range (codes "k09") (Some (codes "k10")) (codes "k10") ≡ false }
{}

/// The last update of a key says its value; the other keys' updates say nothing of it.
pub fn logs_are_read()
    ensures newest { logged_value small_log (codes "a") ≡ Some (codes "3") }
    ensures unset { logged_value small_log (codes "b") ≡ None }
    ensures never { logged_value small_log (codes "c") ≡ None }
{}

/// The pairs of a log have each key once, with its last value.
pub fn pairs_are_listed()
    ensures { IsPairsOf small_log [] None ((codes "a", codes "3") ∷ []) }
{}

/// The first draws of two seeds.
pub fn schedules_are_drawn()
    ensures two_actors { drawn 8 (schedule_of 1 2)
        ≡ 0 ∷ 0 ∷ 1 ∷ 0 ∷ 1 ∷ 0 ∷ 0 ∷ 0 ∷ [] }
    ensures three_actors { drawn 8 (schedule_of 7 3)
        ≡ 2 ∷ 2 ∷ 1 ∷ 0 ∷ 0 ∷ 0 ∷ 2 ∷ 1 ∷ [] }
{}

/// Pages of either direction and a tidying change nothing, and their replies are of no one key's value.
pub fn upkeep_changes_nothing()
    ensures page { reply_of (Page (codes "a")) (Some (codes "1")) ≡ None }
    ensures page_keeps { update_of 0 (Page (codes "a")) (Some (codes "1")) ≡ None }
    ensures page_reads { is_writer (Page (codes "a")) ≡ false }
    ensures back { reply_of (Back (codes "a")) (Some (codes "1")) ≡ None }
    ensures back_keeps { update_of 0 (Back (codes "a")) (Some (codes "1")) ≡ None }
    ensures back_reads { is_writer (Back (codes "a")) ≡ false }
    ensures tidy { reply_of (Tidy (codes "a")) None ≡ None }
    ensures tidy_keeps { update_of 0 (Tidy (codes "a")) None ≡ None }
    ensures tidy_writes { is_writer (Tidy (codes "a")) ≡ true }
{}

/// A lookup changes nothing; an insert changes an absent key alone, an upsert each key, a delete a present one alone.
pub fn commands_are_answered()
    ensures get_absent { reply_of (Get (codes "a")) None ≡ Some reply.None }
    ensures get_present { reply_of (Get (codes "a")) (Some (codes "1"))
        ≡ Some (reply.Value (codes "1")) }
    ensures get_keeps { update_of 0 (Get (codes "a")) None ≡ None }
    ensures insert_absent { reply_of (Insert (codes "a") (codes "2")) None ≡ Some reply.Inserted }
    ensures insert_sets { update_of 3 (Insert (codes "a") (codes "2")) None
        ≡ Some (set 3 (codes "a") (codes "2")) }
    ensures insert_present { reply_of (Insert (codes "a") (codes "2")) (Some (codes "1"))
        ≡ Some (reply.Exists (codes "1")) }
    ensures insert_keeps { update_of 0 (Insert (codes "a") (codes "2")) (Some (codes "1")) ≡ None }
    ensures upsert_absent { reply_of (Upsert (codes "a") (codes "2")) None ≡ Some reply.Set }
    ensures upsert_present { reply_of (Upsert (codes "a") (codes "2")) (Some (codes "1"))
        ≡ Some (reply.Replaced (codes "1")) }
    ensures upsert_sets { update_of 3 (Upsert (codes "a") (codes "2")) (Some (codes "1"))
        ≡ Some (set 3 (codes "a") (codes "2")) }
    ensures delete_absent { reply_of (Delete (codes "a")) None ≡ Some reply.Absent }
    ensures delete_keeps { update_of 3 (Delete (codes "a")) None ≡ None }
    ensures delete_present { reply_of (Delete (codes "a")) (Some (codes "1"))
        ≡ Some (reply.Deleted (codes "1")) }
    ensures delete_unsets { update_of 3 (Delete (codes "a")) (Some (codes "1"))
        ≡ Some (unset 3 (codes "a")) }
{}

/// A swap changes a key that has the expected value alone, also where the new value is the same; another value is told.
pub fn swaps_are_answered()
    ensures key { command_key (Swap (codes "a") (codes "1") (codes "2")) ≡ codes "a" }
    ensures writes { is_writer (Swap (codes "a") (codes "1") (codes "2")) ≡ true }
    ensures absent { reply_of (Swap (codes "a") (codes "1") (codes "2")) None ≡ Some reply.Absent }
    ensures absent_keeps { update_of 3 (Swap (codes "a") (codes "1") (codes "2")) None ≡ None }
    ensures expected { reply_of (Swap (codes "a") (codes "1") (codes "2")) (Some (codes "1"))
        ≡ Some reply.Swapped }
    ensures expected_sets { update_of 3 (Swap (codes "a") (codes "1") (codes "2")) (Some (codes "1"))
        ≡ Some (set 3 (codes "a") (codes "2")) }
    ensures same { reply_of (Swap (codes "a") (codes "1") (codes "1")) (Some (codes "1"))
        ≡ Some reply.Swapped }
    ensures same_sets { update_of 3 (Swap (codes "a") (codes "1") (codes "1")) (Some (codes "1"))
        ≡ Some (set 3 (codes "a") (codes "1")) }
    ensures other { reply_of (Swap (codes "a") (codes "2") (codes "3")) (Some (codes "1"))
        ≡ Some (reply.Differs (codes "1")) }
    ensures other_keeps { update_of 3 (Swap (codes "a") (codes "2") (codes "3")) (Some (codes "1")) ≡ None }
    ensures front { reply_of (Swap (codes "a") (codes "1") (codes "3")) (Some (codes "11"))
        ≡ Some (reply.Differs (codes "11")) }
{}

/// A deletion by value takes away a key that has the expected value alone; another value is told, and so is one of which the expected
/// value is a front.
pub fn deletions_by_value_are_answered()
    ensures key { command_key (DeleteIf (codes "a") (codes "1")) ≡ codes "a" }
    ensures writes { is_writer (DeleteIf (codes "a") (codes "1")) ≡ true }
    ensures absent { reply_of (DeleteIf (codes "a") (codes "1")) None ≡ Some reply.Absent }
    ensures absent_keeps { update_of 3 (DeleteIf (codes "a") (codes "1")) None ≡ None }
    ensures expected { reply_of (DeleteIf (codes "a") (codes "1")) (Some (codes "1"))
        ≡ Some (reply.Deleted (codes "1")) }
    ensures expected_unsets { update_of 3 (DeleteIf (codes "a") (codes "1")) (Some (codes "1"))
        ≡ Some (unset 3 (codes "a")) }
    ensures other { reply_of (DeleteIf (codes "a") (codes "2")) (Some (codes "1"))
        ≡ Some (reply.Differs (codes "1")) }
    ensures other_keeps { update_of 3 (DeleteIf (codes "a") (codes "2")) (Some (codes "1")) ≡ None }
    ensures front { reply_of (DeleteIf (codes "a") (codes "1")) (Some (codes "11"))
        ≡ Some (reply.Differs (codes "11")) }
    ensures front_keeps { update_of 3 (DeleteIf (codes "a") (codes "1")) (Some (codes "11")) ≡ None }
{}

/// Numbers have eight bytes, the highest first, and their sums go round at 2^64.
pub fn numbers_are_spelled()
    ensures none { number_bytes 0 ≡ 0 ∷ 0 ∷ 0 ∷ 0 ∷ 0 ∷ 0 ∷ 0 ∷ 0 ∷ [] }
    ensures two_bytes { number_bytes 258 ≡ 0 ∷ 0 ∷ 0 ∷ 0 ∷ 0 ∷ 0 ∷ 1 ∷ 2 ∷ [] }
    ensures most { number_bytes 18446744073709551615
        ≡ 255 ∷ 255 ∷ 255 ∷ 255 ∷ 255 ∷ 255 ∷ 255 ∷ 255 ∷ [] }
    ensures eight { is_number (number_bytes 258) ≡ true }
    ensures seven { is_number (0 ∷ 0 ∷ 0 ∷ 0 ∷ 0 ∷ 1 ∷ 2 ∷ []) ≡ false }
    ensures carry { added (number_bytes 255) 1 ≡ number_bytes 256 }
    ensures round { added (number_bytes 18446744073709551615) 3 ≡ number_bytes 2 }
{}

/// An addition gives an absent key the number, adds to a value of eight bytes, and leaves any other value.
pub fn additions_are_answered()
    ensures key { command_key (Add (codes "a") 5) ≡ codes "a" }
    ensures writes { is_writer (Add (codes "a") 5) ≡ true }
    ensures absent { reply_of (Add (codes "a") 5) None ≡ Some reply.Set }
    ensures absent_sets { update_of 3 (Add (codes "a") 5) None
        ≡ Some (set 3 (codes "a") (number_bytes 5)) }
    ensures number { reply_of (Add (codes "a") 5) (Some (number_bytes 7))
        ≡ Some (reply.Replaced (number_bytes 7)) }
    ensures number_sets { update_of 3 (Add (codes "a") 5) (Some (number_bytes 7))
        ≡ Some (set 3 (codes "a") (number_bytes 12)) }
    ensures other { reply_of (Add (codes "a") 5) (Some (codes "7"))
        ≡ Some (reply.Differs (codes "7")) }
    ensures other_keeps { update_of 3 (Add (codes "a") 5) (Some (codes "7")) ≡ None }
{}

/// Before a key that ends in 0 comes the key without that byte; before another one comes a key of 64 bytes, of which those behind the
/// lowered byte are 255.
pub fn neighbours_are_found()
    ensures first { key_before [] ≡ None }
    ensures zero { key_before (97 ∷ 0 ∷ []) ≡ Some (97 ∷ []) }
    ensures lowered { before 4 (97 ∷ 98 ∷ []) ≡ 97 ∷ 97 ∷ 255 ∷ 255 ∷ [] }
    ensures full { before 2 (97 ∷ 98 ∷ []) ≡ 97 ∷ 97 ∷ [] }
    ensures after { key_after (97 ∷ []) ≡ 97 ∷ 0 ∷ [] }
{}
