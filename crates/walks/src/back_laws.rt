//! Laws of walks down the keys: each function does nothing, and its contract is proved of all walks.
ghost use Rattle.std.specs.Prelude.{ℕ, List, Option, Some, ◌++◌};
ghost use Rattle.tree_limits.specs.declared.limits.Limits.{Limits};
ghost use Rattle.bw_model.specs.NextKeys.{key_after};
ghost use Rattle.running_tree.specs.Runs.{StartsWith};
ghost use Rattle.running_tree.specs.Seats.{IsSame, Seat};
ghost use Rattle.traces.specs.declared.trace.Entry.{Entry};
ghost use Rattle.traces.specs.declared.trace.Turn.{Turn};
ghost use Rattle.linearization.specs.Linearized.{IsLinearized};
ghost use Rattle.walks.specs.BackCursors.{BackCursor, HasWalkedBack, IsNextBack, added_back};
ghost use Rattle.walks.specs.BackPages.{BackPage, IsBackOf, IsBackShown, begin_above};
ghost use Rattle.walks.specs.BackWalks.{IsBackWalk, TellKeys, pairs_upward};
ghost use Rattle.walks.specs.declared.cursor.Walk.{Walk};

/// The pairs of a page backward are the map's in the page's range, at a step of the page's own operation. This is so by whatever points the
/// run is linearized.
pub fn pages_backward_are_the_maps()
    ensures { (limits : Limits) (turns : List Turn) (run : List Entry) (low : List ℕ) (page : BackPage) (linear : IsLinearized limits turns run)
        → IsBackOf run low page → IsBackShown run linear.points low page }
{}

/// The pairs of a walk down, read from its end, from where it is up to where it began: their keys ascend strictly; each key that the map
/// has had there all the while, with whatever values, is among them; and the map has had each of them at some time in between.
pub fn walks_back_tell_the_map()
    ensures { (limits : Limits) (turns : List Turn) (run : List Entry) (low upto : List ℕ) (since : ℕ) (pages : List BackPage) (to : Option (List ℕ)) (till : ℕ)
        (linear : IsLinearized limits turns run) → IsBackWalk run low (Some upto) since pages to till
        → TellKeys run linear.points since till (begin_above low to) (Some (key_after upto)) (pairs_upward pages) }
{}

/// A walk down of a run is one of each longer run; and a walk that begins where another one ended continues it.
pub fn walks_back_go_on()
    ensures longer { (run later : List Entry) (low : List ℕ) (at : Option (List ℕ)) (since : ℕ) (pages : List BackPage) (to : Option (List ℕ)) (till : ℕ)
        → StartsWith later run → IsBackWalk run low at since pages to till → IsBackWalk later low at since pages to till }
    ensures joined { (run : List Entry) (low : List ℕ) (at : Option (List ℕ)) (since : ℕ) (pages : List BackPage) (mid : Option (List ℕ)) (between : ℕ)
        (more : List BackPage)
        (to : Option (List ℕ)) (till : ℕ) → IsBackWalk run low at since pages mid between → IsBackWalk run low mid between more to till
        → IsBackWalk run low at since (pages ++ more) to till }
{}

/// What a call for a cursor's next page reads is a walk down of one page, or of none; and what was walked in parts, on one seat, is walked.
pub fn pages_backward_are_walked()
    ensures next { (old new : BackCursor) (seat later : Seat) (budget : ℕ) (walk : Walk) (before : List (List ℕ × List ℕ))
        → IsSame seat later → IsNextBack old seat budget walk new later → HasWalkedBack old seat before (before ++ added_back walk new) new later }
    ensures joined { (first mid last : BackCursor) (seat then later : Seat) (before between after : List (List ℕ × List ℕ))
        → HasWalkedBack first seat before between mid then → HasWalkedBack mid then between after last later
        → HasWalkedBack first seat before after last later }
{}
