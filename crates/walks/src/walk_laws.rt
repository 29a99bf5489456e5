//! Laws of walks: each function does nothing, and its contract is proved of all walks.
ghost use Rattle.std.specs.Prelude.{ℕ, List, Option, Some, ◌++◌};
ghost use Rattle.tree_limits.specs.declared.limits.Limits.{Limits};
ghost use Rattle.running_tree.specs.Runs.{StartsWith};
ghost use Rattle.running_tree.specs.Seats.{IsSame, Seat};
ghost use Rattle.traces.specs.declared.trace.Entry.{Entry};
ghost use Rattle.traces.specs.declared.trace.Turn.{Turn};
ghost use Rattle.linearization.specs.Linearized.{IsLinearized};
ghost use Rattle.walks.specs.Cursors.{Cursor, HasWalked, IsNextOf, added_by};
ghost use Rattle.walks.specs.Pages.{IsPageOf, IsPageShown, WalkedPage, end_under};
ghost use Rattle.walks.specs.Walks.{IsWalk, TellMap, pairs_shown};
ghost use Rattle.walks.specs.declared.cursor.Walk.{Walk};

/// The pairs of a page are the map's in the page's range, at a step of the page's own operation. This is so by whatever points the run is
/// linearized.
pub fn pages_are_the_maps()
    ensures { (limits : Limits) (turns : List Turn) (run : List Entry) (bound : Option (List ℕ)) (page : WalkedPage) (linear : IsLinearized limits turns run)
        → IsPageOf run bound page → IsPageShown run linear.points bound page }
{}

/// The pairs of a walk, from where it began to where it is: their keys ascend strictly; each key that the map has had there all the while,
/// with whatever values, is among them; and the map has had each of them at some time in between.
pub fn walks_tell_the_map()
    ensures { (limits : Limits) (turns : List Turn) (run : List Entry) (bound : Option (List ℕ)) (from : List ℕ) (since : ℕ) (pages : List WalkedPage) (to : Option (List ℕ)) (till : ℕ)
        (linear : IsLinearized limits turns run) → IsWalk run bound (Some from) since pages to till → TellMap run linear.points since till from (end_under bound to) (pairs_shown pages) }
{}

/// A walk of a run is one of each longer run; and a walk that begins where another one ended continues it. So the seats may change from
/// page to page, if each has seen what the one before it had seen.
pub fn walks_go_on()
    ensures longer { (run later : List Entry) (bound at : Option (List ℕ)) (since : ℕ) (pages : List WalkedPage) (to : Option (List ℕ)) (till : ℕ)
        → StartsWith later run → IsWalk run bound at since pages to till → IsWalk later bound at since pages to till }
    ensures joined { (run : List Entry) (bound at : Option (List ℕ)) (since : ℕ) (pages : List WalkedPage) (mid : Option (List ℕ)) (between : ℕ)
        (more : List WalkedPage) (to : Option (List ℕ)) (till : ℕ)
        → IsWalk run bound at since pages mid between → IsWalk run bound mid between more to till → IsWalk run bound at since (pages ++ more) to till }
{}

/// What a call for a cursor's next page reads is a walk of one page, or of none; and what was walked in parts, on one seat, is walked.
pub fn pages_are_walked()
    ensures next { (old new : Cursor) (seat later : Seat) (budget : ℕ) (walk : Walk) (before : List (List ℕ × List ℕ))
        → IsSame seat later → IsNextOf old seat budget walk new later → HasWalked old seat before (before ++ added_by walk new) new later }
    ensures joined { (first mid last : Cursor) (seat then later : Seat) (before between after : List (List ℕ × List ℕ))
        → HasWalked first seat before between mid then → HasWalked mid then between after last later → HasWalked first seat before after last later }
{}
