//! Laws of calls: each function does nothing, and its contract is proved of all seats.
ghost use Rattle.std.specs.Prelude.{ℕ, ◌≡◌, ◌+◌, Some};
ghost use Rattle.bw_model.specs.declared.command.Command.{Command};
ghost use Rattle.bw_model.specs.declared.command.Reply.{Reply};
ghost use Rattle.running_tree.specs.Calls.{EndsWith, IsCalled, IsResumed, IsSpent};
ghost use Rattle.running_tree.specs.LastReply.{last_reply};
ghost use Rattle.running_tree.specs.RealTime.{CallsKeepRealTime, HasCalled, HasResumed};
ghost use Rattle.running_tree.specs.Seats.{Seat};
ghost use Rattle.running_tree.specs.declared.called.Called.{Called};
ghost use Rattle.tree_limits.specs.declared.limits.Limits.{Limits};

use crate::lawful_runs::TreeLaw;
use table_rule::keeps_real_time;

/// A call that was spent and then resumed, once or again and again, is a call whose budget is that of all parts.
pub fn resumed_calls_are_calls()
    ensures { (old mid new : Seat) (command : Command) (budget more : ℕ) (called : Called)
        → IsSpent old command budget mid → IsResumed mid more called new → IsCalled old command (budget + more) called new }
{}

/// If the run that a seat has seen ends with a reply, it is that of its last operation, which `BwSeat::lacking` is about.
pub fn done_calls_reply_last()
    ensures { (seat : Seat) (reply : Reply) → EndsWith seat reply → last_reply seat.actor seat.seen ≡ Some reply }
{}

/// Real time: if a call on one seat is done, or was resumed and is done, and a call on another seat begins at a later moment, then all that
/// the first seat has seen, up to its Leave, comes before the second call's begin, in the history that the second seat has seen. The seats
/// need not have met, and no note is needed.
pub fn calls_keep_real_time()
    ensures called { (limits : Limits) → CallsKeepRealTime limits HasCalled }
    ensures resumed { (limits : Limits) → CallsKeepRealTime limits HasResumed }
{
    keeps_real_time::<TreeLaw>();
}
