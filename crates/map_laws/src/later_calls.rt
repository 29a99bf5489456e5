//! Laws of two calls that do not overlap, whoever makes them: each function does nothing, and its contract is proved of all runs. That the second
//! call's history has the first one's is what `running_tree` says of moments of a tree (`calls_keep_real_time`).
ghost use Rattle.std.specs.Prelude.{ℕ, List, ◌≡◌, ◌≢◌};
ghost use Rattle.bw_model.specs.declared.command.Command.{Command};
ghost use Rattle.bw_model.specs.declared.command.Command.TheVariants.{Get, Upsert};
ghost use Rattle.bw_model.specs.declared.command.Reply.{Reply};
ghost use Rattle.bw_model.specs.declared.command.Reply.TheVariants as reply;
ghost use Rattle.running_tree.specs.Calls.{IsDone};
ghost use Rattle.running_tree.specs.RealTime.{ComesBefore};
ghost use Rattle.running_tree.specs.Runs.{IsOneHistory};
ghost use Rattle.running_tree.specs.Seats.{IsSame, Seat};
ghost use Rattle.map_laws.specs.RealTime.{AreApart, ChangedByTwo, ReplyInOrder, call_operation};

/// A call that begins after another one has returned takes effect after it, in the one history that it has seen: all own steps of the first operation
/// come before those of the second one.
pub fn later_calls_take_effect_later()
    ensures { (old first : Seat) (command : Command) (budget : ℕ) (given : Reply) (is : IsDone old command budget given first)
        → (later new : Seat) (asked : Command) (comes : ComesBefore first given later asked new) → IsSame old first → IsOneHistory new.limits new.seen
        → AreApart new.seen (call_operation old command first.seen is.begins) (call_operation later asked new.seen comes.begins) given }
{}

/// If nobody else changes the key meanwhile, the replies of two such calls are those of a map with this one key, one after the other. So a
/// lookup on another seat returns what a completed upsert has set.
pub fn later_calls_see_the_key()
    ensures replies { (old first : Seat) (command : Command) (budget : ℕ) (given : Reply) (is : IsDone old command budget given first)
        → (later new : Seat) (asked : Command) (comes : ComesBefore first given later asked new) → IsSame old first → IsSame later new → IsOneHistory new.limits new.seen
        → (more : ℕ) (told : Reply) → IsDone later asked more told new → (key : List ℕ)
        → ChangedByTwo new.seen key (call_operation old command first.seen is.begins) (call_operation later asked new.seen comes.begins)
        → ReplyInOrder key command given asked told }
    ensures reads { (old first : Seat) (key value : List ℕ) (budget : ℕ) (given : Reply) (is : IsDone old (Upsert key value) budget given first)
        → (later new : Seat) (comes : ComesBefore first given later (Get key) new) → IsSame old first → IsSame later new → IsOneHistory new.limits new.seen
        → (more : ℕ) (told : Reply) → IsDone later (Get key) more told new
        → ChangedByTwo new.seen key (call_operation old (Upsert key value) first.seen is.begins) (call_operation later (Get key) new.seen comes.begins)
        → given ≢ reply.Full → told ≡ reply.Value value }
{}
