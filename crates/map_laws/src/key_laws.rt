//! Laws of keys that one actor alone changes: each function does nothing, and its contract is proved of all runs.
ghost use Rattle.std.specs.Prelude.{ℕ, List, ◌≡◌, ◌≢◌, ◌∷◌, ◌++◌, [], IsTrue, None, Option, Some, length};
ghost use Rattle.tree_limits.specs.declared.limits.Limits.{Limits};
ghost use Rattle.bw_model.specs.Log.{logged_value};
ghost use Rattle.bw_model.specs.Replies.{reply_of};
ghost use Rattle.bw_model.specs.declared.command.Command.{Command};
ghost use Rattle.bw_model.specs.declared.command.Command.TheVariants.{Get, Upsert};
ghost use Rattle.bw_model.specs.declared.command.Reply.{Reply};
ghost use Rattle.bw_model.specs.declared.command.Reply.TheVariants as reply;
ghost use Rattle.running_tree.specs.Calls.{IsDone, calls_in, calls_of};
ghost use Rattle.running_tree.specs.Runs.{IsOneHistory};
ghost use Rattle.running_tree.specs.Seats.{Seat};
ghost use Rattle.traces.specs.declared.trace.Entry.{Entry};
ghost use Rattle.traces.specs.declared.trace.Turn.{Turn};
ghost use Rattle.traces.specs.trace.Trace.{command_of};
ghost use Rattle.linearization.specs.Linearized.{IsLinearized};
ghost use Rattle.linearization.specs.Points.{log_at};
ghost use Rattle.map_laws.specs.Fits.{fits};
ghost use Rattle.map_laws.specs.OwnKeys.{AreOwnReplies, ChangesAlone, ChangesAloneSince, is_about, value_through};

/// If nobody else changes a key, an actor's replies about it are those of a map with this one key: it reads what it wrote. This holds from
/// the run's begin on, where the key has no value; and from a place on at which the actor had nothing under way, with the value of then.
pub fn own_keys()
    ensures whole { (limits : Limits) (turns : List Turn) (run : List Entry) (actor : ℕ) (key : List ℕ)
        → IsLinearized limits turns run → ChangesAlone run actor key → AreOwnReplies key None (calls_of actor run) }
    ensures since { (limits : Limits) (turns : List Turn) (front back : List Entry) (actor : ℕ) (key : List ℕ) (linear : IsLinearized limits turns (front ++ back))
        → command_of front actor ≡ None → ChangesAloneSince (front ++ back) actor key (length front)
        → AreOwnReplies key (logged_value (log_at (front ++ back) linear.points (length front)) key) (calls_of actor back) }
{}

/// In a tree with one seat this holds for every key.
pub fn one_seat()
    ensures { (limits : Limits) (turns : List Turn) (run : List Entry) (actor : ℕ) (key : List ℕ)
        → limits.actors ≡ 1 → IsLinearized limits turns run → AreOwnReplies key None (calls_of actor run) }
{}

/// The last of such calls replies by the value that the calls before it have left. So a lookup shows what the call before it has set, also
/// by what two calls of a seat ensure.
pub fn own_reads()
    ensures last { (key : List ℕ) (before : Option (List ℕ)) (calls : List (Command × Option Reply)) (command : Command) (given : Reply)
        → AreOwnReplies key before (calls ++ (command, Some given) ∷ []) → IsTrue (is_about key command) → IsTrue (fits command given) → given ≢ reply.Full
        → reply_of command (value_through key before calls) ≡ Some given }
    ensures set { (key : List ℕ) (before : Option (List ℕ)) (calls : List (Command × Option Reply)) (value : List ℕ) (given told : Reply)
        → AreOwnReplies key before (calls ++ (Upsert key value, Some given) ∷ (Get key, Some told) ∷ [])
        → IsTrue (fits (Upsert key value) given) → IsTrue (fits (Get key) told) → given ≢ reply.Full → told ≡ reply.Value value }
    ensures seat { (old mid new : Seat) (key value : List ℕ) (before : Option (List ℕ)) (budget more : ℕ) (given told : Reply)
        → IsOneHistory new.limits new.seen → AreOwnReplies key before (calls_in new)
        → IsDone old (Upsert key value) budget given mid → IsDone mid (Get key) more told new → given ≢ reply.Full → told ≡ reply.Value value }
{}
