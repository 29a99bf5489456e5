//! Laws of an actor's calls: each function does nothing, and its contract is proved of all runs.
ghost use Rattle.std.specs.Prelude.{ℕ, List, ◌≡◌, ◌∷◌, ◌++◌, [], IsTrue, None, Option, Some, length, slice_get};
ghost use Rattle.tree_limits.specs.declared.limits.Limits.{Limits};
ghost use Rattle.bw_model.specs.declared.command.Command.{Command};
ghost use Rattle.bw_model.specs.declared.command.Reply.{Reply};
ghost use Rattle.running_tree.specs.Calls.{IsCalled, IsResumed, calls_in, calls_of};
ghost use Rattle.running_tree.specs.Runs.{IsOneHistory};
ghost use Rattle.running_tree.specs.Seats.{Seat, unfinished_command};
ghost use Rattle.running_tree.specs.declared.called.Called.{Called};
ghost use Rattle.traces.specs.declared.trace.Entry.{Entry};
ghost use Rattle.traces.specs.declared.trace.Turn.{Turn};
ghost use Rattle.traces.specs.trace.Run.{IsRun};
ghost use Rattle.traces.specs.trace.Trace.{command_of};
ghost use Rattle.linearization.specs.Linearized.{IsLinearized};
ghost use Rattle.linearization.specs.Operations.{Finishes, IsOperation, Operation};
ghost use Rattle.map_laws.specs.Fits.{CameFitting, fits};
ghost use Rattle.map_laws.specs.InOrder.{AreInOrder, IsCall, IsEnded};

/// Each call that has a reply is an operation of the actor's, which ends with that reply. The calls are operations in their order, also
/// those alone that come after a place at which the actor had none under way (`back`; from the run's begin on where `front` is empty).
/// Each operation of the run is one of its actor's calls.
pub fn calls_are_operations()
    ensures each { (limits : Limits) (run : List Entry) (actor place : ℕ) (command : Command) (reply : Reply)
        → IsRun limits run → slice_get (calls_of actor run) place ≡ Some (command, Some reply) → (done : ℕ) × IsEnded run actor 0 command reply done }
    ensures order { (limits : Limits) (front back : List Entry) (actor : ℕ)
        → IsRun limits (front ++ back) → command_of front actor ≡ None → AreInOrder (front ++ back) actor (length front) (calls_of actor back) }
    ensures all { (run : List Entry) (operation : Operation) → IsOperation run operation → IsCall run operation.actor operation.command }
{}

/// The reply of a finished operation is one of its command's kind, and so is that of each call.
pub fn replies_fit()
    ensures operations { (limits : Limits) (turns : List Turn) (run : List Entry) (operation : Operation) (done : ℕ) (reply : Reply)
        → IsLinearized limits turns run → IsOperation run operation → Finishes run operation done reply → IsTrue (fits operation.command reply) }
    ensures calls { (limits : Limits) (turns : List Turn) (run : List Entry) (actor place : ℕ) (command : Command) (reply : Reply)
        → IsLinearized limits turns run → slice_get (calls_of actor run) place ≡ Some (command, Some reply) → IsTrue (fits command reply) }
{}

/// What a call on a seat comes to fits its command: by what `Tree::call` and `Tree::resume` ensure, and by the calls that a seat has made.
pub fn seats_replies_fit()
    ensures last { (seat : Seat) (calls : List (Command × Option Reply)) (command : Command) (reply : Reply)
        → IsOneHistory seat.limits seat.seen → calls_in seat ≡ calls ++ (command, Some reply) ∷ [] → IsTrue (fits command reply) }
    ensures called { (old new : Seat) (command : Command) (budget : ℕ) (called : Called)
        → IsOneHistory new.limits new.seen → IsCalled old command budget called new → CameFitting command called }
    ensures resumed { (old new : Seat) (command : Command) (budget : ℕ) (called : Called)
        → IsOneHistory new.limits new.seen → unfinished_command old ≡ Some command → IsResumed old budget called new → CameFitting command called }
{}
