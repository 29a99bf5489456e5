//! What entries tell of calls, replies and counts: each function does nothing, and its contract computes it.
ghost use Rattle.std.specs.Prelude.{codes, ◌≡◌, [], ◌∷◌, None, Some, length, take};
ghost use Rattle.bw_model.specs.declared.command.Command.TheVariants.{Get, Upsert, Delete};
ghost use Rattle.bw_model.specs.declared.command.Reply.TheVariants as reply;
ghost use Rattle.running_tree.specs.Calls.{answered_last, calls_of};
ghost use Rattle.running_tree.specs.Examples.{read_between, two_actors, two_words};
ghost use Rattle.running_tree.specs.LastReply.{last_reply};
ghost use Rattle.deltas.specs.Memory.{how_many};
ghost use Rattle.running_tree.specs.Room.{free_among, is_free};
ghost use Rattle.change_machine.specs.declared.taking.Kind.TheVariants.{Pid};
ghost use Rattle.traces.specs.discipline.Disciplined.{own_entries};
ghost use Rattle.traces.specs.trace.Trace.{memory_of};

/// The calls of an actor are its commands in order, each with its reply once it has one. What others do tells nothing of them.
pub fn entries_tell_calls()
    ensures one { calls_of 0 two_actors ≡ (Get (codes "a"), Some reply.None) ∷ (Upsert (codes "a") (codes "1"), None) ∷ [] }
    ensures other { calls_of 1 two_actors ≡ (Delete (codes "b"), None) ∷ [] }
    ensures nobody { calls_of 2 two_actors ≡ [] }
    ensures count { length (own_entries 0 two_actors) ≡ 5 }
{}

/// A reply is that of the call that was made last.
pub fn last_call_is_answered()
    ensures { answered_last ((Get (codes "a"), Some reply.None) ∷ (Delete (codes "b"), None) ∷ []) reply.Absent ≡ (Get (codes "a"), Some reply.None) ∷ (Delete (codes "b"), Some reply.Absent) ∷ [] }
{}

/// The reply is that of the operation that an actor began last, once it is finished. What others do tells nothing of it.
pub fn last_replies_are_told()
    ensures begun { last_reply 0 (take 3 two_actors) ≡ None }
    ensures finished { last_reply 0 (take 5 two_actors) ≡ Some reply.None }
    ensures again { last_reply 0 two_actors ≡ None }
    ensures other { last_reply 1 two_actors ≡ None }
{}

/// Each word counts as it stood when it was read, and no moment need have had so many: here 126 PIDs were free first, and 124 last.
pub fn counts_are_taken_by_words()
    ensures first { how_many (is_free Pid (memory_of two_words (read_between 0))) 128 ≡ 126 }
    ensures last { how_many (is_free Pid (memory_of two_words (read_between 1))) 128 ≡ 124 }
    ensures counted { free_among two_words Pid read_between 128 ≡ 125 }
{}
