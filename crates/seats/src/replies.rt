//! Commands that run to their end.
ghost use Rattle.std.specs.Prelude.{◌≡◌, ◌≤◌, IfErr, IfOk, IfSome, IsSome, IsTrue, None};
ghost use Rattle.running_tree.specs.Calls.{IsCalled, IsDone, IsResumed, called_if};
ghost use Rattle.running_tree.specs.Runs.{IsOneHistory};
ghost use Rattle.running_tree.specs.Seats.{IsSame, unfinished_command};
ghost use Rattle.running_tree.specs.Trees.{IsSeatOf};
ghost use Rattle.map_laws.specs.Fits.{CameFitting, fits};
ghost use Rattle.seats.specs.Replies.{CantBegin, HasNoReply, many};

use bw_model::{Command, Reply};
use map_laws::seats_replies_fit;
use running_tree::{BwSeat, Called, Tree};
use thiserror::Error;

/// How many steps a command is given that is to run to its end: more than an operation takes in small trees.
pub const BUDGET: u32 = 1 << 16;

/// Why there is no reply.
#[derive(Clone, Copy, Debug, PartialEq, Eq, Error)]
pub enum NoReply {
    /// The seat has another operation, and is as it was: complete that first, by `resumed`.
    #[error("the seat has another operation")]
    Busy,
    /// The steps are spent, and the command stays in the seat: `resumed` continues it.
    #[error("the steps are spent")]
    Spent,
}

/// Runs a command to completion, if the seat is idle and 65,536 steps are enough.
pub fn reply(tree: &Tree, seat: &mut BwSeat, command: Command) -> Result<Reply, NoReply>
    requires own { IsSeatOf tree.now seat.old }
    ensures own { IsSeatOf tree.now seat.new }
    ensures same { IsSame seat.old seat.new }
    ensures idle { IfOk result (λ reply. unfinished_command seat.old ≡ None) }
    ensures done { IfOk result (λ reply. IsDone seat.old command many reply seat.new) }
    ensures fits { IfOk result (λ reply. IsTrue (fits command reply)) }
    ensures history { unfinished_command seat.old ≡ None → IsOneHistory seat.new.limits seat.new.seen }
    ensures refused { IfErr result (λ refusal. HasNoReply seat.old command refusal seat.new) }
{
    if !seat.is_idle() {
        return Err(NoReply::Busy);
    }
    seats_replies_fit();
    match tree.call(seat, command, BUDGET) {
        Called::Done(reply) => Ok(reply),
        Called::Spent => Err(NoReply::Spent),
    }
}

/// Continues the operation of a seat for at most so many steps; none if the seat has none, which changes nothing.
pub fn resumed(tree: &Tree, seat: &mut BwSeat, budget: u32) -> Option<Called>
    requires own { IsSeatOf tree.now seat.old }
    ensures own { IsSeatOf tree.now seat.new }
    ensures same { IsSame seat.old seat.new }
    ensures resumed { IfSome result (λ called. IsResumed seat.old budget called seat.new) }
    ensures fits { IfSome result (λ called. IfSome (unfinished_command seat.old) (λ command. CameFitting command called)) }
    ensures some { IsSome result → IsSome (unfinished_command seat.old) }
    ensures history { IsSome result → IsOneHistory seat.new.limits seat.new.seen }
    ensures none { result ≡ None → (unfinished_command seat.old ≡ None) × (seat.new ≡ seat.old) }
{
    if seat.is_idle() {
        return None;
    }
    seats_replies_fit();
    Some(tree.resume(seat, budget))
}

/// Begins a command, if the seat is idle, and runs it for at most so many steps; none if it isn't idle, or the budget is 0, which changes
/// nothing.
pub fn called(tree: &Tree, seat: &mut BwSeat, command: Command, budget: u32) -> Option<Called>
    requires own { IsSeatOf tree.now seat.old }
    ensures own { IsSeatOf tree.now seat.new }
    ensures same { IsSame seat.old seat.new }
    ensures called { IfSome result (λ called. IsCalled seat.old command budget called seat.new) }
    ensures fits { IfSome result (λ called. CameFitting command called) }
    ensures some { IsSome result → (unfinished_command seat.old ≡ None) × (1 ≤ budget) }
    ensures history { IsSome result → IsOneHistory seat.new.limits seat.new.seen }
    ensures none { result ≡ None → CantBegin seat.old budget × (seat.new ≡ seat.old) }
{
    if !seat.is_idle() || budget == 0 {
        return None;
    }
    seats_replies_fit();
    Some(tree.call(seat, command, budget))
}

/// As `called`, but writes the reply into the caller's place, and returns whether the operation is done. A lookup then moves no reply's
/// room.
#[inline(always)]
pub fn called_in(
    tree: &Tree,
    seat: &mut BwSeat,
    command: Command,
    budget: u32,
    reply: &mut Reply,
) -> Option<bool>
    requires own { IsSeatOf tree.now seat.old }
    ensures own { IsSeatOf tree.now seat.new }
    ensures same { IsSame seat.old seat.new }
    ensures called { IfSome result (λ done. IsCalled seat.old command budget (called_if done reply.new) seat.new) }
    ensures fits { IfSome result (λ done. CameFitting command (called_if done reply.new)) }
    ensures some { IsSome result → (unfinished_command seat.old ≡ None) × (1 ≤ budget) }
    ensures history { IsSome result → IsOneHistory seat.new.limits seat.new.seen }
    ensures none { result ≡ None → CantBegin seat.old budget × (seat.new ≡ seat.old) × (reply.new ≡ reply.old) }
{
    if !seat.is_idle() || budget == 0 {
        return None;
    }
    seats_replies_fit();
    Some(tree.call_in(seat, command, budget, reply))
}

/// As `resumed`, but writes the reply into the caller's place, and returns whether the operation is done.
pub fn resumed_in(tree: &Tree, seat: &mut BwSeat, budget: u32, reply: &mut Reply) -> Option<bool>
    requires own { IsSeatOf tree.now seat.old }
    ensures own { IsSeatOf tree.now seat.new }
    ensures same { IsSame seat.old seat.new }
    ensures resumed { IfSome result (λ done. IsResumed seat.old budget (called_if done reply.new) seat.new) }
    ensures fits { IfSome result (λ done. IfSome (unfinished_command seat.old) (λ command. CameFitting command (called_if done reply.new))) }
    ensures some { IsSome result → IsSome (unfinished_command seat.old) }
    ensures history { IsSome result → IsOneHistory seat.new.limits seat.new.seen }
    ensures none { result ≡ None → (unfinished_command seat.old ≡ None) × (seat.new ≡ seat.old) × (reply.new ≡ reply.old) }
{
    if seat.is_idle() {
        return None;
    }
    seats_replies_fit();
    Some(tree.resume_in(seat, budget, reply))
}
