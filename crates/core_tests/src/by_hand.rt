//! Turns by hand, with what they are to tell.

use bw_model::{Command, Key, Link, Reply};
use std::alloc::Allocator;
use step_core::{Core, Event};
use traces::Turn;

/// More steps than an operation takes where the others stand: one that removes pages of several levels takes some thousand.
pub(crate) const MOST_STEPS: u32 = 4096;

/// How many actors a core has at most.
pub(crate) const MOST_ACTORS: u8 = 63;

/// Lets a core go. A function in which a core is dropped costs the proof two seconds more than one that hands it to this.
pub(crate) fn let_go<A: Allocator>(_core: Core<A>) {}

/// Whether an actor begins an operation.
pub(crate) fn begins(core: &mut Core, actor: u8, command: Command) -> bool {
    core.turn(Turn::Begin(actor, command)) == Ok(Event::Began)
}

/// Whether so many steps each tell the link, or that there is none.
pub(crate) fn steps(core: &mut Core, actor: u8, times: u32, link: Option<Link>) -> bool {
    for _ in 0..times {
        if core.step_on(actor) != Some(link) {
            return false;
        }
    }
    true
}

/// Takes so many steps. Answers whether an exchange with this link was among these; none where they are not taken, or the operation is
/// done by then.
pub(crate) fn stepped(core: &mut Core, actor: u8, times: u32, link: Link) -> Option<bool> {
    let mut linked = false;
    for _ in 0..times {
        match core.step_on(actor) {
            Some(made) => linked |= made == Some(link),
            None => return None,
        }
    }
    Some(linked)
}

/// Whether an exchange of the actor with this link wins before its operation is done.
pub(crate) fn until(core: &mut Core, actor: u8, link: Link) -> bool {
    for _ in 0..MOST_STEPS {
        match core.step_on(actor) {
            Some(made) => {
                if made == Some(link) {
                    return true;
                }
            }
            None => return false,
        }
    }
    false
}

/// The reply of a step that ends its operation.
pub(crate) fn end(core: &mut Core, actor: u8) -> Option<Reply> {
    match core.turn(Turn::Step(actor)) {
        Ok(Event::Done(reply)) => Some(reply),
        _ => None,
    }
}

/// The reply of the operation that an actor has, after as many steps as it takes.
pub(crate) fn finish(core: &mut Core, actor: u8) -> Option<Reply> {
    for _ in 0..MOST_STEPS {
        if core.step_on(actor).is_none() {
            return end(core, actor);
        }
    }
    None
}

/// The reply of an actor's command, after as many steps as it takes.
pub(crate) fn reply(core: &mut Core, actor: u8, command: Command) -> Option<Reply> {
    if begins(core, actor, command) {
        return finish(core, actor);
    }
    None
}

/// Whether an actor's command has this reply.
pub(crate) fn replies(core: &mut Core, actor: u8, command: Command, wanted: Reply) -> bool {
    reply(core, actor, command) == Some(wanted)
}

/// How many PIDs are in use, of at most 512. PID 0 is among them, those that an actor has taken, and those in limbo.
pub(crate) fn used(core: &Core) -> u32 {
    let (memory, pids) = (core.memory(), core.limits().pids);
    let mut count = 0u32;
    for pid in 0..512u32 {
        if u64::from(pid) < pids && !memory.is_free_pid(pid) {
            count = count.wrapping_add(1);
        }
    }
    count
}

/// Whether all operations are done, and then four deletes of a key by each actor, after which each has freed all that it took out.
pub(crate) fn comes_to_rest(core: &mut Core, key: &Key) -> bool {
    for actor in 0..MOST_ACTORS {
        if core.is_busy(actor) && finish(core, actor).is_none() {
            return false;
        }
    }
    for turn in 0..4 * MOST_ACTORS {
        let actor = turn % MOST_ACTORS;
        let is_one = u64::from(actor) < core.limits().actors;
        if is_one && reply(core, actor, Command::Delete(key.copied())).is_none() {
            return false;
        }
    }
    true
}
