//! Each growth of memory refused in turn in a run in which one actor helps another's split: want of memory is answered, and no reply changes.

use crate::by_hand::{begins, finish, replies, until};
use crate::index_removals::adds_turns;
use crate::named::{key, value};
use crate::scripts::opened;
use bw_model::{Command, Key, Limits, Link, Reply, Value};
use core_memory::Entries;
use refusing_alloc::Refusing;
use std::alloc::{Allocator, Global};
use step_core::{Core, RunError, run};
use traces::{Entry, Turn};

/// An allocator that refuses one growth, and counts.
type Heap<'a> = &'a Refusing<Global>;

/// More growths than the run wants.
const MOST: u64 = 1_000;

/// Whether actor 0 inserts the keys from k01 to k16.
fn inserts(alloc: Global, core: &mut Core) -> bool {
    for number in 1..=16u32 {
        let command = Command::Insert(key(number), value(alloc, u64::from(number)));
        if !replies(core, 0, command, Reply::Inserted) {
            return false;
        }
    }
    true
}

/// Whether actor 1 looks k12 up and inserts k125 while actor 0's split has no term yet, and then both are done.
fn helps(alloc: Global, core: &mut Core) -> bool {
    let between = Key::from_slice(b"k125").unwrap_or_default();
    let new = Value::from_slice(b"x").unwrap_or_default();
    inserts(alloc, core)
        && begins(core, 0, Command::Insert(key(17), value(alloc, 17)))
        && until(core, 0, Link::Split)
        && replies(
            core,
            1,
            Command::Get(key(12)),
            Reply::Value(value(alloc, 12)),
        )
        && begins(core, 1, Command::Insert(between, new))
        && until(core, 1, Link::Root)
        && finish(core, 1) == Some(Reply::Inserted)
        && finish(core, 0) == Some(Reply::Inserted)
}

/// Whether the operations that end in these entries end so: sixteen inserts of actor 0, a lookup and an insert of actor 1, an insert of actor 0.
fn ends_so<A: Allocator>(alloc: Global, entries: &Entries<A>) -> bool {
    let mut ended = 0u32;
    for place in 0..entries.len() {
        if let Some(Entry::Step(actor, _, _, Some(reply))) = entries.entry(place) {
            let (who, wanted) = match ended {
                16 => (1, Reply::Value(value(alloc, 12))),
                17 => (1, Reply::Inserted),
                _ => (0, Reply::Inserted),
            };
            if actor != who || reply != wanted {
                return false;
            }
            ended = ended.wrapping_add(1);
        }
    }
    ended == 19
}

/// At which turn memory is lacking where a growth is refused; none where it isn't, and all operations end as they are to.
fn lacks<'a>(
    alloc: Global,
    heap: Heap<'a>,
    limits: Limits,
    turns: &[Turn],
    growth: u64,
) -> Option<RunError> {
    heap.set(growth);
    match run::<Heap<'a>>(heap, limits, turns) {
        Ok(trace) if ends_so(alloc, &trace.entries) => None,
        Ok(_) => Some(RunError::NoOperation(0)),
        Err(error) => Some(error),
    }
}

/// Whether it is lacking before the first turn, while the core is opened, then at later and later turns, and at last at none.
fn lack_in_order(alloc: Global, heap: Heap<'_>, limits: Limits, turns: &[Turn]) -> bool {
    let mut last = 0;
    for growth in 0..MOST {
        match lacks(alloc, heap, limits, turns, growth) {
            Some(RunError::Memory(turn)) if turn >= last && (growth > 0 || turn == 0) => {
                last = turn;
            }
            None => return last > 0,
            Some(_) => return false,
        }
    }
    false
}

/// Whether it does for the turns of a trace.
fn trace_lacks(alloc: Global, limits: Limits, entries: &Entries) -> bool {
    let mut turns = Vec::new(alloc);
    ends_so(alloc, entries)
        && adds_turns(&mut turns, entries)
        && lack_in_order(alloc, &Refusing::new(alloc), limits, turns.as_slice())
}

/// Whether it does for those of the two actors.
fn help_lacks(alloc: Global) -> bool {
    match opened(alloc, 2, 64, 256, 1) {
        Some(mut core) => {
            let limits = *core.limits();
            let helped = helps(alloc, &mut core);
            let trace = core.into_trace();
            helped && trace_lacks(alloc, limits, &trace.entries)
        }
        None => false,
    }
}

#[test]
fn a_helped_split_wants_memory(rt: HostRuntime) {
    assert!(rt; help_lacks(rt.alloc()), "a helped split");
}
