//! A reader that sleeps on its way while its leaf is merged and its range fills with leaves, of which many stand removed: it wakes, and comes to
//! its end alone.

use crate::by_hand::{MOST_STEPS, begins, end, let_go, replies, stepped, until};
use crate::numbered::{between, insert, key, value};
use crate::scripts::Size;
use bw_model::{Command, Link, Reply};
use std::alloc::Global;
use step_core::Core;

/// The actor that sleeps.
const READER: u8 = 15;

/// The leaf of the reader has the numbers from here on.
const LOW: u32 = 64;

/// Ten keys behind that of a number.
const LETTERS: [u8; 10] = *b"abcdefghij";

/// Whether keys come that make the tree three levels high, each second one of the numbers.
fn is_grown(core: &mut Core) -> bool {
    for number in (0..512u32).step_by(2) {
        if !replies(core, 0, insert(number), Reply::Inserted) {
            return false;
        }
    }
    true
}

/// Whether the reader's leaf is merged into its left one, and its term is gone, by an actor that stands then.
fn is_merged(core: &mut Core) -> bool {
    for number in (LOW..LOW + 8).step_by(2) {
        let deleted = Reply::Deleted(value(number));
        if !replies(core, 0, Command::Delete(key(number)), deleted) {
            return false;
        }
    }
    begins(core, 1, Command::Delete(key(LOW + 8))) && until(core, 1, Link::Unterm)
}

/// Whether its range fills with leaves.
fn is_filled(core: &mut Core) -> bool {
    for number in LOW..LOW + 16 {
        for last in LETTERS {
            let insert = Command::Insert(between(number, last), value(number));
            if !replies(core, 0, insert, Reply::Inserted) {
                return false;
            }
        }
    }
    true
}

/// Whether an actor places a removal in its operation, and stands then; if not, the operation comes to its end.
fn stands_removing(core: &mut Core, actor: u8, command: Command) -> bool {
    if !begins(core, actor, command) {
        return false;
    }
    if until(core, actor, Link::Remove) {
        return true;
    }
    let _ = end(core, actor);
    false
}

/// How many actors stand behind a removal in the range, each of them at another leaf.
fn standing(core: &mut Core) -> u32 {
    let (mut actor, mut count) = (2u8, 0u32);
    for number in LOW..LOW + 16 {
        for last in LETTERS {
            let delete = Command::Delete(between(number, last));
            if actor < READER && stands_removing(core, actor, delete) {
                actor = actor.saturating_add(1);
                count = count.wrapping_add(1);
                break;
            }
        }
    }
    count
}

/// How many steps the reader takes alone from here on, if it finds nothing at its key.
fn woken(core: &mut Core) -> Option<u32> {
    for steps in 1..=MOST_STEPS {
        if core.step_on(READER).is_none() {
            return (end(core, READER) == Some(Reply::None)).then_some(steps);
        }
    }
    None
}

/// How many steps the reader takes that has slept after so many, while ten others came to stand; none once it is done by then, or where
/// anything was wrong.
fn slept(core: &mut Core, steps: u32) -> Option<u32> {
    let asleep = is_grown(core)
        && begins(core, READER, Command::Get(between(LOW + 15, b'z')))
        && stepped(core, READER, steps, Link::Put).is_some();
    if asleep && is_merged(core) && is_filled(core) && standing(core) == 10 {
        return woken(core);
    }
    None
}

/// What `slept` finds in a new tree.
fn slept_anew(alloc: Global, size: Size, steps: u32) -> Option<u32> {
    let mut core = size.opened(alloc, 16)?;
    let slept = slept(&mut core, steps);
    let_go(core);
    slept
}

/// After how many steps the reader may sleep, and the most that it takes then.
#[derive(Clone, Copy, Debug, PartialEq)]
struct Sleep {
    stops: u32,
    most: u32,
}

/// Where it may sleep in a tree of this size.
fn sleeps(alloc: Global, size: Size) -> Sleep {
    let mut most = 0u32;
    for stops in 0..MOST_STEPS {
        match slept_anew(alloc, size, stops) {
            Some(taken) => most = most.max(taken),
            None => return Sleep { stops, most },
        }
    }
    Sleep {
        stops: MOST_STEPS,
        most,
    }
}

#[test]
fn a_reader_that_slept_ends(rt: HostRuntime) {
    for (size, stops, most) in [
        (Size::Small(512, 8_192), 19, 376),
        (Size::Large(512, 8_192), 12, 168),
    ] {
        let sleeps = sleeps(rt.alloc(), size);
        assert!(rt; sleeps == Sleep { stops, most }, "{size:?}: {sleeps:?}");
    }
}
