//! Writers that have planned over a page of level 2 and stand before the exchange, while another one removes that page, merges it and clears it: the
//! exchange loses, and what was planned is done at the page into which the removed one went.

use crate::by_hand::{begins, finish, let_go, until};
use crate::level_two::{KEYS, LAST, grown, nearly, regrows, shrinks};
use crate::numbered::{key, value};
use crate::scripts::{Ask, Line, Say, lists_all, runs};
use bw_model::{Command, Link, Reply};
use std::alloc::Global;
use step_core::Core;

/// Whether actor 0's delete removes its leaf, the page above that, and the page of level 2, and comes to its end.
fn removes(core: &mut Core) -> bool {
    begins(core, 0, Command::Delete(key(LAST)))
        && until(core, 0, Link::Clear)
        && until(core, 0, Link::Clear)
        && until(core, 0, Link::Clear)
        && finish(core, 0) == Some(Reply::Deleted(value(LAST)))
}

/// Whether these lines tell what they are to before that, and those after it.
fn tell(alloc: Global, core: &mut Core, before: &[Line], after: &[Line]) -> bool {
    runs(alloc, core, before) && removes(core) && runs(alloc, core, after)
}

/// The update splits its leaf, and its page of level 1, which has sixteen leaves then; it stands before the new page's term comes to the page of
/// level 2.
const TERM: [Line; 5] = [
    Line::Begins(1, Ask::Upsert(633, 633)),
    Line::Until(1, Link::Split),
    Line::Until(1, Link::Term),
    Line::Until(1, Link::Split),
    Line::Turns(1, 30),
];

/// The term comes to the page on the left, which has the removed one's terms.
const TERM_AFTER: [Line; 5] = [
    Line::Replies(2, Ask::Get(590), Say::Value(590)),
    Line::Steps(1, 1, None),
    Line::Until(1, Link::Term),
    Line::Finishes(1, Say::Replaced(633)),
    Line::Replies(2, Ask::Get(590), Say::Value(590)),
];

/// Whether it does on a new core.
fn term_is_posted(alloc: Global) -> bool {
    match grown(alloc, 3) {
        Some(mut core) => {
            let right = shrinks(&mut core)
                && nearly(&mut core)
                && tell(alloc, &mut core, &TERM, &TERM_AFTER);
            let_go(core);
            right
        }
        None => false,
    }
}

/// The delete makes its page of level 1 small, and stands before the exchange by which that page's term is held in the page of level 2.
const HOLD: [Line; 7] = [
    Line::Deletes(1, 891, 881),
    Line::Deletes(1, 875, 865),
    Line::Deletes(1, 859, 849),
    Line::Deletes(1, 843, 805),
    Line::Begins(1, Ask::Delete(804)),
    Line::Until(1, Link::Clear),
    Line::Turns(1, 21),
];

/// The term is held in the page on the left, and its page is removed, merged and cleared.
const HOLD_AFTER: [Line; 8] = [
    Line::Replies(2, Ask::Get(803), Say::Value(803)),
    Line::Steps(1, 1, None),
    Line::Until(1, Link::Hold),
    Line::Until(1, Link::Remove),
    Line::Until(1, Link::Merge),
    Line::Until(1, Link::Unterm),
    Line::Until(1, Link::Clear),
    Line::Finishes(1, Say::Deleted(804)),
];

/// Whether they are on a new core.
fn term_is_held(alloc: Global) -> bool {
    match grown(alloc, 3) {
        Some(mut core) => {
            let right = shrinks(&mut core) && tell(alloc, &mut core, &HOLD, &HOLD_AFTER);
            let_go(core);
            right
        }
        None => false,
    }
}

#[test]
fn plans_over_a_page_that_is_removed_begin_anew(rt: HostRuntime) {
    let right = [term_is_posted(rt.alloc()), term_is_held(rt.alloc())];
    assert!(rt; right == [true; 2], "{right:?}");
}

/// The steps of a delete that removes a page of level 2: that one's removal, its merge, the end of its term, and the end of its slot.
const STAGES: [Link; 4] = [Link::Remove, Link::Merge, Link::Unterm, Link::Clear];

/// Whether the delete comes to where two pages below are cleared, and then by so many of the stages.
fn comes(core: &mut Core, stages: usize) -> bool {
    for link in STAGES.iter().take(stages) {
        if !until(core, 0, *link) {
            return false;
        }
    }
    true
}

/// Whether the delete stands before the page of level 2 is removed.
fn stands(core: &mut Core) -> bool {
    shrinks(core)
        && begins(core, 0, Command::Delete(key(LAST)))
        && until(core, 0, Link::Clear)
        && until(core, 0, Link::Clear)
}

/// How far a lookup reads before the delete goes on by so many stages.
fn reads(core: &mut Core, count: u32, stages: usize) -> Option<bool> {
    let found = Some(Reply::Value(value(700)));
    if !stands(core) || !begins(core, 1, Command::Get(key(700))) {
        return None;
    }
    let mut stopped = true;
    for _ in 0..count {
        stopped = stopped && core.step_on(1).is_some();
    }
    let right = comes(core, stages)
        && finish(core, 1) == found
        && finish(core, 0) == Some(Reply::Deleted(value(LAST)))
        && regrows(core);
    right.then_some(stopped)
}

/// How many stops a lookup has, each of which is followed by so many stages; none where it doesn't find the value.
fn stops(alloc: Global, stages: usize) -> Option<u32> {
    let mut core = grown(alloc, 2)?;
    let mut found = None;
    for count in 0..100u32 {
        match reads(&mut core, count, stages) {
            Some(true) => {}
            Some(false) => {
                found = Some(count);
                break;
            }
            None => break,
        }
    }
    let right = lists_all(alloc, &core, 1, KEYS);
    let_go(core);
    if right { found } else { None }
}

// What the lookup has read of the root, of the page that is removed or of the one to its left is older than what the delete does then.
#[test]
fn a_reader_of_a_page_that_is_removed_goes_on(rt: HostRuntime) {
    for stages in 1..=4usize {
        let stops = stops(rt.alloc(), stages);
        assert!(rt; stops == Some(24), "{stages} stages: {stops:?}");
    }
}
