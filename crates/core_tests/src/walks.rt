//! Walks over all cursor pages of a tree, each from where the one before it ended.

use crate::by_hand::{begins, let_go, replies};
use crate::numbered::{insert, is_pair, key, number_of, value};
use crate::scripts::opened;
use bw_model::{Command, Key, Reply, Value};
use std::alloc::Global;
use step_core::{Core, Event};
use traces::Turn;

/// Whether the keys of the first 300 even numbers from 2 on are inserted, in another order than theirs.
fn grows(core: &mut Core) -> bool {
    for place in 0..300u32 {
        let number = place * 37 % 300 + 1;
        if !replies(core, 0, insert(number * 2), Reply::Inserted) {
            return false;
        }
    }
    true
}

/// How far a walk has come: the greatest number of a key, how many pairs there were, and how many commands another actor has begun
/// meanwhile.
#[derive(Clone, Copy, Debug, PartialEq, Eq)]
struct Walk {
    last: u32,
    pairs: u32,
    begun: u32,
}

/// One of 300 odd keys.
fn odd_key(count: u32) -> Key {
    key(count.wrapping_mul(53) % 300 * 2 + 1)
}

impl Walk {
    /// Another actor's next command: two odd keys come, and the second goes again.
    fn other(&mut self) -> Command {
        let count = self.begun;
        self.begun = count.wrapping_add(1);
        if count % 3 == 2 {
            Command::Delete(odd_key(count.wrapping_sub(1)))
        } else {
            Command::Upsert(odd_key(count), value(count % 1024))
        }
    }

    /// Whether a pair comes behind the last one, with no even key between them, and an even key has its value.
    fn adds(&mut self, pair: &(Key, Value)) -> bool {
        let Some(number) = number_of(&pair.0) else {
            return false;
        };
        let since = number.wrapping_sub(self.last);
        let follows = since == 1 || since == 2 && number % 2 == 0;
        self.last = number;
        self.pairs = self.pairs.wrapping_add(1);
        follows && (number % 2 == 1 || is_pair(Some(pair), number, number))
    }

    /// Whether all pairs do.
    fn adds_all(&mut self, pairs: &[(Key, Value)]) -> bool {
        for pair in pairs {
            if !self.adds(pair) {
                return false;
            }
        }
        true
    }

    /// Whether another actor takes so many turns.
    fn is_disturbed(&mut self, core: &mut Core, turns: u32) -> bool {
        for _ in 0..turns {
            let turn = if core.is_busy(0) {
                Turn::Step(0)
            } else {
                Turn::Begin(0, self.other())
            };
            if core.turn(turn).is_err() {
                return false;
            }
        }
        true
    }

    /// The cursor page from a key on, with so many turns of the other actor between its steps.
    fn page(&mut self, core: &mut Core, from: Key, turns: u32) -> Option<Reply> {
        if !begins(core, 1, Command::Page(from)) {
            return None;
        }
        for _ in 0..1000u32 {
            match core.turn(Turn::Step(1)) {
                Ok(Event::Done(reply)) => return Some(reply),
                Ok(_) => {}
                Err(_) => return None,
            }
            if !self.is_disturbed(core, turns) {
                return None;
            }
        }
        None
    }

    /// Whether the walk comes to its end, page by page.
    fn ends(&mut self, core: &mut Core, turns: u32) -> bool {
        let mut from = Key::default();
        for _ in 0..1000u32 {
            let Some(Reply::Page { items, next }) = self.page(core, from, turns) else {
                return false;
            };
            if !self.adds_all(items.as_slice()) {
                return false;
            }
            match next {
                None => return true,
                Some(key) => from = key,
            }
        }
        false
    }
}

/// A walk over all pairs of a new core, while another actor takes so many turns between its steps.
fn walked(alloc: Global, turns: u32) -> Option<Walk> {
    let mut core = opened(alloc, 2, 256, 8192, 1)?;
    let mut walk = Walk {
        last: 0,
        pairs: 0,
        begun: 0,
    };
    let ends = grows(&mut core) && walk.ends(&mut core, turns);
    let_go(core);
    ends.then_some(walk)
}

#[test]
fn a_walk_lists_all_pairs(rt: HostRuntime) {
    let walk = walked(rt.alloc(), 0);
    let whole = Walk {
        last: 600,
        pairs: 300,
        begun: 0,
    };
    assert!(rt; walk == Some(whole), "{walk:?}");
}

// The even keys, which nothing changes, are walked over once each, in order. That each page is the tree's at one moment is seen in
// `schedules`.
#[test]
fn a_walk_goes_on_under_changes(rt: HostRuntime) {
    let walk = walked(rt.alloc(), 11);
    assert!(rt;
        walk.is_some_and(|walk| walk.last == 600 && walk.begun > 100),
        "{walk:?}"
    );
}
