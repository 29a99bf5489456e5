//! Two writers at a removed page, step by step in turn, in a thousand drawn orders: changes of the tree never pause for long.

use crate::asked::draw;
use crate::by_hand::{MOST_STEPS, begins, end, let_go, until};
use crate::numbered::{key, value};
use crate::scripts::{Line, Size, runs};
use bw_model::{Command, Link, Reply};
use rand_core::SeedableRng;
use rand_pcg::Pcg32;
use std::alloc::Global;
use step_core::Core;

/// Page 1 has k1 to k8, and page 2 has k9 to k12: the next delete there removes it.
const SMALL_LEAF: [Line; 2] = [Line::Inserts(0, 1, 17), Line::Deletes(0, 17, 13)];

/// Behind which exchanges of a removal its page stands removed.
const STAGES: [Link; 3] = [Link::Remove, Link::Merge, Link::Unterm];

/// How many updates each writer makes.
const UPDATES: u32 = 4;

/// What two writers have done: how many updates each has begun, how many steps there were since the last change of the tree, and at most.
#[derive(Clone, Copy)]
struct Pause {
    begun: [u32; 2],
    steps: u32,
    most: u32,
}

/// Whether an actor begins its next update of a key of the removed page.
fn begins_next(core: &mut Core, actor: u8, count: u32) -> bool {
    let number = 9 + count.wrapping_add(u32::from(actor)) % 3;
    begins(core, actor, Command::Upsert(key(number), value(count)))
}

impl Pause {
    /// Takes a step of a writer, which begins its next update first if it has none. None where a reply is wrong; whether it has come to its end.
    fn turn(&mut self, core: &mut Core, writer: u8) -> Option<bool> {
        let place = usize::from(writer % 2);
        let actor = writer % 2 + 1;
        if !core.is_busy(actor) {
            if self.begun[place] >= UPDATES {
                return Some(true);
            }
            self.begun[place] = self.begun[place].saturating_add(1);
            return begins_next(core, actor, self.begun[place]).then_some(false);
        }
        self.steps = self.steps.saturating_add(1);
        match core.step_on(actor) {
            Some(None) => {}
            Some(Some(_)) => {
                self.most = self.most.max(self.steps);
                self.steps = 0;
            }
            None => match end(core, actor) {
                Some(Reply::Replaced(_)) => {}
                _ => return None,
            },
        }
        Some(false)
    }

    /// Takes steps of both, in a drawn order, until both have come to their end; none where a reply is wrong, or there are too many steps.
    fn turns(&mut self, core: &mut Core, rng: &mut Pcg32) -> Option<u32> {
        let mut done = [false; 2];
        for _ in 0..MOST_STEPS {
            let writer = (draw(rng, 2) % 2) as u8;
            done[usize::from(writer)] |= self.turn(core, writer)?;
            if done == [true; 2] {
                return Some(self.most);
            }
        }
        None
    }
}

/// The longest pause in a drawn order of steps, beside a delete that stands behind a stage of its removal.
fn paused(alloc: Global, core: &mut Core, seed: u64) -> Option<u32> {
    let stage = STAGES[(seed % 3) as usize];
    let stands = runs(alloc, core, &SMALL_LEAF)
        && begins(core, 0, Command::Delete(key(12)))
        && until(core, 0, stage);
    if !stands {
        return None;
    }
    let mut pause = Pause {
        begun: [0; 2],
        steps: 0,
        most: 0,
    };
    pause.turns(core, &mut Pcg32::seed_from_u64(seed))
}

/// The longest pause in a new tree, in the order of this seed.
fn paused_anew(alloc: Global, size: Size, seed: u64) -> Option<u32> {
    let mut core = size.opened(alloc, 3)?;
    let paused = paused(alloc, &mut core, seed);
    let_go(core);
    paused
}

/// The longest pause in so many orders.
fn longest(alloc: Global, size: Size, orders: u64) -> Option<u32> {
    let mut longest = 0u32;
    for seed in 0..orders {
        longest = longest.max(paused_anew(alloc, size, seed)?);
    }
    Some(longest)
}

#[test]
fn changes_do_not_pause_for_long(rt: HostRuntime) {
    for (size, expected) in [(Size::Small(64, 256), 78), (Size::Large(64, 256), 43)] {
        let longest = longest(rt.alloc(), size, 1_000);
        assert!(rt; longest == Some(expected), "{size:?}: {longest:?}");
    }
}
