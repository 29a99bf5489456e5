//! A full tree is closed, and its pairs are moved to a larger one.
use crate::opening::Store;
use bw_model::{Command, Key, Limits, Reply, Value};
use running_tree::{BwSeat, Tree};
use std::alloc::Global;
use workers::{Work, reply};

/// Inserts the keys of numbers in a row, until one finds no room.
#[derive(Drop)]
struct Fills {
    next: u32,
}

impl Work for Fills {
    fn work(&mut self, tree: &Tree, seat: &mut BwSeat) {
        for _ in 0..10_000u32 {
            let key = Key::from_slice(&self.next.to_be_bytes()).unwrap_or_default();
            if reply(tree, seat, Command::Insert(key, Value::default())) != Ok(Reply::Inserted) {
                return;
            }
            self.next = self.next.saturating_add(1);
        }
    }
}

/// Fills a tree, from the next number on, and closes it: its pairs; or the store, which has them.
fn filled(alloc: Global, store: Store, fills: &mut Fills) -> Result<Vec<(Key, Value)>, Store> {
    let mut store = store;
    if !store.lend(fills) {
        return Err(store);
    }
    store.close(alloc)
}

/// How many pairs fill the small tree, and the larger one.
#[derive(Clone, Copy, Debug)]
struct Counts {
    small: usize,
    larger: usize,
}

/// Fills the small tree, and moves its pairs to the larger one, which is filled, too.
fn filled_twice(alloc: Global) -> Option<Counts> {
    let mut fills = Fills { next: 0 };
    let small = Store::open(alloc, Limits::for_keys(1, 100).ok()?)?;
    // nothing is lost where it is refused: the store comes back, and is closed once more
    let pairs = filled(alloc, small, &mut fills)
        .or_else(|store| store.close(alloc))
        .ok()?;
    let larger = Store::open_from(alloc, Limits::for_keys(1, 1000).ok()?, pairs.as_slice())?;
    let more = filled(alloc, larger, &mut fills)
        .or_else(|store| store.close(alloc))
        .ok()?;
    Some(Counts {
        small: pairs.len(),
        larger: more.len(),
    })
}

#[test]
fn pairs_are_moved_to_a_larger_tree(rt: HostRuntime) {
    let counts = filled_twice(rt.alloc());
    assert!(rt;
        counts.is_some_and(|counts| 0 < counts.small && counts.small < counts.larger),
        "{counts:?}"
    );
}
