//! Threads over one tree, each with a seat of its own.

use crate::calls::replies;
use crate::clients::{Client, OWN};
use crate::loading::are_moved;
use crate::numbered::{are_numbers, found, get, insert, key, value};
use crate::trees::{by_width, closed};
use bw_model::{BadLimits, Key, Limits, Reply, Value};
use running_tree::{BwSeat, Tree};
use std::alloc::Global;
use std::thread::Threads;
use workers::{Work, opened, work_in_threads};

/// Inserts so many keys from a number on, each followed by a lookup of it, and counts the replies that are right.
#[derive(Drop)]
struct Inserts {
    from: u32,
    keys: u32,
    right: u32,
}

impl Inserts {
    fn new(from: u32, keys: u32) -> Inserts {
        Inserts {
            from,
            keys,
            right: 0,
        }
    }
}

impl Work for Inserts {
    fn work(&mut self, tree: &Tree, seat: &mut BwSeat) {
        for place in 0..self.keys {
            let number = self.from.wrapping_add(place);
            if replies(tree, seat, insert(number), Reply::Inserted) {
                self.right = self.right.saturating_add(1);
            }
            if replies(tree, seat, get(number), found(number)) {
                self.right = self.right.saturating_add(1);
            }
        }
    }
}

/// The works once they are done on a new tree, all at once, and its pairs.
pub(crate) fn done_at_once<R: Threads + Sync, W: Work>(
    rt: &R,
    alloc: Global,
    limits: Limits,
    works: Vec<W>,
) -> Option<(Vec<W>, Vec<(Key, Value)>)> {
    let Ok((tree, mut seats)) = opened(alloc, limits) else {
        return None;
    };
    let done = work_in_threads(rt, &tree, &mut seats, works).ok();
    done.zip(closed(alloc, tree, seats))
}

/// Whether two threads insert 2,000 keys, and their pairs are moved into another tree of the same limits.
fn two_insert<R: Threads + Sync>(rt: &R, alloc: Global) -> bool {
    let Ok(limits) = Limits::new(2, 4096, 16384, 1) else {
        return false;
    };
    let Ok(works) = vec![in alloc; Inserts::new(0, 1000), Inserts::new(1000, 1000)] else {
        return false;
    };
    match done_at_once(rt, alloc, limits, works) {
        Some((works, pairs)) => works.iter().all(|work| work.right == 2000)
            && are_numbers(pairs.as_slice(), 0, 2000)
            && are_moved(alloc, limits, pairs.as_slice()),
        None => false,
    }
}

#[test]
fn two_threads_insert(rt: HostRuntime) {
    assert!(rt;
        two_insert(&rt, rt.alloc()),
        "a reply, the pairs, or those of the other tree"
    );
}

/// Whether as many threads as a large tree takes insert 40 keys each.
fn sixty_three_insert<R: Threads + Sync>(rt: &R, alloc: Global) -> Option<bool> {
    let limits = Limits::for_many_keys(63, 63 * 40).ok()?;
    let mut works = Vec::with_capacity(alloc, 63).ok()?;
    for thread in 0..63u32 {
        works.push(Inserts::new(thread * 40, 40)).ok()?;
    }
    let (works, pairs) = done_at_once(rt, alloc, limits, works)?;
    let right = works.iter().all(|work| work.right == 80);
    Some(right && are_numbers(pairs.as_slice(), 0, 63 * 40))
}

#[test]
fn sixty_three_threads_insert(rt: HostRuntime) {
    let inserted = sixty_three_insert(&rt, rt.alloc());
    assert!(rt; inserted == Some(true), "{inserted:?}");
}

/// Whether the pairs have exactly what the client knows of its own keys.
fn knows(client: &Client, first: u32, pairs: &[(Key, Value)]) -> bool {
    for place in 0..OWN {
        let wanted = client.value(place as usize);
        let mut found = 0;
        for (other, at) in pairs {
            if *other == key(first.wrapping_add(place)) {
                found = if *at == value(wanted) { wanted } else { 4095 };
            }
        }
        if found != wanted {
            return false;
        }
    }
    true
}

/// Whether each of the clients had only right replies, and knows the pairs of its keys.
fn all_know(clients: &[Client], pairs: &[(Key, Value)]) -> bool {
    for client in clients {
        if client.wrong != 0 || !knows(client, client.first(), pairs) {
            return false;
        }
    }
    true
}

/// Whether four clients do with few pages and rows, so that pages are split, removed and used again, and some writers find no room.
fn four_collide<R: Threads + Sync>(
    rt: &R,
    alloc: Global,
    limits: Result<Limits, BadLimits>,
) -> bool {
    let Ok(limits) = limits else {
        return false;
    };
    let client = |number| Client::new(number, 2000);
    let Ok(works) = vec![in alloc; client(0), client(1), client(2), client(3)] else {
        return false;
    };
    match done_at_once(rt, alloc, limits, works) {
        Some((clients, pairs)) => all_know(clients.as_slice(), pairs.as_slice()),
        None => false,
    }
}

#[test]
fn four_threads_collide(rt: HostRuntime) {
    for (kind, limits) in [
        ("small", Limits::new(4, 64, 128, 1)),
        ("large", Limits::large(4, 64, 128, 1)),
        ("by width", by_width((4, 64, 128))),
    ] {
        assert!(rt; four_collide(&rt, rt.alloc(), limits), "{kind}");
    }
}
