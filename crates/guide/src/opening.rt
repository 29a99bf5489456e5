//! A struct that owns a tree and its seats: it is opened, lends a seat, and is closed.
ghost use Rattle.running_tree.specs.Trees.{AreSeatsOf};

use bw_model::{Command, Key, Limits, Reply, Value};
use running_tree::{BwSeat, Tree};
use std::alloc::Global;
use std::test::Fail;
use workers::{NoReply, Work, give_seat, opened, opened_from, reply, take_seat};

/// A tree, and the seats that nobody has just now.
pub(crate) struct Store {
    tree: Tree,
    seats: Vec<BwSeat>,
    ghost own: { AreSeatsOf tree seats.items },
}

impl Drop for Store {
    fn drop(self) {
        let Store { tree: _, seats: _ } = self;
    }
}

impl Store {
    /// An empty tree. None where there is no memory.
    pub(crate) fn open(alloc: Global, limits: Limits) -> Option<Store> {
        let (tree, seats) = opened(alloc, limits).ok()?;
        Some(Store { tree, seats })
    }

    /// A tree with pairs. None where there is no memory, or they don't fit.
    pub(crate) fn open_from(
        alloc: Global,
        limits: Limits,
        pairs: &[(Key, Value)],
    ) -> Option<Store> {
        let (tree, seats) = opened_from(alloc, limits, pairs).ok()?;
        Some(Store { tree, seats })
    }

    /// Lends a work the last seat. False where nobody has one to lend, or the seat couldn't be put back.
    pub(crate) fn lend<W: Work>(&mut self, work: &mut W) -> bool {
        let Some(mut seat) = take_seat(&self.tree, &mut self.seats) else {
            return false;
        };
        work.work(&self.tree, &mut seat);
        // there is room for it, since it was there before; else it came back as the error
        give_seat(&self.tree, &mut self.seats, seat).is_ok()
    }

    /// The pairs of the tree, which ends with it; or the store as it was, to be closed later.
    pub(crate) fn close(self, alloc: Global) -> Result<Vec<(Key, Value)>, Store> {
        let Store { tree, seats } = self;
        match tree.close(alloc, seats) {
            Ok(pairs) => Ok(pairs),
            // error.refusal says why: a seat is missing or has an operation, or there is no memory
            Err(error) => Err(Store {
                tree: error.tree,
                seats: error.seats,
            }),
        }
    }
}

/// Opens a tree with room for a thousand keys, lends a work its seat, and closes it: its pairs.
pub(crate) fn done_alone<W: Work>(alloc: Global, work: &mut W) -> Option<Vec<(Key, Value)>> {
    let limits = Limits::for_keys(1, 1000).ok()?;
    let mut store = Store::open(alloc, limits)?;
    if !store.lend(work) {
        return None;
    }
    match store.close(alloc) {
        Ok(pairs) => Some(pairs),
        // nothing is lost: the store comes back, and is closed once more
        Err(store) => store.close(alloc).ok(),
    }
}

/// Gives a key a value, and looks it up.
#[derive(Drop)]
struct Sets {
    key: Key,
    value: Value,
    set: Option<Result<Reply, NoReply>>,
    found: Option<Result<Reply, NoReply>>,
}

impl Work for Sets {
    fn work(&mut self, tree: &Tree, seat: &mut BwSeat) {
        let upsert = Command::Upsert(self.key.copied(), self.value.copied());
        self.set = Some(reply(tree, seat, upsert));
        self.found = Some(reply(tree, seat, Command::Get(self.key.copied())));
    }
}

#[test]
fn a_tree_is_opened_and_closed(rt: HostRuntime) -> Result<(), Fail> {
    let key = Key::from_slice(b"Bern")?;
    let value = Value::from_slice(b"Switzerland")?;
    let mut sets = Sets {
        key: key.copied(),
        value: value.copied(),
        set: None,
        found: None,
    };
    let Some(pairs) = done_alone(rt.alloc(), &mut sets) else {
        assert!(rt; false, "the tree wasn't opened and closed");
        return Ok(());
    };
    assert!(rt; sets.set == Some(Ok(Reply::Set)), "{:?}", sets.set);
    assert!(rt;
        sets.found == Some(Ok(Reply::Value(value.copied()))),
        "{:?}",
        sets.found
    );
    assert!(rt; pairs.as_slice() == [(key, value)].as_slice(), "{pairs:?}");
    Ok(())
}
