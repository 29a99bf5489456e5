//! Two threads share a tree.

use bw_model::{Command, Key, Limits, Reply, Value};
use running_tree::{BwSeat, Tree};
use std::alloc::Global;
use std::test::Fail;
use std::thread::Threads;
use workers::{NoReply, Work, opened, reply, work_in_threads};

/// A question, and its answer.
#[derive(Drop)]
struct Ask {
    command: Option<Command>,
    told: Option<Result<Reply, NoReply>>,
}

impl Work for Ask {
    fn work(&mut self, tree: &Tree, seat: &mut BwSeat) {
        if let Some(command) = self.command.take() {
            self.told = Some(reply(tree, seat, command));
        }
    }
}

/// Answers, and the tree's pairs. None where there is no memory.
fn share<R: Threads + Sync>(
    rt: &R,
    alloc: Global,
    asks: Vec<Ask>,
) -> Option<(Vec<Ask>, Vec<(Key, Value)>)> {
    // two seats, and room for a thousand different keys, ever
    let limits = Limits::for_keys(2, 1000).ok()?;
    let (tree, mut seats) = opened(alloc, limits).ok()?;
    let asks = match work_in_threads(rt, &tree, &mut seats, asks) {
        Ok(asks) => asks,
        // none was asked: there are more than seats, or there is no memory
        Err(error) => error.works,
    };
    match tree.close(alloc, seats) {
        Ok(pairs) => Some((asks, pairs)),
        // nothing is lost: the tree and its seats are in the error, as they were
        Err(error) => Some((asks, error.tree.close(alloc, error.seats).ok()?)),
    }
}

#[test]
fn two_threads_share_a_tree(rt: HostRuntime) -> Result<(), Fail> {
    let (city, country) = (
        Key::from_slice(b"Bern")?,
        Value::from_slice(b"Switzerland")?,
    );
    let ask = |command| Ask {
        command: Some(command),
        told: None,
    };
    let insert = Command::Insert(city.copied(), country.copied());
    let asks = vec![in rt.alloc(); ask(insert), ask(Command::Get(city.copied()))]?;
    let Some((asks, pairs)) = share(&rt, rt.alloc(), asks) else {
        assert!(rt; false, "no memory");
        return Ok(());
    };
    let [inserted, found] = asks.as_slice() else {
        assert!(rt; false, "{} answers", asks.len());
        return Ok(());
    };
    assert!(rt;
        inserted.told == Some(Ok(Reply::Inserted)),
        "{:?}",
        inserted.told
    );
    assert!(rt;
        found.told == Some(Ok(Reply::None))
            || found.told == Some(Ok(Reply::Value(country.copied()))),
        "{:?}",
        found.told
    );
    assert!(rt;
        pairs.as_slice() == [(city, country)].as_slice(),
        "{pairs:?}"
    );
    Ok(())
}
