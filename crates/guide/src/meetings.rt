//! Threads end, and then one seat's history has what all have done.
ghost use Rattle.std.specs.Prelude.{◌≡◌, ℕ, [], Contains, IfSome, Ok, Some, slice_get};
ghost use Rattle.bw_model.specs.declared.command.Command.TheVariants as command;
ghost use Rattle.bw_model.specs.declared.command.Reply.{Reply};
ghost use Rattle.running_tree.specs.Calls.{calls_in};
ghost use Rattle.running_tree.specs.Seats.{Seat};
ghost use Rattle.running_tree.specs.Trees.{AreSeatsOf};

use bw_model::{Command, Key, Limits, Reply, Value};
use running_tree::{BwSeat, Tree};
use std::alloc::Global;
use std::thread::Threads;
use workers::{NoReply, Work, gather, opened, reply, take_seat, work_in_threads};

/// Inserts a key.
#[derive(Drop)]
struct Inserts {
    key: Key,
    told: Option<Result<Reply, NoReply>>,
}

/// The key of a number.
fn key(number: u32) -> Key {
    Key::from_slice(&number.to_be_bytes()).unwrap_or_default()
}

impl Work for Inserts {
    ghost use Rattle.std.specs.Prelude.{◌≡◌, ◌++◌, ◌∷◌, [], Ok, Some};
    ghost use Rattle.bw_model.specs.declared.command.Command.TheVariants as command;
    ghost use Rattle.bw_model.specs.declared.command.Reply.{Reply};
    ghost use Rattle.running_tree.specs.Calls.{calls_in};

    /// The seat's calls are those that it had, and then the insert with its reply, if it was told one.
    ghost does = { λ given before done after. (reply : Reply) → done.told ≡ Some (Ok reply) → calls_in after ≡ calls_in before ++ (command.Insert done.key [], Some reply) ∷ [] };

    fn work(&mut self, tree: &Tree, seat: &mut BwSeat) {
        let insert = Command::Insert(self.key.copied(), Value::default());
        self.told = Some(reply(tree, seat, insert));
    }
}

/// Inserts keys, each in a thread of its own. Each work has had a seat, and if it was told a reply, its insert is with it among that seat's calls.
fn inserted<R: Threads + Sync>(
    rt: &R,
    tree: &Tree,
    seats: &mut Vec<BwSeat>,
    works: Vec<Inserts>,
) -> Option<Vec<Inserts>>
    requires own { AreSeatsOf tree.now seats.old.items }
    ensures own { AreSeatsOf tree.now seats.new.items }
    ensures made { IfSome result (λ done. (n : ℕ) (work : Inserts) → slice_get done.items n ≡ Some work
        → (m : ℕ) × (seat : Seat) × (slice_get seats.new.items m ≡ Some seat) × ((reply : Reply) → work.told ≡ Some (Ok reply) → Contains (calls_in seat) (command.Insert work.key [], Some reply))) }
{
    // what each work says that it comes to, the threads say of each
    match work_in_threads(rt, tree, seats, works) {
        Ok(done) => Some(done),
        Err(_) => None,
    }
}

/// Whether both keys are found by the last seat, once the seats have met.
fn are_found(tree: &Tree, seats: &mut Vec<BwSeat>) -> Option<bool>
    requires own { AreSeatsOf tree.now seats.old.items }
{
    if seats.is_empty() {
        return None;
    }
    // from here on the last seat's history has what any of them has done
    gather(tree, seats);
    let mut seat = take_seat(tree, seats)?;
    let first = reply(tree, &mut seat, Command::Get(key(1)));
    let second = reply(tree, &mut seat, Command::Get(key(2)));
    let found = Ok(Reply::Value(Value::default()));
    Some(first == found && second == found)
}

/// Whether two threads insert a key each, and both are found then.
fn insert_and_find<R: Threads + Sync>(rt: &R, alloc: Global) -> Option<bool> {
    let insert = |number| Inserts {
        key: key(number),
        told: None,
    };
    let works = vec![in alloc; insert(1), insert(2)].ok()?;
    let (tree, mut seats) = opened(alloc, Limits::for_keys(2, 1000).ok()?).ok()?;
    let works = inserted(rt, &tree, &mut seats, works)?;
    let are_new = works
        .iter()
        .all(|work| work.told == Some(Ok(Reply::Inserted)));
    Some(are_new && are_found(&tree, &mut seats)?)
}

#[test]
fn seats_meet_after_their_threads(rt: HostRuntime) {
    let found = insert_and_find(&rt, rt.alloc());
    assert!(rt; found == Some(true), "{found:?}");
}
