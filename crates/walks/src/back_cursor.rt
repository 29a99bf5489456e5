//! A cursor that goes down.
ghost use Rattle.std.specs.Prelude.{◌≡◌, ◌≤◌, None, Some, [], false, length, is_none, if◌then◌else◌};
ghost use Rattle.std.specs.List.{prefix_len};
ghost use Rattle.bw_model.specs.Bytes.{is_below, longest};
ghost use Rattle.bw_model.specs.NextKeys.{filled, key_before};
ghost use Rattle.bw_model.specs.declared.command.Command.TheVariants as command;
ghost use Rattle.bw_model.specs.declared.pairs.TheConstants.{MAX_PAIRS};
ghost use Rattle.running_tree.specs.Runs.{IsOneHistory};
ghost use Rattle.running_tree.specs.Seats.{IsSame, unfinished_command};
ghost use Rattle.running_tree.specs.Trees.{IsSeatOf};
ghost use Rattle.walks.specs.BackCursors.{IsNextBack, back_command};
ghost use Rattle.walks.specs.BackPages.{pairs_from, place_from};
ghost use Rattle.walks.specs.Cursors.{IsRunOn};
ghost use Rattle.walks.specs.Walks.{PairsAscend};

use crate::cursor::Walk;
use crate::neighbours::greatest;
use bw_model::{Command, Key, Pairs, Reply, Value};
use running_tree::{BwSeat, Called, Tree};
use std::alloc::Allocator;
use std::marker::Model;

/// An iterator over pairs in descending order of keys, page by page, with the page that was read last. It takes no memory but its own.
#[derive(Drop)]
pub struct BackCursor {
    at: Option<Key>,
    low: Key,
    asked: bool,
    page: Pairs,
    skipped: usize,
}

impl Model for BackCursor {
    ghost use Rattle.std.specs.Prelude.{◌≤◌, drop, length};
    ghost use Rattle.walks.specs.BackCursors.{BackCursor};

    ghost Value = { BackCursor };

    ghost view = { λ c. record { at = c.at; low = c.low; asked = c.asked; pairs = drop c.skipped c.page } };

    ghost invariant = { λ c. c.skipped ≤ length c.page };
}

impl BackCursor {
    /// A walk over the keys from this one down to the lowest one; with the empty key as the lowest, to the tree's first key.
    pub fn new(upto: Key, low: Key) -> BackCursor
        ensures { result ≡ record { at = place_from low (Some upto); low = low; asked = false; pairs = [] } }
    {
        BackCursor {
            at: over(Some(upto), &low),
            low,
            asked: false,
            page: Pairs::new(),
            skipped: 0,
        }
    }

    /// A walk down over all keys: the first pair that it seeks is the tree's last one.
    pub fn last() -> BackCursor
        ensures { result ≡ record { at = Some (filled longest); low = []; asked = false; pairs = [] } }
    {
        BackCursor::new(greatest(), Key::default())
    }

    /// A walk down from a key: the first pair that it seeks has the greatest key at or below this one.
    pub fn floor(key: Key) -> BackCursor
        ensures { result ≡ record { at = Some key; low = []; asked = false; pairs = [] } }
    {
        BackCursor::new(key, Key::default())
    }

    /// A walk down below a key: the first pair that it seeks has the greatest key below this one. Below the empty key it is at its end.
    pub fn lower(key: &Key) -> BackCursor
        ensures { result ≡ record { at = key_before key.now; low = []; asked = false; pairs = [] } }
    {
        BackCursor {
            at: key.before(),
            low: Key::default(),
            asked: false,
            page: Pairs::new(),
            skipped: 0,
        }
    }

    /// The pairs of the page that was read last, in ascending order of keys: the walk goes over them from the last to the first.
    pub fn pairs(&self) -> &[(Key, Value)]
        ensures pairs { result.now ≡ self.now.pairs }
        ensures few { length result.now ≤ MAX_PAIRS }
    {
        &self.page.as_slice()[self.skipped..]
    }

    /// Whether a seat has an unfinished operation of this cursor's, which the next call continues.
    pub fn is_waiting(&self) -> bool
        ensures { result ≡ self.now.asked }
    {
        self.asked
    }

    /// Whether the walk is at its end.
    pub fn is_at_end(&self) -> bool
        ensures { result ≡ is_none self.now.at }
    {
        self.at.is_none()
    }

    /// Reads the next page, if its operation is done within `budget` steps. It takes no lock and allocates nothing. A cursor that waits
    /// continues its operation, on the seat that has it; any other one needs an idle seat, which may change from page to page.
    pub fn next<A: Allocator>(&mut self, tree: &Tree<A>, seat: &mut BwSeat<A>, budget: u32) -> Walk
        requires own { IsSeatOf tree.now seat.old }
        requires ready { unfinished_command seat.old ≡ back_command self.old }
        requires some { 1 ≤ budget }
        ensures same { IsSame seat.old seat.new }
        ensures ready { unfinished_command seat.new ≡ back_command self.new }
        ensures next { IsNextBack self.old seat.old budget result self.new seat.new }
        ensures history { IsOneHistory seat.new.limits seat.new.seen }
    {
        let Some(upto) = &self.at else {
            seat.saw_one_history();
            return Walk::End;
        };
        match run(tree, seat, upto, self.asked, budget) {
            Called::Done(reply) => {
                let Reply::BackPage { items, next } = reply else {
                    unreachable!()
                };
                self.show(items, next);
                Walk::Page
            }
            Called::Spent => {
                self.asked = true;
                Walk::Spent
            }
        }
    }

    /// Keeps a page, cut off at the lowest key, and goes on below it.
    fn show(&mut self, items: Pairs, below: Option<Key>)
        requires ascend { PairsAscend items }
        ensures { self.new ≡ record { at = place_from self.old.low below; low = self.old.low; asked = false; pairs = pairs_from self.old.low items } }
    {
        self.skipped = count_below(items.as_slice(), &self.low);
        self.page = items;
        self.at = over(below, &self.low);
        self.asked = false;
    }
}

/// Calls a page backward, or, where it was asked, resumes it.
fn run<A: Allocator>(
    tree: &Tree<A>,
    seat: &mut BwSeat<A>,
    upto: &Key,
    asked: bool,
    budget: u32,
) -> Called
    requires own { IsSeatOf tree.now seat.old }
    requires ready { unfinished_command seat.old ≡ (if asked then Some (command.Back upto.now) else None) }
    requires some { 1 ≤ budget }
    ensures same { IsSame seat.old seat.new }
    ensures runs { IsRunOn asked seat.old (command.Back upto.now) budget result seat.new }
    ensures history { IsOneHistory seat.new.limits seat.new.seen }
{
    if asked {
        tree.resume(seat, budget)
    } else {
        tree.call(seat, Command::Back(upto.copied()), budget)
    }
}

/// The key, if there is one, and it isn't below the lowest one.
fn over(key: Option<Key>, low: &Key) -> Option<Key>
    ensures { result ≡ place_from low.now key }
{
    let key = key?;
    if is_below(&key, low) { None } else { Some(key) }
}

/// Whether a key is below another one.
fn is_below(key: &Key, other: &Key) -> bool
    ensures { result ≡ is_below key.now other.now }
{
    key.cmp(other).is_lt()
}

/// How many pairs stand before the first one that isn't below the lowest key.
fn count_below(pairs: &[(Key, Value)], low: &Key) -> usize
    ensures few { result ≤ length pairs.now }
    ensures count { result ≡ prefix_len (λ pair. is_below pair.0 low.now) pairs.now }
{
    pairs
        .iter()
        .take_while(|(key, _)| is_below(key, low))
        .count()
}
