//! A cursor.
ghost use Rattle.std.specs.Prelude.{◌≡◌, ◌≤◌, None, Some, [], false, length, is_none, if◌then◌else◌};
ghost use Rattle.std.specs.List.{prefix_len};
ghost use Rattle.bw_model.specs.Bytes.{is_under};
ghost use Rattle.bw_model.specs.declared.command.Command.TheVariants as command;
ghost use Rattle.bw_model.specs.declared.pairs.TheConstants.{MAX_PAIRS};
ghost use Rattle.running_tree.specs.Runs.{IsOneHistory};
ghost use Rattle.running_tree.specs.Seats.{IsSame, unfinished_command};
ghost use Rattle.running_tree.specs.Trees.{IsSeatOf};
ghost use Rattle.walks.specs.Cursors.{IsNextOf, IsRunOn, cursor_command};
ghost use Rattle.walks.specs.Neighbours.{key_above};
ghost use Rattle.walks.specs.Pages.{pairs_under, place_under};
ghost use Rattle.walks.specs.Walks.{PairsAscend};

use crate::neighbours::above;
use bw_model::{Command, Key, Pairs, Reply, Value};
use running_tree::{BwSeat, Called, Tree};
use std::alloc::Allocator;
use std::marker::Model;

/// An iterator over pairs in ascending order of keys, page by page, with the page that was read last. It takes no memory but its own.
#[derive(Drop)]
pub struct Cursor {
    at: Option<Key>,
    bound: Option<Key>,
    asked: bool,
    page: Pairs,
    shown: usize,
}

impl Model for Cursor {
    ghost use Rattle.std.specs.Prelude.{◌≤◌, length, take};
    ghost use Rattle.walks.specs.Cursors.{Cursor};

    ghost Value = { Cursor };

    ghost view = { λ c. record { at = c.at; bound = c.bound; asked = c.asked; pairs = take c.shown c.page } };

    ghost invariant = { λ c. c.shown ≤ length c.page };
}

/// What a call for a cursor's next page returns.
#[derive(Clone, Copy, Debug, PartialEq, Eq)]
pub enum Walk {
    /// The next page: its pairs are in the cursor.
    Page,
    /// The budget is spent. The operation stays in the seat: call again, on the same seat.
    Spent,
    /// The walk is at the bound, or at the tree's end.
    End,
}

impl Cursor {
    /// A walk over the keys from this one on, which are below the bound, if there is one.
    pub fn new(from: Key, bound: Option<Key>) -> Cursor
        ensures { result ≡ record { at = place_under bound (Some from); bound = bound; asked = false; pairs = [] } }
    {
        Cursor {
            at: under(Some(from), &bound),
            bound,
            asked: false,
            page: Pairs::new(),
            shown: 0,
        }
    }

    /// A walk over all keys: the first pair that it seeks is the tree's first one.
    pub fn first() -> Cursor
        ensures { result ≡ record { at = Some []; bound = None; asked = false; pairs = [] } }
    {
        Cursor::new(Key::default(), None)
    }

    /// A walk from a key on: the first pair that it seeks has the least key at or above this one.
    pub fn ceiling(key: Key) -> Cursor
        ensures { result ≡ record { at = Some key; bound = None; asked = false; pairs = [] } }
    {
        Cursor::new(key, None)
    }

    /// A walk above a key: the first pair that it seeks has the least key above this one. Above the greatest key it is at its end.
    pub fn higher(key: &Key) -> Cursor
        ensures { result ≡ record { at = key_above key.now; bound = None; asked = false; pairs = [] } }
    {
        Cursor {
            at: above(key),
            bound: None,
            asked: false,
            page: Pairs::new(),
            shown: 0,
        }
    }

    /// The pairs of the page that was read last.
    pub fn pairs(&self) -> &[(Key, Value)]
        ensures pairs { result.now ≡ self.now.pairs }
        ensures few { length result.now ≤ MAX_PAIRS }
    {
        &self.page.as_slice()[..self.shown]
    }

    /// Whether a seat has an unfinished operation of this cursor's, which the next call continues.
    pub fn is_waiting(&self) -> bool
        ensures { result ≡ self.now.asked }
    {
        self.asked
    }

    /// Whether the walk is at its end.
    pub fn is_at_end(&self) -> bool
        ensures { result ≡ is_none self.now.at }
    {
        self.at.is_none()
    }

    /// Reads the next page, if its operation is done within `budget` steps. It takes no lock and allocates nothing. A cursor that waits
    /// continues its operation, on the seat that has it; any other one needs an idle seat, which may change from page to page.
    pub fn next<A: Allocator>(&mut self, tree: &Tree<A>, seat: &mut BwSeat<A>, budget: u32) -> Walk
        requires own { IsSeatOf tree.now seat.old }
        requires ready { unfinished_command seat.old ≡ cursor_command self.old }
        requires some { 1 ≤ budget }
        ensures same { IsSame seat.old seat.new }
        ensures ready { unfinished_command seat.new ≡ cursor_command self.new }
        ensures next { IsNextOf self.old seat.old budget result self.new seat.new }
        ensures history { IsOneHistory seat.new.limits seat.new.seen }
    {
        let Some(from) = &self.at else {
            seat.saw_one_history();
            return Walk::End;
        };
        match run(tree, seat, from, self.asked, budget) {
            Called::Done(reply) => {
                let Reply::Page { items, next } = reply else {
                    unreachable!()
                };
                self.show(items, next);
                Walk::Page
            }
            Called::Spent => {
                self.asked = true;
                Walk::Spent
            }
        }
    }

    /// Keeps a page, cut off at the bound, and goes on to where it ends.
    fn show(&mut self, items: Pairs, high: Option<Key>)
        requires ascend { PairsAscend items }
        ensures { self.new ≡ record { at = place_under self.old.bound high; bound = self.old.bound; asked = false; pairs = pairs_under self.old.bound items } }
    {
        self.shown = count_under(items.as_slice(), &self.bound);
        self.page = items;
        self.at = under(high, &self.bound);
        self.asked = false;
    }
}

/// Calls a cursor page, or, where it was asked, resumes it.
fn run<A: Allocator>(
    tree: &Tree<A>,
    seat: &mut BwSeat<A>,
    from: &Key,
    asked: bool,
    budget: u32,
) -> Called
    requires own { IsSeatOf tree.now seat.old }
    requires ready { unfinished_command seat.old ≡ (if asked then Some (command.Page from.now) else None) }
    requires some { 1 ≤ budget }
    ensures same { IsSame seat.old seat.new }
    ensures runs { IsRunOn asked seat.old (command.Page from.now) budget result seat.new }
    ensures history { IsOneHistory seat.new.limits seat.new.seen }
{
    if asked {
        tree.resume(seat, budget)
    } else {
        tree.call(seat, Command::Page(from.copied()), budget)
    }
}

/// The key, if there is one, and it is below the bound.
fn under(key: Option<Key>, bound: &Option<Key>) -> Option<Key>
    ensures { result ≡ place_under bound.now key }
{
    let key = key?;
    if is_under(&key, bound) {
        Some(key)
    } else {
        None
    }
}

/// Whether the key is below the bound, if there is one.
fn is_under(key: &Key, bound: &Option<Key>) -> bool
    ensures { result ≡ is_under key.now bound.now }
{
    match bound {
        Some(high) => key.cmp(high).is_lt(),
        None => true,
    }
}

/// How many pairs stand before the first one that isn't below the bound.
fn count_under(pairs: &[(Key, Value)], bound: &Option<Key>) -> usize
    ensures few { result ≤ length pairs.now }
    ensures count { result ≡ prefix_len (λ pair. is_under pair.0 bound.now) pairs.now }
{
    pairs
        .iter()
        .take_while(|(key, _)| is_under(key, bound))
        .count()
}
