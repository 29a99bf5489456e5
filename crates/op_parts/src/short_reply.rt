//! What an operation is to answer: a cursor page's leaf has a place of its own, so that no other reply moves its room.
ghost use Rattle.std.specs.Prelude.{◌≡◌, ℕ, List, [], option_copied, None, Some};
ghost use Rattle.bw_model.specs.Replies.{reply_of};
ghost use Rattle.bw_model.specs.declared.command.Reply.TheVariants as replied;
ghost use Rattle.base_page.specs.Shown.{next_shown, pairs_shown};
ghost use Rattle.row_chain.specs.Placed.{IsReadChain};
ghost use Rattle.op_parts.specs.ShortReplies.{ShowsChain, page_shown, reply_with};

use base_page::{Direction, Page};
use bw_model::{Command, Key, Pairs, Reply, Value};
use row_chain::Chain;
use row_search::Rows;
use std::alloc::Allocator;
use std::marker::Model;

/// Which reply it is, but for a cursor page.
#[derive(Clone, Copy)]
pub enum Which {
    Value,
    None,
    Inserted,
    Exists,
    Set,
    Replaced,
    Deleted,
    Absent,
    Swapped,
    Differs,
    Tidied,
    Full,
}

/// A reply but for a cursor page, in 66 bytes: which one it is, and the value that it tells, or any where it tells none.
#[derive(Drop)]
pub struct ShortReply {
    which: Which,
    value: Value,
}

impl Model for ShortReply {
    ghost use Rattle.bw_model.specs.declared.command.Reply.{Reply};
    ghost use Rattle.op_parts.specs.ShortReplies.{ShowsChain, page_shown, reply_with};

    ghost Value = { Reply };

    ghost view = { λ r. reply_with r.which r.value };
}

impl ShortReply {
    /// The reply of a command where its key has the value `old`, or none; no reply of a page of either direction or a tidying, which
    /// go by more than one value. Inlined: the reply comes to its place without a copy of it.
    #[inline(always)]
    pub fn of(command: &Command, old: Option<&Value>) -> Option<ShortReply>
        ensures { result ≡ reply_of command.now (option_copied old.entry) }
    {
        match (command, old) {
            (Command::Get(_), None) => Some(ShortReply::bare(Which::None)),
            (Command::Get(_), Some(value)) => Some(ShortReply::with(Which::Value, value)),
            (Command::Insert(_, _), None) => Some(ShortReply::bare(Which::Inserted)),
            (Command::Insert(_, _), Some(value)) => Some(ShortReply::with(Which::Exists, value)),
            (Command::Upsert(_, _), None) => Some(ShortReply::bare(Which::Set)),
            (Command::Upsert(_, _), Some(value)) => Some(ShortReply::with(Which::Replaced, value)),
            (Command::Delete(_), None) => Some(ShortReply::bare(Which::Absent)),
            (Command::Delete(_), Some(value)) => Some(ShortReply::with(Which::Deleted, value)),
            (Command::DeleteIf(_, _), None) => Some(ShortReply::bare(Which::Absent)),
            (Command::DeleteIf(_, expected), Some(value)) => {
                if value == expected {
                    Some(ShortReply::with(Which::Deleted, value))
                } else {
                    Some(ShortReply::with(Which::Differs, value))
                }
            }
            (Command::Swap(_, _, _), None) => Some(ShortReply::bare(Which::Absent)),
            (Command::Swap(_, expected, _), Some(value)) => {
                if value == expected {
                    Some(ShortReply::bare(Which::Swapped))
                } else {
                    Some(ShortReply::with(Which::Differs, value))
                }
            }
            (Command::Add(_, _), None) => Some(ShortReply::bare(Which::Set)),
            (Command::Add(_, _), Some(value)) => {
                if value.is_number() {
                    Some(ShortReply::with(Which::Replaced, value))
                } else {
                    Some(ShortReply::with(Which::Differs, value))
                }
            }
            (Command::Page(_), _) => None,
            (Command::Back(_), _) => None,
            (Command::Tidy(_), _) => None,
        }
    }

    /// A reply that tells no value.
    pub fn bare(which: Which) -> ShortReply
        ensures { result ≡ reply_with which [] }
    {
        ShortReply {
            which,
            value: Value::default(),
        }
    }

    /// A reply that tells a value.
    pub fn with(which: Which, value: &Value) -> ShortReply
        ensures { result ≡ reply_with which value.now }
    {
        ShortReply {
            which,
            value: value.copied(),
        }
    }

    /// A copy of the reply; it allocates nothing.
    pub fn copied(&self) -> ShortReply
        ensures { result ≡ self.now }
    {
        ShortReply {
            which: self.which,
            value: self.value.copied(),
        }
    }

    /// Tells the reply in its place: over the value that lies there, where that is of a reply of the same kind.
    fn tell(&self, reply: &mut Reply)
        ensures { reply.new ≡ self.now }
    {
        match (self.which, &mut *reply) {
            (Which::Value, Reply::Value(value)) => *value = self.value.copied(),
            (Which::Replaced, Reply::Replaced(value)) => *value = self.value.copied(),
            (Which::Deleted, Reply::Deleted(value)) => *value = self.value.copied(),
            (Which::None, Reply::None) => {}
            (Which::Inserted, Reply::Inserted) => {}
            (Which::Set, Reply::Set) => {}
            (Which::Absent, Reply::Absent) => {}
            _ => self.tell_anew(reply),
        }
    }

    /// Writes the reply over whatever is in its place. Not inlined: a reply with room for any is made first.
    #[inline(never)]
    fn tell_anew(&self, reply: &mut Reply)
        ensures { reply.new ≡ self.now }
    {
        *reply = self.reply();
    }

    /// The reply in the room of any.
    fn reply(&self) -> Reply
        ensures { result ≡ self.now }
    {
        match self.which {
            Which::Value => Reply::Value(self.value.copied()),
            Which::None => Reply::None,
            Which::Inserted => Reply::Inserted,
            Which::Exists => Reply::Exists(self.value.copied()),
            Which::Set => Reply::Set,
            Which::Replaced => Reply::Replaced(self.value.copied()),
            Which::Deleted => Reply::Deleted(self.value.copied()),
            Which::Absent => Reply::Absent,
            Which::Swapped => Reply::Swapped,
            Which::Differs => Reply::Differs(self.value.copied()),
            Which::Tidied => Reply::Tidied,
            Which::Full => Reply::Full,
        }
    }
}

/// The place of the reply with which an operation leaves: a cursor page of a direction, which is the pairs of a leaf's page from a key
/// on or up to it, or any other reply.
#[derive(Drop)]
pub struct ReplyPlace {
    shown: Option<Direction>,
    short: ShortReply,
    bound: Key,
    leaf: Page,
}

impl Model for ReplyPlace {
    ghost use Rattle.bw_model.specs.declared.command.Reply.{Reply};
    ghost use Rattle.op_parts.specs.ShortReplies.{reply_in};

    ghost Value = { Reply };

    ghost view = { λ p. reply_in p.shown p.short p.bound p.leaf };
}

impl ReplyPlace {
    /// A place in which no reply was put yet.
    pub fn new() -> ReplyPlace
        ensures { result ≡ replied.None }
    {
        ReplyPlace {
            shown: None,
            short: ShortReply::bare(Which::None),
            bound: Key::default(),
            leaf: Page::empty_leaf(),
        }
    }

    /// Puts a reply there.
    pub fn put(&mut self, reply: ShortReply)
        ensures { self.new ≡ reply }
    {
        self.shown = None;
        self.short = reply;
    }

    /// Puts the cursor page of a leaf there, from a key on or up to it.
    pub fn put_page<R: Rows, A: Allocator>(
        &mut self,
        leaf: &Chain<R, A>,
        direction: Direction,
        bound: &Key,
        rows: &R,
        pass: &mut R::Pass,
    )
        requires read { IsReadChain (R.has rows.now pass.old) leaf.now }
        ensures looks { pass.new ≡ pass.old }
        ensures page { ShowsChain leaf.now.records direction bound.now self.new }
    {
        self.shown = Some(direction);
        self.bound = bound.copied();
        leaf.page_in(rows, pass, &mut self.leaf);
        self.leaf.low().keeps_short();
    }

    /// Tells the reply that is there in another place.
    pub fn tell(&self, reply: &mut Reply)
        ensures { reply.new ≡ self.now }
    {
        let Some(direction) = self.shown else {
            return self.short.tell(reply);
        };
        tell_page(&self.leaf, direction, &self.bound, reply);
    }
}

/// Tells the pairs of a leaf from a key on, or up to it: over the cursor page of the direction that lies there, where one does. Not inlined:
/// no other reply needs its frame.
#[inline(never)]
fn tell_page(leaf: &Page, direction: Direction, bound: &Key, reply: &mut Reply)
    ensures { reply.new ≡ page_shown direction bound.now leaf.now }
{
    if let (Direction::Forward, Reply::Page { items, next }) = (direction, &mut *reply) {
        return show_over(leaf, direction, bound, items, next);
    }
    if let (Direction::Backward, Reply::BackPage { items, next }) = (direction, &mut *reply) {
        return show_over(leaf, direction, bound, items, next);
    }
    tell_page_anew(leaf, direction, bound, reply);
}

/// Makes these the pairs of a leaf from a key on, or up to it, and where the next page goes on.
fn show_over(
    leaf: &Page,
    direction: Direction,
    bound: &Key,
    items: &mut Pairs,
    next: &mut Option<Key>,
)
    ensures items { items.new ≡ pairs_shown direction bound.now leaf.now.items }
    ensures next { next.new ≡ next_shown direction leaf.now }
{
    leaf.show(direction, bound, items);
    *next = leaf.next(direction);
}

/// Writes the pairs over whatever is in the reply's place. Not inlined: no other reply needs room for its pairs.
#[inline(never)]
fn tell_page_anew(leaf: &Page, direction: Direction, bound: &Key, reply: &mut Reply)
    ensures { reply.new ≡ page_shown direction bound.now leaf.now }
{
    let mut items = Pairs::new();
    leaf.show(direction, bound, &mut items);
    let next = leaf.next(direction);
    *reply = match direction {
        Direction::Forward => Reply::Page { items, next },
        Direction::Backward => Reply::BackPage { items, next },
    };
}
