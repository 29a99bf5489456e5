//! Replies as entries keep them: the pairs of a page stand out of line, so that an entry is short.
ghost use Rattle.std.specs.Prelude.{◌≡◌, [], None, IfOk, IsSome};
ghost use Rattle.core_memory.specs.Replies.{ShowsPairs};

use bw_model::{Key, Pairs, Reply, Value};
use std::alloc::{AllocError, Allocator, Global};
use std::marker::Model;

/// The pairs of a page on the heap.
#[derive(Drop)]
pub struct BoxedPairs<A: Allocator = Global> {
    owner: Box<Pairs, A>,
}

impl<A: Allocator> Model for BoxedPairs<A> {
    ghost use Rattle.std.specs.Prelude.{ℕ, List};

    ghost Value = { List (List ℕ × List ℕ) };

    ghost view = { λ b. b.owner.value };
}

impl<A: Allocator> BoxedPairs<A> {
    /// Room for the pairs of a page, with none in it; refused for want of memory alone.
    pub fn new(alloc: A) -> Result<BoxedPairs<A>, AllocError>
        ensures { IfOk result (λ boxed. boxed ≡ []) }
    {
        match Box::new(alloc, Pairs::new()) {
            Ok(owner) => Ok(BoxedPairs { owner }),
            Err(_) => Err(AllocError),
        }
    }

    /// The room with these pairs in it.
    fn filled(self, pairs: Pairs) -> BoxedPairs<A>
        ensures { result ≡ pairs }
    {
        let mut owner = self.owner;
        // What was in the room before has no use.
        let _ = Box::replace(&mut owner, pairs);
        BoxedPairs { owner }
    }

    fn pairs(&self) -> &Pairs
        ensures { result.now ≡ self.now }
    {
        self.owner.as_ref()
    }
}

/// A reply over pairs of type `P`.
#[derive(Drop)]
pub(crate) enum Replied<P> {
    Value(Value),
    None,
    Inserted,
    Exists(Value),
    Set,
    Replaced(Value),
    Deleted(Value),
    Absent,
    Swapped,
    Differs(Value),
    Page { items: P, next: Option<Key> },
    BackPage { items: P, next: Option<Key> },
    Tidied,
    Full,
}

/// A reply whose pairs, if it has any, are on the heap.
#[derive(Drop)]
pub struct BoxedReply<A: Allocator = Global> {
    replied: Replied<BoxedPairs<A>>,
}

impl<A: Allocator> Model for BoxedReply<A> {
    ghost use Rattle.bw_model.specs.declared.command.Reply.{Reply};
    ghost use Rattle.core_memory.specs.Replies.{reply_in_box};

    ghost Value = { Reply };

    ghost view = { λ r. reply_in_box r.replied };
}

impl<A: Allocator> BoxedReply<A> {
    /// The reply; a page of either direction needs room for its pairs.
    pub fn new(reply: Reply, room: Option<BoxedPairs<A>>) -> BoxedReply<A>
        requires room { ShowsPairs reply → IsSome room }
        ensures { result ≡ reply }
    {
        let replied = match reply {
            Reply::Value(value) => Replied::Value(value),
            Reply::None => Replied::None,
            Reply::Inserted => Replied::Inserted,
            Reply::Exists(value) => Replied::Exists(value),
            Reply::Set => Replied::Set,
            Reply::Replaced(value) => Replied::Replaced(value),
            Reply::Deleted(value) => Replied::Deleted(value),
            Reply::Absent => Replied::Absent,
            Reply::Swapped => Replied::Swapped,
            Reply::Differs(value) => Replied::Differs(value),
            Reply::Page { items, next } => Replied::Page {
                items: room.unwrap().filled(items),
                next,
            },
            Reply::BackPage { items, next } => Replied::BackPage {
                items: room.unwrap().filled(items),
                next,
            },
            Reply::Tidied => Replied::Tidied,
            Reply::Full => Replied::Full,
        };
        BoxedReply { replied }
    }

    /// The reply with pairs of its own.
    pub fn reply(&self) -> Reply
        ensures { result ≡ self.now }
    {
        match &self.replied {
            Replied::Value(value) => Reply::Value(value.copied()),
            Replied::None => Reply::None,
            Replied::Inserted => Reply::Inserted,
            Replied::Exists(value) => Reply::Exists(value.copied()),
            Replied::Set => Reply::Set,
            Replied::Replaced(value) => Reply::Replaced(value.copied()),
            Replied::Deleted(value) => Reply::Deleted(value.copied()),
            Replied::Absent => Reply::Absent,
            Replied::Swapped => Reply::Swapped,
            Replied::Differs(value) => Reply::Differs(value.copied()),
            Replied::Page { items, next } => Reply::Page {
                items: items.pairs().copied(),
                next: next.as_ref().map(Key::copied),
            },
            Replied::BackPage { items, next } => Reply::BackPage {
                items: items.pairs().copied(),
                next: next.as_ref().map(Key::copied),
            },
            Replied::Tidied => Reply::Tidied,
            Replied::Full => Reply::Full,
        }
    }
}
