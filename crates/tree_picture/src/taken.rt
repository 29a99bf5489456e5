//! A step that an actor takes, by name.

use crate::steps::{command_words, step_words};
use crate::words::Words;
use crate::write::{with_number, with_token};
use bw_model::{Link, Pairs, Reply, Step};
use step_core::{Core, Event};

/// The step that an actor is to take, by name.
#[derive(Drop)]
pub struct StepName {
    words: Words,
    is_exchange: bool,
}

impl StepName {
    /// The step that an actor of a core is to take next, and of what command, as `actor 1, get k02: read slot 2`.
    pub fn of(core: &Core, number: u8) -> StepName {
        let mut words = Words::new();
        with_number(&mut words, b"actor ", u64::from(number));
        let mut is_exchange = false;
        if let Some(actor) = core.actor(number) {
            if let Some(command) = actor.command() {
                words.add(b", ");
                command_words(&mut words, command);
                words.add(b": ");
                let step = actor.wanted();
                is_exchange = matches!(step, Step::Exchange(_, _, _));
                step_words(&mut words, &step);
            }
        }
        StepName { words, is_exchange }
    }

    /// The name, and what the step came to: that an exchange was won or lost, or that the operation is done.
    pub fn told(self, event: &Event) -> Words {
        let StepName {
            mut words,
            is_exchange,
        } = self;
        match event {
            Event::Stepped(Some(link)) => {
                words.add(b": won, ");
                words.add(link_words(*link));
            }
            Event::Stepped(None) if is_exchange => {
                words.add(b": lost, the slot has another row by now");
            }
            Event::Done(reply) => {
                words.add(b"; done: ");
                reply_words(&mut words, reply);
            }
            _ => {}
        }
        words
    }
}

/// What an exchange that was won has done, by its link's word.
fn link_words(link: Link) -> &'static [u8] {
    match link {
        Link::Put => b"put: a key was given a value",
        Link::Delete => b"delete: a key was made absent",
        Link::Base => b"base: one base replaces the chain",
        Link::Split => b"split: the upper items are in the new page",
        Link::Term => b"term: the page above names the new page",
        Link::Root => b"root: a new root is over the old one",
        Link::Hold => b"hold: the page is about to be removed",
        Link::Remove => b"remove: the page takes no more records",
        Link::Merge => b"merge: the left page has the removed page's items",
        Link::Unterm => b"unterm: the page above names the merged page no more",
        Link::Clear => b"clear: the merged page's slot is empty",
        Link::Ready => b"ready: the new page's slot has its row",
        Link::Undo => b"undo: the new page's slot is empty again",
    }
}

/// A reply: its word, and its value or the keys of its pairs.
fn reply_words(words: &mut Words, reply: &Reply) {
    match reply {
        Reply::Value(value) => with_token(words, b"value ", value.as_slice()),
        Reply::None => words.add(b"none"),
        Reply::Inserted => words.add(b"inserted"),
        Reply::Exists(value) => with_token(words, b"exists ", value.as_slice()),
        Reply::Set => words.add(b"set"),
        Reply::Replaced(value) => with_token(words, b"replaced ", value.as_slice()),
        Reply::Deleted(value) => with_token(words, b"deleted ", value.as_slice()),
        Reply::Absent => words.add(b"absent"),
        Reply::Swapped => words.add(b"swapped"),
        Reply::Differs(value) => with_token(words, b"differs ", value.as_slice()),
        Reply::Page { items, .. } => keys_words(words, b"page of ", items),
        Reply::BackPage { items, .. } => keys_words(words, b"back page of ", items),
        Reply::Tidied => words.add(b"tidied"),
        Reply::Full => words.add(b"full"),
    }
}

/// So many pairs, and their keys.
fn keys_words(words: &mut Words, before: &[u8], pairs: &Pairs) {
    with_number(words, before, pairs.as_slice().len() as u64);
    words.add(b":");
    for (key, _) in pairs.as_slice() {
        with_token(words, b" ", key.as_slice());
    }
}
