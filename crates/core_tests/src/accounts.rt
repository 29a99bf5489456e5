//! Where each row and each PID is at the end of a trace, by the steps that moved them: that none is lost. What a step may do, and what it
//! is answered, is proved of each trace.

use crate::by_hand::{MOST_ACTORS, comes_to_rest};
use crate::numbers::{MOST, Numbers, Status};
use bw_model::{Answer, Key, Link, Step};
use core_memory::Entries;
use deltas::Record;
use step_core::{Core, Trace};
use traces::Entry;

/// What is kept of the record in a row.
#[derive(Clone, Copy)]
struct Placed {
    next: Option<u32>,
    link: Link,
}

/// The memory that a trace has made, but for what pages hold.
#[derive(Drop)]
struct Accounts {
    slots: [u32; MOST as usize],
    placed: [Placed; MOST as usize],
    rows: Numbers,
    pids: Numbers,
    /// The page that each actor has made ready last.
    ready: [u32; MOST_ACTORS as usize],
}

/// A base of which nothing is under it.
const OPENING: Placed = Placed {
    next: None,
    link: Link::Base,
};

impl Accounts {
    /// Of a tree that opens.
    fn new() -> Accounts {
        let mut slots = [0; MOST as usize];
        slots[0] = 1;
        slots[1] = 1;
        Accounts {
            slots,
            placed: [OPENING; MOST as usize],
            rows: Numbers::new(),
            pids: Numbers::new(),
            ready: [0; MOST_ACTORS as usize],
        }
    }

    fn slot(&self, page: u32) -> u32 {
        self.slots[(page % MOST) as usize]
    }

    fn placed(&self, row: u32) -> Placed {
        self.placed[(row % MOST) as usize]
    }

    /// Takes the chain from a row on out of the tree.
    fn unlink_chain(&mut self, head: u32) -> bool {
        let mut next = Some(head);
        for _ in 0..13u32 {
            let Some(row) = next else {
                return true;
            };
            if !self.rows.moves(row, Status::Linked, Status::Limbo) {
                return false;
            }
            next = self.placed(row).next;
        }
        next.is_none()
    }

    /// A slot has gone to 0: the page was cleared; or it was never linked, and its row goes back to the actor, as no other has seen it.
    fn empties(&mut self, page: u32, head: u32) -> bool {
        if self.placed(head).link == Link::Remove {
            self.pids.moves(page, Status::Linked, Status::Limbo) && self.unlink_chain(head)
        } else {
            self.pids.is_at(page, Status::Spare)
                && self.rows.moves(head, Status::Linked, Status::Spare)
        }
    }

    /// A record was linked over another, or in place of a chain.
    fn links(&mut self, actor: u8, head: u32, row: u32) -> bool {
        let placed = self.placed(row);
        let ready = self.ready[usize::from(actor % MOST_ACTORS)];
        let stands = match placed.link {
            Link::Base => self.unlink_chain(head),
            Link::Split => self.pids.moves(ready, Status::Spare, Status::Linked),
            _ => true,
        };
        let is_over = placed.link == Link::Base || placed.next == Some(head);
        stands && is_over && self.rows.moves(row, Status::Spare, Status::Linked)
    }

    /// An own page is filled before it is linked.
    fn fills(&mut self, actor: u8, page: u32, row: u32) -> bool {
        self.ready[usize::from(actor % MOST_ACTORS)] = page;
        self.pids.is_at(page, Status::Spare) && self.rows.moves(row, Status::Spare, Status::Linked)
    }

    /// An exchange has won.
    fn exchanges(&mut self, actor: u8, page: u32, old: u32, new: u32) -> bool {
        self.slots[(page % MOST) as usize] = new;
        if page == 0 {
            self.pids.moves(new, Status::Spare, Status::Linked)
        } else if new == 0 {
            self.empties(page, old)
        } else if old == 0 {
            self.fills(actor, page, new)
        } else {
            self.links(actor, old, new)
        }
    }

    /// A step that may fail, and hasn't.
    fn wins(&mut self, actor: u8, step: &Step<Record>) -> bool {
        match step {
            Step::Exchange(page, old, new) => self.exchanges(actor, *page, *old, *new),
            Step::TakePid(pid) => self.pids.moves(*pid, Status::Free, Status::Spare),
            Step::TakeRow(row) => self.rows.moves(*row, Status::Free, Status::Spare),
            _ => true,
        }
    }

    /// A step that is done without an answer.
    fn does(&mut self, step: &Step<Record>) -> bool {
        match step {
            Step::Place(row, content) => {
                self.placed[(*row % MOST) as usize] = Placed {
                    next: content.next(),
                    link: content.link(),
                };
                true
            }
            Step::ReusePids(word, bits) => self.pids.frees(*word, *bits),
            Step::ReuseRows(word, bits) => self.rows.frees(*word, *bits),
            _ => true,
        }
    }

    /// Whether an entry found each row and PID that it moves where it was to be.
    fn follows(&mut self, entry: &Entry) -> bool {
        match entry {
            Entry::Step(actor, step, Answer::Whether(true), _) => self.wins(*actor, step),
            Entry::Step(_, step, Answer::Done, _) => self.does(step),
            _ => true,
        }
    }

    /// Whether all entries did, one after another.
    fn follow_all(&mut self, entries: &Entries) -> bool {
        for place in 0..entries.len() {
            match entries.entry(place) {
                Some(entry) if self.follows(&entry) => {}
                _ => return false,
            }
        }
        true
    }

    /// The rows of the chain of a page, if each is linked.
    fn chain_length(&self, page: u32) -> Option<u32> {
        let head = self.slot(page);
        let mut next = (head > 0).then_some(head);
        for length in 0..14u32 {
            let Some(row) = next else {
                return Some(length);
            };
            if !self.rows.is_at(row, Status::Linked) {
                return None;
            }
            next = self.placed(row).next;
        }
        None
    }

    /// Whether exactly the linked rows stand on the chains of pages, exactly the linked pages have chains, and no row or PID is in limbo.
    fn is_settled(&self) -> bool {
        let (mut rows, mut pages) = (0u32, 0u32);
        for page in 1..MOST {
            match self.chain_length(page) {
                None => return false,
                Some(length) => {
                    rows = rows.wrapping_add(length);
                    pages = pages.wrapping_add(u32::from(length > 0));
                }
            }
        }
        self.rows.linked_and_in_limbo() == (rows, 0)
            && self.pids.linked_and_in_limbo() == (pages, 0)
    }
}

/// Whether at the end of a trace the rows and PIDs that are neither free nor spares are just those of the tree.
fn is_sound(entries: &Entries) -> bool {
    let mut accounts = Accounts::new();
    accounts.follow_all(entries) && accounts.is_settled()
}

/// The trace of a core that comes to rest, if nothing is lost then.
pub(crate) fn settled(core: Core, key: &Key) -> Option<Trace> {
    let mut core = core;
    let rests = comes_to_rest(&mut core, key);
    let trace = core.into_trace();
    if rests && is_sound(&trace.entries) {
        return Some(trace);
    }
    None
}

/// Whether a core comes to rest, and nothing is lost then.
pub(crate) fn is_settled(core: Core, key: &Key) -> bool {
    settled(core, key).is_some()
}
