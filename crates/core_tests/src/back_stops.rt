//! Pages backward while a page of level 0 or 1 is split or removed: the change stops after each of its steps, and the page backward goes to its
//! end; and the other way round.

use crate::scripts::{Ask, Line, Say};
use crate::stops::{Stop, stops_anywhere};
use bw_model::Link;
use std::alloc::Global;

/// A change by actor 0 of the leaf that has a key: the pages backward of actor 1 from that key on are one before an exchange with this link,
/// and another one from there on.
#[derive(Clone, Copy)]
struct Change {
    /// What stands before it, and what it is.
    before: [Line; 2],
    ask: Ask,
    said: Say,
    link: Link,
    /// How many steps it takes.
    steps: u32,
    /// The first key, and the key of the page backward, which is the last one beside that of the change.
    first: u32,
    upto: u32,
    early: Say,
    late: Say,
}

/// The leaf's sixteenth item has come, and the writer that finds it full splits it, with a root over both.
const SPLIT: Change = Change {
    before: [Line::Inserts(0, 2, 17), Line::ListsAll(2, 17)],
    ask: Ask::Insert(18),
    said: Say::Inserted,
    link: Link::Split,
    steps: 58,
    first: 2,
    upto: 17,
    early: Say::Back(2, 17, None),
    late: Say::Back(10, 17, Some(10)),
};

/// The last of fifteen leaves is split, whose term is the sixteenth of the root, which is split too.
const INDEX_SPLIT: Change = Change {
    before: [Line::Inserts(0, 1, 128), Line::ListsAll(1, 128)],
    ask: Ask::Insert(129),
    said: Say::Inserted,
    link: Link::Split,
    steps: 126,
    first: 1,
    upto: 128,
    early: Say::Back(113, 128, Some(113)),
    late: Say::Back(121, 128, Some(121)),
};

/// The leaf that has k9 to k12 is removed, and merged into the one that has k1 to k8.
const REMOVAL: Change = Change {
    before: [Line::Inserts(0, 1, 17), Line::Deletes(0, 17, 13)],
    ask: Ask::Delete(12),
    said: Say::Deleted(12),
    link: Link::Merge,
    steps: 115,
    first: 1,
    upto: 11,
    early: Say::Back(9, 11, Some(9)),
    late: Say::Back(1, 11, None),
};

/// The leaf that has k161 to k164 is removed, and merged into the one that has k153 to k160; and then the page of level 1 above both.
const INDEX_REMOVAL: Change = Change {
    before: [Line::Inserts(0, 1, 200), Line::Deletes(0, 200, 165)],
    ask: Ask::Delete(164),
    said: Say::Deleted(164),
    link: Link::Merge,
    steps: 200,
    first: 1,
    upto: 163,
    early: Say::Back(161, 163, Some(161)),
    late: Say::Back(153, 163, Some(153)),
};

impl Change {
    /// What actor 1 finds where the page backward is this, and what it is in the end.
    fn found(&self, page: Say) -> [Line; 4] {
        let (first, upto) = (self.first, self.upto);
        [
            Line::Replies(1, Ask::Back(upto), page),
            Line::WalksBack(1, upto, first, upto),
            Line::Finishes(0, self.said),
            Line::Replies(1, Ask::Back(upto), self.late),
        ]
    }

    /// Whether the change stops anywhere, by so many steps at least.
    fn stops(&self, alloc: Global) -> bool {
        let stop = Stop {
            actor: 0,
            ask: self.ask,
            link: self.link,
            least: self.steps,
            most: 1000,
        };
        let (early, late) = (self.found(self.early), self.found(self.late));
        stops_anywhere(alloc, &self.before, stop, &early, &late)
    }

    /// Whether the page backward stops anywhere, while the change goes from its begin to its end: it is the one from before or the other.
    fn is_passed(&self, alloc: Global) -> bool {
        let lines = [
            Line::Replies(0, self.ask, self.said),
            Line::FinishesSo(1, [self.early, self.late]),
            Line::WalksBack(1, self.upto, self.first, self.upto),
        ];
        let stop = Stop {
            actor: 1,
            ask: Ask::Back(self.upto),
            link: Link::Put,
            least: 6,
            most: 1000,
        };
        stops_anywhere(alloc, &self.before, stop, &lines, &lines)
    }
}

#[test]
fn a_split_stops_beside_pages_backward(rt: HostRuntime) {
    assert!(rt; SPLIT.stops(rt.alloc()), "a leaf is split");
}

#[test]
fn a_split_of_an_index_page_stops_beside_pages_backward(rt: HostRuntime) {
    assert!(rt; INDEX_SPLIT.stops(rt.alloc()), "an index page is split");
}

#[test]
fn a_removal_stops_beside_pages_backward(rt: HostRuntime) {
    assert!(rt; REMOVAL.stops(rt.alloc()), "a leaf is removed");
}

#[test]
fn a_removal_of_an_index_page_stops_beside_pages_backward(rt: HostRuntime) {
    assert!(rt; INDEX_REMOVAL.stops(rt.alloc()), "an index page is removed");
}

#[test]
fn a_page_backward_stops_beside_changes(rt: HostRuntime) {
    for change in [SPLIT, INDEX_SPLIT, REMOVAL, INDEX_REMOVAL] {
        let upto = change.upto;
        assert!(rt; change.is_passed(rt.alloc()), "from k{upto} down");
    }
}
