//! Lines between pages: side links, terms, and what stands where a term is missing or its page is merged.
ghost use Rattle.std.specs.Prelude.{◌≡◌};
ghost use Rattle.base_page.specs.Pages.{AreItems};
ghost use Rattle.tree_picture.specs.Marks.{FindsChild, FindsTerm, IsMarkFor, IsTermFor};

use crate::colour::Colour;
use crate::places::{
    BESIDE, GAP, HEAD, PAGE_WIDTH, ROW, SHELF, first_x, highest, page_height, record_height,
};
use crate::shape::{Line, Mark, Rectangle};
use crate::sheet::Sheet;
use crate::slots::{Slot, slot_line};
use crate::touches::Touched;
use crate::words::Words;
use crate::write::with_number;
use crate::{Level, ScenePage};
use base_page::{Content, Item};
use bw_model::Key;
use deltas::Record;

/// A level where it is drawn.
#[derive(Clone, Copy)]
pub(crate) struct Drawn<'a> {
    level: &'a Level,
    /// The place of its first page.
    first: Spot,
    /// How high its highest page is.
    height: u64,
}

/// The corner of a page's box that is leftmost and topmost, or another place.
#[derive(Clone, Copy)]
struct Spot {
    x: u64,
    y: u64,
}

impl<'a> Drawn<'a> {
    /// A level from a height on, in a picture of this width.
    pub(crate) fn new(level: &'a Level, width: u64, y: u64) -> Drawn<'a> {
        let pages = level.pages();
        Drawn {
            level,
            first: Spot {
                x: first_x(width, pages.len()),
                y,
            },
            height: highest(pages),
        }
    }

    /// Where the page at a place among its pages stands.
    fn spot(&self, place: usize) -> Spot {
        let column = (place % BESIDE) as u64;
        let row = (place / BESIDE) as u64;
        let right = column.saturating_mul(PAGE_WIDTH + GAP);
        let down = row.saturating_mul(self.height.saturating_add(SHELF));
        Spot {
            x: self.first.x.saturating_add(right),
            y: self.first.y.saturating_add(down),
        }
    }

    /// The height behind it.
    pub(crate) fn bottom(&self) -> u64 {
        let last = self.level.pages().len().saturating_sub(1);
        self.spot(last).y.saturating_add(self.height)
    }
}

/// Whether the item is a term for the page, and whether it is held.
fn term_of(item: &Item, pid: u32) -> Option<bool>
    ensures { IsTermFor item.now pid result }
{
    match &item.content {
        Content::Child { page, held } if *page == pid => Some(*held),
        _ => None,
    }
}

/// Whether the items have a term for the page, and whether it is held.
fn term_in(items: &[Item], pid: u32) -> Option<bool>
    requires { AreItems items.now }
    ensures { FindsChild items.now pid result }
{
    for item in items {
        if let Some(held) = term_of(item, pid) {
            return Some(held);
        }
    }
    None
}

/// Whether a level has a term for the page, and whether it is held.
fn term_for(above: &[ScenePage], pid: u32) -> Option<bool>
    ensures { FindsTerm above.now pid result }
{
    for page in above {
        if let Some(held) = term_in(page.page().items().as_slice(), pid) {
            return Some(held);
        }
    }
    None
}

/// The mark of a page by the pages of the level above it, if there is one. Slot 0 has the root.
pub(crate) fn mark_of(page: &ScenePage, above: &[ScenePage], root: u32) -> Mark
    ensures { IsMarkFor root above.now page.now result }
{
    if page.page().is_removed() {
        return Mark::Removed;
    }
    if page.pid() == root {
        return Mark::Termed;
    }
    match term_for(above, page.pid()) {
        None => Mark::Termless,
        Some(false) => Mark::Termed,
        Some(true) => Mark::Held,
    }
}

/// Where among some pages the one of a PID stands.
fn place_of(pages: &[ScenePage], pid: u32) -> Option<usize> {
    pages.iter().position(|page| page.pid() == pid)
}

/// The side link of a page, whose box begins here.
pub(crate) fn side_link(sheet: &mut Sheet, x: u64, y: u64)
    ensures { sheet.new ≡ sheet.old }
{
    let from = x.saturating_add(PAGE_WIDTH);
    let to = from.saturating_add(GAP);
    let y = y.saturating_add(22);
    side_line(sheet, from, y, to, y);
    side_line(sheet, to.saturating_sub(7), y.saturating_sub(5), to, y);
    side_line(sheet, to.saturating_sub(7), y.saturating_add(5), to, y);
}

fn side_line(sheet: &mut Sheet, x1: u64, y1: u64, x2: u64, y2: u64)
    ensures { sheet.new ≡ sheet.old }
{
    sheet.line(Line {
        x1,
        y1,
        x2,
        y2,
        colour: Colour::Side,
        dashed: false,
    });
}

/// The lines from the slots of a level's pages to their newest records.
pub(crate) fn slot_lines(sheet: &mut Sheet, slots: &[Slot], touched: Touched, level: Drawn<'_>)
    ensures { sheet.new ≡ sheet.old }
{
    for (place, page) in level.level.pages().iter().enumerate() {
        let at = level.spot(place);
        slot_line(sheet, slots, touched, page.pid(), at.x, at.y);
    }
}

/// The terms of all pages of a level, and dashed lines for those that are missing.
pub(crate) fn links(sheet: &mut Sheet, above: Drawn<'_>, below: Drawn<'_>)
    ensures { sheet.new ≡ sheet.old }
{
    for (place, page) in above.level.pages().iter().enumerate() {
        terms(sheet, page, above.spot(place), above.bottom(), below);
    }
    for (place, page) in below.level.pages().iter().enumerate() {
        missing(sheet, above, page, below.spot(place));
    }
}

/// The terms of a page at its place in a level that ends at the height `bottom`. Each has a way of its own down the gap beside the page.
fn terms(sheet: &mut Sheet, page: &ScenePage, at: Spot, bottom: u64, below: Drawn<'_>)
    ensures { sheet.new ≡ sheet.old }
{
    let mut way = at.x.saturating_add(PAGE_WIDTH + 4);
    for item in page.page().items().as_slice() {
        if let Content::Child { page: child, held } = &item.content {
            let from = Spot {
                x: at.x.saturating_add(PAGE_WIDTH - 8),
                y: at.y.saturating_add(term_drop(page.records(), &item.key)),
            };
            let colour = if *held { Colour::Missing } else { Colour::Term };
            way_down(sheet, from, way, bottom, colour);
            term(sheet, *child, Spot { x: way, y: bottom }, colour, below);
        }
        way = way.saturating_add(2);
    }
}

/// The line from a term's own line to the height `bottom`, down the gap beside its page.
fn way_down(sheet: &mut Sheet, from: Spot, way: u64, bottom: u64, colour: Colour)
    ensures { sheet.new ≡ sheet.old }
{
    line(sheet, from, Spot { x: way, y: from.y }, colour, false);
    line(
        sheet,
        Spot { x: way, y: from.y },
        Spot { x: way, y: bottom },
        colour,
        false,
    );
}

fn line(sheet: &mut Sheet, from: Spot, to: Spot, colour: Colour, dashed: bool)
    ensures { sheet.new ≡ sheet.old }
{
    sheet.line(Line {
        x1: from.x,
        y1: from.y,
        x2: to.x,
        y2: to.y,
        colour,
        dashed,
    });
}

/// How far under the corner of its page's box a term's own line stands: it is in the newest record that names the separator.
fn term_drop(records: &[Record], separator: &Key) -> u64 {
    let mut drop = HEAD;
    for record in records {
        if let Some(within) = drop_in(record, separator) {
            return drop.saturating_add(within);
        }
        drop = drop.saturating_add(record_height(record));
    }
    drop
}

/// How far under a record's upper edge the line of a separator's term stands, if the record has one.
fn drop_in(record: &Record, separator: &Key) -> Option<u64> {
    match record {
        Record::Base(page) => item_drop(page.items().as_slice(), separator),
        Record::Merge(merge) => item_drop(merge.items.as_slice(), separator),
        Record::Term(term) if term.separator.cmp(separator).is_eq() => Some(9),
        Record::Hold(hold) if hold.separator.cmp(separator).is_eq() => Some(9),
        _ => None,
    }
}

/// How far under the upper edge of a base or a merge the line of the item with this key stands, if there is one.
fn item_drop(items: &[Item], key: &Key) -> Option<u64> {
    match items.iter().position(|item| item.key.cmp(key).is_eq()) {
        Some(place) => Some((place as u64).saturating_mul(ROW).saturating_add(26)),
        None => None,
    }
}

/// The line of a term to its page, or the mark of a merged page, which is on no side chain any more.
fn term(sheet: &mut Sheet, pid: u32, from: Spot, colour: Colour, below: Drawn<'_>)
    ensures { sheet.new ≡ sheet.old }
{
    let Some(place) = place_of(below.level.pages(), pid) else {
        merged(sheet, pid, from.x, from.y);
        return;
    };
    line(sheet, from, top_of(below.spot(place)), colour, false);
}

/// The middle of the upper edge of the page's box that stands here.
fn top_of(page: Spot) -> Spot {
    Spot {
        x: page.x.saturating_add(PAGE_WIDTH / 2),
        y: page.y,
    }
}

/// A merged page, whose term is still there.
fn merged(sheet: &mut Sheet, pid: u32, x: u64, y: u64)
    ensures { sheet.new ≡ sheet.old }
{
    let top = y.saturating_add(24);
    line(
        sheet,
        Spot { x, y },
        Spot { x, y: top },
        Colour::Missing,
        false,
    );
    sheet.rectangle(Rectangle {
        x: x.saturating_sub(6),
        y: top,
        width: 116,
        height: 22,
        fill: Colour::Merged,
        edge: Colour::Ink,
        thick: false,
    });
    let mut words = Words::new();
    with_number(&mut words, b"PID ", u64::from(pid));
    words.add(b" merged");
    sheet.words(x.saturating_add(2), top.saturating_add(15), 12, words);
}

/// A dashed line to a page without a term, from the page above that has its low key in its range.
fn missing(sheet: &mut Sheet, above: Drawn<'_>, page: &ScenePage, at: Spot)
    ensures { sheet.new ≡ sheet.old }
{
    if term_for(above.level.pages(), page.pid()).is_some() {
        return;
    }
    let place = parent_of(above.level.pages(), page);
    let Some(parent) = above.level.pages().get(place) else {
        return;
    };
    let corner = above.spot(place);
    let from = Spot {
        x: corner.x.saturating_add(PAGE_WIDTH / 2),
        y: corner.y.saturating_add(page_height(parent)),
    };
    line(sheet, from, top_of(at), Colour::Missing, true);
}

/// Where among some pages the last one stands that begins at the page's low key or before it.
fn parent_of(pages: &[ScenePage], page: &ScenePage) -> usize {
    pages
        .iter()
        .rposition(|parent| !parent.page().low().cmp(page.page().low()).is_gt())
        .unwrap_or(0)
}
