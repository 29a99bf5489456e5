//! Where things stand, in pixels.
ghost use Rattle.std.specs.Prelude.{◌≡◌, ◌≤◌, ◌<◌, ◌+◌, ◌*◌, ◌^◌, ℕ, All, length};
ghost use Rattle.tree_picture.specs.Sizes.{IsWideFor, page_height, record_height};
ghost use Rattle.tree_picture.specs.declared.places.TheConstants.{BESIDE, GAP, LEFT, PAGE_WIDTH, TABLE};

use crate::{Level, ScenePage};
use deltas::Record;

pub(crate) const PAGE_WIDTH: u64 = 236;

pub(crate) const GAP: u64 = 40;

pub(crate) const LEFT: u64 = 30;

pub(crate) const TOP: u64 = 118;

pub(crate) const HEAD: u64 = 44;

/// What is left free under the records of a page.
pub(crate) const FOOT: u64 = 10;

pub(crate) const DELTA: u64 = 21;

/// A base or a merge without items.
pub(crate) const BASE: u64 = 24;

pub(crate) const ROW: u64 = 15;

pub(crate) const DROP: u64 = 84;

/// What is left free between two rows of a level.
pub(crate) const SHELF: u64 = 36;

/// How many pages of a level stand beside each other at most. The others stand in rows under them.
pub(crate) const BESIDE: usize = 12;

/// Where the mapping table begins.
pub(crate) const SLOTS_TOP: u64 = 66;

/// How wide the box of a slot is.
pub(crate) const SLOT_WIDTH: u64 = 130;

/// How high it is.
pub(crate) const SLOT_HEIGHT: u64 = 20;

/// How much room the mapping table has, to the left of the levels.
pub(crate) const TABLE: u64 = 150;

/// How wide a cell of the table of epochs and limbo is.
pub(crate) const CELL_WIDTH: u64 = 140;

/// How high it is.
pub(crate) const CELL_HEIGHT: u64 = 20;

/// How many cells of an actor's limbo stand beside each other.
pub(crate) const CELLS: u64 = 5;

const LEAST_WIDTH: u64 = 1000;

/// How many of so many pages stand beside each other.
fn beside(pages: usize) -> usize
    ensures few { result ≤ BESIDE }
    ensures all { (many : ℕ) → many ≤ pages → many ≤ BESIDE → many ≤ result }
{
    if pages < BESIDE { pages } else { BESIDE }
}

/// How wide so many pages are beside each other.
fn row_width(pages: usize) -> u64
    requires { pages ≤ 2 ^ 40 }
    ensures { result ≡ pages * (PAGE_WIDTH + GAP) }
{
    pages as u64 * (PAGE_WIDTH + GAP)
}

/// How wide the picture of these levels is.
pub(crate) fn width_of(levels: &[Level]) -> u64
    ensures wide { All (λ level. IsWideFor result (length level)) levels.now }
    ensures few { result ≤ BESIDE * (PAGE_WIDTH + GAP) + 2 * LEFT + TABLE }
{
    let mut width = LEAST_WIDTH;
    for level in levels {
        let row = row_width(beside(level.pages().len())) + (2 * LEFT + TABLE);
        if row > width {
            width = row;
        }
    }
    width
}

/// Where the first page of a level of so many pages stands: beside the mapping table, its rows in the middle of what is left of this width.
pub(crate) fn first_x(width: u64, pages: usize) -> u64
    ensures { IsWideFor width pages → (many : ℕ) → many ≤ pages → many ≤ BESIDE → result + many * (PAGE_WIDTH + GAP) ≤ width + GAP }
{
    let levels = width.saturating_sub(TABLE);
    levels.saturating_sub(row_width(beside(pages)).saturating_sub(GAP)) / 2 + TABLE
}

/// How high a record is.
pub(crate) fn record_height(record: &Record) -> u64
    ensures exact { result ≡ record_height «record».now }
    ensures few { result ≤ 384 }
{
    match record {
        Record::Base(page) => page.items().as_slice().len() as u64 * ROW + BASE,
        Record::Merge(merge) => merge.items.as_slice().len() as u64 * ROW + BASE,
        _ => DELTA,
    }
}

/// How high the box of a page is.
pub(crate) fn page_height(page: &ScenePage) -> u64
    ensures exact { result ≡ page_height page.now }
    ensures few { result ≤ 5046 }
{
    let mut height = HEAD + FOOT;
    for record in page.records() {
        height += record_height(record);
    }
    height
}

/// How high the highest of some pages is.
pub(crate) fn highest(pages: &[ScenePage]) -> u64
    ensures all { All (λ page. page_height page ≤ result) pages.now }
    ensures few { result ≤ 5046 }
{
    let mut height = 0;
    for page in pages {
        let own = page_height(page);
        if own > height {
            height = own;
        }
    }
    height
}
