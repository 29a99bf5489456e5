//! The levels one under another.
ghost use Rattle.std.specs.Prelude.{◌≡◌, ◌≤◌, ◌<◌, ◌+◌, ◌*◌, ◌^◌, ◌++◌, ◌⊎◌, [], List, All, length, IfOk, OnOk};
ghost use Rattle.std.specs.List.{AllZip};
ghost use Rattle.tree_picture.specs.Layout.{AreLaidTo};
ghost use Rattle.tree_picture.specs.Marks.{AreMarked, IsMarkFor};
ghost use Rattle.tree_picture.specs.Pids.{all_pids, level_pids};
ghost use Rattle.tree_picture.specs.Ranges.{all_ranges, level_ranges};
ghost use Rattle.tree_picture.specs.RecordLines.{all_records, level_records};
ghost use Rattle.tree_picture.specs.Sizes.{IsWideFor};
ghost use Rattle.tree_picture.specs.Stands.{all_stands, level_stands};
ghost use Rattle.tree_picture.specs.declared.shape.Mark.{Mark};
ghost use Rattle.tree_picture.specs.declared.places.TheConstants.{BESIDE, DROP, SHELF};

use crate::boxes::page_box;
use crate::links::{Drawn, links, mark_of, side_link, slot_lines};
use crate::places::{BESIDE, DROP, GAP, PAGE_WIDTH, SHELF, first_x, highest};
use crate::sheet::Sheet;
use crate::stands::Stand;
use crate::touches::Touched;
use crate::{Level, Scene, ScenePage};
use std::alloc::AllocError;

/// What is drawn over the pages: which actors stand where, and what the last step touched.
#[derive(Clone, Copy)]
struct Overlay<'a> {
    stands: &'a [Stand],
    touched: Touched,
}

/// A level from a height on: its pages from left to right, in rows of at most `BESIDE`, with their side links. Answers the height behind it.
fn level_rows(
    sheet: &mut Sheet,
    level: &Level,
    above: &[ScenePage],
    root: u32,
    over: &Overlay,
    width: u64,
    top: u64,
) -> Result<u64, AllocError>
    requires wide { IsWideFor width (length level.now) }
    requires narrow { width ≤ 2 ^ 32 }
    requires high { top ≤ 2 ^ 40 }
    ensures pids { OnOk result (sheet.new.pids ≡ sheet.old.pids ++ level_pids level.now) }
    ensures ranges { OnOk result (sheet.new.ranges ≡ sheet.old.ranges ++ level_ranges level.now) }
    ensures stands { OnOk result (sheet.new.stands ≡ sheet.old.stands ++ level_stands over.now.stands.now level.now) }
    ensures slots { OnOk result (sheet.new.slots ≡ sheet.old.slots) }
    ensures cells { OnOk result (sheet.new.cells ≡ sheet.old.cells) }
    ensures records { OnOk result (sheet.new.records ≡ sheet.old.records ++ level_records level.now) }
    ensures marks { OnOk result ((own : List Mark) × (sheet.new.marks ≡ sheet.old.marks ++ own) × AllZip (IsMarkFor root above.now) level.now own) }
    ensures laid { IfOk result (λ end. AreLaidTo width top 0 top sheet.old.boxes → AreLaidTo width end 0 end sheet.new.boxes) }
    ensures few { IfOk result (λ end. end ≤ top + 4194305 * (5046 + SHELF)) }
{
    let pages = level.pages();
    let height = highest(pages);
    let first = first_x(width, pages.len());
    let mut place = Place {
        column: 0,
        x: first,
        y: top,
    };
    for page in pages {
        let here = in_row(place, first, height + SHELF);
        page_box(
            sheet,
            page,
            mark_of(page, above, root),
            over.stands,
            over.touched,
            here.x,
            here.y,
        )?;
        if page.page().right().is_some() {
            side_link(sheet, here.x, here.y);
        }
        place = Place {
            column: here.column + 1,
            x: here.x + (PAGE_WIDTH + GAP),
            y: here.y,
        };
    }
    Ok(place.y + height)
}

/// A place for a page of a level: in which column, and the corner.
#[derive(Clone, Copy)]
struct Place {
    column: usize,
    x: u64,
    y: u64,
}

/// The place next to it, or where its row is full, the first one of the next row.
fn in_row(place: Place, first: u64, down: u64) -> Place
    requires { place.y + down < 2 ^ 64 }
    ensures { ((place.column < BESIDE) × (result ≡ place)) ⊎ (result ≡ record { column = 0; x = first; y = place.y + down }) }
{
    if place.column < BESIDE {
        place
    } else {
        Place {
            column: 0,
            x: first,
            y: place.y + down,
        }
    }
}

/// All levels from a height on, in a picture of this width. Answers the height behind them.
pub(crate) fn rows(
    sheet: &mut Sheet,
    levels: &[Level],
    root: u32,
    stands: &[Stand],
    touched: Touched,
    width: u64,
    top: u64,
) -> Result<u64, AllocError>
    requires wide { All (λ level. IsWideFor width (length level)) levels.now }
    requires narrow { width ≤ 2 ^ 32 }
    requires few { length levels.now ≤ 16 }
    requires high { top ≤ 1000 }
    ensures pids { OnOk result (sheet.new.pids ≡ sheet.old.pids ++ all_pids levels.now) }
    ensures ranges { OnOk result (sheet.new.ranges ≡ sheet.old.ranges ++ all_ranges levels.now) }
    ensures stands { OnOk result (sheet.new.stands ≡ sheet.old.stands ++ all_stands stands.now levels.now) }
    ensures slots { OnOk result (sheet.new.slots ≡ sheet.old.slots) }
    ensures cells { OnOk result (sheet.new.cells ≡ sheet.old.cells) }
    ensures records { OnOk result (sheet.new.records ≡ sheet.old.records ++ all_records levels.now) }
    ensures marks { OnOk result ((own : List Mark) × (sheet.new.marks ≡ sheet.old.marks ++ own) × AreMarked root [] levels.now own) }
    ensures laid { IfOk result (λ end. AreLaidTo width top 0 top sheet.old.boxes → AreLaidTo width end 0 end sheet.new.boxes) }
    ensures few { IfOk result (λ end. end ≤ top + 16 * (4194305 * (5046 + SHELF) + DROP)) }
{
    let over = Overlay { stands, touched };
    let mut y = top;
    let mut above: &[ScenePage] = &[];
    for level in levels {
        let end = level_rows(sheet, level, above, root, &over, width, y)?;
        y = end + DROP;
        above = level.pages();
    }
    Ok(y)
}

/// The lines from slots, and between levels.
pub(crate) fn all_links(sheet: &mut Sheet, scene: &Scene, touched: Touched, width: u64, top: u64)
    ensures { sheet.new ≡ sheet.old }
{
    let mut y = top;
    let mut above: Option<Drawn<'_>> = None;
    for level in scene.levels() {
        let here = Drawn::new(level, width, y);
        slot_lines(sheet, scene.slots(), touched, here);
        if let Some(above) = above {
            links(sheet, above, here);
        }
        y = here.bottom().saturating_add(DROP);
        above = Some(here);
    }
}
