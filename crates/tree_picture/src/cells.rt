//! The table of epochs and limbo.
ghost use Rattle.std.specs.Prelude.{◌≡◌, ◌≤◌, ◌++◌, decimal, codes, length};
ghost use Rattle.tree_picture.specs.Adding.{Adds};
ghost use Rattle.tree_picture.specs.Cells.{cell_text, epoch_text, item_of, item_text, limbo_cell, limbo_cells, stage_text};
ghost use Rattle.tree_picture.specs.Pages.{with_cells};
ghost use Rattle.std.specs.Prelude.{◌∷◌, [], OnOk};

use crate::colour::Colour;
use crate::places::{CELL_HEIGHT, CELL_WIDTH, CELLS};
use crate::shape::{CellBox, Rectangle};
use crate::sheet::Sheet;
use crate::touches::Touch;
use crate::words::Words;
use crate::write::with_number;
use epochs::{Entry, Item, Stage};
use std::alloc::AllocError;

/// A cell of the table: the epoch that an actor has announced, 0 where it is outside; or what it has in limbo.
#[derive(Clone, Copy)]
pub enum Cell {
    Epoch(u8, u64),
    Limbo(u8, Item, Stage),
}

/// A cell at its place, and what the last step did with it.
pub(crate) fn cell_box(
    sheet: &mut Sheet,
    cell: Cell,
    touch: Touch,
    x: u64,
    y: u64,
) -> Result<(), AllocError>
    ensures { OnOk result (sheet.new ≡ with_cells sheet.old (cell ∷ [])) }
{
    sheet.cell(CellBox {
        cell,
        words: cell_words(cell),
        rectangle: Rectangle {
            x,
            y,
            width: CELL_WIDTH,
            height: CELL_HEIGHT,
            fill: fill_of(cell),
            edge: if touch.is_thick() {
                touch.colour()
            } else {
                Colour::Grey
            },
            thick: touch.is_thick(),
        },
    })
}

/// The colour of a cell.
fn fill_of(cell: Cell) -> Colour {
    match cell {
        Cell::Epoch(_, 0) => Colour::Paper,
        Cell::Epoch(_, _) => Colour::Delta,
        Cell::Limbo(_, _, Stage::Passed(_)) => Colour::Page,
        Cell::Limbo(_, _, _) => Colour::Removed,
    }
}

/// What an actor has in limbo of one kind, behind so many cells of a table that begins here.
pub(crate) fn limbo_boxes(
    sheet: &mut Sheet,
    are_rows: bool,
    actor: u8,
    entries: &[Entry],
    behind: u64,
    x: u64,
    y: u64,
) -> Result<(), AllocError>
    ensures { OnOk result (sheet.new ≡ with_cells sheet.old (limbo_cells are_rows actor entries.now)) }
{
    for (place, entry) in entries.iter().enumerate() {
        let at = behind.saturating_add(place as u64);
        let right = (at % CELLS).saturating_mul(CELL_WIDTH);
        let down = (at / CELLS).saturating_mul(CELL_HEIGHT);
        let cell = limbo_cell(are_rows, actor, entry);
        cell_box(
            sheet,
            cell,
            Touch::Untouched,
            x.saturating_add(right),
            y.saturating_add(down),
        )?;
    }
    Ok(())
}

fn limbo_cell(are_rows: bool, actor: u8, entry: &Entry) -> Cell
    ensures { result ≡ limbo_cell are_rows actor entry.now }
{
    let item = if are_rows {
        Item::Row(entry.number)
    } else {
        Item::Pid(entry.number)
    };
    Cell::Limbo(actor, item, entry.stage)
}

/// The words for a cell.
fn cell_words(cell: Cell) -> Words
    ensures { result ≡ cell_text cell }
{
    match cell {
        Cell::Epoch(actor, epoch) => epoch_words(actor, epoch),
        Cell::Limbo(_, item, stage) => limbo_words(item, stage),
    }
}

fn epoch_words(actor: u8, epoch: u64) -> Words
    ensures { result ≡ codes "actor " ++ decimal actor ++ epoch_text epoch }
{
    let mut words = Words::new();
    with_number(&mut words, b"actor ", u64::from(actor));
    with_epoch(&mut words, epoch);
    words
}

fn with_epoch(words: &mut Words, epoch: u64)
    ensures adds { Adds words.old words.new (epoch_text epoch) }
    ensures short { length (epoch_text epoch) ≤ 29 }
{
    if epoch == 0 {
        words.add(b": outside");
    } else {
        with_behind(words, b": epoch ", epoch);
    }
}

/// The words for an epoch that was read as an actor's.
pub(crate) fn epoch_found(epoch: u64) -> Words
    ensures { result ≡ epoch_text epoch }
{
    let mut words = Words::new();
    with_epoch(&mut words, epoch);
    words
}

fn limbo_words(item: Item, stage: Stage) -> Words
    ensures { result ≡ item_text item ++ stage_text stage }
{
    let mut words = Words::new();
    with_item(&mut words, item);
    with_stage(&mut words, stage);
    words
}

fn with_item(words: &mut Words, item: Item)
    ensures adds { Adds words.old words.new (item_text item) }
    ensures short { length (item_text item) ≤ 29 }
{
    match item {
        Item::Row(row) => with_behind(words, b"row ", u64::from(row)),
        Item::Pid(pid) => with_behind(words, b"PID ", u64::from(pid)),
    }
}

fn with_stage(words: &mut Words, stage: Stage)
    ensures adds { Adds words.old words.new (stage_text stage) }
    ensures short { length (stage_text stage) ≤ 29 }
{
    match stage {
        Stage::Unstamped => words.add(b", no epoch"),
        Stage::Stamped(epoch) => with_behind(words, b", epoch ", epoch),
        Stage::Passed(epoch) => with_behind(words, b", passed ", epoch),
    }
}

/// A number behind a few bytes.
pub(crate) fn with_behind(words: &mut Words, before: &[u8], number: u64)
    requires { length before.now ≤ 9 }
    ensures adds { Adds words.old words.new (before.now ++ decimal number) }
    ensures short { length (before.now ++ decimal number) ≤ 29 }
{
    with_number(words, before, number);
}
