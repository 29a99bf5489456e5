//! The box of a page.
ghost use Rattle.std.specs.Prelude.{◌≡◌, ◌≤◌, ◌+◌, ◌∷◌, ◌++◌, [], ℕ, OnOk, map};
ghost use Rattle.tree_picture.specs.Layout.{AreLaidTo};
ghost use Rattle.tree_picture.specs.Pages.{with_records};
ghost use Rattle.tree_picture.specs.Ranges.{page_range};
ghost use Rattle.tree_picture.specs.RecordLines.{item_line, items_in, lines_under, page_records, record_counts, record_lines};
ghost use Rattle.tree_picture.specs.Sizes.{page_height};
ghost use Rattle.tree_picture.specs.Stands.{page_stands};
ghost use Rattle.tree_picture.specs.declared.places.TheConstants.{PAGE_WIDTH};

use crate::ScenePage;
use crate::colour::Colour;
use crate::counting::{is_unnamed, record_counts};
use crate::places::{HEAD, PAGE_WIDTH, ROW, page_height, record_height};
use crate::says::{item_words, record_words};
use crate::shape::{Mark, PageBox, RecordLine, Rectangle};
use crate::sheet::Sheet;
use crate::stands::{Stand, stands_at};
use crate::touches::{Touch, Touched};
use crate::words::Words;
use crate::write::{with_number, with_range};
use base_page::Item;
use deltas::Record;
use std::alloc::AllocError;

/// A page at its place.
pub(crate) fn page_box(
    sheet: &mut Sheet,
    page: &ScenePage,
    mark: Mark,
    stands: &[Stand],
    touched: Touched,
    x: u64,
    y: u64,
) -> Result<(), AllocError>
    ensures pids { OnOk result (sheet.new.pids ≡ sheet.old.pids ++ page.now.pid ∷ []) }
    ensures ranges { OnOk result (sheet.new.ranges ≡ sheet.old.ranges ++ page_range page.now ∷ []) }
    ensures marks { OnOk result (sheet.new.marks ≡ sheet.old.marks ++ mark ∷ []) }
    ensures stands { OnOk result (sheet.new.stands ≡ sheet.old.stands ++ page_stands stands.now page.now ∷ []) }
    ensures slots { OnOk result (sheet.new.slots ≡ sheet.old.slots) }
    ensures cells { OnOk result (sheet.new.cells ≡ sheet.old.cells) }
    ensures records { OnOk result (sheet.new.records ≡ sheet.old.records ++ page_records page.now) }
    ensures laid { OnOk result ((width bottom next : ℕ) → AreLaidTo width bottom x y sheet.old.boxes → x + PAGE_WIDTH ≤ width → x + PAGE_WIDTH ≤ next
        → y + page_height page.now ≤ bottom → AreLaidTo width bottom next y sheet.new.boxes) }
{
    let rectangle = Rectangle {
        x,
        y,
        width: PAGE_WIDTH,
        height: page_height(page),
        fill: mark.colour(),
        edge: Colour::Ink,
        thick: false,
    };
    let mut range = Words::new();
    with_range(&mut range, page.page().low(), page.page().high());
    let own = stands_at(sheet.alloc(), stands, page.pid())?;
    sheet.page(PageBox {
        pid: page.pid(),
        rectangle,
        mark,
        range,
        stands: own,
    })?;
    record_boxes(
        sheet,
        page.records(),
        page.row(),
        stands,
        touched,
        x,
        y.saturating_add(HEAD),
    )?;
    Ok(())
}

/// The records of a page one under another, the newest first, which stands in this row.
fn record_boxes(
    sheet: &mut Sheet,
    records: &[Record],
    row: u32,
    stands: &[Stand],
    touched: Touched,
    x: u64,
    y: u64,
) -> Result<(), AllocError>
    ensures { OnOk result (sheet.new ≡ with_records sheet.old (lines_under [] records.now)) }
{
    let mut y = y;
    let mut row = row;
    for (place, content) in records.iter().enumerate() {
        let newer = &records[..place];
        record_box(
            sheet,
            newer,
            content,
            Row::of(row, stands, touched),
            x.saturating_add(8),
            y,
        )?;
        row = content.next().unwrap_or(0);
        y = y.saturating_add(record_height(content));
    }
    Ok(())
}

/// A row, whether an actor reads it next, and what the last step did with it.
#[derive(Clone, Copy)]
pub(crate) struct Row {
    pub(crate) number: u32,
    is_next: bool,
    touch: Touch,
}

impl Row {
    pub(crate) fn of(number: u32, stands: &[Stand], touched: Touched) -> Row {
        let is_next = stands.iter().any(|stand| stand.row == Some(number));
        Row {
            number,
            is_next,
            touch: touched.row(number),
        }
    }

    /// The colour of the edge of its record, which an actor reads next, or the last step changed or read.
    fn edge(self, is_base: bool) -> Colour {
        match (self.touch, self.is_next, is_base) {
            (Touch::Changed, _, _) => Colour::Changed,
            (_, true, _) => Colour::Actor,
            (Touch::Read, _, _) => Colour::Ink,
            (_, _, true) => Colour::Grey,
            (_, _, false) => Colour::Side,
        }
    }
}

/// A record under some newer ones in a box of its own, a base or a merge with its items.
fn record_box(
    sheet: &mut Sheet,
    newer: &[Record],
    content: &Record,
    row: Row,
    x: u64,
    y: u64,
) -> Result<(), AllocError>
    ensures { OnOk result (sheet.new ≡ with_records sheet.old (record_lines newer.now content.now)) }
{
    record_edge(sheet, content, row, x, y);
    let y_words = y.saturating_add(13);
    let beside = row_words(sheet, row.number, x.saturating_add(6), y_words);
    sheet.record_line(RecordLine {
        x: beside,
        y: y_words,
        words: record_words(content),
        counts: record_counts(newer, content),
    })?;
    item_lines(sheet, newer, items_in(content), x, y)?;
    Ok(())
}

/// The number of a row from this place on. Answers the place behind it.
pub(crate) fn row_words(sheet: &mut Sheet, row: u32, x: u64, y: u64) -> u64
    ensures { sheet.new ≡ sheet.old }
{
    let mut words = Words::new();
    with_number(&mut words, b"row ", u64::from(row));
    words.add(b":");
    let width = (words.as_slice().len() as u64).saturating_mul(ROW_LETTER);
    sheet.words(x, y, 11, words);
    x.saturating_add(width)
}

/// How wide a character of a row's number is taken to be.
const ROW_LETTER: u64 = 7;

/// The items of a base or a merge.
pub(crate) fn items_in(content: &Record) -> &[Item]
    ensures { result.now ≡ items_in content.now }
{
    match content {
        Record::Base(page) => page.items().as_slice(),
        Record::Merge(merge) => merge.items.as_slice(),
        _ => &[],
    }
}

/// The edge of a record's box.
pub(crate) fn record_edge(sheet: &mut Sheet, content: &Record, row: Row, x: u64, y: u64)
    ensures { sheet.new ≡ sheet.old }
{
    let is_base = matches!(content, Record::Base(_));
    let height = record_height(content);
    sheet.rectangle(Rectangle {
        x,
        y,
        width: PAGE_WIDTH - 16,
        height: if is_base {
            height
        } else {
            height.saturating_sub(3)
        },
        fill: if is_base {
            Colour::Paper
        } else {
            Colour::Delta
        },
        edge: row.edge(is_base),
        thick: row.is_next || row.touch.is_thick(),
    });
}

/// The items of a base or a merge under some newer records, one under another.
fn item_lines(
    sheet: &mut Sheet,
    newer: &[Record],
    items: &[Item],
    x: u64,
    y: u64,
) -> Result<(), AllocError>
    ensures { OnOk result (sheet.new ≡ with_records sheet.old (map (item_line newer.now) items.now)) }
{
    let mut y = y.saturating_add(30);
    for item in items {
        sheet.record_line(RecordLine {
            x: x.saturating_add(16),
            y,
            words: item_words(item),
            counts: is_unnamed(newer, &item.key),
        })?;
        y = y.saturating_add(ROW);
    }
    Ok(())
}
