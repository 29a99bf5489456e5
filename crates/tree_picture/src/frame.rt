//! What stands around the levels: the title, the counts and the legend.
ghost use Rattle.std.specs.Prelude.{◌≡◌};

use crate::Scene;
use crate::colour::Colour;
use crate::places::{LEFT, SLOT_HEIGHT, SLOT_WIDTH, SLOTS_TOP, TOP};
use crate::shape::{Line, Rectangle, Text};
use crate::sheet::Sheet;
use crate::words::Words;
use crate::write::{plain, with_number};

/// The title, the counts, and the line from slot 0 to the root, whose box begins at `root_x`.
pub(crate) fn head(sheet: &mut Sheet, scene: &Scene, root_x: u64)
    ensures { sheet.new ≡ sheet.old }
{
    sheet.text(Text {
        x: LEFT,
        y: 32,
        size: 20,
        bold: true,
        colour: Colour::Ink,
        words: title(),
    });
    sheet.words(LEFT, 54, 13, counts(scene));
    root_line(sheet, root_x);
}

/// The line of slot 0 to the root.
fn root_line(sheet: &mut Sheet, root_x: u64)
    ensures { sheet.new ≡ sheet.old }
{
    sheet.line(Line {
        x1: LEFT + SLOT_WIDTH,
        y1: SLOTS_TOP + SLOT_HEIGHT / 2,
        x2: root_x.saturating_add(20),
        y2: TOP,
        colour: Colour::Term,
        dashed: false,
    });
}

/// The name of a picture.
pub(crate) fn title() -> Words {
    plain(b"A Bw-tree as it stands")
}

/// What a scene has, in numbers.
pub(crate) fn counts(scene: &Scene) -> Words {
    let mut words = Words::new();
    with_number(&mut words, b"levels: ", scene.levels().len() as u64);
    with_number(&mut words, b"; free PIDs: ", scene.free_pids());
    with_number(&mut words, b"; free rows: ", scene.free_rows());
    with_number(&mut words, b"; epoch: ", scene.epoch());
    words
}

/// What colours, edges and lines mean, and the height behind it.
pub(crate) fn legend(sheet: &mut Sheet, y: u64) -> u64
    ensures { sheet.new ≡ sheet.old }
{
    page_keys(sheet, y.saturating_add(10));
    line_keys(sheet, y.saturating_add(36));
    edge_keys(sheet, y.saturating_add(62));
    sheet.words(
        LEFT,
        y.saturating_add(100),
        12,
        plain(b"grey and struck through: taken away by a newer record"),
    );
    sheet.text(Text {
        x: LEFT + 370,
        y: y.saturating_add(100),
        size: 12,
        bold: true,
        colour: Colour::Actor,
        words: plain(b"an actor, under the page whose slot it read last"),
    });
    y.saturating_add(118)
}

fn page_keys(sheet: &mut Sheet, y: u64)
    ensures { sheet.new ≡ sheet.old }
{
    key_box(sheet, LEFT, y, Colour::Page, b"page with its term");
    key_box(sheet, LEFT + 180, y, Colour::Paper, b"page without a term");
    key_box(sheet, LEFT + 370, y, Colour::Held, b"held");
    key_box(sheet, LEFT + 470, y, Colour::Removed, b"removed");
    key_box(sheet, LEFT + 590, y, Colour::Merged, b"merged");
    key_box(sheet, LEFT + 700, y, Colour::Delta, b"delta, newest on top");
}

fn line_keys(sheet: &mut Sheet, y: u64)
    ensures { sheet.new ≡ sheet.old }
{
    key_line(sheet, LEFT, y, Colour::Term, false, b"term");
    key_line(
        sheet,
        LEFT + 180,
        y,
        Colour::Missing,
        true,
        b"term that is missing",
    );
    key_line(sheet, LEFT + 370, y, Colour::Missing, false, b"held term");
    key_line(sheet, LEFT + 590, y, Colour::Side, false, b"side link");
    key_line(
        sheet,
        LEFT + 700,
        y,
        Colour::Grey,
        false,
        b"a slot's newest record",
    );
}

fn edge_keys(sheet: &mut Sheet, y: u64)
    ensures { sheet.new ≡ sheet.old }
{
    key_edge(sheet, LEFT, y, Colour::Changed, b"changed by the last step");
    key_edge(sheet, LEFT + 210, y, Colour::Ink, b"read by the last step");
    key_edge(
        sheet,
        LEFT + 400,
        y,
        Colour::Actor,
        b"a row that an actor reads next",
    );
}

fn key_box(sheet: &mut Sheet, x: u64, y: u64, fill: Colour, words: &[u8])
    ensures { sheet.new ≡ sheet.old }
{
    key_rectangle(sheet, x, y, fill, Colour::Ink, false);
    sheet.words(x.saturating_add(30), y.saturating_add(12), 12, plain(words));
}

fn key_edge(sheet: &mut Sheet, x: u64, y: u64, edge: Colour, words: &[u8])
    ensures { sheet.new ≡ sheet.old }
{
    key_rectangle(sheet, x, y, Colour::Paper, edge, true);
    sheet.words(x.saturating_add(30), y.saturating_add(12), 12, plain(words));
}

fn key_rectangle(sheet: &mut Sheet, x: u64, y: u64, fill: Colour, edge: Colour, thick: bool)
    ensures { sheet.new ≡ sheet.old }
{
    sheet.rectangle(Rectangle {
        x,
        y,
        width: 22,
        height: 14,
        fill,
        edge,
        thick,
    });
}

fn key_line(sheet: &mut Sheet, x: u64, y: u64, colour: Colour, dashed: bool, words: &[u8])
    ensures { sheet.new ≡ sheet.old }
{
    let middle = y.saturating_add(7);
    sheet.line(Line {
        x1: x,
        y1: middle,
        x2: x.saturating_add(22),
        y2: middle,
        colour,
        dashed,
    });
    sheet.words(x.saturating_add(30), y.saturating_add(12), 12, plain(words));
}
