//! Shapes. A place is told in pixels, from the left and from the top.
ghost use Rattle.std.specs.Prelude.{◌≡◌};
ghost use Rattle.tree_picture.specs.Cells.{cell_text};
ghost use Rattle.tree_picture.specs.Colours.{decoration, line_colour};
ghost use Rattle.tree_picture.specs.SlotTexts.{slot_text};
ghost use Rattle.tree_picture.specs.Texts.{EndInBox, mark_text};
ghost use Rattle.tree_picture.specs.Edges.{HasEdge};

use crate::cells::Cell;
use crate::colour::Colour;
use crate::slots::Slot;
use crate::stands::Stand;
use crate::touches::Touch;
use crate::words::Words;

/// How far to the right of the corner of a page's box its name and its range begin.
pub const INSET: u64 = 10;

/// How far to the right of that corner its mark begins.
pub const MARK_INSET: u64 = 166;

/// How far under that corner its name and its mark stand.
pub const NAME_DROP: u64 = 18;

/// How far under that corner its range stands.
pub const RANGE_DROP: u64 = 35;

/// How far under the lower edge of a page's box the first one of its actors stands.
pub const STAND_DROP: u64 = 14;

/// How far under that one the next one stands, and so on.
pub const STAND_ROW: u64 = 15;

/// How wide a character of a name or a mark is taken to be, in pixels. Letters of such a font are about so wide; a few are wider.
pub const BOLD_WIDTH: u64 = 10;

/// How wide a character of a range is taken to be.
pub const PLAIN_WIDTH: u64 = 6;

/// A rectangle, from its corner that is leftmost and topmost.
#[derive(Clone, Copy)]
pub struct Rectangle {
    pub x: u64,
    pub y: u64,
    pub width: u64,
    pub height: u64,
    pub fill: Colour,
    pub edge: Colour,
    /// Whether its edge is thick.
    pub thick: bool,
}

/// A straight line, from one place to another.
#[derive(Clone, Copy)]
pub struct Line {
    pub x1: u64,
    pub y1: u64,
    pub x2: u64,
    pub y2: u64,
    pub colour: Colour,
    pub dashed: bool,
}

/// Words in a row, from the place of their lower left corner.
#[derive(Drop)]
pub struct Text {
    pub x: u64,
    pub y: u64,
    pub size: u8,
    pub bold: bool,
    pub colour: Colour,
    pub words: Words,
}

/// A line of a record, or of an item in it. One that doesn't count is grey and struck through: a newer record took away what it says.
#[derive(Drop)]
pub struct RecordLine {
    pub x: u64,
    pub y: u64,
    pub words: Words,
    pub counts: bool,
}

impl RecordLine {
    /// Its colour.
    pub fn colour(&self) -> Colour
        ensures { result ≡ line_colour self.now.counts }
    {
        if self.counts {
            Colour::Ink
        } else {
            Colour::Grey
        }
    }

    /// What is drawn through it.
    pub fn decoration(&self) -> &'static [u8]
        ensures { result.now ≡ decoration self.now.counts }
    {
        if self.counts {
            b"none"
        } else {
            b"line-through"
        }
    }
}

/// How a page stands to the level above it.
#[derive(Clone, Copy)]
pub enum Mark {
    /// The root, or a page with its term.
    Termed,
    /// A page without a term.
    Termless,
    /// A page whose term is held.
    Held,
    /// A removed page.
    Removed,
}

impl Mark {
    /// The colour of its box.
    pub(crate) fn colour(self) -> Colour {
        match self {
            Mark::Termed => Colour::Page,
            Mark::Termless => Colour::Paper,
            Mark::Held => Colour::Held,
            Mark::Removed => Colour::Removed,
        }
    }

    /// The word for it.
    pub fn word(self) -> &'static [u8]
        ensures { result.now ≡ mark_text self }
    {
        match self {
            Mark::Termed => b"",
            Mark::Termless => b"no term",
            Mark::Held => b"held",
            Mark::Removed => b"removed",
        }
    }
}

/// The box of a page. Its texts stand in it: its name, its mark's word and its range. Under it stand the actors that are at the page.
#[derive(Drop)]
pub struct PageBox {
    pub pid: u32,
    pub rectangle: Rectangle,
    pub mark: Mark,
    pub range: Words,
    pub stands: Vec<Stand>,
    /// Its texts end in it.
    pub ghost inside: { EndInBox rectangle.width pid mark range },
}

/// The box of a slot of the mapping table, what the last step did with it, and the words in it.
#[derive(Drop)]
pub struct SlotBox {
    pub slot: Slot,
    pub touch: Touch,
    pub rectangle: Rectangle,
    pub words: Words,
    /// The words name the slot and what it has.
    pub ghost worded: { words ≡ slot_text slot },
    /// Its edge tells what the last step did with it.
    pub ghost edged: { HasEdge touch rectangle },
}

/// The box of a cell of the table of epochs and limbo, and the words in it.
#[derive(Drop)]
pub struct CellBox {
    pub cell: Cell,
    pub rectangle: Rectangle,
    pub words: Words,
    /// The words are those for the cell.
    pub ghost worded: { words ≡ cell_text cell },
}

/// How far to the right of the corner of a slot's or a cell's box its words begin.
pub const SLOT_INSET: u64 = 8;

/// How far under that corner they stand.
pub const SLOT_DROP: u64 = 15;

/// One shape of a picture.
#[derive(Drop)]
pub enum Shape {
    /// The box of a page.
    Page(PageBox),
    /// Any other box.
    Box(Rectangle),
    /// A line of a record.
    Record(RecordLine),
    /// A slot of the mapping table.
    Slot(SlotBox),
    /// A cell of the table of epochs and limbo.
    Cell(CellBox),
    /// A line.
    Line(Line),
    /// Words.
    Text(Text),
}
