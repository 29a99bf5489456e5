//! Shapes while they are drawn.
ghost use Rattle.std.specs.Prelude.{◌≡◌, ◌∷◌, [], IfOk, OnOk};
ghost use Rattle.tree_picture.specs.Pages.{line_drawn, pages_in, slot_drawn, with_cells, with_page, with_records, with_slots};

use crate::colour::Colour;
use crate::shape::{CellBox, Line, PageBox, RecordLine, Rectangle, Shape, SlotBox, Text};
use crate::words::Words;
use std::alloc::{AllocError, Global};
use std::marker::Model;

/// A picture: its shapes, those behind first, and its size in pixels.
#[derive(Drop)]
pub struct Picture {
    pub shapes: Vec<Shape>,
    pub width: u64,
    pub height: u64,
    /// Its name.
    pub title: Words,
    /// What it shows, for who can't see it.
    pub description: Words,
}

/// The shapes that were drawn so far, or that there was no room for one. Its contracts tell of the pages among them.
#[derive(Drop)]
pub(crate) struct Sheet {
    alloc: Global,
    shapes: Vec<Shape>,
    is_full: bool,
}

impl Model for Sheet {
    ghost use Rattle.tree_picture.specs.Pages.{DrawnPages, pages_in};

    ghost Value = { DrawnPages };

    ghost view = { λ s. pages_in s.shapes.items };
}

impl Sheet {
    /// No shapes.
    pub(crate) fn new(alloc: Global) -> Sheet
        ensures { result ≡ pages_in [] }
    {
        Sheet {
            alloc,
            shapes: Vec::new(alloc),
            is_full: false,
        }
    }

    /// Where its shapes come from.
    pub(crate) fn alloc(&self) -> Global {
        self.alloc
    }

    /// The box of a page.
    #[tactic(auto, using(crate::proofs::Shapes::page_more))]
    pub(crate) fn page(&mut self, page: PageBox) -> Result<(), AllocError>
        ensures { OnOk result (self.new ≡ with_page self.old page) }
    {
        self.shapes.push(Shape::Page(page))?;
        Ok(())
    }

    /// A line of a record.
    #[tactic(auto, using(crate::proofs::Shapes::record_more))]
    pub(crate) fn record_line(&mut self, line: RecordLine) -> Result<(), AllocError>
        ensures { OnOk result (self.new ≡ with_records self.old (line_drawn line ∷ [])) }
    {
        self.shapes.push(Shape::Record(line))?;
        Ok(())
    }

    /// The box of a slot.
    #[tactic(auto, using(crate::proofs::Shapes::slot_more))]
    pub(crate) fn slot(&mut self, slot: SlotBox) -> Result<(), AllocError>
        ensures { OnOk result (self.new ≡ with_slots self.old (slot_drawn slot ∷ [])) }
    {
        self.shapes.push(Shape::Slot(slot))?;
        Ok(())
    }

    /// The box of a cell.
    #[tactic(auto, using(crate::proofs::Shapes::cell_more))]
    pub(crate) fn cell(&mut self, cell: CellBox) -> Result<(), AllocError>
        ensures { OnOk result (self.new ≡ with_cells self.old (cell.cell ∷ [])) }
    {
        self.shapes.push(Shape::Cell(cell))?;
        Ok(())
    }

    /// Any other box.
    #[tactic(auto, using(crate::proofs::Shapes::box_more))]
    pub(crate) fn rectangle(&mut self, rectangle: Rectangle)
        ensures { self.new ≡ self.old }
    {
        match self.shapes.push(Shape::Box(rectangle)) {
            Ok(()) => {}
            Err(_) => self.is_full = true,
        }
    }

    /// A line.
    #[tactic(auto, using(crate::proofs::Shapes::line_more))]
    pub(crate) fn line(&mut self, line: Line)
        ensures { self.new ≡ self.old }
    {
        match self.shapes.push(Shape::Line(line)) {
            Ok(()) => {}
            Err(_) => self.is_full = true,
        }
    }

    /// A text.
    #[tactic(auto, using(crate::proofs::Shapes::text_more))]
    pub(crate) fn text(&mut self, text: Text)
        ensures { self.new ≡ self.old }
    {
        match self.shapes.push(Shape::Text(text)) {
            Ok(()) => {}
            Err(_) => self.is_full = true,
        }
    }

    /// Plain words of a size.
    pub(crate) fn words(&mut self, x: u64, y: u64, size: u8, words: Words)
        ensures { self.new ≡ self.old }
    {
        self.text(Text {
            x,
            y,
            size,
            bold: false,
            colour: Colour::Ink,
            words,
        });
    }

    /// The picture, if there was room for all its shapes.
    pub(crate) fn finish(
        self,
        width: u64,
        height: u64,
        title: Words,
        description: Words,
    ) -> Result<Picture, AllocError>
        ensures shapes { IfOk result (λ picture. pages_in picture.shapes.items ≡ self) }
        ensures size { IfOk result (λ picture. (picture.width ≡ width) × (picture.height ≡ height)) }
    {
        if self.is_full {
            return Err(AllocError);
        }
        Ok(Picture {
            shapes: self.shapes,
            width,
            height,
            title,
            description,
        })
    }
}
