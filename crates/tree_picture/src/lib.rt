//! The picture of a tree: what stands in it, as shapes, each of which is one element of an SVG document.
//!
//! Look first at `Scene`, what stands in a tree: the pages of its side chains, level by level (`Level`), with their records
//! (`ScenePage`). Then at `picture` and at `Shape`: rectangles, lines and texts. Each page of the scene has its box (`boxes`), and a
//! document of shapes is well-formed (`documents_are_well_formed`). The places on the sheet are those of `places`.
//!
//! Called by `drawing`, which writes the shapes. It knows no stream; it reads a core's table and actors, and changes nothing.
#![tactic(auto)]

mod beside;
mod boxes;
mod cells;
mod colour;
mod counting;
mod counts;
mod doings;
mod found;
mod frame;
mod level;
mod levels;
mod links;
mod page;
mod places;
mod reasons;
mod says;
mod scene;
mod shape;
mod sheet;
mod slots;
mod stands;
mod steps;
mod taken;
mod touches;
mod well_formed;
mod whole;
mod words;
mod write;

pub use cells::Cell;
pub use colour::Colour;
pub use counting::newest_decides;
pub use counts::{free_pids, free_rows};
pub use found::found_words;
pub use level::Level;
pub use page::ScenePage;
pub use reasons::lock_reason;
pub use scene::Scene;
pub use shape::{
    CellBox, INSET, Line, MARK_INSET, Mark, NAME_DROP, PageBox, RANGE_DROP, RecordLine, Rectangle,
    SLOT_DROP, SLOT_INSET, STAND_DROP, STAND_ROW, Shape, SlotBox, Text,
};
pub use sheet::Picture;
pub use slots::Slot;
pub use stands::Stand;
pub use taken::StepName;
pub use touches::{Touch, Touched};
pub use well_formed::{documents_are_well_formed, escapes_are_safe};
pub use whole::picture;
pub use words::{MAX_WORDS, Words};
