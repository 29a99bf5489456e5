//! The mapping table.
ghost use Rattle.std.specs.Prelude.{◌≡◌, IfOk, OnOk};
ghost use Rattle.core_memory.specs.Tables.{memory_in};
ghost use Rattle.tree_picture.specs.Pages.{with_slots};
ghost use Rattle.tree_picture.specs.SlotTexts.{kind_text, slot_text};
ghost use Rattle.tree_picture.specs.Slots.{slots_below};
ghost use Rattle.tree_picture.specs.Found.{slot_found as slot_found_text};
ghost use Rattle.tree_picture.specs.Touches.{touched_slots};

use crate::cells::with_behind;
use crate::colour::Colour;
use crate::places::{HEAD, LEFT, SLOT_HEIGHT, SLOT_WIDTH, SLOTS_TOP};
use crate::shape::{Line, Rectangle, SlotBox};
use crate::sheet::Sheet;
use crate::touches::{Touch, Touched};
use crate::words::Words;
use crate::write::with_number;
use core_memory::CoreTable;
use std::alloc::{AllocError, Allocator};

/// A slot, and what it has: a row, or in slot 0 the root's PID.
#[derive(Clone, Copy)]
pub struct Slot {
    pub number: u32,
    pub content: u32,
}

/// The slots of a table that aren't 0.
pub(crate) fn slots_of<A: Allocator, B: Allocator>(
    alloc: B,
    table: &CoreTable<A>,
    pids: u64,
) -> Result<Vec<Slot, B>, AllocError>
    requires { pids ≡ table.now.limits.pids }
    ensures { IfOk result (λ slots. slots.items ≡ slots_below (memory_in table.now) pids) }
{
    let mut slots = Vec::new(alloc);
    for pid in 0..pids {
        let content = table.slot(pid as u32);
        if content != 0 {
            slots.push(Slot {
                number: pid as u32,
                content,
            })?;
        }
    }
    Ok(slots)
}

/// The slots one under another, from a height on, each with what the last step did with it.
pub(crate) fn slot_boxes(
    sheet: &mut Sheet,
    slots: &[Slot],
    touched: Touched,
    y: u64,
) -> Result<(), AllocError>
    ensures { OnOk result (sheet.new ≡ with_slots sheet.old (touched_slots touched slots.now)) }
{
    let mut y = y;
    for each in slots {
        let touch = touched.slot(each.number);
        sheet.slot(SlotBox {
            slot: *each,
            touch,
            words: slot_words(each.number, each.content),
            rectangle: Rectangle {
                x: LEFT,
                y,
                width: SLOT_WIDTH,
                height: SLOT_HEIGHT,
                fill: Colour::Paper,
                edge: touch.colour(),
                thick: touch.is_thick(),
            },
        })?;
        y = y.saturating_add(SLOT_HEIGHT);
    }
    Ok(())
}

/// The words for the slot of a number, and for what it has.
fn slot_words(number: u32, content: u32) -> Words
    ensures { result ≡ slot_text (record { number = number; content = content }) }
{
    let mut words = Words::new();
    with_number(&mut words, b"slot ", u64::from(number));
    with_number(&mut words, kind_words(number), u64::from(content));
    words
}

/// The words for what a slot had that was read.
pub(crate) fn slot_found(number: u32, content: u64) -> Words
    ensures { result ≡ slot_found_text number content }
{
    let mut words = Words::new();
    if content == 0 {
        words.add(b": nothing");
    } else if number == 0 {
        with_behind(&mut words, b": PID ", content);
    } else {
        with_behind(&mut words, b": row ", content);
    }
    words
}

/// The words for the kind of what a slot has.
fn kind_words(number: u32) -> &'static [u8]
    ensures { result.now ≡ kind_text number }
{
    if number == 0 { b": PID " } else { b": row " }
}

/// The height behind so many slots that begin at a height.
pub(crate) fn slots_bottom(slots: &[Slot], y: u64) -> u64 {
    y.saturating_add((slots.len() as u64).saturating_mul(SLOT_HEIGHT))
}

/// How many slots have a line to their pages at most: more would hide the picture.
const FEW_SLOTS: usize = 24;

/// The line from the slot of a page, if it is among a few, to the newest record of the page's box, which begins here. It goes down beside the
/// table, over the boxes of the page's row, and down beside the page's box.
pub(crate) fn slot_line(
    sheet: &mut Sheet,
    slots: &[Slot],
    touched: Touched,
    pid: u32,
    x: u64,
    y: u64,
)
    ensures { sheet.new ≡ sheet.old }
{
    if slots.len() > FEW_SLOTS {
        return;
    }
    let Some(place) = slots.iter().position(|slot| slot.number == pid) else {
        return;
    };
    let place = place as u64;
    let colour = match touched.slot(pid) {
        Touch::Changed => Colour::Changed,
        _ => Colour::Grey,
    };
    let from = place
        .saturating_mul(SLOT_HEIGHT)
        .saturating_add(SLOTS_TOP + SLOT_HEIGHT / 2);
    let beside = (place % 16)
        .saturating_mul(2)
        .saturating_add(LEFT + SLOT_WIDTH + 4);
    let over = y.saturating_sub((place % 8).saturating_mul(2).saturating_add(8));
    let left = x.saturating_sub((place % 4).saturating_mul(2).saturating_add(6));
    let to = y.saturating_add(HEAD + 9);
    across(sheet, LEFT + SLOT_WIDTH, beside, from, colour);
    down(sheet, beside, from, over, colour);
    across(sheet, beside, left, over, colour);
    down(sheet, left, over, to, colour);
    across(sheet, left, x.saturating_add(8), to, colour);
}

/// A line from left to right.
fn across(sheet: &mut Sheet, x1: u64, x2: u64, y: u64, colour: Colour)
    ensures { sheet.new ≡ sheet.old }
{
    sheet.line(Line {
        x1,
        y1: y,
        x2,
        y2: y,
        colour,
        dashed: false,
    });
}

/// A line down, or up.
fn down(sheet: &mut Sheet, x: u64, y1: u64, y2: u64, colour: Colour)
    ensures { sheet.new ≡ sheet.old }
{
    sheet.line(Line {
        x1: x,
        y1,
        x2: x,
        y2,
        colour,
        dashed: false,
    });
}
