//! What each actor is doing, and what it keeps.
ghost use Rattle.std.specs.Prelude.{◌≡◌, ◌∷◌, ◌++◌, OnOk, false, true};
ghost use Rattle.op_machine.specs.machine.Actors.{IsActorShown};
ghost use Rattle.tree_picture.specs.Cells.{limbo_cells};
ghost use Rattle.tree_picture.specs.Pages.{with_cells};

use crate::cells::{cell_box, limbo_boxes};
use crate::places::{CELL_HEIGHT, CELL_WIDTH, CELLS, LEFT};
use crate::sheet::Sheet;
use crate::steps::{command_words, step_words};
use crate::touches::Touch;
use crate::words::Words;
use crate::write::{with_key, with_number};
use crate::{Cell, Stand};
use bw_model::Key;
use core_memory::CoreRows;
use op_machine::{Actor, Hand};
use std::alloc::AllocError;

/// How many errands are written.
const FEW: usize = 8;

/// An actor from a height on: the epoch that it has announced, what it is doing, what it keeps, and its limbo. Answers the height behind it.
pub(crate) fn actor_lines(
    sheet: &mut Sheet,
    number: u8,
    actor: &Actor<CoreRows>,
    announced: u64,
    stands: &[Stand],
    touch: Touch,
    y: u64,
) -> Result<u64, AllocError>
    requires { IsActorShown actor.now }
    ensures { OnOk result (sheet.new ≡ with_cells sheet.old (Cell.Epoch number announced ∷ limbo_cells true number actor.now.hand.limbo.rows.entries
        ++ limbo_cells false number actor.now.hand.limbo.pids.entries)) }
{
    let stand = stands.iter().find(|stand| stand.actor == number);
    cell_box(sheet, Cell::Epoch(number, announced), touch, LEFT, y)?;
    let x = LEFT + CELL_WIDTH + 16;
    sheet.words(x, y.saturating_add(14), 12, doing(actor, stand));
    sheet.words(x, y.saturating_add(32), 12, kept(actor.hand()));
    let limbo = actor.hand().limbo();
    let rows = limbo.rows();
    let pids = limbo.pids();
    let under = y.saturating_add(42);
    let behind = rows.len() as u64;
    limbo_boxes(sheet, true, number, rows, 0, x, under)?;
    limbo_boxes(sheet, false, number, pids, behind, x, under)?;
    let cells = behind.saturating_add(pids.len() as u64);
    let lines = cells.saturating_add(CELLS - 1) / CELLS;
    Ok(under.saturating_add(lines.saturating_mul(CELL_HEIGHT).saturating_add(12)))
}

/// What it was asked, where it stands, the step that it wants, and its errands.
fn doing(actor: &Actor<CoreRows>, stand: Option<&Stand>) -> Words
    requires { IsActorShown actor.now }
{
    let mut words = Words::new();
    if !actor.is_running() {
        words.add(b"is idle");
        return words;
    }
    if let Some(command) = actor.command() {
        command_words(&mut words, command);
    }
    match stand {
        // (slot 0 is no page's)
        Some(stand) if stand.page != 0 => {
            with_number(&mut words, b"; at PID ", u64::from(stand.page));
        }
        _ => {}
    }
    words.add(b"; wants to ");
    step_words(&mut words, &actor.wanted());
    errands(&mut words, actor.errands());
    words
}

/// The separators that it is still to visit.
fn errands(words: &mut Words, keys: &[Key]) {
    if keys.is_empty() {
        return;
    }
    words.add(b"; errands:");
    let mut left = FEW;
    for key in keys {
        if left == 0 {
            words.add(b" ..");
            return;
        }
        left -= 1;
        with_key(words, b" ", key.as_slice());
    }
}

/// What it took and did not link.
fn kept(hand: &Hand) -> Words {
    let mut words = Words::new();
    words.add(b"spares:");
    match hand.spares().pid() {
        Some(pid) => with_number(&mut words, b" PID ", u64::from(pid)),
        None if hand.spares().rows().is_empty() => words.add(b" none"),
        None => {}
    }
    for row in hand.spares().rows() {
        with_number(&mut words, b" row ", u64::from(*row));
    }
    words
}
