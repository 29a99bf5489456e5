//! The whole picture.
ghost use Rattle.std.specs.Prelude.{◌≡◌, ◌≤◌, [], List, IfOk, OnOk};
ghost use Rattle.op_machine.specs.machine.Actors.{Actor as ActorSeen};
ghost use Rattle.traces.specs.trace.Trace.{memory_of};
ghost use Rattle.tree_picture.specs.Cells.{AreActors, cells_from};
ghost use Rattle.tree_picture.specs.Layout.{AreLaidOut};
ghost use Rattle.tree_picture.specs.Marks.{AreMarked};
ghost use Rattle.tree_picture.specs.Pages.{boxes_of, cells_of, marks_of, pids_of, ranges_of, records_of, slots_of, stands_of, with_cells};
ghost use Rattle.tree_picture.specs.Pids.{all_pids};
ghost use Rattle.tree_picture.specs.Ranges.{all_ranges};
ghost use Rattle.tree_picture.specs.RecordLines.{all_records};
ghost use Rattle.tree_picture.specs.Stands.{all_stands, stands_in};
ghost use Rattle.tree_picture.specs.Touches.{touched_in, touched_slots};

use crate::beside::beside;
use crate::doings::actor_lines;
use crate::frame::{counts, head, legend, title};
use crate::levels::{all_links, rows};
use crate::places::{DROP, LEFT, SLOTS_TOP, TOP, first_x, width_of};
use crate::sheet::{Picture, Sheet};
use crate::slots::{slot_boxes, slots_bottom};
use crate::stands::stands_of;
use crate::touches::{Touched, touched_in};
use crate::{Scene, Stand};
use std::alloc::{AllocError, Global};
use step_core::Core;

/// The picture of a scene, and of the actors of its core: the boxes of exactly the pages of the scene, level by level and from left
/// to right. Refused for want of memory alone.
pub fn picture(alloc: Global, scene: &Scene, core: &Core) -> Result<Picture, AllocError>
    ensures pages { IfOk result (λ picture. pids_of picture.shapes.items ≡ all_pids scene.now.levels) }
    ensures ranges { IfOk result (λ picture. ranges_of picture.shapes.items ≡ all_ranges scene.now.levels) }
    ensures records { IfOk result (λ picture. records_of picture.shapes.items ≡ all_records scene.now.levels) }
    ensures slots { IfOk result (λ picture. slots_of picture.shapes.items ≡ touched_slots (touched_in core.now.entries) scene.now.slots) }
    ensures cells { IfOk result (λ picture. (actors : List ActorSeen) × AreActors core.now.limits core.now.entries core.now.demand.wanted actors
        × (cells_of picture.shapes.items ≡ cells_from (memory_of core.now.limits core.now.entries) 0 actors)) }
    ensures stands { IfOk result (λ picture. stands_of picture.shapes.items ≡ all_stands (stands_in core.now.limits core.now.entries core.now.demand.wanted) scene.now.levels) }
    ensures marks { IfOk result (λ picture. AreMarked scene.now.root [] scene.now.levels (marks_of picture.shapes.items)) }
    ensures laid { IfOk result (λ picture. AreLaidOut picture.width picture.height (boxes_of picture.shapes.items)) }
{
    let levels = scene.levels();
    let width = width_of(levels);
    let mut sheet = Sheet::new(alloc);
    let root_x = match levels.first() {
        Some(level) => first_x(width, level.pages().len()),
        None => LEFT,
    };
    head(&mut sheet, scene, root_x);
    let touched = touched_in(core);
    all_links(&mut sheet, scene, touched, width, TOP);
    let stands = stands_of(alloc, core)?;
    let end = rows(
        &mut sheet,
        levels,
        scene.root(),
        stands.as_slice(),
        touched,
        width,
        TOP,
    )?;
    slot_boxes(&mut sheet, scene.slots(), touched, SLOTS_TOP)?;
    let tree = larger(
        end.saturating_sub(DROP / 2),
        slots_bottom(scene.slots(), SLOTS_TOP),
    );
    let under = beside(
        &mut sheet,
        scene,
        core,
        stands.as_slice(),
        touched,
        width,
        tree,
    )?;
    let y = all_actors(&mut sheet, core, stands.as_slice(), touched, under)?;
    let height = larger(legend(&mut sheet, y), end);
    sheet.finish(width, height, title(), counts(scene))
}

/// The larger of two numbers.
fn larger(one: u64, other: u64) -> u64
    ensures { other ≤ result }
{
    if one < other { other } else { one }
}

/// All actors from a height on, and the height behind them.
fn all_actors(
    sheet: &mut Sheet,
    core: &Core,
    stands: &[Stand],
    touched: Touched,
    y: u64,
) -> Result<u64, AllocError>
    ensures { OnOk result ((actors : List ActorSeen) × AreActors core.now.limits core.now.entries core.now.demand.wanted actors
        × (sheet.new ≡ with_cells sheet.old (cells_from (memory_of core.now.limits core.now.entries) 0 actors))) }
{
    let mut y = y.saturating_add(20);
    for number in 0..core.limits().actors as u8 {
        let Some(actor) = core.actor(number) else {
            unreachable!()
        };
        let announced = core.memory().announced(number);
        let touch = touched.actor(number);
        y = actor_lines(sheet, number, actor, announced, stands, touch, y)?;
    }
    Ok(y)
}
