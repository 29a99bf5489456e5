//! What lies beside the tree: pages that no level has, records that an actor still reads though no page has them any more, and records that an actor has
//! placed and not linked yet.
ghost use Rattle.std.specs.Prelude.{◌≡◌, ◌<◌, OnOk};
ghost use Rattle.op_machine.specs.machine.Actors.{IsActorShown};

use crate::boxes::{Row, items_in, record_edge, row_words};
use crate::colour::Colour;
use crate::places::{GAP, LEFT, PAGE_WIDTH, ROW, TABLE, record_height};
use crate::says::{item_words, record_words};
use crate::shape::Text;
use crate::sheet::Sheet;
use crate::slots::Slot;
use crate::touches::Touched;
use crate::words::Words;
use crate::write::with_number;
use crate::{Scene, ScenePage, Stand};
use base_page::Item;
use bw_model::Step;
use core_memory::{CoreRows, CoreTable};
use deltas::Record;
use op_machine::Actor;
use std::alloc::{AllocError, Global};
use step_core::Core;

/// How many records of a chain are drawn at most.
const FEW_RECORDS: u32 = 24;

/// How high the words over a chain are, and what is left free under it.
const AROUND: u64 = 40;

/// Some records of a chain: what they are, the row of the first one, and how many there are at most.
#[derive(Drop)]
struct Chain {
    words: Words,
    row: u32,
    most: u32,
}

impl Chain {
    /// The page of a slot that is on no level: one that was merged, or that nothing leads to yet.
    fn of_slot(slot: &Slot) -> Chain {
        let mut words = Words::new();
        with_number(&mut words, b"PID ", u64::from(slot.number));
        words.add(b", on no level");
        Chain {
            words,
            row: slot.content,
            most: FEW_RECORDS,
        }
    }

    /// The records that an actor still reads, from this row on.
    fn of_reader(actor: u8, row: u32) -> Chain {
        let mut words = Words::new();
        with_number(
            &mut words,
            b"out of the tree, kept for actor ",
            u64::from(actor),
        );
        Chain {
            words,
            row,
            most: FEW_RECORDS,
        }
    }

    /// The record that the last step has read in this row.
    fn of_last_read(row: u32) -> Chain {
        let mut words = Words::new();
        words.add(b"out of the tree, read by the last step");
        Chain {
            words,
            row,
            most: 1,
        }
    }

    /// The record that an actor has placed in this row.
    fn of_writer(actor: u8, row: u32) -> Chain {
        let mut words = Words::new();
        with_number(&mut words, b"placed by actor ", u64::from(actor));
        words.add(b", not linked yet");
        Chain {
            words,
            row,
            most: 1,
        }
    }
}

/// What lies beside the tree, from a height on, in a picture of this width. Answers the height behind it.
pub(crate) fn beside(
    sheet: &mut Sheet,
    scene: &Scene,
    core: &Core,
    stands: &[Stand],
    touched: Touched,
    width: u64,
    y: u64,
) -> Result<u64, AllocError>
    ensures { OnOk result (sheet.new ≡ sheet.old) }
{
    let table = core.memory();
    let chains = chains_of(sheet.alloc(), scene, core, stands, touched)?;
    let chains = chains.as_slice();
    if chains.is_empty() {
        return Ok(y);
    }
    let down = highest_of(table, chains).saturating_add(AROUND);
    let columns = columns_of(width);
    for (place, chain) in chains.iter().enumerate() {
        let right = (place as u64 % columns).saturating_mul(PAGE_WIDTH + GAP);
        let under = (place as u64 / columns).saturating_mul(down);
        let x = right.saturating_add(LEFT + TABLE);
        let y = under.saturating_add(y.saturating_add(AROUND));
        chain_title(sheet, chain, x, y);
        chain_boxes(sheet, table, chain, stands, touched, x, y);
    }
    let rows = (chains.len() as u64 - 1) / columns;
    Ok(
        rows.saturating_mul(down)
            .saturating_add(y.saturating_add(down)),
    )
}

/// How many chains stand beside each other.
fn columns_of(width: u64) -> u64
    ensures { 0 < result }
{
    width.saturating_sub(LEFT + TABLE) / (PAGE_WIDTH + GAP) + 1
}

/// All chains beside the tree.
fn chains_of(
    alloc: Global,
    scene: &Scene,
    core: &Core,
    stands: &[Stand],
    touched: Touched,
) -> Result<Vec<Chain>, AllocError> {
    let mut chains = Vec::new(alloc);
    add_pages(&mut chains, scene)?;
    add_read(&mut chains, scene, core.memory(), stands)?;
    add_last_read(&mut chains, scene, core.memory(), touched)?;
    add_placed(&mut chains, core)?;
    Ok(chains)
}

/// Adds the pages that are on no level.
fn add_pages(chains: &mut Vec<Chain>, scene: &Scene) -> Result<(), AllocError> {
    for slot in scene.slots() {
        if slot.number != 0 && !is_on_level(scene, slot.number) {
            chains.push(Chain::of_slot(slot))?;
        }
    }
    Ok(())
}

/// Whether a level has the page.
fn is_on_level(scene: &Scene, pid: u32) -> bool {
    scene
        .levels()
        .iter()
        .any(|level| level.pages().iter().any(|page| page.pid() == pid))
}

/// Adds the records that actors read next, and no page and no other chain has.
fn add_read(
    chains: &mut Vec<Chain>,
    scene: &Scene,
    table: &CoreTable,
    stands: &[Stand],
) -> Result<(), AllocError> {
    for stand in stands {
        if let Some(row) = stand.row {
            if !is_in_tree(scene, row) && !is_among(chains.as_slice(), table, row) {
                chains.push(Chain::of_reader(stand.actor, row))?;
            }
        }
    }
    Ok(())
}

/// Adds the record that the last step read, if no page and no other chain has it.
fn add_last_read(
    chains: &mut Vec<Chain>,
    scene: &Scene,
    table: &CoreTable,
    touched: Touched,
) -> Result<(), AllocError> {
    let Some(row) = touched.row else {
        return Ok(());
    };
    if !touched.changes && !is_in_tree(scene, row) && !is_among(chains.as_slice(), table, row) {
        chains.push(Chain::of_last_read(row))?;
    }
    Ok(())
}

/// Whether a page on a level has the row.
fn is_in_tree(scene: &Scene, row: u32) -> bool {
    scene.levels().iter().any(|level| level.pages().iter().any(|page| has_row(page, row)))
}

fn has_row(page: &ScenePage, row: u32) -> bool {
    page.row() == row
        || page
            .records()
            .iter()
            .any(|record| record.next() == Some(row))
}

/// Whether one of the chains has the row.
fn is_among(chains: &[Chain], table: &CoreTable, row: u32) -> bool {
    chains.iter().any(|chain| is_in_chain(chain, table, row))
}

fn is_in_chain(chain: &Chain, table: &CoreTable, row: u32) -> bool {
    let mut at = chain.row;
    for _ in 0..chain.most {
        if at == row {
            return true;
        }
        match next_of(table, at) {
            Some(next) => at = next,
            None => return false,
        }
    }
    false
}

/// The row under the record of a row, if it has one.
fn next_of(table: &CoreTable, row: u32) -> Option<u32> {
    match table.record(row) {
        Some(record) => record.next(),
        None => None,
    }
}

/// Adds the records that actors have placed, and are to link next.
fn add_placed(chains: &mut Vec<Chain>, core: &Core) -> Result<(), AllocError> {
    for number in 0..core.limits().actors as u8 {
        if let Some(row) = placed_by(core, number) {
            chains.push(Chain::of_writer(number, row))?;
        }
    }
    Ok(())
}

/// The row of the record that an actor of a core is to link next, if it is to link one.
fn placed_by(core: &Core, number: u8) -> Option<u32> {
    let Some(actor) = core.actor(number) else {
        return None;
    };
    placed(actor)
}

fn placed(actor: &Actor<CoreRows>) -> Option<u32>
    requires { IsActorShown actor.now }
{
    if !actor.is_running() {
        return None;
    }
    match actor.wanted() {
        Step::Exchange(slot, _, row) if slot != 0 && row != 0 => Some(row),
        _ => None,
    }
}

/// How high the highest one of some chains is.
fn highest_of(table: &CoreTable, chains: &[Chain]) -> u64 {
    let mut height = 0;
    for chain in chains {
        let own = chain_height(table, chain);
        if own > height {
            height = own;
        }
    }
    height
}

/// How high the records of a chain are.
fn chain_height(table: &CoreTable, chain: &Chain) -> u64 {
    let mut height: u64 = 0;
    let mut row = chain.row;
    for _ in 0..chain.most {
        let Some(record) = table.record(row) else {
            return height;
        };
        height = height.saturating_add(record_height(&record));
        match record.next() {
            Some(next) => row = next,
            None => return height,
        }
    }
    height
}

/// What a chain is, over its records.
fn chain_title(sheet: &mut Sheet, chain: &Chain, x: u64, y: u64)
    ensures { sheet.new ≡ sheet.old }
{
    let mut words = Words::new();
    words.add(chain.words.as_slice());
    sheet.text(Text {
        x,
        y: y.saturating_sub(8),
        size: 12,
        bold: true,
        colour: Colour::Grey,
        words,
    });
}

/// The records of a chain, one under another.
fn chain_boxes(
    sheet: &mut Sheet,
    table: &CoreTable,
    chain: &Chain,
    stands: &[Stand],
    touched: Touched,
    x: u64,
    y: u64,
)
    ensures { sheet.new ≡ sheet.old }
{
    let mut y = y;
    let mut row = chain.row;
    for _ in 0..chain.most {
        let Some(record) = table.record(row) else {
            return;
        };
        chain_box(sheet, &record, Row::of(row, stands, touched), x, y);
        y = y.saturating_add(record_height(&record));
        match record.next() {
            Some(next) => row = next,
            None => return,
        }
    }
}

/// A record in a box of its own, a base or a merge with its items.
fn chain_box(sheet: &mut Sheet, content: &Record, row: Row, x: u64, y: u64)
    ensures { sheet.new ≡ sheet.old }
{
    record_edge(sheet, content, row, x, y);
    let y_words = y.saturating_add(13);
    let behind = row_words(sheet, row.number, x.saturating_add(6), y_words);
    sheet.words(behind, y_words, 11, record_words(content));
    chain_items(sheet, items_in(content), x, y);
}

/// The items of a base or a merge, one under another.
fn chain_items(sheet: &mut Sheet, items: &[Item], x: u64, y: u64)
    ensures { sheet.new ≡ sheet.old }
{
    let mut y = y.saturating_add(30);
    for item in items {
        sheet.words(x.saturating_add(16), y, 11, item_words(item));
        y = y.saturating_add(ROW);
    }
}
