//! Each growth of memory refused in turn: want of memory is answered, nothing is changed, and the same call made again is answered as if
//! there had been no refusal.

use crate::by_hand::let_go;
use crate::scripts::{Ask, opened};
use bw_model::{Key, Limits, OpenError, Value};
use refusing_alloc::Refusing;
use std::alloc::{Allocator, Global};
use step_core::{Core, RunError, run};
use traces::Turn;

/// An allocator that refuses one growth, and counts.
type Heap<'a> = &'a Refusing<Global>;

/// More growths than a call wants.
const MOST: u64 = 1_000;

/// An operation of actor 0, and how many steps it takes.
type Operation = (Ask, u32);

/// Before which turns an insert of an absent key and an upsert of the same key want memory: where the trace has to grow, and for each
/// record that is placed, at 8 and 20.
const WANTS: [u64; 5] = [0, 4, 8, 16, 20];

/// The turn that begins an operation, or one of its steps.
fn turn_of(ask: Option<Ask>) -> Turn {
    match ask {
        Some(ask) => Turn::Begin(0, ask.command()),
        None => Turn::Step(0),
    }
}

/// Why no core opens where a growth is refused.
fn open_error<'a>(heap: Heap<'a>, limits: Limits, growth: u64) -> Option<OpenError> {
    heap.set(growth);
    Core::<Heap<'a>>::open(heap, limits).err()
}

/// Whether each growth that is refused is told as want of memory, one at least, up to where there is none more.
fn opens_at_last(heap: Heap<'_>, limits: Limits) -> bool {
    for growth in 0..MOST {
        match open_error(heap, limits, growth) {
            None => return growth > 0,
            Some(OpenError::Memory) => {}
            Some(_) => return false,
        }
    }
    false
}

/// Why the turns are not taken where a growth is refused.
fn run_error<'a>(heap: Heap<'a>, limits: Limits, turns: &[Turn], growth: u64) -> Option<RunError> {
    heap.set(growth);
    run::<Heap<'a>>(heap, limits, turns).err()
}

/// Whether memory is lacking before these turns, one after another, as one growth after another is refused, and at last before none.
fn lacks(heap: Heap<'_>, limits: Limits, turns: &[Turn]) -> bool {
    let mut lacks = WANTS.as_slice().iter();
    let mut last = None;
    for growth in 0..MOST {
        let error = run_error(heap, limits, turns, growth);
        if error != last && error != lacks.next().map(|turn| RunError::Memory(*turn)) {
            return false;
        }
        last = error;
    }
    last.is_none()
}

/// Whether a core opens at last.
fn opens(alloc: Global) -> bool {
    match Limits::new(2, 64, 64, 1) {
        Ok(limits) => opens_at_last(&Refusing::new(alloc), limits),
        Err(_) => false,
    }
}

/// Adds the turns of an operation; says whether there was memory.
fn adds_turns(turns: &mut Vec<Turn>, (ask, steps): Operation) -> bool {
    let mut ask = Some(ask);
    for _ in 0..=steps {
        if turns.push(turn_of(ask)).is_err() {
            return false;
        }
        ask = None;
    }
    true
}

/// Whether memory is lacking so for these turns of one actor.
fn lack(alloc: Global, turns: &[Turn]) -> bool {
    match Limits::new(1, 64, 64, 1) {
        Ok(limits) => lacks(&Refusing::new(alloc), limits, turns),
        Err(_) => false,
    }
}

/// Whether it is for the updates.
fn updates_lack(alloc: Global) -> bool {
    let mut turns = Vec::new(alloc);
    adds_turns(&mut turns, (Ask::Insert(1), 10))
        && adds_turns(&mut turns, (Ask::Upsert(1, 1), 11))
        && lack(alloc, turns.as_slice())
}

#[test]
fn open_and_run_want_memory(rt: HostRuntime) {
    assert!(rt; opens(rt.alloc()), "a core is opened");
    assert!(rt; updates_lack(rt.alloc()), "updates");
}

/// Whether the twin lists these pairs.
fn lists(alloc: Global, twin: &Core, pairs: &[(Key, Value)]) -> bool {
    match twin.listing(alloc) {
        Ok(same) => same.as_slice() == pairs,
        Err(_) => false,
    }
}

/// Whether both cores list the same pairs.
fn list_alike(alloc: Global, core: &Core<Heap<'_>>, twin: &Core) -> bool {
    match core.listing(alloc) {
        Ok(pairs) => lists(alloc, twin, pairs.as_slice()),
        Err(_) => false,
    }
}

/// Whether both cores answer the same to what can be asked of them.
fn are_alike(alloc: Global, core: &Core<Heap<'_>>, twin: &Core) -> bool {
    core.turns() == twin.turns()
        && core.is_busy(0) == twin.is_busy(0)
        && list_alike(alloc, core, twin)
}

/// Whether a turn is refused for want of memory while this growth is; if not, the twin takes it alike, and fewer growths were wanted.
/// None where anything else comes.
fn is_refused<'a>(
    heap: Heap<'a>,
    core: &mut Core<Heap<'a>>,
    twin: &mut Core,
    ask: Option<Ask>,
    growth: u64,
) -> Option<bool> {
    heap.set(growth);
    let event = core.turn(turn_of(ask));
    let left = heap.left();
    heap.set(u64::MAX);
    if event == Err(RunError::Memory(twin.turns())) {
        return Some(true);
    }
    (event == twin.turn(turn_of(ask)) && left == 0).then_some(false)
}

/// How many growths a turn wants: each of them is refused in turn, for want of memory, and the core is like its twin still; then both take
/// the turn alike. None where anything else comes.
fn growths<'a>(
    alloc: Global,
    heap: Heap<'a>,
    core: &mut Core<Heap<'a>>,
    twin: &mut Core,
    ask: Option<Ask>,
) -> Option<u64> {
    for growth in 0..MOST {
        let refused = is_refused(heap, core, twin, ask, growth)?;
        if !are_alike(alloc, core, twin) {
            return None;
        }
        if !refused {
            return Some(growth);
        }
    }
    None
}

/// Whether the turns of an operation each want memory exactly where it is said.
fn want_memory<'a>(
    alloc: Global,
    heap: Heap<'a>,
    core: &mut Core<Heap<'a>>,
    twin: &mut Core,
    (ask, steps): Operation,
    wants: &[u64],
) -> bool {
    let mut ask = Some(ask);
    for _ in 0..=steps {
        let wanted = wants.contains(&core.turns());
        match growths(alloc, heap, core, twin, ask) {
            Some(growths) if (growths > 0) == wanted => {}
            _ => return false,
        }
        ask = None;
    }
    true
}

/// Whether a core takes the turns of an operation.
fn takes<A: Allocator + Copy>(core: &mut Core<A>, (ask, steps): Operation) -> bool {
    let mut ask = Some(ask);
    for _ in 0..=steps {
        if core.turn(turn_of(ask)).is_err() {
            return false;
        }
        ask = None;
    }
    true
}

/// Whether it takes the turns of inserts of the keys from 1 on, of which each has so many steps.
fn inserts<A: Allocator + Copy>(core: &mut Core<A>, steps: &[u32]) -> bool {
    let mut number = 1u32;
    for steps in steps {
        if !takes(core, (Ask::Insert(number), *steps)) {
            return false;
        }
        number = number.wrapping_add(1);
    }
    true
}

/// Whether an operation, once the first inserts are taken, wants memory exactly where it is said.
fn want_behind<'a>(
    alloc: Global,
    heap: Heap<'a>,
    core: &mut Core<Heap<'a>>,
    twin: &mut Core,
    first: &[u32],
    operation: Operation,
    wants: &[u64],
) -> bool {
    inserts(core, first)
        && inserts(twin, first)
        && want_memory(alloc, heap, core, twin, operation, wants)
}

/// Whether it does on a new core, beside a twin.
fn want_beside<'a>(
    alloc: Global,
    heap: Heap<'a>,
    twin: &mut Core,
    first: &[u32],
    operation: Operation,
    wants: &[u64],
) -> bool {
    match Core::<Heap<'a>>::open(heap, *twin.limits()) {
        Ok(mut core) => {
            let right = want_behind(alloc, heap, &mut core, twin, first, operation, wants);
            let_go(core);
            right
        }
        Err(_) => false,
    }
}

/// After how many turns an operation is done that wants memory exactly where it is said; 0 where anything else comes.
fn taken(alloc: Global, first: &[u32], operation: Operation, wants: &[u64]) -> u64 {
    match opened(alloc, 1, 64, 64, 1) {
        Some(mut twin) => {
            let heap = Refusing::new(alloc);
            let right = want_beside(alloc, &heap, &mut twin, first, operation, wants);
            let turns = twin.turns();
            let_go(twin);
            if right { turns } else { 0 }
        }
        None => 0,
    }
}

/// Before which turns a cursor page behind one insert wants memory: where the trace has to grow, at 16, and for its pairs, at its
/// last step.
const PAGE_WANTS: [u64; 2] = [16, 18];

/// The steps of sixteen inserts in the order of their keys. The ninth consolidates the page, and the tenth first frees the rows of the old chain, by
/// three steps: read epoch, retire, a word of rows.
const INSERTS: [u32; 16] = [
    10, 11, 12, 13, 14, 15, 16, 17, 25, 14, 12, 13, 14, 15, 16, 17,
];

/// Before which turns an insert behind these wants memory, that consolidates the page, splits it, and puts a root over it: where
/// the trace has to grow, at 250 for the seventeenth command and its reply, and at 256, and for each of the five records that are placed.
const SPLIT_WANTS: [u64; 7] = [250, 256, 266, 277, 279, 291, 306];

#[test]
fn turns_want_memory(rt: HostRuntime) {
    let alloc = rt.alloc();
    let taken = [
        taken(alloc, &[], (Ask::Insert(1), 10), &WANTS),
        taken(alloc, &[10], (Ask::Upsert(1, 1), 11), &WANTS),
        taken(alloc, &[10], (Ask::Page(1), 7), &PAGE_WANTS),
        taken(alloc, &INSERTS, (Ask::Insert(17), 58), &SPLIT_WANTS),
    ];
    assert!(rt; taken == [11, 23, 19, 309], "{taken:?}");
}

/// Whether the core lists these pairs, or lacks memory for it; none where anything else comes.
fn is_listed(heap: Heap<'_>, core: &Core, pairs: &[(Key, Value)]) -> Option<bool> {
    match core.listing::<Heap<'_>>(heap) {
        Ok(listed) => (listed.as_slice() == pairs).then_some(true),
        Err(error) => (error == RunError::Memory(core.turns())).then_some(false),
    }
}

/// Whether each growth of a listing that is refused is told as want of memory, one at least, up to where there is none more and the
/// pairs are listed as if none had been refused.
fn lists_at_last(heap: Heap<'_>, core: &Core, pairs: &[(Key, Value)]) -> bool {
    for growth in 0..MOST {
        heap.set(growth);
        match is_listed(heap, core, pairs) {
            Some(true) => return heap.left() == 0 && growth > 0,
            Some(false) => {}
            None => return false,
        }
    }
    false
}

/// Whether the listing of sixteen pairs is refused so.
fn sixteen_lack(alloc: Global, core: &Core) -> bool {
    let heap = Refusing::new(alloc);
    match core.listing(alloc) {
        Ok(pairs) => pairs.len() == 16 && lists_at_last(&heap, core, pairs.as_slice()),
        Err(_) => false,
    }
}

/// Whether the listing of a new core is refused so, once the pairs are inserted.
fn listing_lacks(alloc: Global) -> bool {
    match opened(alloc, 1, 64, 64, 1) {
        Some(mut core) => {
            let lacks = inserts(&mut core, &INSERTS) && sixteen_lack(alloc, &core);
            let_go(core);
            lacks
        }
        None => false,
    }
}

#[test]
fn listing_wants_memory(rt: HostRuntime) {
    assert!(rt; listing_lacks(rt.alloc()), "a listing of sixteen pairs");
}
