//! The frames of a film.
ghost use Rattle.std.specs.Prelude.{◌≡◌, ◌++◌, ◌+◌, ◌^◌, ◌<◌, ℕ, [], List, IfSome, MatchBool, None, OnOk, if◌then◌else◌, length, option_copied, true};
ghost use Rattle.byte_streams.specs.Output.{Prints};
ghost use Rattle.bw_shell.specs.Turns.{trace_of};
ghost use Rattle.drawing.specs.Drawings.{IsShown};
ghost use Rattle.listing.specs.Listed.{IsListing};
ghost use Rattle.step_core.specs.Turns.{AddsTurn, Core as CoreSeen};
ghost use Rattle.step_core.specs.declared.event.Event.{Event as EventSeen};
ghost use Rattle.traces.specs.declared.trace.Turn.{Turn as TurnSeen};
ghost use Rattle.tree_picture.specs.Elements.{document_text};
ghost use Rattle.bw_model.specs.Log.{Update as UpdateSeen};
ghost use Rattle.linearization.specs.Points.{updates_by};
ghost use Rattle.traces.specs.trace.Trace.{command_of};
ghost use Rattle.filming.specs.Films.{AreFilmed, IsFilmed};
ghost use Rattle.filming.specs.Logs.{is_update};
ghost use Rattle.filming.specs.Pages.{frame_text};
ghost use Rattle.filming.specs.Places.{place_text};

use crate::logs::{is_update, show_log, update_by};
use crate::maps::{show_change, show_map};
use crate::page::{show_frame_begin, show_frame_end, show_reason};
use crate::places::show_place;
use crate::turns::next_frame;
use bw_model::{Command, Key, Update, Value};
use byte_streams::{Output, outputs_add_up};
use drawing::{picture_of, show_document};
use std::alloc::{AllocError, Global};
use step_core::{Core, Event};
use traces::Turn;
use tree_picture::{Picture, StepName, documents_are_well_formed, found_words, lock_reason};

/// What stands after a step: the picture, and the pairs of the map.
#[derive(Drop)]
struct After {
    picture: Picture,
    pairs: Vec<(Key, Value)>,
}

/// What stands in a core; none for want of memory alone.
fn after_of(alloc: Global, core: &Core) -> Option<After>
    ensures pairs { IfSome result (λ after. IsListing core.now.limits core.now.entries after.pairs.items) }
    ensures picture { IfSome result (λ after. IsShown (trace_of core.now) core.now.demand.wanted after.picture.width after.picture.height after.picture.shapes.items) }
{
    let Ok(picture) = picture_of(alloc, core) else {
        return None;
    };
    let Ok(pairs) = core.listing(alloc) else {
        return None;
    };
    Some(After { picture, pairs })
}

/// What a step came to: its name, what it found, why it needs no lock, what its operation was asked, what the step told, and the log behind it.
#[derive(Clone, Copy)]
struct Taken<'a> {
    words: &'a [u8],
    found: &'a [u8],
    reason: &'a [u8],
    command: Option<&'a Command>,
    event: &'a Event,
    log: &'a [Update],
}

/// Shows the frame of a step, of the pairs before it and what stands after it.
fn show_frame<O: Output>(
    out: &mut O,
    number: u64,
    taken: Taken<'_>,
    before: &[(Key, Value)],
    after: &After,
)
    ensures { Prints (O.state out.old) (O.state out.new) (frame_text number taken.entry.words.now taken.entry.found.now taken.entry.reason.now before.now
        (place_text taken.entry.log.now (option_copied taken.entry.command) taken.entry.event.now)
        (document_text after.now.picture.width after.now.picture.height after.now.picture.title after.now.picture.description after.now.picture.shapes.items)
        after.now.pairs.items taken.entry.log.now) }
{
    show_frame_begin(out, number, taken.words, taken.found);
    show_change(out, before, after.pairs.as_slice());
    show_reason(out, taken.reason);
    show_place(out, taken.log, taken.command, taken.event);
    show_document(out, &after.picture);
    show_map(out, after.pairs.as_slice());
    show_log(out, taken.log);
    show_frame_end(out);
}

/// The command of an actor's operation, if there is such an actor, and it has one.
fn asked(core: &Core, number: u8) -> Option<Option<Command>>
    ensures { IfSome result (λ command. command ≡ command_of core.now.entries number) }
{
    let Some(actor) = core.actor(number) else {
        return None;
    };
    match actor.command() {
        Some(command) => Some(Some(command.copied())),
        None => Some(None),
    }
}

/// Adds the update of an actor's step to the log, if it makes one.
fn add_update(
    log: &mut Vec<Update>,
    actor: u8,
    command: Option<&Command>,
    event: &Event,
) -> Result<(), AllocError>
    ensures { OnOk result (log.new.items ≡ (if is_update event.now then log.old.items
        ++ updates_by actor (option_copied command.entry) log.old.items else log.old.items)) }
{
    if !is_update(event) {
        return Ok(());
    }
    if let Some(update) = update_by(actor, command, log.as_slice()) {
        log.push(update)?;
    }
    Ok(())
}

/// Takes a step of an actor, and shows its frame. Answers whether there was memory for both.
fn film_step<O: Output>(
    alloc: Global,
    core: &mut Core,
    log: &mut Vec<Update>,
    number: u64,
    actor: u8,
    out: &mut O,
) -> bool
    ensures { MatchBool result ((event : EventSeen) × (text : List ℕ) × AddsTurn core.old (TurnSeen.Step actor) event core.new
        × IsFilmed number core.old (TurnSeen.Step actor) event log.old.items core.new log.new.items text × Prints (O.state out.old) (O.state out.new) text)
        (Prints (O.state out.old) (O.state out.new) []) }
{
    outputs_add_up();
    documents_are_well_formed();
    let name = StepName::of(core, actor);
    let Some(command) = asked(core, actor) else {
        return false;
    };
    let Ok(before) = core.listing(alloc) else {
        return false;
    };
    let Ok(event) = core.turn(Turn::Step(actor)) else {
        return false;
    };
    let Ok(()) = add_update(log, actor, command.as_ref(), &event) else {
        return false;
    };
    let Some(after) = after_of(alloc, core) else {
        return false;
    };
    let words = name.told(&event);
    let found = found_words(core);
    let taken = Taken {
        words: words.as_slice(),
        found: found.as_slice(),
        reason: lock_reason(core, &event),
        command: command.as_ref(),
        event: &event,
        log: log.as_slice(),
    };
    show_frame(out, number, taken, before.as_slice(), &after);
    true
}

/// Takes a turn, and shows its frame, if it takes a step. Answers whether there was memory for both.
fn film_turn<O: Output>(
    alloc: Global,
    core: &mut Core,
    log: &mut Vec<Update>,
    number: u64,
    turn: &Turn,
    out: &mut O,
) -> bool
    ensures { MatchBool result ((event : EventSeen) × (text : List ℕ) × AddsTurn core.old turn.now event core.new
        × IsFilmed number core.old turn.now event log.old.items core.new log.new.items text × Prints (O.state out.old) (O.state out.new) text)
        (Prints (O.state out.old) (O.state out.new) []) }
{
    outputs_add_up();
    match turn {
        Turn::Begin(_, _) => core.turn(turn.copied()).is_ok(),
        Turn::Step(actor) => film_step(alloc, core, log, number, *actor, out),
    }
}

/// Takes the turns one after another, and shows the frame of each that takes a step. Ends early where there is no memory for a turn or for
/// its frame, and answers whether all were taken.
pub(crate) fn film_turns<O: Output>(
    alloc: Global,
    core: &mut Core,
    turns: &[Turn],
    out: &mut O,
) -> bool
    requires { length turns.now < 2 ^ 63 }
    ensures { (front back : List TurnSeen) × (left : CoreSeen) × (log : List UpdateSeen) × (text : List ℕ) × (turns.now ≡ front ++ back)
        × AreFilmed 1 core.old [] front left log text × Prints (O.state out.old) (O.state out.new) text × (result ≡ true → back ≡ []) }
{
    outputs_add_up();
    let mut number = 1;
    let mut log = Vec::new(alloc);
    for turn in turns {
        if !film_turn(alloc, core, &mut log, number, turn, out) {
            return false;
        }
        number = next_frame(number, turn);
    }
    true
}
