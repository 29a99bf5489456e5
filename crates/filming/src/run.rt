//! A whole run that films.
ghost use Rattle.std.specs.Prelude.{◌≡◌, ◌≤◌, ◌<◌, ◌^◌, ◌⊎◌, ◌↔◌, ℕ, List, [], map, true, false};
ghost use Rattle.std.specs.Io.KnownBytes.{Consumes};
ghost use Rattle.byte_streams.specs.Output.{Prints};
ghost use Rattle.bw_shell.specs.Turns.{trace_of};
ghost use Rattle.traces.specs.trace.Trace.{turn_of};
ghost use Rattle.filming.specs.Films.{AreTurnsFilmed, IsFilmOf, IsFilmedBehind, IsPage, IsWholeFilm, is_whole, last_frame, steps_in, too_long_text};

use crate::frames::film_turns;
use crate::page::{show_head, show_refusal_begin, show_refusal_end, show_tail};
use crate::turns::{steps_in, turns_of};
use bw_model::Limits;
use bw_shell::{
    Refusal, RefusedLine, Woven, show_lone_refusal, show_number, show_refused, weave_core,
};
use byte_streams::{Input, Output, outputs_add_up};
use drawing::Discard;
use std::alloc::Global;
use step_core::Core;
use traces::Turn;

/// How many frames a film has at most.
const MOST_FRAMES: u64 = 2000;

/// Shows the last frame: that there was no memory for more, or the refused line, if there is one.
fn show_last_frame<O: Output>(refused: Option<RefusedLine>, whole: bool, out: &mut O)
    ensures { Prints (O.state out.old) (O.state out.new) (last_frame refused whole) }
{
    outputs_add_up();
    if !whole {
        show_refusal_begin(out);
        show_lone_refusal(out, Refusal::Memory);
        show_refusal_end(out);
        return;
    }
    if let Some(line) = refused {
        show_refusal_begin(out);
        show_refused(out, line);
        show_refusal_end(out);
    }
}

/// Shows the page of the turns on a core that took none, and answers whether it has all their frames.
fn show_page<O: Output>(
    alloc: Global,
    core: Core,
    turns: &[Turn],
    refused: Option<RefusedLine>,
    out: &mut O,
) -> bool
    requires fresh { core.entries ≡ [] }
    requires few { steps_in turns.now ≤ 2000 }
    ensures { (text : List ℕ) × IsPage core.limits turns.now refused text result × Prints (O.state out.old) (O.state out.new) text }
{
    let mut core = core;
    show_head(out);
    let whole = film_turns(alloc, &mut core, turns, out);
    show_last_frame(refused, whole, out);
    show_tail(out);
    whole
}

/// Whether the film is one of all lines.
fn is_whole(refused: Option<RefusedLine>, whole: bool) -> bool
    ensures { result ≡ is_whole refused whole }
{
    match refused {
        None => whole,
        Some(_) => false,
    }
}

/// Shows that there are too many steps for a film.
fn show_too_long<O: Output>(out: &mut O, steps: u64)
    ensures { Prints (O.state out.old) (O.state out.new) (too_long_text steps) }
{
    out.show(b"refused: a film has a frame for each step, 2000 at most, and these lines take ");
    show_number(out, steps);
    out.show(b"\n");
}

/// Shows what is written of turns that were taken, and answers whether that is a film of all lines.
fn show_turns<O: Output>(
    alloc: Global,
    limits: Limits,
    turns: &[Turn],
    refused: Option<RefusedLine>,
    out: &mut O,
) -> bool
    ensures { (text : List ℕ) × AreTurnsFilmed limits turns.now refused text result × Prints (O.state out.old) (O.state out.new) text }
{
    let steps = steps_in(turns);
    if steps > MOST_FRAMES {
        show_too_long(out, steps);
        return false;
    }
    let Ok(core) = Core::open(alloc, limits) else {
        show_lone_refusal(out, Refusal::Memory);
        return false;
    };
    let whole = show_page(alloc, core, turns, refused, out);
    is_whole(refused, whole)
}

/// Shows what is written of the turns that a core took, and answers whether that is a film of all lines.
fn show_taken<O: Output>(
    alloc: Global,
    core: Core,
    refused: Option<RefusedLine>,
    out: &mut O,
) -> bool
    ensures { (text : List ℕ) × AreTurnsFilmed core.limits (map turn_of core.entries) refused text result × Prints (O.state out.old) (O.state out.new) text }
{
    let limits = *core.limits();
    let trace = core.into_trace();
    match turns_of(alloc, &trace) {
        Ok(turns) => show_turns(alloc, limits, turns.as_slice(), refused, out),
        Err(_) => {
            show_lone_refusal(out, Refusal::Memory);
            false
        }
    }
}

/// Shows what is written of lines that were run, and answers whether it is a film of all of them.
fn show_woven<O: Output>(alloc: Global, woven: Woven, read_failed: bool, out: &mut O) -> bool
    ensures { (text : List ℕ) × IsFilmedBehind woven.refused read_failed (trace_of woven.core) text result × Prints (O.state out.old) (O.state out.new) text }
{
    outputs_add_up();
    let Woven { core, refused } = woven;
    match refused {
        Some(line) => show_taken(alloc, core, Some(line), out),
        None if read_failed => false,
        None => show_taken(alloc, core, None, out),
    }
}

/// Reads lines and runs them, shows what is written of that, and answers whether it is a film of all of them.
fn show_run<I: Input, O: Output>(alloc: Global, limits: Limits, input: &mut I, out: &mut O) -> bool
    requires sound_in { I.failed input.old ≡ false }
    requires bounded { I.reads_left input.old ≤ 2 ^ 31 }
    ensures { (taken : List ℕ) × (text : List ℕ) × Consumes (I.remaining input.old) (I.remaining input.new) taken
        × IsFilmOf limits (I.remaining input.new) taken (I.failed input.new) text result × Prints (O.state out.old) (O.state out.new) text }
{
    let mut unseen = Discard;
    let Some(woven) = weave_core(alloc, limits, input, &mut unseen) else {
        show_lone_refusal(out, Refusal::NotOpened);
        return false;
    };
    woven.core.linearized();
    show_woven(alloc, woven, input.has_failed(), out)
}

/// The status of a run: 0 where a film of all lines was shown and no write failed, else 1.
fn status_of(filmed: bool, write_failed: bool) -> u8
    ensures zero { (result ≡ 0) ↔ ((filmed ≡ true) × (write_failed ≡ false)) }
    ensures one { (result ≡ 0) ⊎ (result ≡ 1) }
{
    u8::from(!filmed || write_failed)
}

/// Reads lines and runs them as `weave` does, and writes a page that shows the tree after each step. Lines of more than 2,000 steps are
/// refused before anything else is written. Where a line is refused, the frames before it are shown, and then the refused line; after a
/// failed read nothing is written. Answers the status: 0 where a film of all lines was written, else 1.
pub fn film<I: Input, O: Output>(alloc: Global, limits: Limits, input: &mut I, out: &mut O) -> u8
    requires sound_in { I.failed input.old ≡ false }
    requires bounded { I.reads_left input.old ≤ 2 ^ 31 }
    requires sound_out { (O.state out.old).failed ≡ false }
    requires fresh { (O.state out.old).held ≡ [] }
    ensures { IsWholeFilm limits (I.remaining input.old) (I.remaining input.new) (I.failed input.new)
        (O.state out.old).contents (O.state out.new).contents (O.state out.new).failed result }
{
    outputs_add_up();
    let filmed = show_run(alloc, limits, input, out);
    out.finish();
    status_of(filmed, out.has_failed())
}
