//! A whole run that draws.
ghost use Rattle.std.specs.Prelude.{◌≡◌, ◌^◌, ◌≤◌, ◌⊎◌, ◌↔◌, ℕ, List, [], true, false, IfOk};
ghost use Rattle.std.specs.Io.KnownBytes.{Consumes};
ghost use Rattle.byte_streams.specs.Output.{Prints};
ghost use Rattle.bw_shell.specs.Turns.{trace_of};
ghost use Rattle.drawing.specs.Drawings.{IsDrawingOf, IsDrawn, IsDrawnBehind, IsShown, IsWholeDrawing};

use crate::discard::Discard;
use crate::elements::show_document;
use bw_model::Limits;
use bw_shell::{Refusal, Woven, show_lone_refusal, show_refused, weave_core};
use byte_streams::{Input, Output, outputs_add_up};
use std::alloc::{AllocError, Global};
use step_core::Core;
use tree_picture::{Picture, Scene, documents_are_well_formed, picture};

/// What stands in a core, as a picture; refused for want of memory alone.
pub fn picture_of(alloc: Global, core: &Core) -> Result<Picture, AllocError>
    ensures { IfOk result (λ picture. IsShown (trace_of core.now) core.now.demand.wanted picture.width picture.height picture.shapes.items) }
{
    let scene = Scene::of(alloc, core.limits(), core.memory())?;
    picture(alloc, &scene, core)
}

/// Shows the picture of a core, or that there was no memory for it, and answers whether there was.
fn show_core<O: Output>(alloc: Global, core: &Core, out: &mut O) -> bool
    ensures { (text : List ℕ) × IsDrawn (trace_of core.now) core.now.demand.wanted text result × Prints (O.state out.old) (O.state out.new) text }
{
    documents_are_well_formed();
    match picture_of(alloc, core) {
        Ok(picture) => {
            show_document(out, &picture);
            true
        }
        Err(_) => {
            show_lone_refusal(out, Refusal::Memory);
            false
        }
    }
}

/// Shows what is written of lines that were run, and answers whether that is a picture.
fn show_woven<O: Output>(alloc: Global, woven: &Woven, read_failed: bool, out: &mut O) -> bool
    ensures { (text : List ℕ) × IsDrawnBehind woven.now.refused read_failed (trace_of woven.now.core) woven.now.core.demand.wanted text result
        × Prints (O.state out.old) (O.state out.new) text }
{
    outputs_add_up();
    match woven.refused {
        Some(line) => {
            show_refused(out, line);
            false
        }
        None if read_failed => false,
        None => show_core(alloc, &woven.core, out),
    }
}

/// Reads lines and runs them, shows what is written of that, and answers whether it is a picture.
fn show_run<I: Input, O: Output>(alloc: Global, limits: Limits, input: &mut I, out: &mut O) -> bool
    requires sound_in { I.failed input.old ≡ false }
    requires bounded { I.reads_left input.old ≤ 2 ^ 31 }
    ensures { (taken : List ℕ) × (text : List ℕ) × Consumes (I.remaining input.old) (I.remaining input.new) taken
        × IsDrawingOf limits (I.remaining input.new) taken (I.failed input.new) text result × Prints (O.state out.old) (O.state out.new) text }
{
    let mut unseen = Discard;
    let Some(woven) = weave_core(alloc, limits, input, &mut unseen) else {
        show_lone_refusal(out, Refusal::NotOpened);
        return false;
    };
    woven.core.linearized();
    show_woven(alloc, &woven, input.has_failed(), out)
}

/// The status of a run: 0 where a picture was shown and no write failed, else 1.
fn status_of(drawn: bool, write_failed: bool) -> u8
    ensures zero { (result ≡ 0) ↔ ((drawn ≡ true) × (write_failed ≡ false)) }
    ensures one { (result ≡ 0) ⊎ (result ≡ 1) }
{
    u8::from(!drawn || write_failed)
}

/// Reads lines and runs them as `weave` does, and where the input ends draws the tree as it then stands. Where a line is refused, the
/// refused line is all that is written; after a failed read nothing is. Answers the status: 0 where a picture was written, else 1.
pub fn draw<I: Input, O: Output>(alloc: Global, limits: Limits, input: &mut I, out: &mut O) -> u8
    requires sound_in { I.failed input.old ≡ false }
    requires bounded { I.reads_left input.old ≤ 2 ^ 31 }
    requires sound_out { (O.state out.old).failed ≡ false }
    requires fresh { (O.state out.old).held ≡ [] }
    ensures { IsWholeDrawing limits (I.remaining input.old) (I.remaining input.new) (I.failed input.new)
        (O.state out.old).contents (O.state out.new).contents (O.state out.new).failed result }
{
    outputs_add_up();
    let drawn = show_run(alloc, limits, input, out);
    out.finish();
    status_of(drawn, out.has_failed())
}
