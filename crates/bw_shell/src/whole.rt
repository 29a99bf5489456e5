//! A whole run.

ghost use Rattle.std.specs.Prelude.{◌≡◌, ◌≤◌, ◌^◌, ◌⊎◌, ◌↔◌, [], false, IfSome, None};
ghost use Rattle.bw_shell.specs.Turns.{opening_trace, trace_of};
ghost use Rattle.bw_shell.specs.Weave.{HasRun, IsWholeRun};

use crate::pieces::{Weaver, feed};
use crate::refusal::{Refusal, RefusedLine};
use crate::run::run_line;
use crate::texts::{show_last_line, show_lone_refusal};
use arrayvec::ArrayVec;
use bw_model::Limits;
use byte_streams::{Input, Output};
use shell_lines::Language;
use std::alloc::Global;
use step_core::Core;

// Reads to the end of the input, or as far as it goes, and returns the line that was refused, if one was. All replies that are due are
// written before each read: whoever waits for them may be whoever writes the next line.
fn run<I: Input, O: Output>(
    alloc: Global,
    language: Language,
    weaver: &mut Weaver,
    input: &mut I,
    out: &mut O,
) -> Option<RefusedLine>
    requires sound_in { I.failed input.old ≡ false }
    requires sound_out { (O.state out.old).failed ≡ false }
    requires bounded { I.reads_left input.old ≤ 2 ^ 31 }
    requires first { weaver.old.number ≡ 1 }
    requires empty { weaver.old.part.items ≡ [] }
    ensures { HasRun language (trace_of weaver.old.core) (I.remaining input.old) (I.remaining input.new) (I.failed input.new)
        (O.state out.old) (O.state out.new) (trace_of weaver.new.core) result }
{
    let mut bytes = [0u8; 4096];
    'reads: loop {
        match input.read(&mut bytes) {
            Err(_) => return None,
            Ok(n) => {
                if n == 0 {
                    break;
                }
                if let Some(line) = feed(alloc, language, weaver, bytes.split_at(n).0, out) {
                    return Some(line);
                }
                out.finish();
                if out.has_failed() {
                    return None;
                }
            }
        }
    }
    if weaver.part.is_empty() {
        return None;
    }
    run_line(
        alloc,
        language,
        &mut weaver.core,
        weaver.number,
        weaver.part.as_slice(),
        out,
    )
}

/// A core on which lines were run.
#[derive(Drop)]
pub struct Woven {
    pub core: Core,
    /// The line that was refused, if one was.
    pub refused: Option<RefusedLine>,
}

/// Reads lines, runs them turn by turn on a core of these limits, as `weave` does, and gives the core away. What the lines answer is
/// shown, but neither the refused line nor the finish of the writer. None where memory for the core is refused; then nothing is read or shown.
pub fn weave_core<I: Input, O: Output>(
    alloc: Global,
    limits: Limits,
    input: &mut I,
    out: &mut O,
) -> Option<Woven>
    requires sound_in { I.failed input.old ≡ false }
    requires bounded { I.reads_left input.old ≤ 2 ^ 31 }
    requires sound_out { (O.state out.old).failed ≡ false }
    ensures ran { IfSome result (λ woven. HasRun Language.Weave (opening_trace limits) (I.remaining input.old) (I.remaining input.new) (I.failed input.new)
        (O.state out.old) (O.state out.new) (trace_of woven.core) woven.refused) }
    ensures none { result ≡ None → (input.new ≡ input.old) × (out.new ≡ out.old) }
{
    let Ok(core) = Core::open(alloc, limits) else {
        return None;
    };
    let mut weaver = Weaver {
        core,
        number: 1,
        part: ArrayVec::new(),
    };
    let refused = run(alloc, Language::Weave, &mut weaver, input, out);
    let Weaver { core, .. } = weaver;
    Some(Woven { core, refused })
}

/// The status of a run: 0 where nothing was refused and no read or write failed, else 1.
pub fn status(refused: bool, read_failed: bool, write_failed: bool) -> u8
    ensures zero { (result ≡ 0) ↔ ((read_failed ≡ false) × (write_failed ≡ false) × (refused ≡ false)) }
    ensures one { (result ≡ 0) ⊎ (result ≡ 1) }
{
    u8::from(refused || read_failed || write_failed)
}

// Reads lines of a language, runs them on a core of these limits, and writes a transcript.
fn run_program<I: Input, O: Output>(
    alloc: Global,
    language: Language,
    limits: Limits,
    input: &mut I,
    out: &mut O,
) -> u8
    requires sound_in { I.failed input.old ≡ false }
    requires bounded { I.reads_left input.old ≤ 2 ^ 31 }
    requires sound_out { (O.state out.old).failed ≡ false }
    requires fresh { (O.state out.old).held ≡ [] }
    ensures { IsWholeRun language limits (I.remaining input.old) (I.remaining input.new) (I.failed input.new)
        (O.state out.old).contents (O.state out.new).contents (O.state out.new).failed result }
{
    let mut weaver = match Core::open(alloc, limits) {
        Ok(core) => Weaver {
            core,
            number: 1,
            part: ArrayVec::new(),
        },
        Err(_) => {
            show_lone_refusal(out, Refusal::NotOpened);
            out.finish();
            return 1;
        }
    };
    let refused = run(alloc, language, &mut weaver, input, out);
    weaver.core.linearized();
    show_last_line(out, refused);
    out.finish();
    status(refused.is_some(), input.has_failed(), out.has_failed())
}

/// Reads commands, runs each to its end by actor 0 of a core of these limits, and writes a transcript. Answers the status: 0
/// where no read or write failed and no line was refused, else 1.
pub fn script<I: Input, O: Output>(alloc: Global, limits: Limits, input: &mut I, out: &mut O) -> u8
    requires sound_in { I.failed input.old ≡ false }
    requires bounded { I.reads_left input.old ≤ 2 ^ 31 }
    requires sound_out { (O.state out.old).failed ≡ false }
    requires fresh { (O.state out.old).held ≡ [] }
    ensures { IsWholeRun Language.Script limits (I.remaining input.old) (I.remaining input.new) (I.failed input.new)
        (O.state out.old).contents (O.state out.new).contents (O.state out.new).failed result }
{
    run_program(alloc, Language::Script, limits, input, out)
}

/// Reads lines, runs them turn by turn on a core of these limits, and writes a transcript. Answers the status: 0 where no read
/// or write failed and no line was refused, else 1.
pub fn weave<I: Input, O: Output>(alloc: Global, limits: Limits, input: &mut I, out: &mut O) -> u8
    requires sound_in { I.failed input.old ≡ false }
    requires bounded { I.reads_left input.old ≤ 2 ^ 31 }
    requires sound_out { (O.state out.old).failed ≡ false }
    requires fresh { (O.state out.old).held ≡ [] }
    ensures { IsWholeRun Language.Weave limits (I.remaining input.old) (I.remaining input.new) (I.failed input.new)
        (O.state out.old).contents (O.state out.new).contents (O.state out.new).failed result }
{
    run_program(alloc, Language::Weave, limits, input, out)
}
