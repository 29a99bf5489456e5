//! The five programs, over any input and output.

ghost use Rattle.std.specs.Prelude.{◌≡◌, ◌≤◌, ◌^◌, ◌↔◌, [], IfSome, IsSome, None, false};
ghost use Rattle.shell_options.specs.Settings.{MayOpen};
ghost use Rattle.bwtree.specs.Runs.{HasRunProgram, IsProgramRun};

use bw_model::Limits;
use bw_shell::{script, weave};
use byte_streams::{Input, Output};
use drawing::draw;
use filming::film;
use race::race;
use shell_options::{Program, Settings};
use std::alloc::Global;
use std::sync::Wait;
use std::thread::Threads;

/// Runs the program that the settings name, on a tree of their limits, and answers the status: 0 where it did all that it was asked, else 1.
/// None where the limits aren't allowed, and then nothing is read or written. A race's threads are those of `threads`.
pub(crate) fn run_settings<R: Threads + Wait + Sync, I: Input, O: Output>(
    threads: &R,
    alloc: Global,
    settings: Settings,
    input: &mut I,
    out: &mut O,
) -> Option<u8>
    requires sound_in { I.failed input.old ≡ false }
    requires bounded { I.reads_left input.old ≤ 2 ^ 31 }
    requires sound_out { (O.state out.old).failed ≡ false }
    requires fresh { (O.state out.old).held ≡ [] }
    ensures some { IsSome result ↔ MayOpen settings }
    ensures runs { IfSome result (HasRunProgram settings (I.remaining input.old) (I.remaining input.new) (I.failed input.new)
        (O.state out.old).contents (O.state out.new).contents (O.state out.new).failed) }
    ensures none { result ≡ None → (I.remaining input.new ≡ I.remaining input.old) × (O.state out.new ≡ O.state out.old) }
{
    let Ok(limits) = settings.limits() else {
        return None;
    };
    let program = settings.program;
    Some(run_over(threads, alloc, program, limits, input, out))
}

/// Runs a program on a tree of these limits, and answers the status: 0 where it did all that it was asked, else 1. A race's threads are
/// those of `threads`.
fn run_over<R: Threads + Wait + Sync, I: Input, O: Output>(
    threads: &R,
    alloc: Global,
    program: Program,
    limits: Limits,
    input: &mut I,
    out: &mut O,
) -> u8
    requires sound_in { I.failed input.old ≡ false }
    requires bounded { I.reads_left input.old ≤ 2 ^ 31 }
    requires sound_out { (O.state out.old).failed ≡ false }
    requires fresh { (O.state out.old).held ≡ [] }
    ensures { IsProgramRun program limits (I.remaining input.old) (I.remaining input.new) (I.failed input.new)
        (O.state out.old).contents (O.state out.new).contents (O.state out.new).failed result }
{
    match program {
        Program::Script => script(alloc, limits, input, out),
        Program::Weave => weave(alloc, limits, input, out),
        Program::Draw => draw(alloc, limits, input, out),
        Program::Film => film(alloc, limits, input, out),
        Program::Race => race(threads, alloc, limits, input, out),
    }
}
