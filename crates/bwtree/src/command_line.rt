//! A run of the program: from the words of a command line to an exit status.

ghost use Rattle.std.specs.Prelude.{◌≡◌, ◌⊎◌};
ghost use Rattle.shell_options.specs.Settings.{MayOpen};

use crate::programs::run_settings;
use bw_shell::Refusal;
use byte_streams::{Input, Output, Reader, Watched, Writer};
use shell_options::{OptionsError, Settings, options};
use std::alloc::Global;
use std::io::{ErrorKind, IsTerminal, Stderr};
use std::process::ExitCode;
use std::sync::Wait;
use std::thread::Threads;
use std::{env, io};

/// Runs the program that the words of the command line ask for, and returns the exit status. A race's threads are those of `threads`.
pub(crate) fn run<R: Threads + Wait + Sync>(rt: &HostRuntime, threads: &R) -> ExitCode {
    let alloc = rt.alloc();
    let words = match words(rt, alloc) {
        Ok(words) => words,
        Err(error) => return ExitCode::from(unread(rt, error.kind())),
    };
    match options(alloc, words.as_slice()) {
        Ok(settings) => ExitCode::from(started(rt, threads, settings)),
        Err(error) => ExitCode::from(refuse(rt, error)),
    }
}

/// The words of the command line, the program's name first.
fn words(rt: &HostRuntime, alloc: Global) -> io::Result<Vec<String>> {
    Ok(env::args(rt)?.collect(alloc)?)
}

/// Prints why the words can't be read, and returns the status.
fn unread(rt: &HostRuntime, kind: ErrorKind) -> u8 {
    if kind == ErrorKind::OutOfMemory {
        return no_memory(rt);
    }
    let _ = eprintln!(rt; "error: invalid UTF-8 was detected in one or more arguments");
    2
}

/// Prints that a growth of memory was refused, and returns the status.
fn no_memory(rt: &HostRuntime) -> u8 {
    let _ = println!(rt; "refused: {}", Refusal::Memory.code());
    1
}

/// Prints why the words are refused, or what they ask for, and returns the status.
fn refuse(rt: &HostRuntime, error: OptionsError) -> u8 {
    match error {
        OptionsError::Clap(error) => {
            let told = error.print(rt).is_ok();
            if error.use_stderr() {
                return 2;
            }
            if told {
                return 0;
            }
            unwritten(rt);
            1
        }
        OptionsError::Misplaced(option) => {
            let _ = eprintln!(rt; "error: {option}");
            2
        }
        OptionsError::Memory => no_memory(rt),
    }
}

/// Prints that standard output couldn't be written.
fn unwritten(rt: &HostRuntime) {
    let _ = eprintln!(rt; "error: standard output could not be written");
}

/// Prints which of standard input and standard output failed.
fn tell_failures(rt: &HostRuntime, read_failed: bool, write_failed: bool) {
    if read_failed {
        let _ = eprintln!(rt; "error: standard input could not be read");
    }
    if write_failed {
        unwritten(rt);
    }
}

/// Prints that a number of these settings is outside its range, and which.
fn tell_range(rt: &HostRuntime, settings: &Settings) {
    let _ = eprintln!(rt; "refused: {}", Refusal::BadLimits.code());
    if let Some(found) = settings.out_of_range() {
        let _ = eprintln!(rt; "error: {found}");
    }
}

/// Standard error, where that is a terminal at which someone waits: neither standard input nor standard output is one.
fn watching(rt: &HostRuntime) -> Option<Stderr> {
    let waits = rt.stderr().is_terminal()
        && !rt.stdin().is_terminal()
        && !rt.stdout().is_terminal();
    if waits { Some(rt.stderr()) } else { None }
}

/// Runs a program from standard input to standard output, and returns the status: 2 exactly where the limits aren't allowed. A race's
/// threads are those of `threads`.
fn started<R: Threads + Wait + Sync>(rt: &HostRuntime, threads: &R, settings: Settings) -> u8
    ensures allowed { MayOpen settings → (result ≡ 0) ⊎ (result ≡ 1) }
    ensures refused { (MayOpen settings → ⊥) → result ≡ 2 }
{
    let mut input = Reader::new(Watched::new(rt.reader(), watching(rt)));
    let mut output = Writer::new(io::writer(rt));
    let Some(status) = run_settings(threads, rt.alloc(), settings, &mut input, &mut output) else {
        tell_range(rt, &settings);
        return 2;
    };
    tell_failures(rt, input.has_failed(), output.has_failed());
    status
}
