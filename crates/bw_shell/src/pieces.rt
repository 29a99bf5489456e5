//! Lines out of pieces.

ghost use Rattle.std.specs.Prelude.{◌≡◌, ◌+◌, ◌≤◌, ◌<◌, ◌^◌, length, false, None};
ghost use Rattle.arrayvec.specs.ArrayVec.{array_vec_len};
ghost use Rattle.bw_shell.specs.Lines.{HasNoFeed};
ghost use Rattle.bw_shell.specs.Turns.{trace_of};
ghost use Rattle.bw_shell.specs.Weave.{Feeds};

use crate::refusal::{Refusal, RefusedLine};
use crate::run::run_line;
use arrayvec::ArrayVec;
use byte_streams::Output;
use shell_lines::Language;
use std::alloc::Global;
use step_core::Core;

/// A run: the core, the number of the line in hand, and what has come of it.
#[derive(Drop)]
pub struct Weaver {
    pub core: Core,
    pub number: u64,
    pub part: ArrayVec<u8, 1025>,
}

/// Runs each line that ends among the bytes, up to the first one that is refused, which is answered.
pub fn feed<O: Output>(
    alloc: Global,
    language: Language,
    weaver: &mut Weaver,
    bytes: &[u8],
    out: &mut O,
) -> Option<RefusedLine>
    requires sound { (O.state out.old).failed ≡ false }
    requires part { HasNoFeed weaver.old.part.items }
    requires short { array_vec_len weaver.old.part ≤ 1024 }
    requires count { weaver.old.number + length bytes.now < 2 ^ 64 }
    ensures fed { Feeds language weaver.old.number (trace_of weaver.old.core) weaver.old.part.items bytes.now
        weaver.new.number (trace_of weaver.new.core) weaver.new.part.items (O.state out.old) (O.state out.new) result }
    ensures short { result ≡ None → array_vec_len weaver.new.part ≤ 1024 }
    ensures count { weaver.new.number ≤ weaver.old.number + length bytes.now }
{
    for b in bytes {
        if *b == b'\n' {
            if let Some(line) = run_line(
                alloc,
                language,
                &mut weaver.core,
                weaver.number,
                weaver.part.as_slice(),
                out,
            ) {
                return Some(line);
            }
            if out.has_failed() {
                return None;
            }
            weaver.number += 1;
            weaver.part.clear();
        } else {
            weaver.part.push(*b);
            if weaver.part.len() > 1024 {
                return Some(RefusedLine {
                    number: weaver.number,
                    refusal: Refusal::Malformed,
                });
            }
        }
    }
    None
}
