//! Races over streams that give and take few bytes at a time, and fail.

use crate::breaking::{Breaking, NEVER, Ran};
use crate::choppy::Choppy;
use bw_model::Limits;
use byte_streams::{Reader, Writer};
use race::race;
use std::alloc::Global;
use std::sync::Wait;
use std::thread::Threads;

pub fn run_into<R: Threads + Wait + Sync>(
    rt: &R,
    alloc: Global,
    limits: Limits,
    input: Choppy<'_>,
    out: Breaking,
) -> Ran {
    let mut reader = Reader::new(input);
    let mut writer = Writer::new(out);
    let status = race(rt, alloc, limits, &mut reader, &mut writer);
    Ran::into(status, writer.inner)
}

/// Whether a race in which nothing fails prints just this, and ends with the status.
pub fn prints<R: Threads + Wait + Sync>(
    rt: &R,
    alloc: Global,
    limits: Limits,
    input: &[u8],
    (output, status): (&[u8], u8),
) -> bool {
    let input = Choppy::sound(input, 4096);
    run_into(
        rt,
        alloc,
        limits,
        input,
        Breaking::taking(alloc, 4096, NEVER),
    )
    .is(output, status)
}

/// Adds all parts to a text, and answers whether there was memory for them.
pub fn add_parts(text: &mut Vec<u8>, parts: &[&[u8]]) -> bool {
    for part in parts {
        if text.extend_from_slice(part).is_err() {
            return false;
        }
    }
    true
}
