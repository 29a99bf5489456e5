//! Whole runs over streams that give and take few bytes at a time, and fail.

use crate::breaking::{Breaking, NEVER, Ran};
use crate::choppy::Choppy;
use bw_model::Limits;
use bw_shell::{script, weave};
use byte_streams::{Reader, Writer};
use shell_lines::Language;
use std::alloc::{AllocError, Global};
use std::process::Abort;

pub fn run_into(
    alloc: Global,
    language: Language,
    limits: Limits,
    input: Choppy<'_>,
    out: Breaking,
) -> Ran {
    let mut reader = Reader::new(input);
    let mut writer = Writer::new(out);
    let status = match language {
        Language::Script => script(alloc, limits, &mut reader, &mut writer),
        Language::Weave => weave(alloc, limits, &mut reader, &mut writer),
    };
    Ran::into(status, writer.inner)
}

// A run whose flush doesn't fail.
pub fn run(
    alloc: Global,
    language: Language,
    limits: Limits,
    input: Choppy<'_>,
    size: usize,
    before_fault: u32,
) -> Ran {
    let out = Breaking::taking(alloc, size, before_fault);
    run_into(alloc, language, limits, input, out)
}

// A run in which nothing fails.
pub fn whole(alloc: Global, language: Language, limits: Limits, input: &[u8]) -> Ran {
    let input = Choppy::sound(input, 4096);
    run(alloc, language, limits, input, 4096, NEVER)
}

pub fn limits(rt: &impl Abort) -> Limits {
    Limits::new(2, 64, 256, 1).expect(rt, "the default limits")
}

// Each input, its output and its status.
pub type Rows<'a> = &'a [(&'a [u8], &'a [u8], u8)];

pub fn agree(rt: &impl Abort, alloc: Global, language: Language, rows: Rows<'_>) {
    let limits = limits(rt);
    for (number, (input, output, status)) in rows.iter().enumerate() {
        let ran = whole(alloc, language, limits, input);
        prints(rt, number, ran, output, *status);
    }
}

// Adds a text so many times.
pub fn add(text: &mut Vec<u8>, part: &[u8], times: u32) -> Result<(), AllocError> {
    for _ in 0..times {
        text.extend_from_slice(part)?;
    }
    Ok(())
}

// The parts one behind another, each so many times.
pub fn joined(alloc: Global, parts: &[(&[u8], u32)]) -> Result<Vec<u8>, AllocError> {
    let mut text = Vec::new(alloc);
    for (part, times) in parts {
        add(&mut text, part, *times)?;
    }
    Ok(text)
}

// What the run of an input of this number is to have written, and its status.
pub fn prints(rt: &impl Abort, number: usize, ran: Ran, output: &[u8], status: u8) {
    assert_eq!(rt;
        (ran.output.as_slice(), ran.status),
        (output, status),
        "input {number}"
    );
}
