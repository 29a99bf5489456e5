//! What an actor was asked, as it stands in the picture.

use crate::parts::count;
use crate::picture_runs::drawn;
use bw_model::Limits;
use std::alloc::{AllocError, Global};
use std::test::Fail;

/// A command of each kind.
const COMMANDS: [&[u8]; 10] = [
    b"get a",
    b"insert a 1",
    b"upsert a 1",
    b"delete a",
    b"delete_if a 1",
    b"swap a 1 2",
    b"add a 18446744073709551615",
    b"page a",
    b"back a",
    b"tidy a",
];

/// Whether the picture of a tree in which actor 0 begins the command shows it once, with the first step.
fn is_shown(alloc: Global, limits: Limits, command: &[u8]) -> Result<bool, AllocError> {
    let mut lines = Vec::new(alloc);
    let mut shown = Vec::new(alloc);
    for part in [b"begin 0 ".as_slice(), command, b"\n"] {
        lines.extend_from_slice(part)?;
    }
    for part in [
        b">".as_slice(),
        command,
        b"; wants to read the epoch</text>",
    ] {
        shown.extend_from_slice(part)?;
    }
    match drawn(alloc, limits, lines.as_slice()) {
        Some(text) => Ok(count(text.as_slice(), shown.as_slice()) == 1),
        None => Ok(false),
    }
}

#[test]
fn each_command_is_shown(rt: HostRuntime) -> Result<(), Fail> {
    let limits = Limits::new(2, 64, 256, 1)?;
    for (number, command) in COMMANDS.iter().enumerate() {
        assert!(rt; is_shown(rt.alloc(), limits, command)?, "command {number}");
    }
    Ok(())
}
