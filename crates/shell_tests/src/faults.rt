//! What faults say of themselves.

use bw_model::{BadLimits, OpenError, TooLong};
use bw_shell::Refusal;
use byte_streams::Failed;
use shell_lines::LineError;
use std::alloc::{AllocError, Global};
use std::fmt::Display;
use std::test::Fail;
use step_core::RunError;

/// The text of a fault.
fn text_of<T: Display>(alloc: Global, fault: &T) -> Result<String, AllocError> {
    format!(in alloc; "{fault}")
}

#[test]
fn faults_say_why(rt: HostRuntime) -> Result<(), Fail> {
    let alloc = rt.alloc();
    for (text, wanted) in [
        (text_of(alloc, &TooLong)?, "more than 64 bytes"),
        (text_of(alloc, &BadLimits)?, "a limit is outside its range"),
        (
            text_of(alloc, &OpenError::Memory)?,
            "no memory for the tree",
        ),
        (
            text_of(alloc, &RunError::NoActor(3))?,
            "turn 3: there is no such actor",
        ),
        (
            text_of(alloc, &LineError::Malformed)?,
            "the line is outside the grammar",
        ),
        (text_of(alloc, &Failed)?, "a read failed"),
        (
            text_of(alloc, &Refusal::Memory)?,
            "a growth of memory was refused",
        ),
    ] {
        assert_eq!(rt; text.as_str(), wanted, "{wanted}");
    }
    Ok(())
}
