//! How far a long input has been read.

use crate::breaking::{Breaking, NEVER};
use crate::choppy::Choppy;
use crate::runs::joined;
use byte_streams::{Input, Reader, Watched};
use std::alloc::Global;
use std::test::Fail;

/// What a terminal shows of so many KiB that are read to their end, in pieces of 64 KiB.
fn shown(alloc: Global, kibibytes: u32) -> Result<Vec<u8>, Fail> {
    let input = joined(alloc, &[(&[0; 1024], kibibytes)])?;
    let mut terminal = Breaking::taking(alloc, 4096, NEVER);
    let mut piece = vec![in alloc; 0; 65_536]?;
    let inner = Choppy::sound(input.as_slice(), 65_536);
    let mut reader = Reader::new(Watched::new(inner, Some(&mut terminal)));
    for _ in 0..100 {
        match reader.read(piece.as_mut_slice()) {
            Ok(0) => break,
            Ok(_) => {}
            Err(_) => return Err(Fail::from("a read failed")),
        }
    }
    Ok(terminal.held)
}

#[test]
fn each_mebibyte_is_shown(rt: HostRuntime) -> Result<(), Fail> {
    let alloc = rt.alloc();
    let short = shown(alloc, 1000)?;
    assert!(rt; short.is_empty(), "nothing is shown of a short input");
    let long = shown(alloc, 2500)?;
    assert_eq!(rt;
        long.as_slice(),
        b"\r1 MiB read\r2 MiB read\n".as_slice(),
        "of a long input"
    );
    Ok(())
}
