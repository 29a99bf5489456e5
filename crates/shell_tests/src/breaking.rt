//! A stream to write to, and what a run that wrote to it has done.

use std::alloc::Global;
use std::io;
use std::io::{ErrorKind, Write};

/// More calls than a test makes.
pub const NEVER: u32 = 1_000_000;

/// Takes a few bytes at a time, and fails at one write or at the flush.
#[derive(Drop)]
pub struct Breaking {
    pub held: Vec<u8>,
    pub size: usize,
    /// How much had been written at each write that didn't fail.
    pub starts: Vec<usize>,
    pub before_fault: u32,
    pub flush_fails: bool,
}

impl Breaking {
    /// Takes so many bytes at a time, and has so many writes before it fails.
    pub fn taking(alloc: Global, size: usize, before_fault: u32) -> Breaking {
        Breaking {
            held: Vec::new(alloc),
            size,
            starts: Vec::new(alloc),
            before_fault,
            flush_fails: false,
        }
    }
}

impl Write for Breaking {
    fn write(&mut self, buf: &[u8]) -> io::Result<usize> {
        if self.before_fault == 0 {
            self.before_fault = NEVER;
            return Err(io::Error::from(ErrorKind::Other));
        }
        self.before_fault -= 1;
        self.starts.push(self.held.len())?;
        let n = self.size.min(buf.len());
        self.held.extend_from_slice(buf.split_at(n).0)?;
        Ok(n)
    }

    fn flush(&mut self) -> io::Result<()> {
        if self.flush_fails {
            return Err(io::Error::from(ErrorKind::Other));
        }
        Ok(())
    }
}

/// What a run answered, what it wrote, and how much of that stood before each write.
#[derive(Drop)]
pub struct Ran {
    pub status: u8,
    pub output: Vec<u8>,
    pub starts: Vec<usize>,
}

impl Ran {
    /// What was written to the stream by a run with this status.
    pub fn into(status: u8, out: Breaking) -> Ran {
        Ran {
            status,
            output: out.held,
            starts: out.starts,
        }
    }

    /// Whether it wrote just this, and ended with the status.
    pub fn is(&self, output: &[u8], status: u8) -> bool {
        self.output.as_slice() == output && self.status == status
    }
}
