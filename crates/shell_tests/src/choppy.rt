//! A stream to read from.

use crate::breaking::NEVER;
use std::io;
use std::io::{ErrorKind, Read};

/// Gives a few bytes at a time, and fails at one read, in this manner.
#[derive(Drop)]
pub struct Choppy<'a> {
    pub bytes: &'a [u8],
    pub size: usize,
    pub before_fault: u32,
    pub fault: ErrorKind,
}

impl Choppy<'_> {
    /// Bytes that never fail.
    pub fn sound(bytes: &[u8], size: usize) -> Choppy<'_> {
        Choppy {
            bytes,
            size,
            before_fault: NEVER,
            fault: ErrorKind::Other,
        }
    }
}

impl Read for Choppy<'_> {
    fn read(&mut self, buf: &mut [u8]) -> io::Result<usize> {
        if self.before_fault == 0 {
            self.before_fault = NEVER;
            return Err(io::Error::from(self.fault));
        }
        self.before_fault -= 1;
        let n = self.size.min(buf.len()).min(self.bytes.len());
        let (front, back) = self.bytes.split_at(n);
        buf[..n].copy_from_slice(front);
        self.bytes = back;
        Ok(n)
    }
}
