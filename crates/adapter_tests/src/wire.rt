//! A connection that serves badly.

use std::fs::File;
use std::io;
use std::io::{ErrorKind, Read, Write};

/// A connection that interrupts every other call, gives and takes two bytes a call, and ends after some
/// calls. It gives the letter `r`, and writes what it takes to a file.
#[derive(Drop)]
pub struct Wire {
    calls_left: u64,
    taken: File,
}

impl Wire {
    /// A wire that serves so many calls, and writes to a file of this path.
    pub fn new(rt: HostRuntime, calls_left: u64, path: &str) -> io::Result<Wire> {
        Ok(Wire {
            calls_left,
            taken: File::create(&rt, path)?,
        })
    }

    // `None` at the end, and else whether this call is served.
    fn is_served(&mut self) -> Option<bool> {
        self.calls_left = self.calls_left.checked_sub(1)?;
        Some(self.calls_left.is_multiple_of(2))
    }
}

impl Read for Wire {
    fn read(&mut self, buf: &mut [u8]) -> io::Result<usize> {
        match self.is_served() {
            None => Ok(0),
            Some(false) => Err(io::Error::from(ErrorKind::Interrupted)),
            Some(true) => {
                let count = buf.len().min(2);
                buf[..count].fill(b'r');
                Ok(count)
            }
        }
    }
}

impl Write for Wire {
    fn write(&mut self, buf: &[u8]) -> io::Result<usize> {
        match self.is_served() {
            None => Ok(0),
            Some(false) => Err(io::Error::from(ErrorKind::Interrupted)),
            Some(true) => {
                let count = buf.len().min(2);
                self.taken.write_all(&buf[..count])?;
                Ok(count)
            }
        }
    }

    fn flush(&mut self) -> io::Result<()> {
        Ok(())
    }
}
