//! Streams for tests: slow ones, of which one call may be told to fail, and one that is soon full.

use std::alloc::Global;
use std::io::{self, Read, Write};

// Counts the calls, of which one fails.
#[derive(Drop)]
struct Calls {
    made: usize,
    bad: usize,
    kind: io::ErrorKind,
}

impl Calls {
    fn new(bad: usize, kind: io::ErrorKind) -> Calls {
        Calls { made: 0, bad, kind }
    }

    // Counts a call, which may be the one that fails.
    fn count(&mut self) -> io::Result<()> {
        let call = self.made;
        self.made = call.saturating_add(1);
        if call == self.bad {
            return Err(io::Error::from(self.kind));
        }
        Ok(())
    }
}

/// An input that gives a byte a call.
#[derive(Drop)]
pub struct SlowReader<'a> {
    bytes: &'a [u8],
    calls: Calls,
}

impl<'a> SlowReader<'a> {
    /// An input of these bytes; the call of this number, counted from 0, fails.
    pub fn new(bytes: &'a [u8], bad: usize, kind: io::ErrorKind) -> SlowReader<'a> {
        SlowReader {
            bytes,
            calls: Calls::new(bad, kind),
        }
    }

    /// How many calls there were.
    pub fn calls(&self) -> usize {
        self.calls.made
    }
}

impl<'a> Read for SlowReader<'a> {
    fn read(&mut self, buf: &mut [u8]) -> io::Result<usize> {
        self.calls.count()?;
        if self.bytes.is_empty() || buf.is_empty() {
            return Ok(0);
        }
        buf[0] = self.bytes[0];
        self.bytes = &self.bytes[1..];
        Ok(1)
    }
}

/// An output that takes three bytes a call.
#[derive(Drop)]
pub struct SlowWriter {
    /// What it has taken.
    pub bytes: Vec<u8>,
    calls: Calls,
}

impl SlowWriter {
    /// The call of this number, counted from 0, fails, a flush like a write.
    pub fn new(alloc: Global, bad: usize, kind: io::ErrorKind) -> SlowWriter {
        SlowWriter {
            bytes: Vec::new(alloc),
            calls: Calls::new(bad, kind),
        }
    }
}

impl Write for SlowWriter {
    fn write(&mut self, buf: &[u8]) -> io::Result<usize> {
        self.calls.count()?;
        let most = buf.len().min(3);
        self.bytes.extend_from_slice(&buf[..most])?;
        Ok(most)
    }

    fn flush(&mut self) -> io::Result<()> {
        self.calls.count()
    }
}

/// An output that takes so many bytes, and then nothing.
#[derive(Drop)]
pub struct FullWriter {
    pub room: usize,
    pub kind: io::ErrorKind,
}

impl Write for FullWriter {
    fn write(&mut self, buf: &[u8]) -> io::Result<usize> {
        let taken = buf.len().min(self.room);
        if taken == 0 {
            return Err(io::Error::from(self.kind));
        }
        self.room = self.room.saturating_sub(taken);
        Ok(taken)
    }

    fn flush(&mut self) -> io::Result<()> {
        Ok(())
    }
}
