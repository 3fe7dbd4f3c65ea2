//! Sources and sinks in memory, and sources that drip, give endless rows, or fail.

ghost use Rattle.std.specs.Prelude.{None};

use aim_io::{Failed, MemSink, MemSource, Source};
use std::alloc::{AllocError, Global};
use std::io::{self, ErrorKind, Read};

/// A source that has the bytes. Its reads of these numbers fail.
pub fn source_of(alloc: Global, bytes: &[u8], failing: &[u64]) -> Result<MemSource, AllocError> {
    let bytes = bytes.to_vec(alloc)?;
    Ok(MemSource::new(bytes, failing.to_vec(alloc)?))
}

/// A sink with room for so many bytes. Its writes of these numbers fail.
pub fn sink_of(alloc: Global, room: u32, failing: &[u64]) -> Result<MemSink, AllocError> {
    MemSink::new(alloc, room, failing.to_vec(alloc)?)
}

/// Gives bytes one at a time, and fails at one call.
#[derive(Drop)]
pub struct Drip {
    bytes: &'static [u8],
    at: usize,
    /// How many calls were made.
    pub call: u64,
    failing: Option<u64>,
    faults: u64,
}

impl Drip {
    /// Gives these bytes, and fails at the call of this number, counted from 0.
    pub fn new(bytes: &'static [u8], failing: Option<u64>) -> Drip {
        Drip {
            bytes,
            at: 0,
            call: 0,
            failing,
            faults: 0,
        }
    }
}

impl Source for Drip {
    ghost left = { λ _. None };

    ghost faults = { λ s. s.faults };

    fn read(&mut self, buf: &mut [u8]) -> Result<usize, Failed> {
        let call = self.call;
        self.call = call.saturating_add(1);
        if self.failing == Some(call) {
            self.faults = self.faults.saturating_add(1);
            return Err(Failed);
        }
        if buf.is_empty() || self.at >= self.bytes.len() {
            return Ok(0);
        }
        buf[0] = self.bytes[self.at];
        self.at += 1;
        Ok(1)
    }
}

/// Gives rows of so many bytes, each with a byte 10 behind it, until so many bytes are given.
#[derive(Drop)]
pub struct Rows {
    /// How many bytes a row has, without its byte 10.
    pub row: usize,
    /// How many bytes are left.
    pub left: usize,
    /// How many bytes of the row are given.
    pub at: usize,
}

impl Source for Rows {
    ghost left = { λ _. None };

    ghost faults = { λ _. 0 };

    fn read(&mut self, buf: &mut [u8]) -> Result<usize, Failed> {
        let count = self.left.min(buf.len());
        self.left -= count;
        for byte in &mut buf[..count] {
            if self.at < self.row {
                self.at += 1;
                *byte = b'a';
            } else {
                self.at = 0;
                *byte = b'\n';
            }
        }
        Ok(count)
    }
}

/// A reader of std that fails.
#[derive(Drop)]
pub struct Broken;

impl Read for Broken {
    fn read(&mut self, _buf: &mut [u8]) -> io::Result<usize> {
        Err(io::Error::from(ErrorKind::Other))
    }
}
