// Readers and writers of std as sources and sinks.
ghost use Rattle.std.specs.Prelude.{◌≡◌, ◌<◌, None, [], length, IfOk, OnOk, if◌then◌else◌, is_err};
ghost use Rattle.std.specs.Io.{ReadsAtMost, WritesAtMost};
ghost use Rattle.std.specs.Io.KnownBytes.{Keeps, ReadConsumes, WriteAppends};
ghost use Rattle.aim_io.specs.Causes.{HasCause, counted};

use crate::{Failed, Sink, Source};
use std::alloc::{AllocError as NoMemory, Global};
use std::io::{BufWriter, Read, Write};

// So many bytes are kept back at most.
const KEPT: usize = 65_536;

/// A reader of std as a source. It doesn't tell its bytes, and each error of the reader is a fault.
#[derive(Drop)]
pub struct StdSource<R> {
    reader: R,
    faults: u64,
}

impl<R: Read + Drop> StdSource<R> {
    ghost use Rattle.aim_io.specs.Standard.{source_reader, source_faults};

    /// A source over `reader`, with no fault yet.
    pub fn new(reader: R) -> StdSource<R>
        ensures reader { source_reader result ≡ reader }
        ensures faults { source_faults result ≡ 0 }
    {
        StdSource { reader, faults: 0 }
    }
}

impl<R: Read + Drop> Source for StdSource<R> {
    ghost use Rattle.aim_io.specs.Standard.{source_reader, source_faults};

    ghost left = { λ _. None };

    ghost faults = { λ s. source_faults s };

    // One call of the reader. The count rises exactly where it gives an error.
    fn read(&mut self, buf: &mut [u8]) -> Result<usize, Failed>
        ensures bound { ReadsAtMost result buf.new }
        ensures cause { HasCause (source_faults self.old) (source_faults self.new) result }
        ensures reader { ReadConsumes (R.remaining (source_reader self.old)) (R.remaining (source_reader self.new)) result buf.new }
        ensures count { source_faults self.new ≡ (if is_err result then counted (source_faults self.old) else source_faults self.old) }
    {
        match self.reader.read(buf) {
            Ok(count) => Ok(count),
            Err(_) => {
                self.faults = self.faults.saturating_add(1);
                Err(Failed)
            }
        }
    }
}

/// A writer of std as a sink, which keeps up to 65,536 bytes back and writes them in one piece. It tells the bytes that its
/// writer tells, and each error of the writer is a fault.
#[derive(Drop)]
pub struct StdSink<W: Write + Drop> {
    writer: BufWriter<W>,
    faults: u64,
}

impl<W: Write + Drop> StdSink<W> {
    ghost use Rattle.aim_io.specs.Standard.{sink_writer, sink_kept, sink_faults};

    /// A sink over `writer`, with no fault yet, which keeps nothing back. It takes all of its memory here.
    pub fn new(alloc: Global, writer: W) -> Result<StdSink<W>, NoMemory>
        ensures writer { IfOk result (λ s. sink_writer s ≡ writer) }
        ensures kept { IfOk result (λ s. sink_kept s ≡ []) }
        ensures faults { IfOk result (λ s. sink_faults s ≡ 0) }
    {
        match BufWriter::with_capacity(alloc, KEPT, writer) {
            Ok(writer) => Ok(StdSink { writer, faults: 0 }),
            Err(_) => Err(NoMemory),
        }
    }
}

impl<W: Write + Drop> Sink for StdSink<W> {
    ghost use Rattle.aim_io.specs.Standard.{sink_faults, sink_held, sink_kept};

    ghost held = { λ s. sink_held W.contents s };

    ghost kept_back = { λ s. sink_kept s };

    ghost faults = { λ s. sink_faults s };

    // One call of the writer, where there is no room to keep the piece back. The count rises exactly where it gives an
    // error, or takes no byte of a piece that isn't empty.
    fn write(&mut self, piece: &[u8]) -> Result<usize, Failed>
        ensures bound { WritesAtMost result piece.now }
        ensures some { IfOk result (λ n. 0 < length piece.now → 0 < n) }
        ensures bytes { WriteAppends (sink_held W.contents self.old) (sink_held W.contents self.new) result piece.now }
        ensures cause { HasCause (sink_faults self.old) (sink_faults self.new) result }
        ensures count { sink_faults self.new ≡ (if is_err result then counted (sink_faults self.old) else sink_faults self.old) }
    {
        match self.writer.write(piece) {
            Ok(count) if count > 0 || piece.is_empty() => Ok(count),
            _ => {
                self.faults = self.faults.saturating_add(1);
                Err(Failed)
            }
        }
    }

    fn settle(&mut self) -> Result<(), Failed>
        ensures bytes { Keeps (sink_held W.contents self.old) (sink_held W.contents self.new) }
        ensures settled { OnOk result (sink_kept self.new ≡ []) }
        ensures cause { HasCause (sink_faults self.old) (sink_faults self.new) result }
        ensures count { sink_faults self.new ≡ (if is_err result then counted (sink_faults self.old) else sink_faults self.old) }
    {
        match self.writer.flush() {
            Ok(()) => Ok(()),
            Err(_) => {
                self.faults = self.faults.saturating_add(1);
                Err(Failed)
            }
        }
    }
}
