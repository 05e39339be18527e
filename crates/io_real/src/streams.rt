//! The standard streams as a source and a sink.

ghost use Rattle.std.specs.Prelude.{◌≡◌, ℕ, List, Option};
ghost use Rattle.io_edges.specs.Calls.{one_more};

use io_edges::{Failed, Sink, Source};
use std::io::{Read, Write};

/// A reader as a source. Each read that fails is counted.
#[derive(Drop)]
pub struct StdinSource<R: Read> {
    reader: R,
    failed: u64,
}

impl<R: Read> StdinSource<R> {
    /// The reader, before any read of it has failed.
    pub fn over(reader: R) -> StdinSource<R> {
        StdinSource { reader, failed: 0 }
    }
}

impl<R: Read> Source for StdinSource<R> {
    ghost left = { λ s. R.remaining s.reader };

    ghost faults = { λ s. s.failed };

    fn read(&mut self, into: &mut [u8]) -> Result<usize, Failed> {
        match self.reader.read(into) {
            Ok(count) => Ok(count),
            Err(_) => {
                self.failed = self.failed.saturating_add(1);
                Err(Failed)
            }
        }
    }
}

/// A writer as a sink. Each write that fails, or takes nothing of a piece that isn't empty, is counted.
#[derive(Drop)]
pub struct StdoutSink<W: Write> {
    writer: W,
    failed: u64,
}

impl<W: Write> StdoutSink<W> {
    /// The writer, before any write to it has failed.
    pub fn over(writer: W) -> StdoutSink<W> {
        StdoutSink { writer, failed: 0 }
    }
}

impl<W: Write> Sink for StdoutSink<W> {
    ghost taken = { λ s. W.contents s.writer };

    ghost faults = { λ s. s.failed };

    fn write(&mut self, piece: &[u8]) -> Result<usize, Failed> {
        match self.writer.write(piece) {
            Ok(count) => {
                if count == 0 && !piece.is_empty() {
                    self.failed = self.failed.saturating_add(1);
                    return Err(Failed);
                }
                Ok(count)
            }
            Err(_) => {
                self.failed = self.failed.saturating_add(1);
                Err(Failed)
            }
        }
    }
}
