//! The trusted edge: a real reader as a source, a real writer as a sink. They tell nothing of their content.
ghost use Rattle.std.specs.Prelude.{ℕ, ◌≡◌, ◌<◌, ◌≤◌, ◌-◌, ◌++◌, length, take, drop, None, Some, IfOk, IsOk, IsOkAnd, OnErr};
ghost use Rattle.pat_outside.specs.Outside.{Known, Rose};

use crate::{Failed, Sink, Source};
use std::io::{Read, Write};

/// A source over a reader, as standard input. Each error is a fault.
#[derive(Drop)]
pub struct ReaderSource<R: Drop> {
    reader: R,
    faults: u64,
}

impl<R: Read + Drop> ReaderSource<R> {
    /// A source over this reader, with no fault so far.
    pub fn new(reader: R) -> Self
        ensures faults { ⟦<ReaderSource<R> as Source>⟧.faults result ≡ 0 }
        ensures untold { ⟦<ReaderSource<R> as Source>⟧.rest result ≡ None }
    {
        ReaderSource { reader, faults: 0 }
    }
}

impl<R: Read + Drop> Source for ReaderSource<R> {
    ghost rest = { λ _. None };

    ghost faults = { λ s. s.faults };

    ghost is_reliable = { λ _. ⊥ };

    fn read(&mut self, buf: &mut [u8]) -> Result<usize, Failed> {
        match self.reader.read(buf) {
            Ok(count) => Ok(count),
            Err(_) => {
                self.faults = self.faults.saturating_add(1);
                Err(Failed)
            }
        }
    }
}

/// A sink over a writer, as standard output. Each error is a fault, and so is a write of 0 bytes of a piece that has some.
#[derive(Drop)]
pub struct WriterSink<W: Drop> {
    writer: W,
    faults: u64,
}

impl<W: Write + Drop> WriterSink<W> {
    /// A sink over this writer, with no fault so far.
    pub fn new(writer: W) -> Self
        ensures faults { ⟦<WriterSink<W> as Sink>⟧.faults result ≡ 0 }
        ensures untold { ⟦<WriterSink<W> as Sink>⟧.content result ≡ None }
    {
        WriterSink { writer, faults: 0 }
    }
}

impl<W: Write + Drop> Sink for WriterSink<W> {
    ghost content = { λ _. None };

    ghost faults = { λ s. s.faults };

    ghost can_take = { λ _ _. ⊥ };

    fn write(&mut self, piece: &[u8]) -> Result<usize, Failed> {
        match self.writer.write(piece) {
            Ok(count) if count > 0 || piece.is_empty() => Ok(count),
            _ => {
                self.faults = self.faults.saturating_add(1);
                Err(Failed)
            }
        }
    }
}
