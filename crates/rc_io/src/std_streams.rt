ghost use Rattle.std.specs.Prelude.{◌≡◌, None};

use crate::failed::Failed;
use crate::sink::Sink;
use crate::source::Source;
use std::io::{ErrorKind, Read, Write};

/// A reader of std as a source. It doesn't tell what it has left, and counts its faults. A read that was interrupted
/// is tried again.
#[derive(Drop)]
pub struct ReadSource<R> {
    inner: R,
    faults: u64,
}

impl<R> ReadSource<R> {
    /// No fault has come yet. It takes no memory.
    pub fn new(inner: R) -> ReadSource<R>
        ensures inner { result.inner ≡ inner }
        ensures faults { result.faults ≡ 0 }
    {
        ReadSource { inner, faults: 0 }
    }
}

impl<R: Read> Source for ReadSource<R> {
    ghost left = { λ _. None };

    ghost faults = { λ s. s.faults };

    fn read(&mut self, buf: &mut [u8]) -> Result<usize, Failed> {
        for _turn in 0..u64::MAX {
            match self.inner.read(buf) {
                Ok(count) => return Ok(count),
                Err(e) if e.kind() == ErrorKind::Interrupted => {}
                Err(_) => break,
            }
        }
        self.faults = self.faults.saturating_add(1);
        Err(Failed)
    }
}

/// A writer of std as a sink. It doesn't tell what it holds, and counts its faults. A write that was interrupted is
/// tried again; one that takes no byte of a piece is a fault.
#[derive(Drop)]
pub struct WriteSink<W> {
    inner: W,
    faults: u64,
}

impl<W> WriteSink<W> {
    /// No fault has come yet. It takes no memory.
    pub fn new(inner: W) -> WriteSink<W>
        ensures inner { result.inner ≡ inner }
        ensures faults { result.faults ≡ 0 }
    {
        WriteSink { inner, faults: 0 }
    }
}

impl<W: Write> Sink for WriteSink<W> {
    ghost holds = { λ _. None };

    ghost faults = { λ s. s.faults };

    fn write(&mut self, piece: &[u8]) -> Result<usize, Failed> {
        for _turn in 0..u64::MAX {
            match self.inner.write(piece) {
                Ok(0) if !piece.is_empty() => break,
                Ok(count) => return Ok(count),
                Err(e) if e.kind() == ErrorKind::Interrupted => {}
                Err(_) => break,
            }
        }
        self.faults = self.faults.saturating_add(1);
        Err(Failed)
    }
}
