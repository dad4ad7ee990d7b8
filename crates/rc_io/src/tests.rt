ghost use Rattle.std.specs.Prelude.{◌≡◌, None};

use super::*;
use disk_model::{Disk, DiskError, LOG0, MemDisk};
use rc_base::LimitName;
use std::alloc::Global;
use std::io::{self, ErrorKind, Read, Write};
use std::test::*;

// A source that gives at most so many bytes a read.
#[derive(Drop)]
struct Slow {
    inner: MemSource,
    most: usize,
}

impl Source for Slow {
    ghost left = { λ _. None };

    ghost faults = { λ s. s.inner.calls.faults };

    fn read(&mut self, buf: &mut [u8]) -> Result<usize, Failed> {
        let most = buf.len().min(self.most).max(1);
        self.inner.read(&mut buf[..most])
    }
}

// A stream of std. At each call it gives or takes so many bytes of its text as the plan says, or is interrupted where
// the plan has none; past the plan it fails, as where a piece has other bytes.
#[derive(Drop)]
struct Stream {
    text: &'static [u8],
    plan: &'static [Option<usize>],
}

impl Stream {
    fn turn(&mut self) -> io::Result<usize> {
        let plan = self.plan;
        if plan.is_empty() {
            return Err(io::Error::from(ErrorKind::Other));
        }
        self.plan = &plan[1..];
        match plan[0] {
            Some(count) => Ok(count),
            None => Err(io::Error::from(ErrorKind::Interrupted)),
        }
    }
}

impl Read for Stream {
    fn read(&mut self, buf: &mut [u8]) -> io::Result<usize> {
        let count = self.turn()?.min(buf.len()).min(self.text.len());
        buf[..count].copy_from_slice(&self.text[..count]);
        self.text = &self.text[count..];
        Ok(count)
    }
}

impl Write for Stream {
    fn write(&mut self, piece: &[u8]) -> io::Result<usize> {
        let count = self.turn()?.min(piece.len()).min(self.text.len());
        if piece[..count] != self.text[..count] {
            return Err(io::Error::from(ErrorKind::Other));
        }
        self.text = &self.text[count..];
        Ok(count)
    }

    fn flush(&mut self) -> io::Result<()> {
        Ok(())
    }
}

fn source_of(alloc: Global, text: &[u8]) -> Result<MemSource, Fail> {
    let bytes = Vec::from_slice(alloc, text)?;
    Ok(MemSource::new(bytes, Vec::new(alloc)))
}

// Whether the next line is this one.
fn gives<S: Source>(reader: &mut LineReader, source: &mut S, wanted: u64, text: &[u8]) -> bool {
    match reader.next(source) {
        Next::Line { number, bytes } => number == wanted && bytes.as_slice() == text,
        _ => false,
    }
}

// Whether the input is at its end.
fn ends<S: Source>(reader: &mut LineReader, source: &mut S) -> bool {
    matches!(reader.next(source), Next::End)
}

// The limit that is reached next.
fn limit<S: Source>(reader: &mut LineReader, source: &mut S) -> Option<(LimitName, u64)> {
    match reader.next(source) {
        Next::Limit { which, number } => Some((which, number)),
        _ => None,
    }
}

// Whether these lines come in pieces of so many bytes, the ends of lines in all their forms.
fn reads_in_pieces(alloc: Global, most: usize) -> Result<bool, Fail> {
    let inner = source_of(alloc, b"a\r\n\nb\rc\n\r\r\n d\r")?;
    let mut source = Slow { inner, most };
    let mut reader = LineReader::new(alloc)?;
    let mut same = true;
    let lines: [&[u8]; 5] = [b"a", b"", b"b\rc", b"\r", b" d\r"];
    let mut number = 0u64;
    for line in lines {
        number = number.saturating_add(1);
        same &= gives(&mut reader, &mut source, number, line);
    }
    Ok(same & ends(&mut reader, &mut source))
}

#[test]
fn lines_in_any_pieces(rt: HostRuntime) -> Result<(), Fail> {
    for most in [1, 2, 65_536] {
        assert!(rt; reads_in_pieces(rt.alloc(), most)?);
    }
    Ok(())
}

// What comes of a line of 4,096 bytes with these behind it.
fn long_line(alloc: Global, ending: &[u8]) -> Result<Option<(LimitName, u64)>, Fail> {
    let mut text = vec![in alloc; b'x'; 4_096]?;
    text.extend_from_slice(ending)?;
    let mut source = source_of(alloc, &text)?;
    let mut reader = LineReader::new(alloc)?;
    Ok(limit(&mut reader, &mut source))
}

#[test]
fn lines_of_4096_and_4097_bytes(rt: HostRuntime) -> Result<(), Fail> {
    for ending in [b"\n".as_slice(), b"".as_slice()] {
        assert_eq!(rt; long_line(rt.alloc(), ending)?, None);
    }
    for ending in [b"\r\n".as_slice(), b"x".as_slice()] {
        assert_eq!(rt; long_line(rt.alloc(), ending)?, Some((LimitName::Line, 1)));
    }
    Ok(())
}

fn line_feeds(alloc: Global, count: usize) -> Result<MemSource, Fail> {
    let bytes = vec![in alloc; b'\n'; count]?;
    Ok(MemSource::new(bytes, Vec::new(alloc)))
}

// Whether so many lines are empty, and the limit that is reached after them.
fn empty_lines(
    reader: &mut LineReader,
    source: &mut MemSource,
    count: u64,
) -> (bool, Option<(LimitName, u64)>) {
    let mut same = true;
    for number in 0..count {
        same &= gives(reader, source, number + 1, b"");
    }
    (same, limit(reader, source))
}

#[test]
fn a_million_lines(rt: HostRuntime) -> Result<(), Fail> {
    let mut source = line_feeds(rt.alloc(), 1_000_001)?;
    let mut reader = LineReader::new(rt.alloc())?;
    let told = empty_lines(&mut reader, &mut source, 1_000_000);
    assert_eq!(rt; told, (true, Some((LimitName::Lines, 1_000_001))));
    Ok(())
}

// One line, in a source whose second call fails.
fn failing_source(alloc: Global) -> Result<MemSource, Fail> {
    let fails = Vec::from_slice(alloc, &[2])?;
    Ok(MemSource::new(Vec::from_slice(alloc, b"one\n")?, fails))
}

#[test]
fn a_source_that_fails(rt: HostRuntime) -> Result<(), Fail> {
    let mut source = failing_source(rt.alloc())?;
    let mut reader = LineReader::new(rt.alloc())?;
    let first = gives(&mut reader, &mut source, 1, b"one");
    assert!(rt; first && matches!(reader.next(&mut source), Next::Failed));
    Ok(())
}

#[test]
fn a_sink_that_fails(rt: HostRuntime) -> Result<(), Fail> {
    let mut sink = MemSink::new(rt.alloc(), Some(5), Vec::from_slice(rt.alloc(), &[2])?);
    let told = [
        write_all(&mut sink, b"abc"),
        write_all(&mut sink, b"d"),
        write_all(&mut sink, b"efg"),
    ];
    assert_eq!(rt; told, [Ok(()), Err(Failed), Err(Failed)]);
    assert_eq!(rt; sink.bytes(), b"abcef".as_slice());
    Ok(())
}

// A read that was interrupted is tried again, and the bytes come in their pieces.
#[test]
fn a_reader_of_std(rt: HostRuntime) {
    let mut source = ReadSource::new(Stream {
        text: b"xyz",
        plan: &[None, Some(2), Some(1)],
    });
    let mut buf = [0; 4];
    let told = [source.read(&mut buf), source.read(&mut buf[2..])];
    assert_eq!(rt; told, [Ok(2), Ok(1)]);
    assert_eq!(rt; buf, [b'x', b'y', b'z', 0]);
    assert_eq!(rt; source.read(&mut buf), Err(Failed));
}

// A write that was interrupted is tried again with the same bytes. One that takes nothing is a fault.
#[test]
fn a_writer_of_std(rt: HostRuntime) {
    let mut sink = WriteSink::new(Stream {
        text: b"whole",
        plan: &[Some(2), None, Some(3), Some(0), Some(1)],
    });
    let told = [write_all(&mut sink, b"whole"), write_all(&mut sink, b"x")];
    assert_eq!(rt; told, [Ok(()), Err(Failed)]);
}

// The length of the first area of a folder's disk.
fn log_len(host: &mut MemHost, folder: &str) -> Result<u64, DiskError> {
    host.store(folder)?.len(LOG0)
}

fn disk_of_four_bytes(alloc: Global) -> Result<MemDisk, DiskError> {
    let mut disk = MemDisk::new(alloc);
    disk.write_at(LOG0, 0, b"kept")?;
    Ok(disk)
}

// A host with one folder, whose second call fails.
fn failing_host(alloc: Global) -> Result<MemHost, Fail> {
    let mut host = MemHost::new(alloc, Vec::from_slice(alloc, &[2])?);
    host.add("a", disk_of_four_bytes(alloc)?)?;
    Ok(host)
}

#[test]
fn folders_in_memory(rt: HostRuntime) -> Result<(), Fail> {
    let mut host = failing_host(rt.alloc())?;
    let told = [
        log_len(&mut host, "a"),
        log_len(&mut host, "a"),
        log_len(&mut host, "b"),
    ];
    assert_eq!(rt; told, [Ok(4), Err(DiskError::Failed), Ok(0)]);
    Ok(())
}
