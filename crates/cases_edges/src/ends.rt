//! Sources and sinks over a file, over a reader and a writer, and over memory.

use crate::said::barred;
use cf_base::{Failed, FileSource, MemSink, MemSource, Sink, Source, StdSink, StdSource};
use std::alloc::Global;
use std::io::{self, Cursor};
use std::rt::Files;

/// What a read gave: how many bytes, and which.
fn show_read(
    rt: &impl Print,
    alloc: Global,
    count: Result<usize, Failed>,
    buf: &[u8],
) -> io::Result<()> {
    match count {
        Ok(count) => {
            let (given, _) = buf.split_at(count.min(buf.len()));
            let text = barred(alloc, given)?;
            println!(rt; "  read {count}: {text}")
        }
        Err(Failed) => println!(rt; "  read failed"),
    }
}

fn show_write(rt: &impl Print, count: Result<usize, Failed>) -> io::Result<()> {
    match count {
        Ok(count) => println!(rt; "  written {count}"),
        Err(Failed) => println!(rt; "  write failed"),
    }
}

/// Reads pieces of so many bytes three times.
fn show_reads<I: Source>(
    rt: &impl Print,
    alloc: Global,
    source: &mut I,
    size: usize,
) -> io::Result<()> {
    let mut buf = vec![in alloc; 0u8; size]?;
    for _ in 0..3 {
        let count = source.read(buf.as_mut_slice());
        show_read(rt, alloc, count, buf.as_slice())?;
    }
    Ok(())
}

/// Reads a file three times, pieces of so many bytes.
pub fn show_source<R: Files + Print + AllocGlobal>(
    rt: &R,
    file: &str,
    size: usize,
) -> io::Result<()> {
    let mut source = FileSource::new(rt, file);
    show_reads(rt, rt.alloc(), &mut source, size)
}

fn show_writer<O: Sink>(rt: &impl Print, sink: &mut O) -> io::Result<()> {
    show_write(rt, sink.write(b"reply"))?;
    show_write(rt, sink.write(b""))
}

/// Reads the bytes 7 and 8, and writes what was read.
fn show_copy(rt: &impl Print, source: &mut MemSource, sink: &mut MemSink) -> io::Result<()> {
    let mut buf = [0; 4];
    match source.read(&mut buf) {
        Ok(count) => println!(rt; "  read {count} bytes")?,
        Err(Failed) => println!(rt; "  read failed")?,
    }
    show_write(rt, sink.write(&buf[..2]))?;
    for byte in sink.bytes() {
        println!(rt; "  byte {byte}")?;
    }
    Ok(())
}

/// A source in memory of the bytes 7 and 8, and a sink that is given them.
fn show_memory(rt: &impl Print, alloc: Global) -> io::Result<()> {
    let bytes = vec![in alloc; 7, 8]?;
    show_copy(rt, &mut MemSource::new(bytes), &mut MemSink::new(alloc))
}

/// A reader of `line` and a newline, a writer, and the ends in memory.
pub fn show_ends(rt: &impl Print, alloc: Global) -> io::Result<()> {
    show_reads(rt, alloc, &mut StdSource::new(Cursor::new(b"line\n")), 8)?;
    show_writer(rt, &mut StdSink::new(Vec::new(alloc)))?;
    show_memory(rt, alloc)
}
