//! Runs over lines.

use crate::office::{Counting, Dripping, FirstLetter};
use crate::said::{barred, unbarred};
use cf_base::{MemSink, MemSource, Source};
use cf_base_lines::{Ended, run_lines};
use std::alloc::{AllocError, Global};
use std::io;

fn ended_word(how: Ended) -> &'static str {
    match how {
        Ended::Ok => "ok",
        Ended::ReadFault => "read fault",
        Ended::WriteFault => "write fault",
        Ended::InputLimit => "input limit",
        Ended::NoMemory => "no memory",
    }
}

/// The bytes of a text in which bars stand for newlines.
fn bytes_of(alloc: Global, text: &str) -> Result<Vec<u8>, AllocError> {
    Ok(unbarred(alloc, text)?.into_bytes())
}

/// A run over a source, with an output that takes so many bytes.
fn show_run<I: Source>(
    rt: &impl Print,
    alloc: Global,
    source: &mut I,
    limit: usize,
) -> io::Result<()> {
    let mut office = FirstLetter { must_write: false };
    let mut sink = MemSink::limited(alloc, limit);
    let how = run_lines(alloc, &mut office, source, &mut sink);
    let said = barred(alloc, sink.bytes())?;
    println!(rt; "  {}: {said}", ended_word(how))
}

/// A run over a text, with an output that takes so many bytes.
pub fn show_talk(rt: &impl Print, alloc: Global, text: &str, limit: usize) -> io::Result<()> {
    let mut source = MemSource::new(bytes_of(alloc, text)?);
    show_run(rt, alloc, &mut source, limit)
}

/// A run over a line of so many letters, and a short one.
pub fn show_long(rt: &impl Print, alloc: Global, letters: usize) -> io::Result<()> {
    let mut bytes = vec![in alloc; b'x'; letters]?;
    bytes.extend_from_slice(b"\ny")?;
    let mut source = MemSource::new(bytes);
    show_run(rt, alloc, &mut source, usize::MAX)
}

/// A run over a source that gives a byte at a time, and fails after so many reads.
pub fn show_drip(rt: &impl Print, alloc: Global, text: &str, reads: u64) -> io::Result<()> {
    let mut source = Dripping {
        input: MemSource::failing(bytes_of(alloc, text)?, reads),
    };
    show_run(rt, alloc, &mut source, usize::MAX)
}

/// A run over a text, with how often it wrote, where answers may gather or each is to be written.
pub fn show_counted(rt: &impl Print, alloc: Global, text: &str, each: bool) -> io::Result<()> {
    let mut office = FirstLetter { must_write: each };
    let mut source = MemSource::new(bytes_of(alloc, text)?);
    let mut sink = Counting {
        sink: MemSink::new(alloc),
        writes: 0,
    };
    let how = run_lines(alloc, &mut office, &mut source, &mut sink);
    let said = barred(alloc, sink.sink.bytes())?;
    println!(rt;
        "  {} after {} writes: {said}",
        ended_word(how),
        sink.writes
    )
}
