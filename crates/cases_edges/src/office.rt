//! An office that answers a line by its first letter, and ends that fail, drip and count.

ghost use Rattle.std.specs.Prelude.{◌≢◌, ◌+◌};

use cf_base::{Failed, Sink, Source};
use cf_base_lines::Office;

/// Answers a line by its first letter.
#[derive(Drop)]
pub struct FirstLetter {
    /// Whether each answer is to be written before the next line is answered.
    pub must_write: bool,
}

/// The first byte where it is a small letter, and signs for other lines.
fn sign_of(line: &[u8]) -> u8
    ensures { result ≢ 10 }
{
    match line.first() {
        None => b'-',
        Some(byte) if b'a' <= *byte && *byte <= b'z' => *byte,
        Some(_) => b'?',
    }
}

impl Office for FirstLetter {
    ghost answers = { λ _ _ _ _. Unit {0} };

    ghost accepted = { λ _. 0 };

    fn answer(&mut self, line: &[u8], out: &mut Vec<u8>) -> bool {
        let _ = out.push(sign_of(line));
        self.must_write
    }
}

/// A source that gives one byte at a time.
#[derive(Drop)]
pub struct Dripping<I: Source + Drop> {
    pub input: I,
}

impl<I: Source + Drop> Source for Dripping<I> {
    ghost left = { λ s. I.left s.input };

    ghost faults = { λ s. I.faults s.input };

    fn read(&mut self, buf: &mut [u8]) -> Result<usize, Failed> {
        if buf.len() > 1 {
            self.input.read(&mut buf[..1])
        } else {
            self.input.read(buf)
        }
    }
}

/// A sink that counts its writes.
#[derive(Drop)]
pub struct Counting<K: Sink + Drop> {
    pub sink: K,
    pub writes: u64,
}

impl<K: Sink + Drop> Sink for Counting<K> {
    ghost held = { λ s. K.held s.sink };

    ghost faults = { λ s. K.faults s.sink };

    fn write(&mut self, piece: &[u8]) -> Result<usize, Failed> {
        self.writes = self.writes.saturating_add(1);
        self.sink.write(piece)
    }
}
