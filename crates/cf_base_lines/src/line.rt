ghost use Rattle.std.specs.Prelude.{◌≡◌, ◌<◌, ◌≤◌, ◌++◌, ℕ, List, [], IfOk, MatchOption, take, length, slice_index, vec_len, vec_capacity};
ghost use Rattle.cf_base_lines.specs.Lines.{NoNewline};

use std::alloc::{AllocError, Global};

/// The most bytes of a line that is read as a call, the newline aside.
pub const LONGEST: usize = 262_144;

/// The line that is being read. The room for its bytes is taken once, so reading on needs no
/// memory.
#[derive(Drop)]
pub struct Line {
    pub bytes: Vec<u8>,
    /// Whether it is too long, so that its bytes are skipped.
    pub long: bool,
    ghost short: { vec_len bytes ≤ 262144 },
    ghost room: { 262144 ≤ vec_capacity bytes },
}

impl Line {
    ghost use Rattle.cf_base_lines.specs.State.{IsLine};

    /// A line without bytes.
    pub fn new(alloc: Global) -> Result<Line, AllocError>
        ensures { IfOk result (λ line. IsLine line []) }
    {
        let mut bytes = Vec::new(alloc);
        bytes.reserve(LONGEST)?;
        Ok(Line { bytes, long: false })
    }

    /// A new line begins.
    pub fn clear(&mut self)
        ensures { IsLine self.new [] }
    {
        self.bytes.clear();
        self.long = false;
    }

    /// The line goes on.
    pub fn push(&mut self, piece: &[u8])
        ensures { (text : List ℕ) → IsLine self.old text → IsLine self.new (text ++ piece.now) }
    {
        if self.long {
            return;
        }
        if piece.len() > LONGEST - self.bytes.len() {
            self.long = true;
            return;
        }
        let _ = self.bytes.extend_from_slice(piece);
    }
}

/// The place of the first newline.
pub fn newline_in(bytes: &[u8]) -> Option<usize>
    ensures within { MatchOption result (NoNewline bytes.now) (λ i. i < length bytes.now) }
    ensures before { MatchOption result (NoNewline bytes.now) (λ i. NoNewline (take i bytes.now)) }
    ensures here { MatchOption result (NoNewline bytes.now) (λ i. slice_index bytes.now i ≡ 10) }
{
    bytes.iter().position(|b| *b == b'\n')
}
