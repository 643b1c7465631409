ghost use Rattle.std.specs.Prelude.{◌≡◌, ◌+◌, ◌≤◌, ℕ, false, List, length, vec_len, vec_capacity};
ghost use Rattle.cf_base_lines.specs.Talk.{Answered};

/// What answers the lines of a desk.
pub trait Office {
    /// How a line of at most 262,144 bytes is answered: the office before, the line, the answer,
    /// the office after.
    ghost answers: { Self → List ℕ → List ℕ → Self → Type 0 };

    /// How many changes the office has accepted: an answer that leaves this number has changed
    /// nothing.
    ghost accepted: { Self → ℕ };

    /// Appends the answer to a line, without a newline, and leaves room for one. It always answers:
    /// where there is no memory, that is its answer. It says whether the answer is to be written
    /// before the next line is answered: each to an accepted change is, so that a crash leaves at
    /// most one entry whose answer was not written.
    fn answer(&mut self, line: &[u8], out: &mut Vec<u8>) -> bool
        requires room { vec_len out.old + 1024 ≤ vec_capacity out.old }
        requires short { length line.now ≤ 262144 }
        ensures answered { Answered answers self.old line.now self.new out.old.items out.new.items }
        ensures still { result ≡ false → accepted self.new ≡ accepted self.old }
        ensures one { accepted self.new ≤ accepted self.old + 1 }
        ensures newline { vec_len out.new + 1 ≤ vec_capacity out.new }
        ensures capacity { vec_capacity out.old ≤ vec_capacity out.new };
}
