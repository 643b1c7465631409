//! What follows a stream.

ghost use Rattle.std.specs.Prelude.{◌≡◌, ◌≤◌, All, ℕ, List, Option, None, length};
ghost use Rattle.cf_base.specs.Common.{most_entries};
ghost use Rattle.cf_calls.specs.declared.entry.Entry.{Entry as EntryOf};
ghost use Rattle.cf_calls.specs.Common.{IsEntryInForm};
ghost use Rattle.cf_follow.specs.Admitting.{Admits, office};

use cf_calls::Entry;

/// What an office says of an entry that another one's history has at the place behind its own.
#[derive(Clone, Copy)]
pub enum Admission {
    /// It is the one that this office would add too. It was added, and stands on the disk where the
    /// office keeps one.
    Added,
    /// It isn't: the number of the refusal, from 1 to 25, or 0 where the office has the call
    /// already or draws other numbers for it.
    Refused(u8),
    /// There was no memory.
    NoMemory,
    /// The disk failed.
    Disk,
}

/// An office that keeps a copy of another one's history.
pub trait Follower {
    ghost history: { Self → List EntryOf };

    /// The number of the refusal of an entry as the next one, where it is refused.
    ghost refusal: { Self → EntryOf → Option ℕ };

    /// How often its disk has failed.
    ghost faults: { Self → ℕ };

    /// What holds of it and of what it was earlier, as what a crash left since then, where since
    /// then its disk failed at this entry, or at none.
    ghost since: { Self → Self → Option EntryOf → Type 0 };

    /// Its entries, at most 1,500,000.
    fn entries(&self) -> &[Entry]
        ensures value { result.now ≡ history self.now }
        ensures form { All IsEntryInForm result.now }
        ensures few { length result.now ≤ most_entries };

    /// Takes an entry as the next one of its history, where it would add the same.
    fn admit(&mut self, entry: Entry) -> Admission
        requires { IsEntryInForm entry }
        ensures admits { Admits
            (office history refusal faults since) self.old entry self.new result }
        ensures few { length (history self.new) ≤ most_entries };

    ghost since_same: { (f : Self) → since f f None };

    ghost since_more: { (a b c : Self) (failed : Option EntryOf) → since a b None → since b c failed
        → since a c failed };
}
