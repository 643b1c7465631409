//! An office in memory that follows, for cases and tests.

ghost use Rattle.std.specs.Prelude.{◌≡◌, ◌++◌, ◌∷◌, ⊤, [], OnOk, OnErr};
ghost use Rattle.cf_follow.specs.Memory.{refusal_in};

use crate::follower::{Admission, Follower};
use cf_base::MOST_ENTRIES;
use cf_calls::Entry;
use std::alloc::{AllocError, Global};
use std::marker::Model;

/// An office in memory that takes every entry but those of one desk, while its history has less
/// than 1,500,000.
#[derive(Drop)]
pub struct MemFollower {
    entries: Vec<Entry>,
    refuses: u16,
}

impl Model for MemFollower {
    ghost use Rattle.cf_follow.specs.Memory.{IsMemory, MemoryState};

    ghost Value = { MemoryState };

    ghost view = { λ f. record { entries = f.entries.items; refuses = f.refuses } };

    ghost invariant = { λ f. IsMemory f.entries.items };
}

impl MemFollower {
    /// An office with no entry, which refuses those of this desk.
    pub fn new(alloc: Global, refuses: u16) -> MemFollower
        ensures { result ≡ record { entries = []; refuses = refuses } }
    {
        MemFollower {
            entries: Vec::new(alloc),
            refuses,
        }
    }
}

/// Adds an entry. Where there is no memory the entries stay.
fn add(entries: &mut Vec<Entry>, entry: Entry) -> Result<(), AllocError>
    ensures ok { OnOk result (entries.new.items ≡ entries.old.items ++ entry ∷ []) }
    ensures err { OnErr result (entries.new.items ≡ entries.old.items) }
{
    entries.reserve(1)?;
    entries.push_reserved(entry);
    Ok(())
}

impl Follower for MemFollower {
    ghost history = { λ f. f.entries };

    ghost refusal = { λ f e. refusal_in f e };

    ghost faults = { λ f. 0 };

    ghost since = { λ a b failed. ⊤ };

    fn entries(&self) -> &[Entry] {
        self.entries.as_slice()
    }

    fn admit(&mut self, entry: Entry) -> Admission {
        if entry.change.desk == self.refuses {
            return Admission::Refused(1);
        }
        if self.entries.len() as u64 >= MOST_ENTRIES {
            return Admission::Refused(5);
        }
        match add(&mut self.entries, entry) {
            Ok(()) => Admission::Added,
            Err(_) => Admission::NoMemory,
        }
    }

    ghost since_same = { λ f. tt };

    ghost since_more = { λ a b c failed p q. tt };
}
