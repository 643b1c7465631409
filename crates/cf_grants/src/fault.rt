//! Why a document of grants is refused.

ghost use Rattle.std.specs.Prelude.{◌≡◌};
ghost use Rattle.cf_grants.specs.Faults.{word_of};
ghost use Rattle.cf_grants.specs.declared.fault.GrantRefused.TheVariants.{NoMemory};

use std::alloc::AllocError;
use std::fmt;
use thiserror::Error;

/// A key of a grant, or the name of their table.
#[derive(Clone, Copy)]
pub enum GrantKey {
    Grant,
    Id,
    Source,
    Payer,
    Award,
    RateBp,
    Lines,
}

impl GrantKey {
    /// The key as it is written.
    pub fn word(self) -> &'static str
        ensures { result.now ≡ word_of self }
    {
        match self {
            GrantKey::Grant => "grant",
            GrantKey::Id => "id",
            GrantKey::Source => "source",
            GrantKey::Payer => "payer",
            GrantKey::Award => "award",
            GrantKey::RateBp => "rate_bp",
            GrantKey::Lines => "lines",
        }
    }
}

impl fmt::Display for GrantKey {
    fn fmt<W: fmt::Write>(&self, f: &mut fmt::Formatter<W>) -> fmt::Result {
        f.write_str(self.word())
    }
}

/// The first fault of a document of grants. Rows are counted from 0 in the order of the document; a
/// fault of the table itself has place 0 and its name as key.
#[derive(Clone, Copy, Error)]
pub enum GrantFault {
    /// The document has more than 1,048,576 bytes.
    #[error("longer than 1048576 bytes")]
    TooLong,
    /// The document is no TOML.
    #[error("no TOML document")]
    NotToml,
    /// There are more than 64 grants.
    #[error("too many grants")]
    TooMany,
    /// A grant lacks a key.
    #[error("grant {at} has no {key}")]
    Missing { at: u64, key: GrantKey },
    /// A key's value is of another type, out of its range, or names nothing that it may name.
    #[error("grant {at} has a bad {key}")]
    Bad { at: u64, key: GrantKey },
    /// An earlier grant has the same id or source.
    #[error("grant {at} stands twice")]
    Twice { at: u64 },
    /// The document is without fault, and has no grant of this id.
    #[error("no grant {id}")]
    Unknown { id: u16 },
}

/// Why no grants were read.
#[derive(Clone, Copy, Error)]
pub enum GrantRefused {
    /// The document has this fault.
    #[error("{0}")]
    Fault(GrantFault),
    /// There was no memory to read it.
    #[error("no memory")]
    NoMemory,
}

/// An error has to have it; it prints what `Display` does.
impl fmt::Debug for GrantFault {
    fn fmt<W: fmt::Write>(&self, f: &mut fmt::Formatter<W>) -> fmt::Result {
        fmt::Display::fmt(self, f)
    }
}

/// An error has to have it; it prints what `Display` does.
impl fmt::Debug for GrantRefused {
    fn fmt<W: fmt::Write>(&self, f: &mut fmt::Formatter<W>) -> fmt::Result {
        fmt::Display::fmt(self, f)
    }
}

impl From<AllocError> for GrantRefused {
    ghost from_gives = { λ _ e. e ≡ NoMemory };

    fn from(_error: AllocError) -> GrantRefused {
        GrantRefused::NoMemory
    }
}
