//! Why a field was not read.

ghost use Rattle.std.specs.Prelude.{◌≡◌};
ghost use Rattle.cf_codec_fields.specs.declared.fault.Refused.TheVariants.{NoMemory};

use std::alloc::{AllocError, AllocFailed};

/// Why a field, or a part of several, was not read.
#[derive(Clone, Copy)]
pub enum Refused {
    /// How many bytes are left from the first faulty field on.
    Faulty(usize),
    NoMemory,
}

impl From<AllocError> for Refused {
    ghost from_gives = { λ _ e. e ≡ NoMemory };

    fn from(_error: AllocError) -> Refused {
        Refused::NoMemory
    }
}

impl<T: Drop> From<AllocFailed<T>> for Refused {
    ghost from_gives = { λ _ e. e ≡ NoMemory };

    fn from(_error: AllocFailed<T>) -> Refused {
        Refused::NoMemory
    }
}
