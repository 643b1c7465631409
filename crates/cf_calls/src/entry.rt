//! An entry of the history.

ghost use Rattle.std.specs.Prelude.{◌≡◌, None};

use crate::call::Change;

/// The numbers that a change draws. A change that draws nothing has 0 in both.
#[derive(Clone, Copy)]
pub struct Drawn {
    /// The number of its own kind, from 1; for a debt payment that of the payment, and for a lease
    /// that of its asset.
    pub number: u32,
    /// For a voucher the number of its first asset, or the next one where it draws none; for a
    /// lease that of its bond.
    pub second: u32,
}

/// An accepted change with its drawn numbers. The change has no `after`.
#[derive(Drop)]
pub struct Entry {
    pub change: Change,
    pub drawn: Drawn,
}

/// The entry of an accepted change with the numbers that it draws: the change without its `after`.
pub fn entry_of(mut change: Change, drawn: Drawn) -> Entry
    ensures { result ≡ record { change = record change { after = None }; drawn = drawn } }
{
    change.after = None;
    Entry { change, drawn }
}
