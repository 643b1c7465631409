//! What is left of a pass that was ended.

ghost use Rattle.std.specs.Prelude.{◌≡◌, length};

use crate::turns::ViewSeat;
use std::marker::Model;

/// The accepted calls and the fault replies of a pass that was ended. Contracts see the places of
/// the accepted calls.
#[derive(Drop)]
pub struct Receipts {
    pub(crate) seat: ViewSeat,
    pub(crate) accepted: u64,
    pub(crate) faults: u64,
}

impl Model for Receipts {
    ghost use Rattle.std.specs.Prelude.{◌≡◌, length};
    ghost use Rattle.cf_turns.specs.States.{ReceiptsState};

    ghost Value = { ReceiptsState };

    ghost view = { λ r. record {
      number = r.seat.me.0.number;
      places = r.seat.me.0.places;
      faults = r.faults;
    } };

    ghost invariant = { λ r. r.accepted ≡ length r.seat.me.0.places };
}

impl Receipts {
    /// How many calls were accepted.
    pub fn accepted(&self) -> u64
        ensures { result ≡ length self.now.places }
    {
        self.accepted
    }

    /// How many fault replies there were.
    pub fn faults(&self) -> u64
        ensures { result ≡ self.now.faults }
    {
        self.faults
    }
}
