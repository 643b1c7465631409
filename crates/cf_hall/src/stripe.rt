//! A stripe of control lines.

use cf_budget::LineTable;
use cf_hall_names::{City, OfStripe};
use cf_turns::Tie;
use std::marker::Model;

/// A stripe as it lies in its place, where nothing is owed to it: its table, with the tie whose
/// list the table is of. It can't be let go, so who took it has to give it back. Contracts see the
/// tie.
pub struct Stripe<N: City, const K: usize> {
    pub(crate) table: LineTable,
    pub(crate) tie: Tie<OfStripe<N, K>>,
}

impl<N: City, const K: usize> Model for Stripe<N, K> {
    ghost use Rattle.cf_turns.specs.States.{PassState};
    ghost use Rattle.cf_hall.specs.Standing.{StandsFor};

    ghost Value = { PassState };

    ghost view = { λ s. s.tie };

    ghost invariant = { λ s. StandsFor N.table N.plan K s.table s.tie };
}

impl<N: City, const K: usize> Stripe<N, K> {
    /// Parts with the stripe for good, as its place does once the hall is closed.
    pub(crate) fn end(self) {
        let Stripe { table: _, tie: _ } = self;
    }
}
