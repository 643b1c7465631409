//! The ledgers of accepted calls and of fault replies: the totals, which stand with the history,
//! and the parts, of which each pass has one.

ghost use Rattle.std.specs.Prelude.{◌≡◌, ◌+◌, ◌<◌};

use crate::names::{Accepted, City, Faulted};
use std::marker::Model;
use std::sync::ledger::{Blank, Book, Share};

/// How many calls were accepted in the hall, and how many fault replies there were.
#[derive(Drop)]
pub struct Totals<N: City> {
    accepted: Book<Accepted<N>>,
    faulted: Book<Faulted<N>>,
}

impl<N: City> Model for Totals<N> {
    ghost use Rattle.cf_hall_names.specs.Shares.{TotalsState};

    ghost Value = { TotalsState };

    ghost view = { λ t. record { accepted = t.accepted.total; faulted = t.faulted.total } };
}

/// Parts of both ledgers, with what they count of the totals.
#[derive(Drop)]
pub struct Shares<N: City> {
    accepted: Share<Accepted<N>>,
    faulted: Share<Faulted<N>>,
}

impl<N: City> Model for Shares<N> {
    ghost use Rattle.std.specs.Prelude.{◌≡◌};
    ghost use Rattle.cf_hall_names.specs.Shares.{SharesState};

    ghost Value = { SharesState };

    ghost view = { λ s.
        record {
          parts = s.accepted.parts;
          accepted = s.accepted.amount;
          faulted = s.faulted.amount;
        } };

    ghost invariant = { λ s. s.faulted.parts ≡ s.accepted.parts };
}

impl<N: City> Totals<N> {
    /// Opens the two ledgers, and gives all of their parts.
    pub fn open(accepted: Blank, faulted: Blank) -> (Totals<N>, Shares<N>)
        requires accepted { (accepted.name ≡ N.accepted) × (accepted.parts ≡ 65536) }
        requires faulted { (faulted.name ≡ N.faulted) × (faulted.parts ≡ 65536) }
        ensures totals { result.0 ≡ record { accepted = 0; faulted = 0 } }
        ensures shares { result.1 ≡ record { parts = 65536; accepted = 0; faulted = 0 } }
    {
        let (accepted, accepted_share) = accepted.open::<Accepted<N>>();
        let (faulted, faulted_share) = faulted.open::<Faulted<N>>();
        (
            Totals { accepted, faulted },
            Shares {
                accepted: accepted_share,
                faulted: faulted_share,
            },
        )
    }

    /// Counts an accepted call.
    pub fn accept(&mut self, shares: &mut Shares<N>)
        requires { 0 < shares.old.parts }
        ensures total { self.new ≡ record self.old { accepted = self.old.accepted + 1 } }
        ensures shares { shares.new ≡ record shares.old { accepted = shares.old.accepted + 1 } }
    {
        self.accepted.add(&mut shares.accepted, 1);
    }

    /// Counts a fault reply.
    pub fn fault(&mut self, shares: &mut Shares<N>)
        requires { 0 < shares.old.parts }
        ensures total { self.new ≡ record self.old { faulted = self.old.faulted + 1 } }
        ensures shares { shares.new ≡ record shares.old { faulted = shares.old.faulted + 1 } }
    {
        self.faulted.add(&mut shares.faulted, 1);
    }

    /// Who has all parts counts all of the totals.
    pub fn audit(&mut self, shares: &mut Shares<N>)
        ensures totals { self.new ≡ self.old }
        ensures shares { shares.new ≡ shares.old }
        ensures accepted { shares.old.parts ≡ 65536 → shares.old.accepted ≡ self.old.accepted }
        ensures faulted { shares.old.parts ≡ 65536 → shares.old.faulted ≡ self.old.faulted }
    {
        self.accepted.audit(&mut shares.accepted);
        self.faulted.audit(&mut shares.faulted);
    }
}

impl<N: City> Shares<N> {
    /// Gives one part of each ledger, where the parts count nothing.
    pub fn split_one(&mut self) -> Shares<N>
        requires some { 0 < self.old.parts }
        requires none { (self.old.accepted ≡ 0) × (self.old.faulted ≡ 0) }
        ensures one { result ≡ record { parts = 1; accepted = 0; faulted = 0 } }
        ensures parts { self.new.parts + 1 ≡ self.old.parts }
        ensures counts { (self.new.accepted ≡ 0) × (self.new.faulted ≡ 0) }
    {
        Shares {
            accepted: self.accepted.split_off(1, 0),
            faulted: self.faulted.split_off(1, 0),
        }
    }

    /// Takes parts in, with what they count.
    pub fn merge(&mut self, other: Shares<N>)
        ensures { self.new ≡ record {
          parts = self.old.parts + other.parts;
          accepted = self.old.accepted + other.accepted;
          faulted = self.old.faulted + other.faulted;
        } }
    {
        let Shares { accepted, faulted } = other;
        self.accepted.merge(accepted);
        self.faulted.merge(faulted);
    }
}
