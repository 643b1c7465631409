//! What each vendor was paid.

ghost use Rattle.std.specs.Prelude.{◌≡◌, ◌≤◌, ◌<◌, ◌+◌, ◌*◌, ◌^◌, ◌+ℤ◌, ◌==◌, if◌then◌else◌, ℕ, length, unsigned_abs, IfOk, OnOk};
ghost use Rattle.cf_base.specs.Common.{most_entries};
ghost use Rattle.cf_books_payments.specs.Entering.{AreSmall, sum_at};
ghost use Rattle.cf_books_payments.specs.Paid as spec;

use crate::entered::Paid;
use std::alloc::{AllocError, Global};
use std::collections::BTreeMap;

/// What each vendor was paid, in cents.
#[derive(Drop)]
pub struct Totals {
    pub sums: BTreeMap<u32, i128>,
}

impl Totals {
    /// What a vendor was paid: zero where it was paid nothing.
    pub fn of(&self, vendor: u32) -> i128
        ensures { result ≡ sum_at self.now vendor }
    {
        match self.sums.get(&vendor) {
            Some(sum) => *sum,
            None => 0,
        }
    }

    /// Adds what was paid.
    fn add(&mut self, paid: &Paid) -> Result<(), AllocError>
        requires { unsigned_abs (sum_at self.old paid.now.vendor) + unsigned_abs paid.now.amount
            < 2 ^ 127 }
        ensures { OnOk result ((n : ℕ) → sum_at self.new n
            ≡ (if paid.now.vendor == n then sum_at self.old n +ℤ paid.now.amount
            else sum_at self.old n)) }
    {
        let sum = self.of(paid.vendor) + paid.amount;
        self.sums.insert(paid.vendor, sum)?;
        Ok(())
    }
}

/// What each vendor was paid of these.
pub fn totals_of(alloc: Global, rows: &[Paid]) -> Result<Totals, AllocError>
    requires small { AreSmall rows.now }
    requires few { length rows.now ≤ 64 * most_entries }
    ensures { IfOk result (λ totals. (vendor : ℕ) → sum_at totals vendor
        ≡ spec.paid_to vendor rows.now) }
{
    let mut totals = Totals {
        sums: BTreeMap::new(alloc),
    };
    for row in rows {
        totals.add(row)?;
    }
    Ok(totals)
}
