//! What was paid, by vendor.

ghost use Rattle.std.specs.Prelude.{◌≡◌, ℕ, List, OnOk};
ghost use Rattle.cf_model.specs.Common.{Entry};
ghost use Rattle.cf_books_payments.specs.Paid as spec;
ghost use Rattle.cf_books_payments.specs.Paid.{ListsAll};

use crate::entered::Paid;
use std::alloc::AllocError;

/// Sorts what was paid by rising vendor. What a vendor was paid stays in its order. Of what was
/// paid in a calendar year each vendor's rows sum to its total, and all rows to what the payments
/// of the year come to.
pub fn by_vendor(rows: &mut Vec<Paid>) -> Result<(), AllocError>
    ensures sorted { OnOk result (rows.new.items ≡ spec.by_vendor rows.old.items) }
    ensures all { (year : ℕ) (history : List Entry) → ListsAll year history }
{
    rows.sort_by_key(|paid| paid.vendor)
}
