//! What the roll of a fiscal year carries onto each line of the year after.

ghost use Rattle.std.specs.Prelude.{◌≡◌, ◌≤◌, ◌<◌, ◌+◌, ◌^◌, ◌==◌, ℕ, if◌then◌else◌, length, replicate, slice_index_or, IfOk};
ghost use Rattle.cf_base.specs.Common.{last_year};
ghost use Rattle.cf_orders.specs.Carrying.{AreCarried, adds_to};

use crate::items::open_row;
use crate::lapsing::goes_on;
use crate::orders::Orders;
use crate::rows::ItemRow;
use cf_chart::Chart;
use cf_register_parts::count;
use std::alloc::{AllocError, Global};

/// So many amounts, all zero.
fn zeros(alloc: Global, count: usize) -> Result<Vec<u128>, AllocError>
    ensures { IfOk result (λ v. v.items ≡ replicate count 0) }
{
    vec![in alloc; 0; count]
}

/// Adds to the amount of a line.
fn add_to(amounts: &mut Vec<u128>, line: u16, amount: u64)
    requires within { line < length amounts.old.items }
    requires small { slice_index_or amounts.old.items line 0 < 2 ^ 100 }
    ensures len { length amounts.new.items ≡ length amounts.old.items }
    ensures each { (k : ℕ) → k < length amounts.old.items
        → slice_index_or amounts.new.items k 0
        ≡ slice_index_or amounts.old.items k 0 + (if line == k then amount else 0) }
    ensures most { (k : ℕ) → k < length amounts.old.items
        → slice_index_or amounts.new.items k 0
        ≤ slice_index_or amounts.old.items k 0 + 18446744073709551615 }
{
    amounts[line as usize] += u128::from(amount);
}

/// Adds what is carried of an item to the amount of its line in the year after.
fn carry(amounts: &mut Vec<u128>, chart: &Chart, year: u16, row: &ItemRow)
    requires year { year ≤ last_year }
    requires len { length amounts.old.items ≡ length chart.now.lines }
    requires small { (k : ℕ) → k < length amounts.old.items
        → slice_index_or amounts.old.items k 0 < 2 ^ 100 }
    ensures len { length amounts.new.items ≡ length amounts.old.items }
    ensures each { (k : ℕ) → k < length amounts.old.items
        → slice_index_or amounts.new.items k 0
        ≡ slice_index_or amounts.old.items k 0 + adds_to chart.now k year row.now }
    ensures most { (k : ℕ) → k < length amounts.old.items
        → slice_index_or amounts.new.items k 0
        ≤ slice_index_or amounts.old.items k 0 + 18446744073709551615 }
{
    if !goes_on(chart, year, row) {
        return;
    }
    let account = row.account;
    let Some(line) = chart.line_of(account.fund, account.dept, account.object, row.year + 1) else {
        return;
    };
    add_to(amounts, line.number, open_row(row));
}

impl Orders {
    /// What the roll of a fiscal year carries onto each line of the year after, by the line's
    /// number, in cents. It goes once over the items of orders.
    pub fn carried_amounts(
        &self,
        alloc: Global,
        chart: &Chart,
        year: u16,
    ) -> Result<Vec<u128>, AllocError>
        requires { year ≤ last_year }
        ensures carried { IfOk result
            (λ v. AreCarried chart.now year self.now.documents.items v.items) }
        ensures small { IfOk result
            (λ v. (n : ℕ) → n < length v.items → slice_index_or v.items n 0 < 2 ^ 100) }
    {
        let mut amounts = zeros(alloc, chart.lines().len())?;
        for k in 0..count(&self.items) {
            carry(&mut amounts, chart, year, &self.items[k]);
        }
        Ok(amounts)
    }
}
