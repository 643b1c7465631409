//! Sums by fiscal year, for the reconciliation (GASB Statement 34).

ghost use Rattle.std.specs.Prelude.{◌≡◌, ◌≤◌, ◌<◌, ◌^◌, unsigned_abs};
ghost use Rattle.cf_base.specs.Common.{last_fiscal_year};
ghost use Rattle.cf_debt.specs.Register.{registers_with, debt_changes};
ghost use Rattle.cf_model.specs.Items as items;

use crate::debt::Debt;
use cf_chart::Chart;
use cf_register_parts::{difference, total_of, total_through, years_to};

/// What bonds add to the change of a fiscal year, in cents.
#[derive(Clone, Copy)]
pub struct DebtChanges {
    /// Of bonds issued in the year: below zero.
    pub proceeds: i128,
    /// Of leases that began in the year: below zero.
    pub leases_issued: i128,
    /// The principal of paid payments that were due in the year.
    pub principal_paid: i128,
}

impl Debt {
    /// Bonds payable through a fiscal year up to 2200, in cents: what was issued, less the
    /// principal paid of payments that were due, and without leases.
    pub fn principal_left(&self, chart: &Chart, year: u16) -> i128
        requires { year ≤ last_fiscal_year }
        ensures value { result ≡ items.bonds chart.now year (registers_with self.now.debts) }
        ensures small { unsigned_abs result < 2 ^ 100 }
    {
        let issued = total_through(&self.issued, year);
        let leased = total_through(&self.leased, year);
        let repaid = total_of(&self.repaid, years_to(chart, year));
        let leases_repaid = total_of(&self.leases_repaid, years_to(chart, year));
        difference(issued + leases_repaid, repaid + leased)
    }

    /// Leases payable through a fiscal year up to 2200, in cents (GASB Statement 87).
    pub fn leases_left(&self, chart: &Chart, year: u16) -> i128
        requires { year ≤ last_fiscal_year }
        ensures value { result ≡ items.leases chart.now year (registers_with self.now.debts) }
        ensures small { unsigned_abs result < 2 ^ 100 }
    {
        let leased = total_through(&self.leased, year);
        let leases_repaid = total_of(&self.leases_repaid, years_to(chart, year));
        difference(leased, leases_repaid)
    }

    /// Accrued interest through a fiscal year up to 2200, in cents: what was charged for its closed
    /// months, less the coupons paid of payments that were due. It may be below zero.
    pub fn accrued(&self, chart: &Chart, year: u16) -> i128
        requires { year ≤ last_fiscal_year }
        ensures value { result ≡ items.accrued chart.now year (registers_with self.now.debts) }
        ensures small { unsigned_abs result < 2 ^ 100 }
    {
        let charged = total_of(&self.charged, years_to(chart, year));
        let coupons = total_of(&self.coupons, years_to(chart, year));
        difference(charged, coupons)
    }

    /// Compensated absences through a fiscal year, in cents (GASB Statement 101).
    pub fn leave_left(&self, year: u16) -> i128
        ensures value { result ≡ items.absences year (registers_with self.now.debts) }
        ensures small { unsigned_abs result < 2 ^ 100 }
    {
        let earned = total_through(&self.earned, year);
        let taken = total_through(&self.taken, year);
        difference(earned, taken)
    }

    /// What bonds add to the change of a fiscal year from 1971 to 2200.
    pub fn year_changes(&self, chart: &Chart, year: u16) -> DebtChanges
        requires from { 1971 ≤ year }
        requires to { year ≤ last_fiscal_year }
        ensures { result ≡ debt_changes chart.now year (registers_with self.now.debts) }
    {
        let issued = total_through(&self.issued, year);
        let issued_before = total_through(&self.issued, year - 1);
        let leased = total_through(&self.leased, year);
        let leased_before = total_through(&self.leased, year - 1);
        let repaid = total_of(&self.repaid, years_to(chart, year));
        let repaid_before = total_of(&self.repaid, years_to(chart, year).saturating_sub(1));
        DebtChanges {
            proceeds: difference(issued_before + leased, issued + leased_before),
            leases_issued: difference(leased_before, leased),
            principal_paid: difference(repaid, repaid_before),
        }
    }
}
