//! The components of net position.
ghost use Rattle.std.specs.Prelude.{◌≡◌, ◌≤◌, ◌<◌, ◌^◌, ◌*◌, ◌++◌, ℕ, true, IfOk, OnOk, length, unsigned_abs};
ghost use Rattle.cf_calls.specs.Common.{IsYear};
ghost use Rattle.cf_classes.specs.Classes.{classes_of as classes_by_fund};
ghost use Rattle.cf_classes.specs.Components as spec;
ghost use Rattle.cf_classes.specs.Components.{ComponentsSum, component_rows};
ghost use Rattle.cf_classes.specs.Sizes.{AreSmall, IsSmallRecon};

use crate::classes::{Classes, classes_of};
use crate::rows::put_rows;
use cf_calls::Row;
use cf_calls::shown::ReconShown;
use cf_chart::Fund;
use cf_statements::{Figures, difference, sum};
use std::alloc::{AllocError, Global};

/// The classes of a fund's balance, and that what is restricted or nonspendable of it is small.
fn small_classes<F: Figures>(figures: &F, year: u16, fund: &Fund) -> Classes
    requires year { IsYear year }
    requires lent { (line : ℕ) → F.lends figures.now line ≡ true }
    requires small { AreSmall (F.plan figures.now) (F.sums figures.now) year }
    ensures value { result
        ≡ classes_by_fund (F.plan figures.now) (F.sums figures.now) year fund.now }
    ensures small { unsigned_abs
        (spec.restricted_of (F.plan figures.now) (F.sums figures.now) year fund.now) < 2 ^ 108 }
    ensures restricted { unsigned_abs (classes_by_fund (F.plan figures.now)
        (F.sums figures.now) year fund.now).restricted < 2 ^ 108 }
    ensures nonspendable { unsigned_abs (classes_by_fund (F.plan figures.now)
        (F.sums figures.now) year fund.now).nonspendable < 2 ^ 108 }
{
    classes_of(figures, year, fund)
}

/// What is restricted or nonspendable of a fund's balance.
fn kept_back<F: Figures>(figures: &F, year: u16, fund: &Fund) -> i128
    requires year { IsYear year }
    requires lent { (line : ℕ) → F.lends figures.now line ≡ true }
    requires small { AreSmall (F.plan figures.now) (F.sums figures.now) year }
    ensures value { result
        ≡ spec.restricted_of (F.plan figures.now) (F.sums figures.now) year fund.now }
    ensures small { unsigned_abs result < 2 ^ 108 }
{
    let classes = small_classes(figures, year, fund);
    sum(classes.restricted, classes.nonspendable)
}

/// What is restricted or nonspendable of these funds' balances.
fn restricted<F: Figures>(figures: &F, year: u16, funds: &[Fund]) -> i128
    requires year { IsYear year }
    requires lent { (line : ℕ) → F.lends figures.now line ≡ true }
    requires small { AreSmall (F.plan figures.now) (F.sums figures.now) year }
    requires few { length funds.now ≤ 64 }
    ensures value { result
        ≡ spec.restricted (F.plan figures.now) (F.sums figures.now) year funds.now }
    ensures small { unsigned_abs result ≤ 64 * 2 ^ 108 }
{
    let mut total = 0;
    for fund in funds {
        total += kept_back(figures, year, fund);
    }
    total
}

/// Capital and right-to-use assets, less the bonds and leases that a reconciliation has below zero.
fn net_investment(recon: &ReconShown) -> i128
    requires { IsSmallRecon recon.now }
    ensures value { result ≡ spec.net_investment recon.now }
    ensures small { unsigned_abs result ≤ 4 * 2 ^ 108 }
{
    let assets = sum(recon.capital_assets, recon.right_to_use);
    let debt = sum(recon.bonds, recon.leases);
    sum(assets, debt)
}

/// The rows of the components of net position (GASB Statement 34), through the year, in cents: what
/// is invested in capital assets less the debt for them, for which all bonds and leases count (own
/// rule); what of fund balances is restricted or nonspendable; and the rest. They sum to net
/// position. It fails exactly for want of memory.
#[tactic(auto, using(crate::proofs::Whole::components_sum))]
pub fn components<F: Figures>(
    alloc: Global,
    figures: &F,
    recon: &ReconShown,
    year: u16,
) -> Result<Vec<Row>, AllocError>
    requires year { IsYear year }
    requires lent { (line : ℕ) → F.lends figures.now line ≡ true }
    requires small { AreSmall (F.plan figures.now) (F.sums figures.now) year }
    requires recon { IsSmallRecon recon.now }
    ensures rows { IfOk result
        (λ rows. rows.items
        ≡ component_rows (F.plan figures.now) (F.sums figures.now) year recon.now) }
    ensures whole { ComponentsSum (F.plan figures.now) (F.sums figures.now) year recon.now }
{
    let investment = net_investment(recon);
    let restricted = restricted(figures, year, figures.chart().funds());
    let rest = difference(recon.net_position, sum(investment, restricted));
    let mut rows = Vec::new(alloc);
    put_components(
        alloc,
        &mut rows,
        investment,
        restricted,
        rest,
        recon.net_position,
    )?;
    Ok(rows)
}

fn put_components(
    alloc: Global,
    rows: &mut Vec<Row>,
    investment: i128,
    restricted: i128,
    rest: i128,
    net_position: i128,
) -> Result<(), AllocError>
    ensures { OnOk result
        (rows.new.items ≡ rows.old.items ++ spec.rows_of investment restricted rest net_position) }
{
    put_rows(
        alloc,
        rows,
        &[
            ("Net investment in capital assets", investment),
            ("Restricted", restricted),
            ("Unrestricted", rest),
            ("Net position", net_position),
        ],
    )
}
