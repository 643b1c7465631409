//! What acts on capital assets, debt and leave do to accounts, as deeds of the posting table.

ghost use Rattle.std.specs.Prelude.{◌≡◌, ◌==◌, true, map, IfOk};
ghost use Rattle.std.specs.List.{filter};
ghost use Rattle.cf_base.specs.Common.{is_day};
ghost use Rattle.cf_calls.specs.declared.acts.Act.TheVariants as act;
ghost use Rattle.cf_model.specs.Charted as charted;
ghost use Rattle.cf_model.specs.Deeds as spec;
ghost use Rattle.cf_model.specs.Common.{Registers as Entered};
ghost use Rattle.cf_registers.specs.Numbered.{AreNumberedAssets, AreNumberedBonds};

use crate::deeds::one;
use crate::registers::Registers;
use cf_assets::Assets;
use cf_base::Day;
use cf_calls::acts::{AssetAct, BondIssue, DebtPayment, Disposal, Donation, LeaveAct, NewLease};
use cf_chart::Chart;
use cf_debt::Debt;
use cf_post::deed::{self, Deed, DuePayment, FunctionAmount, FundAmount, MaturedLeave};
use cf_register_parts::{function_of, year_of_day};
use std::alloc::{AllocError, Global};

/// A capital asset is given to a department's function.
fn donate(chart: &Chart, year: u16, gift: &Donation) -> Deed
    ensures { result ≡ Deed.Donate
        (record {
          year = year;
          function = charted.function_of chart.now gift.now.dept;
          amount = gift.now.amount;
        }) }
{
    Deed::Donate(FunctionAmount {
        year,
        function: function_of(chart, gift.dept),
        amount: gift.amount,
    })
}

/// A capital asset is disposed of, with what was charged of it.
fn dispose(
    alloc: Global,
    chart: &Chart,
    assets: &Assets,
    on: Day,
    disposal: &Disposal,
) -> Result<Vec<Deed>, AllocError>
    requires day { is_day on ≡ true }
    requires numbered { AreNumberedAssets assets.now.assets }
    ensures { IfOk result
        (λ v. v.items ≡ map (spec.dispose_deed chart.now assets.now.closed on disposal.now)
        (filter (λ a. a.number == disposal.now.asset) assets.now.assets)) }
{
    match assets.asset(disposal.asset) {
        Some(asset) => one(
            alloc,
            Deed::Dispose(deed::Disposal {
                year: year_of_day(chart, on),
                fund: disposal.fund,
                function: asset.function,
                cost: asset.cost,
                depreciation: asset.depreciation,
                proceeds: disposal.proceeds,
            }),
        ),
        None => Ok(Vec::new(alloc)),
    }
}

/// A capital asset is given or disposed of.
pub fn asset_deeds(
    alloc: Global,
    chart: &Chart,
    registers: &Registers,
    on: Day,
    what: &AssetAct,
) -> Result<Vec<Deed>, AllocError>
    requires day { is_day on ≡ true }
    requires numbered { AreNumberedAssets registers.now.registers.assets }
    ensures { IfOk result
        (λ v. v.items ≡ spec.deeds_of chart.now registers.now.registers on (act.Asset what.now)) }
{
    match what {
        AssetAct::Donate(gift) => one(alloc, donate(chart, year_of_day(chart, on), gift)),
        AssetAct::Dispose(disposal) => dispose(alloc, chart, registers.assets(), on, disposal),
    }
}

/// A bond is issued.
pub fn issue(year: u16, bond: &BondIssue) -> Deed
    ensures { result ≡ Deed.Issue
        (record { year = year; fund = bond.now.fund; amount = bond.now.amount }) }
{
    Deed::Issue(FundAmount {
        year,
        fund: bond.fund,
        amount: bond.amount,
    })
}

/// A lease begins: the fund has other financing and an expenditure of its amount (GASB Statement
/// 87).
pub fn lease(year: u16, contract: &NewLease) -> Deed
    ensures { result ≡ Deed.Lease
        (record {
          year = year;
          fund = contract.now.account.fund;
          amount = contract.now.account.amount;
        }) }
{
    Deed::Lease(FundAmount {
        year,
        fund: contract.account.fund,
        amount: contract.account.amount,
    })
}

/// The next payment of a bond or of a lease is paid, in the fiscal year in which it is due.
pub fn pay_due(
    alloc: Global,
    chart: &Chart,
    debt: &Debt,
    on: Day,
    payment: &DebtPayment,
) -> Result<Vec<Deed>, AllocError>
    requires day { is_day on ≡ true }
    requires numbered { AreNumberedBonds debt.now.debts.bonds }
    ensures { IfOk result
        (λ v. v.items ≡ spec.bonds_deeds chart.now on payment.now.fund
        (filter (λ b. b.number == payment.now.bond) debt.now.debts.bonds)) }
{
    match debt.due(chart, payment.bond) {
        Some(due) => one(
            alloc,
            Deed::PayDue(DuePayment {
                due_year: due.year,
                year: year_of_day(chart, on),
                fund: payment.fund,
                is_lease: due.is_lease,
                principal: due.principal,
                interest: due.interest,
            }),
        ),
        None => Ok(Vec::new(alloc)),
    }
}

/// Leave is earned or used in a department's function, or paid out in cash.
pub fn leave(
    alloc: Global,
    chart: &Chart,
    on: Day,
    what: &LeaveAct,
) -> Result<Vec<Deed>, AllocError>
    requires { is_day on ≡ true }
    ensures { IfOk result
        (λ v. (s : Entered) → v.items ≡ spec.deeds_of chart.now s on (act.Leave what.now)) }
{
    let year = year_of_day(chart, on);
    let deed = match what {
        LeaveAct::Earn(leave) => Deed::EarnLeave(FunctionAmount {
            year,
            function: function_of(chart, leave.dept),
            amount: leave.amount,
        }),
        LeaveAct::Use(leave) => Deed::UseLeave(FunctionAmount {
            year,
            function: function_of(chart, leave.dept),
            amount: leave.amount,
        }),
        LeaveAct::Mature(leave) => Deed::MatureLeave(MaturedLeave {
            year,
            fund: leave.fund,
            function: function_of(chart, leave.dept),
            amount: leave.amount,
        }),
    };
    one(alloc, deed)
}
