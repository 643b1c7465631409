//! What an accepted entry made.

ghost use Rattle.std.specs.Prelude.{◌≡◌, ◌≤◌, true, length};
ghost use Rattle.std.specs.List.{filter};
ghost use Rattle.cf_base.specs.Common.{is_day};
ghost use Rattle.cf_calls.specs.Common.{IsActInForm};
ghost use Rattle.cf_chart.specs.Common.{object_at};
ghost use Rattle.cf_model.specs.Common.{is_capital as is_capital_object, bill_at};
ghost use Rattle.cf_model.specs.Results as results;

use crate::registers::Registers;
use cf_base::Day;
use cf_calls::acts::AssetAct;
use cf_calls::items::VoucherItem;
use cf_calls::{Act, Drawn, Entry, Made};
use cf_chart::Chart;
use cf_debt::Debt;
use cf_register_parts::is_capital;
use cf_revenue::Revenue;

/// What an accepted entry made, over the registers before it.
pub fn made_of(chart: &Chart, registers: &Registers, entry: &Entry) -> Made
    requires day { is_day entry.now.change.on ≡ true }
    requires form { IsActInForm entry.now.change.on entry.now.change.act }
    ensures { result ≡ results.made_of chart.now registers.now.registers entry.now }
{
    let change = &entry.change;
    made_by(chart, registers, change.on, entry.drawn, &change.act)
}

/// The fiscal year that a collection on a bill is revenue of.
fn made_year(chart: &Chart, revenue: &Revenue, on: Day, bill: u32) -> Made
    requires { is_day on ≡ true }
    ensures { result ≡ results.made_year chart.now on (bill_at bill revenue.now.receivables.bills) }
{
    match revenue.collected_year(chart, on, bill) {
        Some(year) => Made::Year { year },
        None => Made::Nothing,
    }
}

/// What the next payment of a bond pays.
fn made_paid(chart: &Chart, debt: &Debt, bond: u32) -> Made
    ensures { result ≡ results.made_paid (results.bond_at bond debt.now.debts.bonds) }
{
    match debt.due(chart, bond) {
        Some(due) => Made::Paid {
            interest: due.interest,
            principal: due.principal,
        },
        None => Made::Nothing,
    }
}

/// How many assets a voucher draws: one for each item on a capital object.
fn capital_items(chart: &Chart, items: &[VoucherItem]) -> u16
    requires { length items.now ≤ 32 }
    ensures { result ≡ length
        (filter (λ i. is_capital_object (object_at chart.now i.account.object)) items.now) }
{
    let mut count = 0;
    for item in items {
        if is_capital(chart, item.account.object) {
            count += 1;
        }
    }
    count
}

fn made_by(chart: &Chart, registers: &Registers, on: Day, drawn: Drawn, act: &Act) -> Made
    requires day { is_day on ≡ true }
    requires form { IsActInForm on act.now }
    ensures { result ≡ results.made_by chart.now registers.now.registers on drawn act.now }
{
    let number = drawn.number;
    match act {
        Act::Requisition(_) => Made::Requisition { number },
        Act::Order(_) => Made::Order { number },
        Act::Voucher(voucher) => Made::Voucher {
            number,
            first_asset: drawn.second,
            assets: capital_items(chart, voucher.items.as_slice()),
        },
        Act::Bill(_) => Made::Bill { number },
        Act::Collect(part) => made_year(chart, registers.revenue(), on, part.bill),
        Act::Asset(AssetAct::Donate(_)) => Made::Asset { number },
        Act::Issue(_) => Made::Bond { number },
        Act::Lease(_) => Made::Lease {
            asset: number,
            bond: drawn.second,
        },
        Act::PayDue(payment) => made_paid(chart, registers.debt(), payment.bond),
        Act::Adopt(_)
        | Act::Amend(_)
        | Act::Transfer(_)
        | Act::Withdraw(_)
        | Act::ChangeOrder(_)
        | Act::CancelOrder(_)
        | Act::VoidVoucher(_)
        | Act::Pay(_)
        | Act::Receive(_)
        | Act::WriteOff(_)
        | Act::Asset(AssetAct::Dispose(_))
        | Act::Leave(_)
        | Act::Interfund(_)
        | Act::Close(_) => Made::Nothing,
    }
}
