//! The rules on adopted budgets, each as the refusal that it gives.

ghost use Rattle.std.specs.Prelude.{◌≡◌, true};
ghost use Rattle.cf_base.specs.Common.{is_day};
ghost use Rattle.cf_model.specs.RegisterRules as register;
ghost use Rattle.cf_model.specs.Common.{registers_of, first_refusal};
ghost use Rattle.cf_model.specs.Rules as spec;

use cf_base::Day;
use cf_calls::acts::LeaveAct;
use cf_calls::items::{AccountItem, Charge, VoucherItem};
use cf_calls::{Act, Refusal};
use cf_office_history::History;
use cf_register_parts::document_year;

/// The fund's budget of the year was adopted before.
pub fn adopted_refusal(history: &History, act: &Act) -> Option<Refusal>
    ensures { result ≡ spec.adopted_refusal history.now.entries act.now }
{
    match act {
        Act::Adopt(a) => match history.adopted(a.fund, a.year) {
            Some(was) => Some(Refusal::Adopted { was }),
            None => None,
        },
        Act::Amend(_)
        | Act::Transfer(_)
        | Act::Requisition(_)
        | Act::Withdraw(_)
        | Act::Order(_)
        | Act::ChangeOrder(_)
        | Act::CancelOrder(_)
        | Act::Voucher(_)
        | Act::VoidVoucher(_)
        | Act::Pay(_)
        | Act::Bill(_)
        | Act::Collect(_)
        | Act::Receive(_)
        | Act::WriteOff(_)
        | Act::Asset(_)
        | Act::Issue(_)
        | Act::PayDue(_)
        | Act::Leave(_)
        | Act::Interfund(_)
        | Act::Close(_)
        | Act::Lease(_) => None,
    }
}

fn unadopted_fund_refusal(history: &History, fund: u16, year: u16) -> Option<Refusal>
    ensures { result ≡ spec.unadopted_where fund year
        (spec.adopted_at fund year history.now.entries) }
{
    match history.adopted(fund, year) {
        Some(_) => None,
        None => Some(Refusal::NotAdopted { fund, year }),
    }
}

#[tactic(auto, using(cf_model::proofs::First::firsts))]
fn unadopted_items_refusal(history: &History, year: u16, items: &[VoucherItem]) -> Option<Refusal>
    ensures { result ≡ first_refusal
        (λ fund. spec.unadopted_where fund year (spec.adopted_at fund year history.now.entries))
        (spec.direct_funds items.now) }
{
    for item in items {
        if let Some(refusal) = unadopted_item_refusal(history, year, item) {
            return Some(refusal);
        }
    }
    None
}

#[tactic(auto, using(cf_model::proofs::First::firsts))]
fn unadopted_item_refusal(history: &History, year: u16, item: &VoucherItem) -> Option<Refusal>
    ensures { result ≡ first_refusal
        (λ fund. spec.unadopted_where fund year (spec.adopted_at fund year history.now.entries))
        (spec.funds_if_direct item.now.charge item.now.account.fund) }
{
    match &item.charge {
        Charge::Direct => unadopted_fund_refusal(history, item.account.fund, year),
        Charge::OnOrder { .. } => None,
    }
}

#[tactic(auto, using(cf_model::proofs::First::firsts))]
fn unadopted_accounts_refusal(
    history: &History,
    year: u16,
    items: &[AccountItem],
) -> Option<Refusal>
    ensures { result ≡ first_refusal
        (λ i. spec.unadopted_where i.fund year (spec.adopted_at i.fund year history.now.entries))
        items.now }
{
    for item in items {
        if let Some(refusal) = unadopted_fund_refusal(history, item.fund, year) {
            return Some(refusal);
        }
    }
    None
}

/// The fund's budget of the year isn't adopted.
#[tactic(auto, using(cf_model::proofs::First::firsts))]
pub fn unadopted_refusal(history: &History, on: Day, act: &Act) -> Option<Refusal>
    requires { is_day on ≡ true }
    ensures { result ≡ spec.unadopted_refusal history.now.plan history.now.entries on act.now }
{
    match act {
        Act::Amend(a) => unadopted_fund_refusal(history, a.fund, a.year),
        Act::Transfer(t) => unadopted_fund_refusal(history, t.fund, t.year),
        Act::Requisition(r) => {
            let year = document_year(history.chart(), on, act);
            unadopted_accounts_refusal(history, year, r.items.as_slice())
        }
        Act::Order(o) => {
            let year = document_year(history.chart(), on, act);
            unadopted_accounts_refusal(history, year, o.items.as_slice())
        }
        Act::Voucher(v) => {
            let year = document_year(history.chart(), on, act);
            unadopted_items_refusal(history, year, v.items.as_slice())
        }
        Act::Leave(LeaveAct::Mature(leave)) => {
            let year = document_year(history.chart(), on, act);
            unadopted_fund_refusal(history, leave.fund, year)
        }
        Act::Lease(lease) => {
            let year = document_year(history.chart(), on, act);
            unadopted_fund_refusal(history, lease.account.fund, year)
        }
        Act::Adopt(_)
        | Act::Withdraw(_)
        | Act::ChangeOrder(_)
        | Act::CancelOrder(_)
        | Act::VoidVoucher(_)
        | Act::Pay(_)
        | Act::Bill(_)
        | Act::Collect(_)
        | Act::Receive(_)
        | Act::WriteOff(_)
        | Act::Asset(_)
        | Act::Issue(_)
        | Act::PayDue(_)
        | Act::Leave(LeaveAct::Earn(_) | LeaveAct::Use(_))
        | Act::Interfund(_)
        | Act::Close(_) => None,
    }
}

/// The fund's budget of the fiscal year in which a debt payment is due isn't adopted.
pub fn payment_refusal(history: &History, act: &Act) -> Option<Refusal>
    ensures { result ≡ register.payment_refusal history.now.plan history.now.entries
        (registers_of history.now.plan history.now.entries) act.now }
{
    match act {
        Act::PayDue(payment) => match history.debt().due(history.chart(), payment.bond) {
            Some(due) => unadopted_fund_refusal(history, payment.fund, due.year),
            None => None,
        },
        Act::Adopt(_)
        | Act::Amend(_)
        | Act::Transfer(_)
        | Act::Requisition(_)
        | Act::Withdraw(_)
        | Act::Order(_)
        | Act::ChangeOrder(_)
        | Act::CancelOrder(_)
        | Act::Voucher(_)
        | Act::VoidVoucher(_)
        | Act::Pay(_)
        | Act::Bill(_)
        | Act::Collect(_)
        | Act::Receive(_)
        | Act::WriteOff(_)
        | Act::Asset(_)
        | Act::Issue(_)
        | Act::Leave(_)
        | Act::Interfund(_)
        | Act::Close(_)
        | Act::Lease(_) => None,
    }
}
