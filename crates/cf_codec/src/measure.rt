//! How many bytes an entry has. The bounds are far from tight: they say that the sums fit.

ghost use Rattle.std.specs.Prelude.{◌≡◌, ◌<◌, ◌≤◌, length};
ghost use Rattle.cf_calls.specs.Common.{IsActInForm, IsAdoptionForm, IsEntryInForm};
ghost use Rattle.cf_codec.specs.Acts as spec;
ghost use Rattle.cf_codec.specs.Entries as entries;

use crate::items::{
    AccountElement, LineElement, Principal, SourceElement, VoucherElement, VoucherNumber,
};
use cf_base::Day;
use cf_calls::acts::{Adoption, AssetAct, LeaveAct, Period, Terms};
use cf_calls::{Act, Draws, Entry};
use cf_codec_fields::lists::list_len;

fn adoption_len(adoption: &Adoption) -> u64
    requires { IsAdoptionForm adoption.now }
    ensures size { result ≡ spec.adoption.size adoption.now }
    ensures small { result ≤ 33423368 }
{
    4 + list_len::<LineElement>(adoption.lines.as_slice())
        + list_len::<SourceElement>(adoption.estimates.as_slice())
}

fn terms_len(on: Day, terms: &Terms) -> u64
    requires { length terms.now.principals < 65536 }
    ensures size { result ≡ (spec.terms on 0 0).size terms.now }
    ensures small { result ≤ 16711685 }
{
    3 + list_len::<Principal>(terms.principals.as_slice())
}

/// How many bytes the fields of an act have.
#[tactic(auto, unfolding(crate::specs::Acts::act_size))]
fn act_len(on: Day, act: &Act) -> u64
    requires { IsActInForm on act.now }
    ensures size { result ≡ spec.act_size on act.now }
    ensures small { result ≤ 33423368 }
{
    match act {
        Act::Adopt(adoption) => adoption_len(adoption),
        Act::Amend(_) => 15,
        Act::Transfer(_) => 16,
        Act::Requisition(new_requisition) => list_len::<AccountElement>(
            new_requisition.items.as_slice(),
        ),
        Act::Withdraw(_) => 4,
        Act::Order(new_order) => {
            let requisition = if new_order.requisition.is_some() {
                5
            } else {
                1
            };
            4 + requisition + list_len::<AccountElement>(new_order.items.as_slice())
        }
        Act::ChangeOrder(_) => 21,
        Act::CancelOrder(_) => 4,
        Act::Voucher(new_voucher) => 5 + list_len::<VoucherElement>(new_voucher.items.as_slice()),
        Act::VoidVoucher(_) => 4,
        Act::Pay(payment) => list_len::<VoucherNumber>(payment.vouchers.as_slice()),
        Act::Bill(_) => 16,
        Act::Collect(_) => 12,
        Act::Receive(_) => 10,
        Act::WriteOff(_) => 12,
        Act::Asset(AssetAct::Donate(_)) => 13,
        Act::Asset(AssetAct::Dispose(_)) => 15,
        Act::Issue(issue) => 10 + terms_len(on, &issue.terms),
        Act::PayDue(_) => 12,
        Act::Leave(LeaveAct::Mature(_)) => 15,
        Act::Leave(_) => 13,
        Act::Interfund(_) => 13,
        Act::Close(Period::Month(_)) => 4,
        Act::Close(Period::Year(_)) => 3,
        Act::Lease(lease) => 18 + terms_len(on, &lease.terms),
    }
}

/// How many bytes the numbers that an act draws have.
fn drawn_len(entry: &Entry) -> u64
    ensures size { result ≡ (entries.drawn_for entry.now.change.act).size entry.now.drawn }
    ensures small { result ≤ 8 }
{
    match entry.change.act.draws() {
        Draws::Nothing => 0,
        Draws::Number => 4,
        Draws::Both => 8,
        Draws::Payment => 2,
    }
}

/// How many bytes the payload of an entry has.
pub fn entry_len(entry: &Entry) -> u64
    requires { IsEntryInForm entry.now }
    ensures size { result ≡ entries.entry.size entry.now }
    ensures small { result ≤ 33423424 }
{
    let change = &entry.change;
    8 + change.key.as_str().len() as u64 + act_len(change.on, &change.act) + drawn_len(entry)
}
