//! How documents stand, by what looks at them show.

ghost use Rattle.std.specs.Prelude.{◌≡◌};
ghost use Rattle.std.specs.Option.{option_copied};
ghost use Rattle.cf_books_documents.specs.Standing as spec;

use crate::facts::State;
use cf_calls::Shown;
use cf_calls::shown::{AssetState, ItemState, OrderItemShown, RequisitionState, VoucherState};

/// How a document stands. Amounts are in cents.
#[derive(Clone, Copy)]
pub struct Standing {
    pub state: Option<State>,
    pub year: Option<u16>,
    pub amount: i128,
    pub left: i128,
}

/// What no look shows.
pub fn unseen(amount: i128) -> Standing
    ensures { result ≡ spec.unseen amount }
{
    Standing {
        state: None,
        year: None,
        amount,
        left: 0,
    }
}

fn requisition_state(state: RequisitionState) -> State
    ensures { result ≡ spec.requisition_state state }
{
    match state {
        RequisitionState::Open => State::Open,
        RequisitionState::Withdrawn => State::Withdrawn,
        RequisitionState::Ordered => State::Ordered,
        RequisitionState::Lapsed => State::Lapsed,
    }
}

fn item_state(state: ItemState) -> State
    ensures { result ≡ spec.item_state state }
{
    match state {
        ItemState::Live => State::Live,
        ItemState::Finished => State::Finished,
        ItemState::Lapsed => State::Lapsed,
        ItemState::Cancelled => State::Cancelled,
    }
}

fn voucher_state(state: VoucherState) -> State
    ensures { result ≡ spec.voucher_state state }
{
    match state {
        VoucherState::Open => State::Open,
        VoucherState::Paid => State::Paid,
        VoucherState::Void => State::Void,
    }
}

fn asset_state(state: AssetState) -> State
    ensures { result ≡ spec.asset_state state }
{
    match state {
        AssetState::Held => State::Held,
        AssetState::Disposed => State::Disposed,
        AssetState::Void => State::Void,
    }
}

/// What is left of an amount: all of it while the state is open or held.
fn open_part(state: State, amount: i128) -> i128
    ensures { result ≡ spec.open_part state amount }
{
    match state {
        State::Open | State::Held => amount,
        State::Withdrawn
        | State::Ordered
        | State::Lapsed
        | State::Live
        | State::Finished
        | State::Cancelled
        | State::Paid
        | State::Void
        | State::Disposed
        | State::Settled
        | State::Repaid => 0,
    }
}

/// A requisition of an amount.
pub fn requisition_now(shown: Option<&Shown>, amount: i128) -> Standing
    ensures { result ≡ spec.requisition_now (option_copied shown.entry) amount }
{
    match shown {
        Some(
            Shown::Requisition {
                items: _,
                state,
                year,
            },
        ) => {
            let state = requisition_state(*state);
            Standing {
                state: Some(state),
                year: Some(*year),
                amount,
                left: open_part(state, amount),
            }
        }
        None
        | Some(
            Shown::Line(_)
            | Shown::Order { .. }
            | Shown::Voucher { .. }
            | Shown::Bill { .. }
            | Shown::Asset { .. }
            | Shown::Bond { .. }
            | Shown::Leave { .. }
            | Shown::Account { .. }
            | Shown::Reconcile(_)
            | Shown::Report { .. },
        ) => unseen(amount),
    }
}

/// The item of an order at a place, from 0.
pub fn item_shown(shown: Option<&Shown>, nth: usize) -> Option<OrderItemShown>
    ensures { result ≡ spec.item_shown (option_copied shown.entry) nth }
{
    match shown {
        Some(Shown::Order { items, vendor: _ }) => items.as_slice().get(nth).copied(),
        None
        | Some(
            Shown::Line(_)
            | Shown::Requisition { .. }
            | Shown::Voucher { .. }
            | Shown::Bill { .. }
            | Shown::Asset { .. }
            | Shown::Bond { .. }
            | Shown::Leave { .. }
            | Shown::Account { .. }
            | Shown::Reconcile(_)
            | Shown::Report { .. },
        ) => None,
    }
}

/// An order's item of an amount.
pub fn item_now(shown: Option<OrderItemShown>, amount: u64) -> Standing
    ensures { result ≡ spec.item_now shown amount }
{
    match shown {
        Some(item) => Standing {
            state: Some(item_state(item.state)),
            year: Some(item.year),
            amount: i128::from(amount),
            left: i128::from(item.open_cents),
        },
        None => unseen(i128::from(amount)),
    }
}

/// A voucher.
pub fn voucher_now(shown: Option<&Shown>) -> Standing
    ensures { result ≡ spec.voucher_now (option_copied shown.entry) }
{
    match shown {
        Some(
            Shown::Voucher {
                amount,
                state,
                year,
            },
        ) => {
            let state = voucher_state(*state);
            let amount = i128::from(*amount);
            Standing {
                state: Some(state),
                year: Some(*year),
                amount,
                left: open_part(state, amount),
            }
        }
        None
        | Some(
            Shown::Line(_)
            | Shown::Requisition { .. }
            | Shown::Order { .. }
            | Shown::Bill { .. }
            | Shown::Asset { .. }
            | Shown::Bond { .. }
            | Shown::Leave { .. }
            | Shown::Account { .. }
            | Shown::Reconcile(_)
            | Shown::Report { .. },
        ) => unseen(0),
    }
}

fn bill_state(left: u64) -> State
    ensures { result ≡ spec.bill_state left }
{
    if left == 0 {
        State::Settled
    } else {
        State::Open
    }
}

/// A bill of an amount.
pub fn bill_now(shown: Option<&Shown>, amount: u64) -> Standing
    ensures { result ≡ spec.bill_now (option_copied shown.entry) amount }
{
    match shown {
        Some(
            Shown::Bill {
                left,
                levy_year,
                source: _,
            },
        ) => Standing {
            state: Some(bill_state(*left)),
            year: Some(*levy_year),
            amount: i128::from(amount),
            left: i128::from(*left),
        },
        None
        | Some(
            Shown::Line(_)
            | Shown::Requisition { .. }
            | Shown::Order { .. }
            | Shown::Voucher { .. }
            | Shown::Asset { .. }
            | Shown::Bond { .. }
            | Shown::Leave { .. }
            | Shown::Account { .. }
            | Shown::Reconcile(_)
            | Shown::Report { .. },
        ) => unseen(i128::from(amount)),
    }
}

/// An asset of a fiscal year: what is left is its cost, less its depreciation, while it is held.
pub fn asset_now(shown: Option<&Shown>, year: u16, amount: u64) -> Standing
    ensures { result ≡ spec.asset_now (option_copied shown.entry) year amount }
{
    match shown {
        Some(
            Shown::Asset {
                cost,
                depreciation,
                state,
            },
        ) => {
            let state = asset_state(*state);
            let worth = cost.saturating_sub(*depreciation);
            Standing {
                state: Some(state),
                year: Some(year),
                amount: i128::from(amount),
                left: open_part(state, i128::from(worth)),
            }
        }
        None
        | Some(
            Shown::Line(_)
            | Shown::Requisition { .. }
            | Shown::Order { .. }
            | Shown::Voucher { .. }
            | Shown::Bill { .. }
            | Shown::Bond { .. }
            | Shown::Leave { .. }
            | Shown::Account { .. }
            | Shown::Reconcile(_)
            | Shown::Report { .. },
        ) => unseen(i128::from(amount)),
    }
}

/// A bond or a lease of a fiscal year: open while a payment is to come.
pub fn debt_now(shown: Option<&Shown>, year: u16, amount: u64) -> Standing
    ensures { result ≡ spec.debt_now (option_copied shown.entry) year amount }
{
    match shown {
        Some(
            Shown::Bond {
                accrued: _,
                next,
                outstanding,
            },
        ) => Standing {
            state: Some(if next.is_some() {
                State::Open
            } else {
                State::Repaid
            }),
            year: Some(year),
            amount: i128::from(amount),
            left: i128::from(*outstanding),
        },
        None
        | Some(
            Shown::Line(_)
            | Shown::Requisition { .. }
            | Shown::Order { .. }
            | Shown::Voucher { .. }
            | Shown::Bill { .. }
            | Shown::Asset { .. }
            | Shown::Leave { .. }
            | Shown::Account { .. }
            | Shown::Reconcile(_)
            | Shown::Report { .. },
        ) => unseen(i128::from(amount)),
    }
}

/// A loan of a fiscal year and an amount: what is left of it, of what the fund that borrowed owes
/// the one that lent.
pub fn loan_now(year: u16, amount: u64, owed: u64) -> Standing
    ensures { result ≡ spec.loan_now year amount owed }
{
    let left = amount.min(owed);
    Standing {
        state: Some(if left == 0 {
            State::Repaid
        } else {
            State::Open
        }),
        year: Some(year),
        amount: i128::from(amount),
        left: i128::from(left),
    }
}
