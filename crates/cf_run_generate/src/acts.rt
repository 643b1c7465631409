//! The acts of the generator.

ghost use Rattle.std.specs.Prelude.{◌≡◌, ◌+◌, ◌≤◌, ◌<◌, IfOk, IfSome};
ghost use Rattle.cf_calls.specs.Common.{role_of as role};
ghost use Rattle.cf_run_generate.specs.Acts as spec;

use crate::turn::{Choice, Turn};
use cf_base::{Day, Month};
use cf_calls::acts::{Adoption, NewOrder, NewVoucher, Period};
use cf_calls::items::{AccountItem, Charge, LineAmount, Liquidation, SourceAmount, VoucherItem};
use cf_calls::{Act, Change, Key, List, Role, role_of};
use std::alloc::{AllocError, Global};

/// The day of all calls.
const DAY: Day = Day {
    year: 2025,
    month: 7,
    day: 1,
};

/// What each control line is adopted with, in cents.
const BUDGET: u64 = 1_000_000_000_000;

/// The desk that has the role of an act.
fn desk_of(act: &Act) -> u16
    ensures { result ≡ spec.desk_of (role act.now) }
{
    match role_of(act) {
        Role::Council => 1,
        Role::Dept => 2,
        Role::Purchasing => 3,
        Role::Payables => 4,
        Role::Treasury => 5,
        Role::Revenue => 6,
        Role::Assets => 7,
        Role::Payroll => 8,
        Role::Controller => 9,
    }
}

/// The call of this number.
pub fn change_of(alloc: Global, number: u32, act: Act) -> Result<Change, AllocError>
    ensures { IfOk result (λ c. c ≡ spec.change_of number act) }
{
    let text = format!(in alloc; "g{number}")?;
    Ok(Change {
        desk: desk_of(&act),
        key: Key::new(alloc, text.as_str())?,
        on: DAY,
        after: None,
        act,
    })
}

/// The budget of a fund for fiscal year 2026: the same amount for each of its lines.
pub fn adoption(alloc: Global, fund: u16, first: u16, count: u16) -> Result<Act, AllocError>
    requires { first + count ≤ 40 }
    ensures { IfOk result (λ a. a ≡ spec.adoption fund first count) }
{
    let mut lines = List::new(alloc);
    for line in first..first + count {
        lines.push(LineAmount {
            line,
            amount: BUDGET,
        })?;
    }
    Ok(Act::Adopt(Adoption {
        fund,
        year: 2026,
        lines,
        estimates: List::new(alloc),
    }))
}

/// An amount received on a revenue source.
pub fn receipt(source: u16, amount: u64) -> Act
    ensures { result ≡ spec.receipt source amount }
{
    Act::Receive(SourceAmount { source, amount })
}

/// The close of July 2025.
pub fn month_close() -> Act
    ensures { result ≡ spec.month_close }
{
    Act::Close(Period::Month(Month {
        year: 2025,
        month: 7,
    }))
}

/// The account of a control line.
fn account_of(line: u16, amount: u64) -> AccountItem
    requires { line < 40 }
    ensures { result ≡ spec.account_of line amount }
{
    let (fund, dept, object) = match line {
        0..30 => (1, line / 10 + 1, 101 + line % 10),
        30..38 => (2, 4, 71 + line),
        38 => (3, 4, 111),
        _ => (3, 1, 111),
    };
    AccountItem {
        fund,
        dept,
        object,
        amount,
    }
}

fn order(alloc: Global, line: u16, amount: u64) -> Result<Act, AllocError>
    requires { line < 40 }
    ensures { IfOk result (λ a. a ≡ spec.order line amount) }
{
    let mut items = List::new(alloc);
    items.push(account_of(line, amount))?;
    Ok(Act::Order(NewOrder {
        vendor: 1,
        requisition: None,
        items,
    }))
}

fn voucher(alloc: Global, line: u16, amount: u64, charge: Charge) -> Result<Act, AllocError>
    requires { line < 40 }
    ensures { IfOk result (λ a. a ≡ spec.voucher line amount charge) }
{
    let mut items = List::new(alloc);
    items.push(VoucherItem {
        account: account_of(line, amount),
        charge,
    })?;
    Ok(Act::Voucher(NewVoucher {
        vendor: 1,
        back: false,
        items,
    }))
}

/// The final voucher on the last order, where it waits for one, and else a direct one.
fn last_voucher(alloc: Global, turn: Turn) -> Result<Act, AllocError>
    requires { IfSome turn.waiting (λ line. line < 40) }
    ensures { IfOk result (λ a. a ≡ spec.last_voucher turn turn.waiting) }
{
    match turn.waiting {
        Some(line) => voucher(
            alloc,
            line,
            turn.amount(),
            Charge::OnOrder {
                item: 1,
                order: turn.orders,
                how: Liquidation::Final,
            },
        ),
        None => voucher(alloc, turn.line(), turn.amount(), Charge::Direct),
    }
}

/// The act of a turn.
pub fn act_of(alloc: Global, turn: Turn) -> Result<Act, AllocError>
    requires { IfSome turn.waiting (λ line. line < 40) }
    ensures { IfOk result (λ a. a ≡ spec.act_of turn) }
{
    match turn.choice() {
        Choice::Order => order(alloc, turn.line(), turn.amount()),
        Choice::Direct => voucher(alloc, turn.line(), turn.amount(), Charge::Direct),
        Choice::Final => last_voucher(alloc, turn),
        Choice::Receipt => Ok(receipt(4, turn.amount())),
    }
}
