//! The readers of the changing calls: the fields of each in order, with the rules of form where
//! they speak.

ghost use Rattle.std.specs.Prelude.{◌≡◌, ◌≤◌, ◌+◌, ◌*◌, nat_le, nat_lt, sum, length, map, IfOk};
ghost use Rattle.cf_base.specs.Common.{last_year};
ghost use Rattle.serde_json.specs.View.{view};
ghost use Rattle.cf_calls.specs.Common.{IsTermsForm, IsActInForm, is_period, month_number};
ghost use Rattle.cf_json_members.specs.Faults.{Gives};
ghost use Rattle.cf_json.specs.Acts as spec;

use crate::items::{ChargedItem, LineItem, PlainItem, Principal, SourceItem, VoucherNumber};
use crate::words::{AssetWord, LeaveWord, MoveWord, PeriodWord};
use cf_base::{Day, LAST_YEAR};
use cf_calls::acts::{
    Adoption, Amendment, AssetAct, BillAmount, BondIssue, DebtPayment, Disposal, Donation,
    FundMove, LeaveAct, LeaveAmount, LeaveMaturity, LineTransfer, NewBill, NewLease, NewOrder,
    NewRequisition, NewVoucher, OrderChange, Payment, Period, Terms,
};
use cf_calls::items::{AccountItem, SourceAmount};
use cf_calls::{Act, ActKind};
use cf_json_members::CallRefused;
use cf_json_members::fields::{may, must, need};
use cf_json_members::kinds::{By, Count, Flag, MonthText, N16, N32, Year};
use cf_json_members::lists::list;
use serde_json::Value;
use std::alloc::Global;

fn adoption(alloc: Global, value: &Value) -> Result<Act, CallRefused>
    ensures answer { Gives result (spec.adoption_of (view value.now)) }
    ensures form { (on : Day) → IfOk result (IsActInForm on) }
{
    let fund = need::<N16>(alloc, value, "fund")?;
    let year = need::<Year>(alloc, value, "year")?;
    let lines = list::<LineItem>(alloc, value, "lines", 0, 4096)?;
    let estimates = list::<SourceItem>(alloc, value, "estimates", 0, 256)?;
    Ok(Act::Adopt(Adoption {
        fund,
        year,
        lines,
        estimates,
    }))
}

fn amendment(alloc: Global, value: &Value) -> Result<Act, CallRefused>
    ensures answer { Gives result (spec.amendment_of (view value.now)) }
    ensures form { (on : Day) → IfOk result (IsActInForm on) }
{
    let fund = need::<N16>(alloc, value, "fund")?;
    let year = need::<Year>(alloc, value, "year")?;
    let line = need::<N16>(alloc, value, "line")?;
    let by = need::<By>(alloc, value, "by")?;
    Ok(Act::Amend(Amendment {
        fund,
        year,
        line,
        by,
    }))
}

fn transfer(alloc: Global, value: &Value) -> Result<Act, CallRefused>
    ensures answer { Gives result (spec.transfer_of (view value.now)) }
    ensures form { (on : Day) → IfOk result (IsActInForm on) }
{
    let fund = need::<N16>(alloc, value, "fund")?;
    let year = need::<Year>(alloc, value, "year")?;
    let from = need::<N16>(alloc, value, "from")?;
    let to = need::<N16>(alloc, value, "to")?;
    must(alloc, from != to, "to")?;
    let amount = need::<Count>(alloc, value, "amount")?;
    Ok(Act::Transfer(LineTransfer {
        fund,
        year,
        from,
        to,
        amount,
    }))
}

fn new_requisition(alloc: Global, value: &Value) -> Result<Act, CallRefused>
    ensures answer { Gives result (spec.new_requisition_of (view value.now)) }
    ensures form { (on : Day) → IfOk result (IsActInForm on) }
{
    let items = list::<PlainItem>(alloc, value, "items", 1, 32)?;
    Ok(Act::Requisition(NewRequisition { items }))
}

fn new_order(alloc: Global, value: &Value) -> Result<Act, CallRefused>
    ensures answer { Gives result (spec.new_order_of (view value.now)) }
    ensures form { (on : Day) → IfOk result (IsActInForm on) }
{
    let vendor = need::<N32>(alloc, value, "vendor")?;
    let requisition = may::<N32>(alloc, value, "requisition")?;
    let items = list::<PlainItem>(alloc, value, "items", 1, 32)?;
    Ok(Act::Order(NewOrder {
        vendor,
        requisition,
        items,
    }))
}

fn order_change(alloc: Global, value: &Value) -> Result<Act, CallRefused>
    ensures answer { Gives result (spec.order_change_of (view value.now)) }
    ensures form { (on : Day) → IfOk result (IsActInForm on) }
{
    let order = need::<N32>(alloc, value, "order")?;
    let item = need::<N16>(alloc, value, "item")?;
    must(alloc, 1 <= item, "item")?;
    let fund = need::<N16>(alloc, value, "fund")?;
    let dept = need::<N16>(alloc, value, "dept")?;
    let object = need::<N16>(alloc, value, "object")?;
    let by = need::<By>(alloc, value, "by")?;
    Ok(Act::ChangeOrder(OrderChange {
        order,
        item,
        fund,
        dept,
        object,
        by,
    }))
}

fn new_voucher(alloc: Global, value: &Value) -> Result<Act, CallRefused>
    ensures answer { Gives result (spec.new_voucher_of (view value.now)) }
    ensures form { (on : Day) → IfOk result (IsActInForm on) }
{
    let vendor = need::<N32>(alloc, value, "vendor")?;
    let back = may::<Flag>(alloc, value, "back")?.unwrap_or(false);
    let items = list::<ChargedItem>(alloc, value, "items", 1, 32)?;
    Ok(Act::Voucher(NewVoucher {
        vendor,
        back,
        items,
    }))
}

fn payment(alloc: Global, value: &Value) -> Result<Act, CallRefused>
    ensures answer { Gives result (spec.payment_of (view value.now)) }
    ensures form { (on : Day) → IfOk result (IsActInForm on) }
{
    let vouchers = list::<VoucherNumber>(alloc, value, "vouchers", 1, 64)?;
    Ok(Act::Pay(Payment { vouchers }))
}

fn new_bill(alloc: Global, value: &Value) -> Result<Act, CallRefused>
    ensures answer { Gives result (spec.new_bill_of (view value.now)) }
    ensures form { (on : Day) → IfOk result (IsActInForm on) }
{
    let source = need::<N16>(alloc, value, "source")?;
    let levy_year = need::<Year>(alloc, value, "levy_year")?;
    let payer = need::<N32>(alloc, value, "payer")?;
    let amount = need::<Count>(alloc, value, "amount")?;
    Ok(Act::Bill(NewBill {
        source,
        levy_year,
        payer,
        amount,
    }))
}

fn bill_amount(alloc: Global, value: &Value) -> Result<BillAmount, CallRefused>
    ensures { Gives result (spec.bill_amount_of (view value.now)) }
{
    let bill = need::<N32>(alloc, value, "bill")?;
    let amount = need::<Count>(alloc, value, "amount")?;
    Ok(BillAmount { bill, amount })
}

fn receipt(alloc: Global, value: &Value) -> Result<Act, CallRefused>
    ensures answer { Gives result (spec.receipt_of (view value.now)) }
    ensures form { (on : Day) → IfOk result (IsActInForm on) }
{
    let source = need::<N16>(alloc, value, "source")?;
    let amount = need::<Count>(alloc, value, "amount")?;
    Ok(Act::Receive(SourceAmount { source, amount }))
}

fn donation(alloc: Global, value: &Value) -> Result<Act, CallRefused>
    ensures answer { Gives result (spec.donation_of (view value.now)) }
    ensures form { (on : Day) → IfOk result (IsActInForm on) }
{
    let dept = need::<N16>(alloc, value, "dept")?;
    let object = need::<N16>(alloc, value, "object")?;
    let amount = need::<Count>(alloc, value, "amount")?;
    Ok(Act::Asset(AssetAct::Donate(Donation {
        dept,
        object,
        amount,
    })))
}

fn disposal(alloc: Global, value: &Value) -> Result<Act, CallRefused>
    ensures answer { Gives result (spec.disposal_of (view value.now)) }
    ensures form { (on : Day) → IfOk result (IsActInForm on) }
{
    let asset = need::<N32>(alloc, value, "asset")?;
    let fund = need::<N16>(alloc, value, "fund")?;
    let proceeds = need::<Count>(alloc, value, "proceeds")?;
    Ok(Act::Asset(AssetAct::Dispose(Disposal {
        asset,
        fund,
        proceeds,
    })))
}

fn asset_act(alloc: Global, value: &Value) -> Result<Act, CallRefused>
    ensures answer { Gives result (spec.asset_act_of (view value.now)) }
    ensures form { (on : Day) → IfOk result (IsActInForm on) }
{
    match need::<AssetWord>(alloc, value, "what")? {
        AssetWord::Donate => donation(alloc, value),
        AssetWord::Dispose => disposal(alloc, value),
    }
}

/// The sum of the principals of a bond's payments.
fn total(principals: &[u64]) -> u128
    requires { length principals.now ≤ 120 }
    ensures { result ≡ sum principals.now }
{
    let mut total: u128 = 0;
    for principal in principals {
        total += u128::from(*principal);
    }
    total
}

/// Whether the last of so many payments, `every` months apart, is due by the end of 2199.
fn is_due_in_time(on: Day, every: u16, payments: usize) -> bool
    requires { payments ≤ 120 }
    ensures { result ≡ nat_le (month_number on.year on.month + every * payments)
        (month_number last_year 12) }
{
    let first = 12 * u32::from(on.year) + u32::from(on.month);
    first + u32::from(every) * (payments as u32) <= 12 * u32::from(LAST_YEAR) + 12
}

/// Whether a bond may have so many months between payments.
fn is_payment_period(months: u16) -> bool
    ensures { result ≡ is_period months }
{
    matches!(months, 1 | 2 | 3 | 4 | 6 | 12)
}

/// The terms of an amount that is owed from a day on.
fn terms_of(alloc: Global, on: Day, amount: u64, value: &Value) -> Result<Terms, CallRefused>
    requires { on.day ≤ 28 }
    ensures answer { Gives result (spec.terms_of on amount (view value.now)) }
    ensures form { IfOk result (IsTermsForm on amount) }
{
    let rate_bp = need::<N16>(alloc, value, "rate_bp")?;
    must(alloc, rate_bp <= 10000, "rate_bp")?;
    let every = need::<N16>(alloc, value, "every")?;
    must(alloc, is_payment_period(every), "every")?;
    let principals = list::<Principal>(alloc, value, "principals", 1, 120)?;
    let payments = principals.as_slice();
    must(alloc, total(payments) == u128::from(amount), "principals")?;
    must(
        alloc,
        is_due_in_time(on, every, payments.len()),
        "principals",
    )?;
    Ok(Terms {
        rate_bp,
        every,
        principals,
    })
}

fn issue(alloc: Global, on: Day, value: &Value) -> Result<Act, CallRefused>
    ensures answer { Gives result (spec.issue_of on (view value.now)) }
    ensures form { IfOk result (IsActInForm on) }
{
    must(alloc, on.day <= 28, "on")?;
    let fund = need::<N16>(alloc, value, "fund")?;
    let amount = need::<Count>(alloc, value, "amount")?;
    let terms = terms_of(alloc, on, amount, value)?;
    Ok(Act::Issue(BondIssue {
        fund,
        amount,
        terms,
    }))
}

/// Whether so many payments, `every` months apart, are for more than a year.
fn is_above_a_year(every: u16, payments: usize) -> bool
    requires { payments ≤ 120 }
    ensures { result ≡ nat_lt 12 (every * payments) }
{
    u32::from(every) * (payments as u32) > 12
}

fn lease(alloc: Global, on: Day, value: &Value) -> Result<Act, CallRefused>
    ensures answer { Gives result (spec.lease_of on (view value.now)) }
    ensures form { IfOk result (IsActInForm on) }
{
    must(alloc, on.day <= 28, "on")?;
    let vendor = need::<N32>(alloc, value, "vendor")?;
    let fund = need::<N16>(alloc, value, "fund")?;
    let dept = need::<N16>(alloc, value, "dept")?;
    let object = need::<N16>(alloc, value, "object")?;
    let amount = need::<Count>(alloc, value, "amount")?;
    let terms = terms_of(alloc, on, amount, value)?;
    must(
        alloc,
        is_above_a_year(terms.every, terms.principals.as_slice().len()),
        "principals",
    )?;
    let account = AccountItem {
        fund,
        dept,
        object,
        amount,
    };
    Ok(Act::Lease(NewLease {
        vendor,
        account,
        terms,
    }))
}

fn debt_payment(alloc: Global, value: &Value) -> Result<Act, CallRefused>
    ensures answer { Gives result (spec.debt_payment_of (view value.now)) }
    ensures form { (on : Day) → IfOk result (IsActInForm on) }
{
    let bond = need::<N32>(alloc, value, "bond")?;
    let fund = need::<N16>(alloc, value, "fund")?;
    let dept = need::<N16>(alloc, value, "dept")?;
    let principal = need::<N16>(alloc, value, "principal")?;
    let interest = need::<N16>(alloc, value, "interest")?;
    Ok(Act::PayDue(DebtPayment {
        bond,
        fund,
        dept,
        principal,
        interest,
    }))
}

fn leave_amount(alloc: Global, value: &Value) -> Result<LeaveAmount, CallRefused>
    ensures { Gives result (spec.leave_amount_of (view value.now)) }
{
    let fund = need::<N16>(alloc, value, "fund")?;
    let dept = need::<N16>(alloc, value, "dept")?;
    let amount = need::<Count>(alloc, value, "amount")?;
    Ok(LeaveAmount { fund, dept, amount })
}

fn maturity(alloc: Global, value: &Value) -> Result<LeaveMaturity, CallRefused>
    ensures { Gives result (spec.maturity_of (view value.now)) }
{
    let fund = need::<N16>(alloc, value, "fund")?;
    let dept = need::<N16>(alloc, value, "dept")?;
    let object = need::<N16>(alloc, value, "object")?;
    let amount = need::<Count>(alloc, value, "amount")?;
    Ok(LeaveMaturity {
        fund,
        dept,
        object,
        amount,
    })
}

fn leave_act(alloc: Global, value: &Value) -> Result<Act, CallRefused>
    ensures answer { Gives result (spec.leave_act_of (view value.now)) }
    ensures form { (on : Day) → IfOk result (IsActInForm on) }
{
    match need::<LeaveWord>(alloc, value, "what")? {
        LeaveWord::Earn => Ok(Act::Leave(LeaveAct::Earn(leave_amount(alloc, value)?))),
        LeaveWord::Use => Ok(Act::Leave(LeaveAct::Use(leave_amount(alloc, value)?))),
        LeaveWord::Mature => Ok(Act::Leave(LeaveAct::Mature(maturity(alloc, value)?))),
    }
}

fn fund_move(alloc: Global, value: &Value) -> Result<Act, CallRefused>
    ensures answer { Gives result (spec.fund_move_of (view value.now)) }
    ensures form { (on : Day) → IfOk result (IsActInForm on) }
{
    let what = need::<MoveWord>(alloc, value, "what")?;
    let from = need::<N16>(alloc, value, "from")?;
    let to = need::<N16>(alloc, value, "to")?;
    must(alloc, from != to, "to")?;
    let amount = need::<Count>(alloc, value, "amount")?;
    Ok(Act::Interfund(FundMove {
        what,
        from,
        to,
        amount,
    }))
}

fn period(alloc: Global, value: &Value) -> Result<Act, CallRefused>
    ensures answer { Gives result (spec.period_of (view value.now)) }
    ensures form { (on : Day) → IfOk result (IsActInForm on) }
{
    match need::<PeriodWord>(alloc, value, "what")? {
        PeriodWord::Month => Ok(Act::Close(Period::Month(need::<MonthText>(
            alloc, value, "month",
        )?))),
        PeriodWord::Year => Ok(Act::Close(Period::Year(need::<Year>(alloc, value, "year")?))),
    }
}

/// The act of a changing call on a day.
pub fn act_of(alloc: Global, word: ActKind, on: Day, value: &Value) -> Result<Act, CallRefused>
    ensures answer { Gives result (spec.act_of word on (view value.now)) }
    ensures form { IfOk result (IsActInForm on) }
{
    match word {
        ActKind::Adopt => adoption(alloc, value),
        ActKind::Amend => amendment(alloc, value),
        ActKind::Transfer => transfer(alloc, value),
        ActKind::Requisition => new_requisition(alloc, value),
        ActKind::Withdraw => Ok(Act::Withdraw(need::<N32>(alloc, value, "requisition")?)),
        ActKind::Order => new_order(alloc, value),
        ActKind::ChangeOrder => order_change(alloc, value),
        ActKind::CancelOrder => Ok(Act::CancelOrder(need::<N32>(alloc, value, "order")?)),
        ActKind::Voucher => new_voucher(alloc, value),
        ActKind::VoidVoucher => Ok(Act::VoidVoucher(need::<N32>(alloc, value, "voucher")?)),
        ActKind::Pay => payment(alloc, value),
        ActKind::Bill => new_bill(alloc, value),
        ActKind::Collect => Ok(Act::Collect(bill_amount(alloc, value)?)),
        ActKind::Receive => receipt(alloc, value),
        ActKind::WriteOff => Ok(Act::WriteOff(bill_amount(alloc, value)?)),
        ActKind::Asset => asset_act(alloc, value),
        ActKind::Issue => issue(alloc, on, value),
        ActKind::PayDue => debt_payment(alloc, value),
        ActKind::Leave => leave_act(alloc, value),
        ActKind::Interfund => fund_move(alloc, value),
        ActKind::Close => period(alloc, value),
        ActKind::Lease => lease(alloc, on, value),
    }
}

/// The fields of an act, beside those that every changing call has.
pub fn own_names(act: &Act) -> &'static [&'static str]
    ensures { map (λ n. n.now) result.now ≡ spec.own_names act.now }
{
    match act {
        Act::Adopt(_) => &["fund", "year", "lines", "estimates"],
        Act::Amend(_) => &["fund", "year", "line", "by"],
        Act::Transfer(_) => &["fund", "year", "from", "to", "amount"],
        Act::Requisition(_) => &["items"],
        Act::Withdraw(_) => &["requisition"],
        Act::Order(_) => &["vendor", "requisition", "items"],
        Act::ChangeOrder(_) => &["order", "item", "fund", "dept", "object", "by"],
        Act::CancelOrder(_) => &["order"],
        Act::Voucher(_) => &["vendor", "back", "items"],
        Act::VoidVoucher(_) => &["voucher"],
        Act::Pay(_) => &["vouchers"],
        Act::Bill(_) => &["source", "levy_year", "payer", "amount"],
        Act::Collect(_) => &["bill", "amount"],
        Act::Receive(_) => &["source", "amount"],
        Act::WriteOff(_) => &["bill", "amount"],
        Act::Asset(AssetAct::Donate(_)) => &["what", "dept", "object", "amount"],
        Act::Asset(AssetAct::Dispose(_)) => &["what", "asset", "fund", "proceeds"],
        Act::Issue(_) => &["fund", "amount", "rate_bp", "every", "principals"],
        Act::PayDue(_) => &["bond", "fund", "dept", "principal", "interest"],
        Act::Leave(LeaveAct::Mature(_)) => &["what", "fund", "dept", "object", "amount"],
        Act::Leave(_) => &["what", "fund", "dept", "amount"],
        Act::Interfund(_) => &["what", "from", "to", "amount"],
        Act::Close(Period::Month(_)) => &["what", "month"],
        Act::Close(Period::Year(_)) => &["what", "year"],
        Act::Lease(_) => &[
            "vendor",
            "fund",
            "dept",
            "object",
            "amount",
            "rate_bp",
            "every",
            "principals",
        ],
    }
}
