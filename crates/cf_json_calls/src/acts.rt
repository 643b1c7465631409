//! The fields of each call, beside those that every changing call has.

ghost use Rattle.std.specs.Prelude.{◌≡◌, [], ◌∷◌, ◌++◌, true, OnOk};
ghost use Rattle.std.specs.List.{All, list_all};
ghost use Rattle.cf_calls.specs.declared.acts.Act.TheVariants as act;
ghost use Rattle.cf_calls.specs.declared.acts.LeaveAct.TheVariants as leave;
ghost use Rattle.cf_json_members.specs.Parts.{is_plain};
ghost use Rattle.cf_json_members.specs.Objects.{list_of};
ghost use Rattle.cf_json_calls.specs.CallText as spec;
ghost use Rattle.cf_json_calls.specs.CallText.{fields_text};
ghost use Rattle.cf_json_calls.specs.Fits.{ActFits, AssetFits, LeaveFits, TermsFit, IsN16, IsN32, IsN64, HasFit};

use crate::items::{Item, put_account, put_list};
use crate::pieces::{put_fields, put_name, put_signed_field};
use cf_calls::Act;
use cf_calls::acts::{
    Adoption, Amendment, AssetAct, BillAmount, BondIssue, DebtPayment, Disposal, Donation,
    FundMove, FundMoveKind, LeaveAct, LeaveAmount, LeaveMaturity, LineTransfer, NewBill, NewLease,
    NewOrder, NewVoucher, OrderChange, Period, Terms,
};
use cf_calls::items::SourceAmount;
use cf_json_members::parts::Part::{Number, True, Word, YearMonth};
use std::alloc::AllocError;

/// Appends a further field that is a list.
fn put_list_field<T: Item>(out: &mut Vec<u8>, name: &str, items: &[T]) -> Result<(), AllocError>
    requires { list_all is_plain name.now ≡ true }
    ensures text { OnOk result
        (out.new.items ≡ out.old.items
        ++ fields_text true ((name.now, list_of T.value items.now) ∷ [])) }
    ensures fits { OnOk result (All T.fits items.now) }
{
    put_name(out, name)?;
    put_list(out, items)
}

/// Appends a further field that is a number.
fn put_number_field(out: &mut Vec<u8>, name: &str, n: u64) -> Result<(), AllocError>
    requires { list_all is_plain name.now ≡ true }
    ensures { OnOk result
        (out.new.items ≡ out.old.items ++ fields_text true (spec.number_field name.now n)) }
{
    put_fields(out, true, &[(name, Number(n))])
}

/// Appends a further field that is a number, where there is one.
fn put_optional_word(out: &mut Vec<u8>, name: &str, number: Option<u32>) -> Result<(), AllocError>
    requires { list_all is_plain name.now ≡ true }
    ensures text { OnOk result
        (out.new.items ≡ out.old.items ++ fields_text true (spec.optional_field name.now number)) }
    ensures fits { HasFit IsN32 number }
{
    match number {
        None => Ok(()),
        Some(number) => put_number_field(out, name, number as u64),
    }
}

/// Appends that a voucher is of the fiscal year before, where it is.
fn put_back(out: &mut Vec<u8>, back: bool) -> Result<(), AllocError>
    ensures { OnOk result
        (out.new.items ≡ out.old.items ++ fields_text true (spec.back_field back)) }
{
    if back {
        put_fields(out, true, &[("back", True)])?;
    }
    Ok(())
}

/// Appends the fields of an adoption.
fn put_adoption(out: &mut Vec<u8>, adoption: &Adoption) -> Result<(), AllocError>
    ensures text { OnOk result
        (out.new.items ≡ out.old.items ++ fields_text true (spec.adoption_fields adoption.now)) }
    ensures fits { OnOk result (ActFits (act.Adopt adoption.now)) }
{
    put_fields(
        out,
        true,
        &[
            ("fund", Number(adoption.fund as u64)),
            ("year", Number(adoption.year as u64)),
        ],
    )?;
    put_list_field(out, "lines", adoption.lines.as_slice())?;
    put_list_field(out, "estimates", adoption.estimates.as_slice())
}

/// Appends the fields of an amendment.
fn put_amendment(out: &mut Vec<u8>, amendment: &Amendment) -> Result<(), AllocError>
    ensures text { OnOk result
        (out.new.items ≡ out.old.items ++ fields_text true (spec.amendment_fields amendment.now)) }
    ensures fits { OnOk result (ActFits (act.Amend amendment.now)) }
{
    put_fields(
        out,
        true,
        &[
            ("fund", Number(amendment.fund as u64)),
            ("year", Number(amendment.year as u64)),
            ("line", Number(amendment.line as u64)),
        ],
    )?;
    put_signed_field(out, "by", amendment.by)
}

/// Appends the fields of a transfer between lines.
fn put_transfer(out: &mut Vec<u8>, transfer: &LineTransfer) -> Result<(), AllocError>
    ensures text { OnOk result
        (out.new.items ≡ out.old.items ++ fields_text true (spec.transfer_fields transfer.now)) }
    ensures fits { OnOk result (ActFits (act.Transfer transfer.now)) }
{
    let LineTransfer {
        fund,
        year,
        from,
        to,
        amount,
    } = transfer;
    put_fields(
        out,
        true,
        &[
            ("fund", Number(*fund as u64)),
            ("year", Number(*year as u64)),
            ("from", Number(*from as u64)),
            ("to", Number(*to as u64)),
            ("amount", Number(*amount)),
        ],
    )
}

/// Appends the fields of an order.
fn put_order(out: &mut Vec<u8>, order: &NewOrder) -> Result<(), AllocError>
    ensures text { OnOk result
        (out.new.items ≡ out.old.items ++ fields_text true (spec.order_fields order.now)) }
    ensures fits { OnOk result (ActFits (act.Order order.now)) }
{
    put_number_field(out, "vendor", order.vendor as u64)?;
    put_optional_word(out, "requisition", order.requisition)?;
    put_list_field(out, "items", order.items.as_slice())
}

/// Appends the fields of a change of an order.
fn put_order_change(out: &mut Vec<u8>, change: &OrderChange) -> Result<(), AllocError>
    ensures text { OnOk result
        (out.new.items ≡ out.old.items ++ fields_text true (spec.order_change_fields change.now)) }
    ensures fits { OnOk result (ActFits (act.ChangeOrder change.now)) }
{
    put_fields(
        out,
        true,
        &[
            ("order", Number(change.order as u64)),
            ("item", Number(change.item as u64)),
            ("fund", Number(change.fund as u64)),
            ("dept", Number(change.dept as u64)),
            ("object", Number(change.object as u64)),
        ],
    )?;
    put_signed_field(out, "by", change.by)
}

/// Appends the fields of a voucher.
fn put_voucher(out: &mut Vec<u8>, voucher: &NewVoucher) -> Result<(), AllocError>
    ensures text { OnOk result
        (out.new.items ≡ out.old.items ++ fields_text true (spec.voucher_fields voucher.now)) }
    ensures fits { OnOk result (ActFits (act.Voucher voucher.now)) }
{
    put_number_field(out, "vendor", voucher.vendor as u64)?;
    put_back(out, voucher.back)?;
    put_list_field(out, "items", voucher.items.as_slice())
}

/// Appends the fields of a bill.
fn put_bill(out: &mut Vec<u8>, bill: &NewBill) -> Result<(), AllocError>
    ensures text { OnOk result
        (out.new.items ≡ out.old.items ++ fields_text true (spec.bill_fields bill.now)) }
    ensures fits { OnOk result (ActFits (act.Bill bill.now)) }
{
    let NewBill {
        source,
        levy_year,
        payer,
        amount,
    } = bill;
    put_fields(
        out,
        true,
        &[
            ("source", Number(*source as u64)),
            ("levy_year", Number(*levy_year as u64)),
            ("payer", Number(*payer as u64)),
            ("amount", Number(*amount)),
        ],
    )
}

/// Appends an amount of a bill.
fn put_bill_amount(out: &mut Vec<u8>, settled: &BillAmount) -> Result<(), AllocError>
    ensures text { OnOk result
        (out.new.items ≡ out.old.items ++ fields_text true (spec.bill_amount_fields settled.now)) }
    ensures fits { OnOk result (IsN32 settled.now.bill × IsN64 settled.now.amount) }
{
    let BillAmount { bill, amount } = settled;
    put_fields(
        out,
        true,
        &[("bill", Number(*bill as u64)), ("amount", Number(*amount))],
    )
}

/// Appends the fields of a receipt.
fn put_receipt(out: &mut Vec<u8>, receipt: &SourceAmount) -> Result<(), AllocError>
    ensures text { OnOk result
        (out.new.items ≡ out.old.items ++ fields_text true (spec.receipt_fields receipt.now)) }
    ensures fits { OnOk result (ActFits (act.Receive receipt.now)) }
{
    let SourceAmount { source, amount } = receipt;
    put_fields(
        out,
        true,
        &[
            ("source", Number(*source as u64)),
            ("amount", Number(*amount)),
        ],
    )
}

/// Appends the fields of what is done with a capital asset.
fn put_asset(out: &mut Vec<u8>, act: &AssetAct) -> Result<(), AllocError>
    ensures text { OnOk result
        (out.new.items ≡ out.old.items ++ fields_text true (spec.asset_fields act.now)) }
    ensures fits { OnOk result (AssetFits act.now) }
{
    match act {
        AssetAct::Donate(
            Donation {
                dept,
                object,
                amount,
            },
        ) => put_fields(
            out,
            true,
            &[
                ("what", Word("donate")),
                ("dept", Number(*dept as u64)),
                ("object", Number(*object as u64)),
                ("amount", Number(*amount)),
            ],
        ),
        AssetAct::Dispose(
            Disposal {
                asset,
                fund,
                proceeds,
            },
        ) => put_fields(
            out,
            true,
            &[
                ("what", Word("dispose")),
                ("asset", Number(*asset as u64)),
                ("fund", Number(*fund as u64)),
                ("proceeds", Number(*proceeds)),
            ],
        ),
    }
}

/// Appends the fields of the terms of a bond or a lease.
fn put_terms(out: &mut Vec<u8>, terms: &Terms) -> Result<(), AllocError>
    ensures text { OnOk result
        (out.new.items ≡ out.old.items ++ fields_text true (spec.terms_fields terms.now)) }
    ensures fits { OnOk result (TermsFit terms.now) }
{
    let Terms {
        rate_bp,
        every,
        principals,
    } = terms;
    put_fields(
        out,
        true,
        &[
            ("rate_bp", Number(*rate_bp as u64)),
            ("every", Number(*every as u64)),
        ],
    )?;
    put_list_field(out, "principals", principals.as_slice())
}

/// Appends the fields of a bond's issue.
fn put_issue(out: &mut Vec<u8>, issue: &BondIssue) -> Result<(), AllocError>
    ensures text { OnOk result
        (out.new.items ≡ out.old.items ++ fields_text true (spec.issue_fields issue.now)) }
    ensures fits { OnOk result (ActFits (act.Issue issue.now)) }
{
    let BondIssue {
        fund,
        amount,
        terms,
    } = issue;
    put_fields(
        out,
        true,
        &[("fund", Number(*fund as u64)), ("amount", Number(*amount))],
    )?;
    put_terms(out, terms)
}

/// Appends the fields of a payment of debt.
fn put_debt_payment(out: &mut Vec<u8>, payment: &DebtPayment) -> Result<(), AllocError>
    ensures text { OnOk result
        (out.new.items ≡ out.old.items ++ fields_text true (spec.debt_payment_fields payment.now)) }
    ensures fits { OnOk result (ActFits (act.PayDue payment.now)) }
{
    put_fields(
        out,
        true,
        &[
            ("bond", Number(payment.bond as u64)),
            ("fund", Number(payment.fund as u64)),
            ("dept", Number(payment.dept as u64)),
            ("principal", Number(payment.principal as u64)),
            ("interest", Number(payment.interest as u64)),
        ],
    )
}

/// Appends the fields of an amount of leave that is earned or used.
fn put_leave_amount(out: &mut Vec<u8>, what: &str, leave: &LeaveAmount) -> Result<(), AllocError>
    requires { list_all is_plain what.now ≡ true }
    ensures text { OnOk result
        (out.new.items ≡ out.old.items
        ++ fields_text true (spec.leave_amount_fields what.now leave.now)) }
    ensures fits { OnOk result
        (IsN16 leave.now.fund × IsN16 leave.now.dept × IsN64 leave.now.amount) }
{
    let LeaveAmount { fund, dept, amount } = leave;
    put_fields(
        out,
        true,
        &[
            ("what", Word(what)),
            ("fund", Number(*fund as u64)),
            ("dept", Number(*dept as u64)),
            ("amount", Number(*amount)),
        ],
    )
}

/// Appends the fields of leave that is paid out.
fn put_maturity(out: &mut Vec<u8>, maturity: &LeaveMaturity) -> Result<(), AllocError>
    ensures text { OnOk result
        (out.new.items ≡ out.old.items ++ fields_text true (spec.maturity_fields maturity.now)) }
    ensures fits { OnOk result (LeaveFits (leave.Mature maturity.now)) }
{
    let LeaveMaturity {
        fund,
        dept,
        object,
        amount,
    } = maturity;
    put_fields(
        out,
        true,
        &[
            ("what", Word("mature")),
            ("fund", Number(*fund as u64)),
            ("dept", Number(*dept as u64)),
            ("object", Number(*object as u64)),
            ("amount", Number(*amount)),
        ],
    )
}

/// Appends the fields of what is done with leave.
fn put_leave(out: &mut Vec<u8>, act: &LeaveAct) -> Result<(), AllocError>
    ensures text { OnOk result
        (out.new.items ≡ out.old.items ++ fields_text true (spec.leave_fields act.now)) }
    ensures fits { OnOk result (LeaveFits act.now) }
{
    match act {
        LeaveAct::Earn(amount) => put_leave_amount(out, "earn", amount),
        LeaveAct::Use(amount) => put_leave_amount(out, "use", amount),
        LeaveAct::Mature(maturity) => put_maturity(out, maturity),
    }
}

/// The word of how cash moves.
fn move_word(kind: FundMoveKind) -> &'static str
    ensures value { result.now ≡ spec.move_word kind }
    ensures plain { list_all is_plain result.now ≡ true }
{
    match kind {
        FundMoveKind::Transfer => "transfer",
        FundMoveKind::Loan => "loan",
        FundMoveKind::Repay => "repay",
    }
}

/// Appends the fields of a movement of cash between funds.
fn put_fund_move(out: &mut Vec<u8>, cash: &FundMove) -> Result<(), AllocError>
    ensures text { OnOk result
        (out.new.items ≡ out.old.items ++ fields_text true (spec.fund_move_fields cash.now)) }
    ensures fits { OnOk result (ActFits (act.Interfund cash.now)) }
{
    let FundMove {
        what,
        from,
        to,
        amount,
    } = cash;
    put_fields(
        out,
        true,
        &[
            ("what", Word(move_word(*what))),
            ("from", Number(*from as u64)),
            ("to", Number(*to as u64)),
            ("amount", Number(*amount)),
        ],
    )
}

/// Appends the fields of what is closed.
fn put_period(out: &mut Vec<u8>, period: &Period) -> Result<(), AllocError>
    ensures { OnOk result
        (out.new.items ≡ out.old.items ++ fields_text true (spec.period_fields period.now)) }
{
    match period {
        Period::Month(month) => put_fields(
            out,
            true,
            &[("what", Word("month")), ("month", YearMonth(*month))],
        ),
        Period::Year(year) => put_fields(
            out,
            true,
            &[("what", Word("year")), ("year", Number(*year as u64))],
        ),
    }
}

/// Appends the fields of a lease.
fn put_lease(out: &mut Vec<u8>, lease: &NewLease) -> Result<(), AllocError>
    ensures text { OnOk result
        (out.new.items ≡ out.old.items ++ fields_text true (spec.lease_fields lease.now)) }
    ensures fits { OnOk result (ActFits (act.Lease lease.now)) }
{
    put_number_field(out, "vendor", lease.vendor as u64)?;
    put_account(out, true, &lease.account)?;
    put_terms(out, &lease.terms)
}

/// Appends the fields of an act.
pub fn put_own(out: &mut Vec<u8>, act: &Act) -> Result<(), AllocError>
    ensures text { OnOk result
        (out.new.items ≡ out.old.items ++ fields_text true (spec.own_fields act.now)) }
    ensures fits { OnOk result (ActFits act.now) }
{
    match act {
        Act::Adopt(adoption) => put_adoption(out, adoption),
        Act::Amend(amendment) => put_amendment(out, amendment),
        Act::Transfer(transfer) => put_transfer(out, transfer),
        Act::Requisition(requisition) => put_list_field(out, "items", requisition.items.as_slice()),
        Act::Withdraw(number) => put_number_field(out, "requisition", *number as u64),
        Act::Order(order) => put_order(out, order),
        Act::ChangeOrder(change) => put_order_change(out, change),
        Act::CancelOrder(number) => put_number_field(out, "order", *number as u64),
        Act::Voucher(voucher) => put_voucher(out, voucher),
        Act::VoidVoucher(number) => put_number_field(out, "voucher", *number as u64),
        Act::Pay(payment) => put_list_field(out, "vouchers", payment.vouchers.as_slice()),
        Act::Bill(bill) => put_bill(out, bill),
        Act::Collect(amount) => put_bill_amount(out, amount),
        Act::Receive(receipt) => put_receipt(out, receipt),
        Act::WriteOff(amount) => put_bill_amount(out, amount),
        Act::Asset(asset) => put_asset(out, asset),
        Act::Issue(issue) => put_issue(out, issue),
        Act::PayDue(payment) => put_debt_payment(out, payment),
        Act::Leave(leave) => put_leave(out, leave),
        Act::Interfund(cash) => put_fund_move(out, cash),
        Act::Close(period) => put_period(out, period),
        Act::Lease(lease) => put_lease(out, lease),
    }
}
