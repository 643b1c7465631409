//! A row a voucher of a grant.

ghost use Rattle.std.specs.Prelude.{◌≡◌, string_bytes, IfOk, OnOk};
ghost use Rattle.cf_books_lists.specs.Records.{record_text};
ghost use Rattle.cf_books_lists.specs.Rows.{added};
ghost use Rattle.cf_books_grants.specs.Vouchers as spec;

use crate::document::money;
use cf_base::day_text;
use cf_books_lists::{Layout, Rows, decimal_text};
use cf_claims::{ClaimState, GrantVoucher};
use std::alloc::{AllocError, Global};

/// How a voucher stands, as a word.
fn state_word(state: ClaimState) -> &'static str
    ensures { result.now ≡ spec.state_word state }
{
    match state {
        ClaimState::Claimable { .. } => "claimable",
        ClaimState::Claimed { .. } => "claimed",
        ClaimState::Unpaid => "unpaid",
        ClaimState::YearClosed => "year closed",
        ClaimState::NothingLeft => "nothing left",
    }
}

/// What can be claimed, empty where nothing can.
fn amount_text(alloc: Global, state: ClaimState) -> Result<String, AllocError>
    ensures { IfOk result (λ t. string_bytes t ≡ spec.amount_text state) }
{
    match state {
        ClaimState::Claimable { amount } => money(alloc, amount),
        _ => Ok(String::new(alloc)),
    }
}

/// The number of the bill that claims a voucher, empty where none does.
fn bill_text(alloc: Global, state: ClaimState) -> Result<Vec<u8>, AllocError>
    ensures { IfOk result (λ t. t.items ≡ spec.bill_text state) }
{
    match state {
        ClaimState::Claimed { bill } => decimal_text(alloc, bill as u64),
        _ => Ok(Vec::new(alloc)),
    }
}

/// Writes the row of a voucher.
fn put_voucher(alloc: Global, out: &mut Rows, voucher: &GrantVoucher) -> Result<(), AllocError>
    ensures { OnOk result (out.new
        ≡ added out.old (record_text out.old.csv (spec.voucher_row voucher.now))) }
{
    let number = decimal_text(alloc, voucher.number as u64)?;
    let day = day_text(voucher.on);
    let year = decimal_text(alloc, voucher.year as u64)?;
    let eligible = money(alloc, voucher.eligible)?;
    let share = money(alloc, voucher.share)?;
    let amount = amount_text(alloc, voucher.state)?;
    let bill = bill_text(alloc, voucher.state)?;
    let left = money(alloc, voucher.left)?;
    let fields = [
        number.as_slice(),
        day.as_slice(),
        year.as_slice(),
        eligible.as_str().as_bytes(),
        share.as_str().as_bytes(),
        state_word(voucher.state).as_bytes(),
        amount.as_str().as_bytes(),
        bill.as_slice(),
        left.as_str().as_bytes(),
    ];
    out.put(fields.as_slice())
}

/// Writes the rows of vouchers.
fn put_vouchers(alloc: Global, out: &mut Rows, vouchers: &[GrantVoucher]) -> Result<(), AllocError>
    ensures { OnOk result (out.new ≡ added out.old (spec.rows_text out.old.csv vouchers.now)) }
{
    for voucher in vouchers {
        put_voucher(alloc, out, voucher)?;
    }
    Ok(())
}

/// Writes the names of the columns, where records are written.
fn put_head(out: &mut Rows) -> Result<(), AllocError>
    ensures { OnOk result (out.new ≡ added out.old (spec.head_rows out.old.csv)) }
{
    let names: [&[u8]; 9] = [
        b"voucher",
        b"day",
        b"year",
        b"eligible",
        b"share",
        b"state",
        b"amount",
        b"bill",
        b"left",
    ];
    out.put_names(names.as_slice())
}

/// The vouchers of a grant, a row each: as records with a row of names before them, or with tabs
/// between the fields.
pub fn vouchers_text(layout: Layout, vouchers: &[GrantVoucher]) -> Result<Vec<u8>, AllocError>
    ensures { IfOk result (λ bytes. bytes.items ≡ spec.vouchers_text layout.csv vouchers.now) }
{
    let mut out = Rows::new(layout);
    put_head(&mut out)?;
    put_vouchers(layout.alloc, &mut out, vouchers)?;
    out.into_text()
}
