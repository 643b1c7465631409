//! The lines of a receipt and of a bill.
ghost use Rattle.std.specs.Prelude.{◌≡◌, ◌++◌, true, OnOk};
ghost use Rattle.std.specs.List.{list_all};
ghost use Rattle.cf_json_members.specs.Parts.{is_plain};
ghost use Rattle.cf_json_lines.specs.Lines.{receipt_line, bill_line};

use cf_base::Day;
use cf_calls::acts::NewBill;
use cf_calls::items::SourceAmount;
use cf_json_members::parts::Part::{Date, Number, Word};
use cf_json_members::parts::put_object;
use std::alloc::AllocError;

/// Appends the line that a desk sends to receive an amount on a revenue source, with its newline.
/// Where there is no memory a part of the line may be appended.
pub fn put_receipt(
    out: &mut Vec<u8>,
    desk: u16,
    key: &str,
    on: Day,
    receipt: SourceAmount,
) -> Result<(), AllocError>
    requires { list_all is_plain key.now ≡ true }
    ensures { OnOk result
        (out.new.items ≡ out.old.items
        ++ receipt_line (record { desk = desk; key = key.now; on = on }) receipt) }
{
    put_object(
        out,
        &[
            ("amount", Number(receipt.amount)),
            ("call", Word("receive")),
            ("desk", Number(desk as u64)),
            ("key", Word(key)),
            ("on", Date(on)),
            ("source", Number(receipt.source as u64)),
        ],
    )?;
    out.push(b'\n')?;
    Ok(())
}

/// Appends the line that a desk sends to bill a payer, with its newline. Where there is no memory a
/// part of the line may be appended.
pub fn put_bill(
    out: &mut Vec<u8>,
    desk: u16,
    key: &str,
    on: Day,
    bill: NewBill,
) -> Result<(), AllocError>
    requires { list_all is_plain key.now ≡ true }
    ensures { OnOk result
        (out.new.items ≡ out.old.items
        ++ bill_line (record { desk = desk; key = key.now; on = on }) bill) }
{
    put_object(
        out,
        &[
            ("amount", Number(bill.amount)),
            ("call", Word("bill")),
            ("desk", Number(desk as u64)),
            ("key", Word(key)),
            ("levy_year", Number(bill.levy_year as u64)),
            ("on", Date(on)),
            ("payer", Number(bill.payer as u64)),
            ("source", Number(bill.source as u64)),
        ],
    )?;
    out.push(b'\n')?;
    Ok(())
}
