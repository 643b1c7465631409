//! The names that a chart has for its funds, and for the accounts.

ghost use Rattle.std.specs.Prelude.{◌≡◌, ◌++◌, IfOk, OnOk};
ghost use Rattle.std.specs.Option.{option_copied};
ghost use Rattle.cf_books_lists.specs.Names as spec;

use cf_calls::Basis;
use cf_chart::{Chart, Department, Function, Fund, RevenueSource};
use std::alloc::{AllocError, Global};

/// A basis in the word of the look `account`.
pub fn basis_word(basis: Basis) -> &'static str
    ensures { result.now ≡ spec.basis_word basis }
{
    match basis {
        Basis::Fund => "fund",
        Basis::Gov => "gov",
    }
}

/// The name of a fund.
pub fn fund_name(fund: Option<&Fund>) -> &str
    ensures { result.now ≡ spec.fund_name (option_copied fund.entry) }
{
    match fund {
        Some(fund) => fund.name.as_str(),
        None => "",
    }
}

/// The name of a department.
pub fn department_name(department: Option<&Department>) -> &str
    ensures { result.now ≡ spec.department_name (option_copied department.entry) }
{
    match department {
        Some(department) => department.name.as_str(),
        None => "",
    }
}

/// The name of a revenue source.
pub fn source_name(source: Option<&RevenueSource>) -> &str
    ensures { result.now ≡ spec.source_name (option_copied source.entry) }
{
    match source {
        Some(source) => source.name.as_str(),
        None => "",
    }
}

fn function_name(function: Option<&Function>) -> &str
    ensures { result.now ≡ spec.function_name (option_copied function.entry) }
{
    match function {
        Some(function) => function.name.as_str(),
        None => "",
    }
}

/// What is had, in the words of the statements.
fn asset_name(account: u32) -> &'static str
    ensures { result.now ≡ spec.asset_name account }
{
    match account {
        100_000 => "Cash",
        110_000 => "Receivables",
        120_000 => "Due from other funds",
        150_000 => "Capital assets",
        151_000 => "Right-to-use assets",
        159_000 => "Accumulated depreciation",
        159_100 => "Accumulated amortization",
        _ => "",
    }
}

/// What is owed, with unavailable revenue.
fn liability_name(account: u32) -> &'static str
    ensures { result.now ≡ spec.liability_name account }
{
    match account {
        200_000 => "Vouchers payable",
        210_000 => "Debt due",
        220_000 => "Due to other funds",
        250_000 => "Bonds payable",
        251_000 => "Leases payable",
        260_000 => "Accrued interest",
        270_000 => "Compensated absences",
        290_000 => "Unavailable revenue",
        _ => "",
    }
}

/// What is neither a revenue of a source nor an expenditure of a function.
fn other_name(account: u32) -> &'static str
    ensures { result.now ≡ spec.other_name account }
{
    match account {
        460_000 => "Gain on sales",
        510_000 => "Capital outlay",
        520_000 => "Debt principal",
        530_000 => "Debt interest",
        600_001 => "Transfers in",
        600_002 => "Debt proceeds",
        600_003 => "Sale of capital assets",
        600_004 => "Leases issued",
        610_001 => "Transfers out",
        _ => "",
    }
}

/// The name of an account: in the words of the statements, that of a revenue source, or that of the
/// function that it is of.
pub fn account_name(chart: &Chart, account: u32) -> &str
    ensures { result.now ≡ spec.account_name chart.now account }
{
    if account < 200_000 {
        return asset_name(account);
    }
    if account < 300_000 {
        return liability_name(account);
    }
    if 400_000 < account && account < 410_000 {
        return source_name(chart.source((account - 400_000) as u16));
    }
    if 450_000 < account && account < 451_000 {
        return function_name(chart.function((account - 450_000) as u16));
    }
    if 500_000 < account && account < 501_000 {
        return function_name(chart.function((account - 500_000) as u16));
    }
    other_name(account)
}

/// What an account is of a function, where that isn't its expenditure.
fn kind_text(account: u32) -> &'static str
    ensures { result.now ≡ spec.kind_text account }
{
    if 450_000 < account && account < 451_000 {
        "Donated capital assets, "
    } else {
        ""
    }
}

/// Appends the name of an account, with what it is of a function where that isn't its expenditure.
pub fn put_account(out: &mut Vec<u8>, chart: &Chart, account: u32) -> Result<(), AllocError>
    ensures { OnOk result (out.new.items ≡ out.old.items ++ spec.account_text chart.now account) }
{
    out.extend_from_slice(kind_text(account).as_bytes())?;
    out.extend_from_slice(account_name(chart, account).as_bytes())
}

/// The name of an account alone, as `put_account` appends it.
pub fn account_text(alloc: Global, chart: &Chart, account: u32) -> Result<Vec<u8>, AllocError>
    ensures { IfOk result (λ t. t.items ≡ spec.account_text chart.now account) }
{
    let mut text = Vec::new(alloc);
    put_account(&mut text, chart, account)?;
    Ok(text)
}
