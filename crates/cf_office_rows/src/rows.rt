//! The rows of a ledger.

ghost use Rattle.std.specs.Prelude.{◌≡◌, ◌++◌, ◌∷◌, [], OnOk};
ghost use Rattle.cf_office_rows.specs.Rows as spec;
ghost use Rattle.cf_office_rows.specs.Rows.{kept};

use cf_calls::items::AccountItem;
use cf_chart::{Chart, LinePart};
use cf_orders::LineMove;
use std::alloc::AllocError;

/// What a row changes, in cents.
#[derive(Clone, Copy)]
pub struct Amounts {
    pub appropriated: i128,
    /// What is encumbered.
    pub ordered: i128,
    pub held: i128,
    /// What is expended.
    pub spent: i128,
    /// What is revenue.
    pub received: i128,
}

/// Nothing is changed.
pub const NOTHING: Amounts = Amounts {
    appropriated: 0,
    ordered: 0,
    held: 0,
    spent: 0,
    received: 0,
};

/// What a row is of: the entry at a place, from 1, a document by its number, and an item of it,
/// from 1. Each number is 0 where there is none.
#[derive(Clone, Copy)]
pub struct Origin {
    pub place: u64,
    pub document: u32,
    pub item: u32,
}

/// What an entry moves of a control line or of a revenue source in a fiscal year.
#[derive(Clone, Copy)]
pub struct LedgerRow {
    pub of: Origin,
    pub fund: u16,
    /// 0 in rows of a source.
    pub dept: u16,
    /// 0 in rows of a source, and of lines that aren't of one object where no account is named.
    pub object: u16,
    /// The number of the control line.
    pub line: Option<u16>,
    pub source: Option<u16>,
    pub year: u16,
    pub by: Amounts,
}

/// Whether anything is changed.
fn changes(by: &Amounts) -> bool
    ensures { result ≡ spec.changes by.now }
{
    by.appropriated != 0 || by.ordered != 0 || by.held != 0 || by.spent != 0 || by.received != 0
}

/// Adds a row, but for one that changes nothing.
pub fn put(out: &mut Vec<LedgerRow>, row: LedgerRow) -> Result<(), AllocError>
    ensures { OnOk result (out.new.items ≡ out.old.items ++ kept (row ∷ [])) }
{
    if changes(&row.by) {
        out.push(row)?;
    }
    Ok(())
}

/// The number of the line that controls an account in a fiscal year.
pub fn line_number(chart: &Chart, account: AccountItem, year: u16) -> Option<u16>
    ensures { result ≡ spec.line_number chart.now account year }
{
    match chart.line_of(account.fund, account.dept, account.object, year) {
        Some(line) => Some(line.number),
        None => None,
    }
}

/// The row of an account in a fiscal year.
pub fn on_account(
    chart: &Chart,
    of: Origin,
    account: AccountItem,
    year: u16,
    by: Amounts,
) -> LedgerRow
    ensures { result ≡ spec.on_account chart.now of account year by }
{
    LedgerRow {
        of,
        fund: account.fund,
        dept: account.dept,
        object: account.object,
        line: line_number(chart, account, year),
        source: None,
        year,
        by,
    }
}

/// The row of what an item of a document moves.
pub fn on_move(chart: &Chart, of: Origin, moved: &LineMove) -> LedgerRow
    ensures { result ≡ spec.on_account chart.now of moved.now.account moved.now.year
        (spec.amounts_of moved.now.held moved.now.encumbered moved.now.expended) }
{
    let mut by = NOTHING;
    by.held = moved.held;
    by.ordered = moved.encumbered;
    by.spent = moved.expended;
    on_account(chart, of, moved.account, moved.year, by)
}

/// The one object that a part of a department's objects has, or 0.
fn part_object(part: LinePart) -> u16
    ensures { result ≡ spec.part_object part }
{
    match part {
        LinePart::Object(object) => object,
        LinePart::Department | LinePart::Class(_) => 0,
    }
}

/// The row of a control line that is named by its number.
pub fn on_line(chart: &Chart, of: Origin, number: u16, year: u16, by: Amounts) -> LedgerRow
    ensures { result ≡ spec.on_line chart.now of number year by }
{
    let (fund, dept, object) = match chart.line(number) {
        Some(line) => (line.fund, line.dept, part_object(line.part)),
        None => (0, 0, 0),
    };
    LedgerRow {
        of,
        fund,
        dept,
        object,
        line: Some(number),
        source: None,
        year,
        by,
    }
}
