//! What is open, as looks at documents, bills and debt show it, with what is due next of debt, and
//! what is closed.

ghost use Rattle.std.specs.Prelude.{◌≡◌, ℕ, List, Ok, IfOk, OnOk};
ghost use Rattle.std.specs.Option.{option_copied};
ghost use Rattle.cf_books_lists.specs.Open as spec;
ghost use Rattle.cf_books_lists.specs.OpenDues.{DuesAreAsked};
ghost use Rattle.cf_books_lists.specs.OpenSums.{OpenAddsUp};
ghost use Rattle.cf_books_lists.specs.Records.{head_text, record_text};
ghost use Rattle.cf_books_lists.specs.Rows.{added};
ghost use Rattle.cf_chart.specs.Common.{chart_of};
ghost use Rattle.cf_model.specs.Common.{registers_of};

use crate::open_fields::{
    amount_text, due_text, interest_text, line_department, line_fund, line_of, next_text,
};
use crate::rows::{Layout, Rows};
use crate::texts::{decimal_text, drawn_text, number_text};
use cf_base::{Day, day_text, month_text};
use cf_calls::acts::Period;
use cf_calls::items::LineAmount;
use cf_calls::shown::{ItemState, OrderItemShown, RequisitionState, VoucherState};
use cf_calls::{Act, Entry, Read, Shown};
use cf_chart::Chart;
use cf_debt::Due;
use cf_json_calls::call_word;
use cf_office::Rest;
use cf_registers::Registers;
use std::alloc::{AllocError, Global};

/// A kind of what can be open.
#[derive(Clone, Copy)]
enum Section {
    Requisitions,
    Orders,
    Bills,
    Vouchers,
    Debts,
}

/// What is open of a document, a bill or a debt: an amount in cents.
#[derive(Clone, Copy)]
struct Part {
    /// The item's place in its document, from 1; 0 where it is no item.
    item: u64,
    line: Option<u16>,
    year: Option<u16>,
    amount: u64,
    /// The day of the next payment.
    next: Option<Day>,
    /// What that payment pays.
    due: Option<Due>,
}

/// The look at what an entry of a section entered.
fn look_of(section: Section, entry: &Entry) -> Option<Read>
    ensures { result ≡ spec.look_of section entry.now }
{
    let number = entry.drawn.number;
    match (section, &entry.change.act) {
        (Section::Requisitions, Act::Requisition(_)) => Some(Read::Requisition {
            requisition: number,
        }),
        (Section::Orders, Act::Order(_)) => Some(Read::Order { order: number }),
        (Section::Bills, Act::Bill(_)) => Some(Read::Bill { bill: number }),
        (Section::Vouchers, Act::Voucher(_)) => Some(Read::Voucher { voucher: number }),
        (Section::Debts, Act::Issue(_)) => Some(Read::Bond { bond: number }),
        (Section::Debts, Act::Lease(_)) => Some(Read::Bond {
            bond: entry.drawn.second,
        }),
        (
            Section::Requisitions
            | Section::Orders
            | Section::Bills
            | Section::Vouchers
            | Section::Debts,
            Act::Adopt(_)
            | Act::Amend(_)
            | Act::Transfer(_)
            | Act::Requisition(_)
            | Act::Withdraw(_)
            | Act::Order(_)
            | Act::ChangeOrder(_)
            | Act::CancelOrder(_)
            | Act::Voucher(_)
            | Act::VoidVoucher(_)
            | Act::Pay(_)
            | Act::Bill(_)
            | Act::Collect(_)
            | Act::Receive(_)
            | Act::WriteOff(_)
            | Act::Asset(_)
            | Act::Issue(_)
            | Act::PayDue(_)
            | Act::Leave(_)
            | Act::Interfund(_)
            | Act::Close(_)
            | Act::Lease(_),
        ) => None,
    }
}

/// The vendor or the payer of what an act enters, 0 where it has none.
fn party_of(act: &Act) -> u32
    ensures { result ≡ spec.party_of act.now }
{
    match act {
        Act::Order(order) => order.vendor,
        Act::Voucher(voucher) => voucher.vendor,
        Act::Bill(bill) => bill.payer,
        Act::Lease(lease) => lease.vendor,
        Act::Adopt(_)
        | Act::Amend(_)
        | Act::Transfer(_)
        | Act::Requisition(_)
        | Act::Withdraw(_)
        | Act::ChangeOrder(_)
        | Act::CancelOrder(_)
        | Act::VoidVoucher(_)
        | Act::Pay(_)
        | Act::Collect(_)
        | Act::Receive(_)
        | Act::WriteOff(_)
        | Act::Asset(_)
        | Act::Issue(_)
        | Act::PayDue(_)
        | Act::Leave(_)
        | Act::Interfund(_)
        | Act::Close(_) => 0,
    }
}

/// The number of what an entry entered: a lease is known by its bond.
fn number_of(entry: &Entry) -> u32
    ensures { result ≡ spec.number_of entry.now }
{
    match entry.change.act {
        Act::Lease(_) => entry.drawn.second,
        Act::Adopt(_)
        | Act::Amend(_)
        | Act::Transfer(_)
        | Act::Requisition(_)
        | Act::Withdraw(_)
        | Act::Order(_)
        | Act::ChangeOrder(_)
        | Act::CancelOrder(_)
        | Act::Voucher(_)
        | Act::VoidVoucher(_)
        | Act::Pay(_)
        | Act::Bill(_)
        | Act::Collect(_)
        | Act::Receive(_)
        | Act::WriteOff(_)
        | Act::Asset(_)
        | Act::Issue(_)
        | Act::PayDue(_)
        | Act::Leave(_)
        | Act::Interfund(_)
        | Act::Close(_) => entry.drawn.number,
    }
}

/// Writes the record of a part of what an entry entered.
fn put_part(
    alloc: Global,
    out: &mut Rows,
    chart: &Chart,
    entry: &Entry,
    part: Part,
) -> Result<(), AllocError>
    ensures { OnOk result (out.new
        ≡ added out.old (spec.part_text out.old.csv chart.now entry.now part)) }
{
    let change = &entry.change;
    let call = Vec::from_slice(alloc, call_word(&change.act).as_bytes())?;
    let number = decimal_text(alloc, number_of(entry) as u64)?;
    let item = drawn_text(alloc, part.item)?;
    let day = day_text(change.on);
    let desk = decimal_text(alloc, change.desk as u64)?;
    let party = drawn_text(alloc, party_of(&change.act) as u64)?;
    let year = number_text(alloc, part.year)?;
    let line = number_text(alloc, part.line)?;
    let amount = amount_text(alloc, part.amount)?;
    let next = next_text(alloc, part.next)?;
    let due = due_text(alloc, part.due)?;
    let interest = interest_text(alloc, part.due)?;
    let closed = Vec::new(alloc);
    let fields = [
        call.as_slice(),
        number.as_slice(),
        item.as_slice(),
        day.as_slice(),
        desk.as_slice(),
        change.key.as_str().as_bytes(),
        party.as_slice(),
        year.as_slice(),
        line.as_slice(),
        line_fund(chart, line_of(chart, part.line)).as_bytes(),
        line_department(chart, line_of(chart, part.line)).as_bytes(),
        amount.as_str().as_bytes(),
        next.as_slice(),
        due.as_slice(),
        interest.as_slice(),
        closed.as_slice(),
    ];
    out.put(fields.as_slice())
}

/// Writes the items of a requisition.
fn put_held(
    alloc: Global,
    out: &mut Rows,
    chart: &Chart,
    entry: &Entry,
    year: u16,
    items: &[LineAmount],
) -> Result<(), AllocError>
    ensures { OnOk result (out.new
        ≡ added out.old (spec.held_text out.old.csv chart.now entry.now year 1 items.now)) }
{
    let mut place: u64 = 0;
    for item in items {
        place += 1;
        let part = Part {
            item: place,
            line: Some(item.line),
            year: Some(year),
            amount: item.amount,
            next: None,
            due: None,
        };
        put_part(alloc, out, chart, entry, part)?;
    }
    Ok(())
}

/// Writes an item of an order, where it is live.
fn put_item(
    alloc: Global,
    out: &mut Rows,
    chart: &Chart,
    entry: &Entry,
    place: u64,
    item: OrderItemShown,
) -> Result<(), AllocError>
    ensures { OnOk result (out.new
        ≡ added out.old (spec.item_text out.old.csv chart.now entry.now place item item.state)) }
{
    match item.state {
        ItemState::Live => {
            let part = Part {
                item: place,
                line: Some(item.line),
                year: Some(item.year),
                amount: item.open_cents,
                next: None,
                due: None,
            };
            put_part(alloc, out, chart, entry, part)
        }
        ItemState::Finished | ItemState::Lapsed | ItemState::Cancelled => Ok(()),
    }
}

/// Writes the live items of an order.
fn put_items(
    alloc: Global,
    out: &mut Rows,
    chart: &Chart,
    entry: &Entry,
    items: &[OrderItemShown],
) -> Result<(), AllocError>
    ensures { OnOk result (out.new
        ≡ added out.old (spec.items_text out.old.csv chart.now entry.now 1 items.now)) }
{
    let mut place: u64 = 0;
    for item in items {
        place += 1;
        put_item(alloc, out, chart, entry, place, *item)?;
    }
    Ok(())
}

/// An amount that is no item's.
fn whole(year: Option<u16>, amount: u64, next: Option<Day>, due: Option<Due>) -> Part
    ensures { result ≡ spec.whole_part year amount next due }
{
    Part {
        item: 0,
        line: None,
        year,
        amount,
        next,
        due,
    }
}

/// Writes what a look shows that is open, of a debt with what is due next.
fn put_shown(
    alloc: Global,
    out: &mut Rows,
    chart: &Chart,
    entry: &Entry,
    due: Option<Due>,
    shown: Option<&Shown>,
) -> Result<(), AllocError>
    ensures { OnOk result (out.new
        ≡ added out.old (spec.shown_text out.old.csv chart.now entry.now due
        (option_copied shown.entry))) }
{
    match shown {
        Some(
            Shown::Requisition {
                items,
                state: RequisitionState::Open,
                year,
            },
        ) => { put_held(alloc, out, chart, entry, *year, items.as_slice()) }
        Some(Shown::Order { items, vendor: _ }) => {
            put_items(alloc, out, chart, entry, items.as_slice())
        }
        Some(
            Shown::Voucher {
                amount,
                state: VoucherState::Open,
                year,
            },
        ) => {
            let part = whole(Some(*year), *amount, None, None);
            put_part(alloc, out, chart, entry, part)
        }
        Some(
            Shown::Bill {
                left,
                levy_year,
                source: _,
            },
        ) if *left != 0 => {
            let part = whole(Some(*levy_year), *left, None, None);
            put_part(alloc, out, chart, entry, part)
        }
        Some(
            Shown::Bond {
                accrued: _,
                next: Some(next),
                outstanding,
            },
        ) => {
            let part = whole(None, *outstanding, Some(*next), due);
            put_part(alloc, out, chart, entry, part)
        }
        None
        | Some(
            Shown::Line(_)
            | Shown::Requisition {
                state: RequisitionState::Withdrawn
                | RequisitionState::Ordered
                | RequisitionState::Lapsed,
                ..
            }
            | Shown::Voucher {
                state: VoucherState::Paid | VoucherState::Void,
                ..
            }
            | Shown::Bill { .. }
            | Shown::Asset { .. }
            | Shown::Bond { next: None, .. }
            | Shown::Leave { .. }
            | Shown::Account { .. }
            | Shown::Reconcile(_)
            | Shown::Report { .. },
        ) => Ok(()),
    }
}

/// What is due next of the bond or the lease that a look is at, and nothing at other looks.
fn due_at(registers: &Registers, chart: &Chart, look: &Read) -> Option<Due>
    ensures { result ≡ spec.due_at chart.now registers.now.registers look.now }
{
    match look {
        Read::Bond { bond } => registers.debt().due(chart, *bond),
        Read::Line { .. }
        | Read::Requisition { .. }
        | Read::Order { .. }
        | Read::Voucher { .. }
        | Read::Bill { .. }
        | Read::Asset { .. }
        | Read::Leave { .. }
        | Read::Account { .. }
        | Read::Reconcile { .. }
        | Read::Report { .. } => None,
    }
}

/// Writes what is open of that which an entry entered in a section.
fn put_entry(
    alloc: Global,
    out: &mut Rows,
    rest: &Rest,
    section: Section,
    entry: &Entry,
) -> Result<(), AllocError>
    ensures { OnOk result (out.new
        ≡ added out.old (spec.looked_text out.old.csv rest.now.plan
        (registers_of rest.now.plan rest.now.entries) entry.now (spec.look_of section entry.now))) }
{
    let Some(look) = look_of(section, entry) else {
        return Ok(());
    };
    let shown = rest.registers().look(alloc, rest.chart(), &look)?;
    let due = due_at(rest.registers(), rest.chart(), &look);
    put_shown(alloc, out, rest.chart(), entry, due, shown.as_ref())
}

/// Writes what is open of a section.
fn put_section(
    alloc: Global,
    out: &mut Rows,
    rest: &Rest,
    section: Section,
    entries: &[Entry],
) -> Result<(), AllocError>
    ensures { OnOk result (out.new
        ≡ added out.old (spec.section_text out.old.csv rest.now.plan
        (registers_of rest.now.plan rest.now.entries) section entries.now)) }
{
    for entry in entries {
        put_entry(alloc, out, rest, section, entry)?;
    }
    Ok(())
}

fn period_text(alloc: Global, period: Period) -> Result<Vec<u8>, AllocError>
    ensures { IfOk result (λ t. t.items ≡ spec.period_text period) }
{
    match period {
        Period::Month(month) => Vec::from_slice(alloc, &month_text(month)),
        Period::Year(year) => decimal_text(alloc, year as u64),
    }
}

/// Writes the record of a month or a fiscal year that an entry closes.
fn put_period(
    alloc: Global,
    out: &mut Rows,
    entry: &Entry,
    period: Period,
) -> Result<(), AllocError>
    ensures { OnOk result (out.new
        ≡ added out.old (record_text out.old.csv (spec.close_row entry.now period))) }
{
    let change = &entry.change;
    let day = day_text(change.on);
    let desk = decimal_text(alloc, change.desk as u64)?;
    let closed = period_text(alloc, period)?;
    let call = Vec::from_slice(alloc, b"close")?;
    let empty = Vec::new(alloc);
    let none = empty.as_slice();
    let fields = [
        call.as_slice(),
        none,
        none,
        day.as_slice(),
        desk.as_slice(),
        change.key.as_str().as_bytes(),
        none,
        none,
        none,
        none,
        none,
        none,
        none,
        none,
        none,
        closed.as_slice(),
    ];
    out.put(fields.as_slice())
}

/// Writes what an entry closes.
fn put_close(alloc: Global, out: &mut Rows, entry: &Entry) -> Result<(), AllocError>
    ensures { OnOk result (out.new
        ≡ added out.old (spec.close_by out.old.csv entry.now.change.act entry.now)) }
{
    match entry.change.act {
        Act::Close(period) => put_period(alloc, out, entry, period),
        Act::Adopt(_)
        | Act::Amend(_)
        | Act::Transfer(_)
        | Act::Requisition(_)
        | Act::Withdraw(_)
        | Act::Order(_)
        | Act::ChangeOrder(_)
        | Act::CancelOrder(_)
        | Act::Voucher(_)
        | Act::VoidVoucher(_)
        | Act::Pay(_)
        | Act::Bill(_)
        | Act::Collect(_)
        | Act::Receive(_)
        | Act::WriteOff(_)
        | Act::Asset(_)
        | Act::Issue(_)
        | Act::PayDue(_)
        | Act::Leave(_)
        | Act::Interfund(_)
        | Act::Lease(_) => Ok(()),
    }
}

/// Writes what these entries close.
fn put_closes(alloc: Global, out: &mut Rows, entries: &[Entry]) -> Result<(), AllocError>
    ensures { OnOk result (out.new ≡ added out.old (spec.closes_text out.old.csv entries.now)) }
{
    for entry in entries {
        put_close(alloc, out, entry)?;
    }
    Ok(())
}

/// Writes the names of the columns.
fn put_head(out: &mut Rows) -> Result<(), AllocError>
    ensures { OnOk result (out.new ≡ added out.old (head_text out.old.csv spec.head)) }
{
    let names: [&[u8]; 16] = [
        b"call",
        b"number",
        b"item",
        b"day",
        b"desk",
        b"key",
        b"party",
        b"year",
        b"line",
        b"fund_name",
        b"dept_name",
        b"open",
        b"next",
        b"due",
        b"interest",
        b"closed",
    ];
    out.put_names(names.as_slice())
}

/// Writes all that is open, and what is closed.
fn all_text(layout: Layout, rest: &Rest) -> Result<Vec<u8>, AllocError>
    ensures { IfOk result (λ v. v.items ≡ spec.open_text layout.csv rest.now.plan
        rest.now.entries) }
{
    let entries = rest.entries();
    let alloc = layout.alloc;
    let mut out = Rows::new(layout);
    put_head(&mut out)?;
    put_section(alloc, &mut out, rest, Section::Requisitions, entries)?;
    put_section(alloc, &mut out, rest, Section::Orders, entries)?;
    put_section(alloc, &mut out, rest, Section::Bills, entries)?;
    put_section(alloc, &mut out, rest, Section::Vouchers, entries)?;
    put_section(alloc, &mut out, rest, Section::Debts, entries)?;
    put_closes(alloc, &mut out, entries)?;
    out.into_text()
}

/// What is open, as records below a row of names: open requisitions by item, live items of orders
/// with what is open of each, bills with what is left, vouchers that aren't paid, and bonds and
/// leases with what is outstanding and the day of the next payment, each kind by rising number and
/// as looks show them, in units of money; then the months and the fiscal years that are closed. A
/// row of a bond or a lease also has what is due at that payment, principal and interest, and the
/// interest alone: what the office asks of the call that pays it, whatever its day. Under any chart
/// that was read, the rows of bills come to each fund's receivables (110000), those of vouchers to
/// its vouchers payable (200000), and those of order items to what is encumbered on each line in
/// each fiscal year.
pub fn open_text(layout: Layout, rest: &Rest) -> Result<Vec<u8>, AllocError>
    ensures text { IfOk result (λ v. v.items ≡ spec.open_text layout.csv rest.now.plan
        rest.now.entries) }
    ensures sums { (bytes : List ℕ) → chart_of bytes ≡ Ok rest.now.plan
        → OpenAddsUp rest.now.plan rest.now.entries }
    ensures dues { DuesAreAsked rest.now.plan rest.now.entries }
{
    // So that the proof knows that the history is legal.
    let _legal = rest.entries();
    all_text(layout, rest)
}
