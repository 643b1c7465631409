//! The text of each refusal, each result, what is no reply, and each look, with the values that the
//! code states.

use crate::page::Page;
use crate::refusals::{REFUSALS, RESULTS};
use cf_base::Day;
use cf_calls::items::LineAmount;
use cf_calls::shown::{
    AssetState, ItemState, OrderItemShown, ReconShown, RequisitionState, VoucherState,
};
use cf_calls::{Body, Label, LineNumbers, List, Made, Posted, Reply, Row, Shown};
use cf_json_replies::write_posted;
use std::alloc::{AllocError, Global};

/// Appends the text of what is given for a call.
fn tell_posted(page: &mut Page, alloc: Global, posted: &Posted) {
    page.put("  ");
    let is_there = write_posted(alloc, posted, &mut page.bytes).is_ok();
    page.note(is_there);
    page.put("\n");
}

fn tell_body(page: &mut Page, alloc: Global, body: Body) {
    tell_posted(page, alloc, &Posted::Reply(Reply { at: 7, body }));
}

fn tell_refusals(page: &mut Page, alloc: Global) {
    for refusal in &REFUSALS {
        tell_body(page, alloc, Body::Refused(*refusal));
    }
}

fn tell_made(page: &mut Page, alloc: Global, made: Made, was: Option<u64>) {
    tell_body(page, alloc, Body::Done { made, was });
}

fn tell_results(page: &mut Page, alloc: Global) {
    for made in &RESULTS {
        tell_made(page, alloc, *made, None);
    }
}

/// A repeat, a fault of the disk and want of memory.
fn tell_others(page: &mut Page, alloc: Global) {
    tell_made(page, alloc, Made::Nothing, Some(4));
    tell_posted(page, alloc, &Posted::Disk);
    tell_posted(page, alloc, &Posted::NoMemory);
}

fn tell_look(page: &mut Page, alloc: Global, shown: Shown) {
    tell_body(page, alloc, Body::Shown(shown));
}

/// Appends a look that was made in memory.
fn tell_made_look(page: &mut Page, alloc: Global, shown: Result<Shown, AllocError>) {
    match shown {
        Ok(shown) => tell_look(page, alloc, shown),
        Err(AllocError) => page.note(false),
    }
}

fn requisition(alloc: Global) -> Result<Shown, AllocError> {
    let items = vec![in alloc;
        LineAmount {
            line: 3,
            amount: 100000
        },
        LineAmount {
            line: 65535,
            amount: 0
        },
    ]?;
    Ok(Shown::Requisition {
        items: List::of(items),
        state: RequisitionState::Withdrawn,
        year: 2027,
    })
}

fn order(alloc: Global) -> Result<Shown, AllocError> {
    let items = vec![in alloc;
        OrderItemShown {
            line: 3,
            open_cents: 5,
            state: ItemState::Live,
            year: 2027,
        },
    ]?;
    Ok(Shown::Order {
        items: List::of(items),
        vendor: 9,
    })
}

/// A voucher, a bill and an asset.
fn tell_papers(page: &mut Page, alloc: Global) {
    let voucher = Shown::Voucher {
        amount: 5,
        state: VoucherState::Paid,
        year: 2027,
    };
    tell_look(page, alloc, voucher);
    let bill = Shown::Bill {
        left: 5,
        levy_year: 2027,
        source: 1,
    };
    tell_look(page, alloc, bill);
    let asset = Shown::Asset {
        cost: 12,
        depreciation: 3,
        state: AssetState::Held,
    };
    tell_look(page, alloc, asset);
}

/// A bond after its last payment and before its next.
fn tell_bonds(page: &mut Page, alloc: Global) {
    let paid = Shown::Bond {
        accrued: -1,
        next: None,
        outstanding: 0,
    };
    tell_look(page, alloc, paid);
    let next = Day {
        year: 2027,
        month: 1,
        day: 28,
    };
    let due = Shown::Bond {
        accrued: 1,
        next: Some(next),
        outstanding: 8,
    };
    tell_look(page, alloc, due);
}

/// A line, leave and an account.
fn tell_sums(page: &mut Page, alloc: Global) {
    let line = Shown::Line(LineNumbers {
        original: 1,
        appropriated: 2,
        held: 3,
        encumbered: 4,
        expended: 5,
        room: -10,
    });
    tell_look(page, alloc, line);
    tell_look(page, alloc, Shown::Leave { left: 6 });
    tell_look(page, alloc, Shown::Account { balance: -250000 });
}

fn tell_reconciliation(page: &mut Page, alloc: Global) {
    let reconciliation = Shown::Reconcile(ReconShown {
        fund_balances: 1,
        capital_assets: 2,
        right_to_use: 3,
        unavailable: 4,
        bonds: -5,
        leases: -6,
        accrued_interest: -7,
        leave: -8,
        net_position: -16,
    });
    tell_look(page, alloc, reconciliation);
}

fn row(alloc: Global, label: &str, amounts: &[i128]) -> Result<Row, AllocError> {
    Ok(Row {
        label: Label::new(alloc, label)?,
        amounts: List::of(Vec::from_slice(alloc, amounts)?),
    })
}

fn report(alloc: Global) -> Result<Shown, AllocError> {
    let mut rows = List::new(alloc);
    rows.push(row(alloc, "Caf\u{e9} \"A\"", &[])?)?;
    rows.push(row(alloc, "Cash", &[-5, 120])?)?;
    Ok(Shown::Report {
        rows,
        title: Label::new(alloc, "Balance sheet")?,
    })
}

/// Appends the text of each reply, at 7.
pub fn tell_replies(page: &mut Page, alloc: Global) {
    tell_refusals(page, alloc);
    tell_results(page, alloc);
    tell_others(page, alloc);
    tell_made_look(page, alloc, requisition(alloc));
    tell_made_look(page, alloc, order(alloc));
    tell_papers(page, alloc);
    tell_bonds(page, alloc);
    tell_sums(page, alloc);
    tell_reconciliation(page, alloc);
    tell_made_look(page, alloc, report(alloc));
}
