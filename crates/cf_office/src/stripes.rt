//! The stripes of control lines that a call touches, as eight marks.

ghost use Rattle.std.specs.Prelude.{◌≡◌, ◌==◌, ◌||◌, ◌<◌, ℕ, option_map};
ghost use Rattle.std.specs.List.{list_any};
ghost use Rattle.cf_model.specs.Stripes as spec;
ghost use Rattle.cf_office.specs.Marks.{mark_at};

use cf_calls::acts::LeaveAct;
use cf_calls::items::{AccountItem, LineAmount, VoucherItem};
use cf_calls::{Act, Call, Read};
use cf_chart::{Chart, LineId, stripe_of};

/// No stripe is marked.
const NONE: [bool; 8] = [false; 8];

/// All stripes are marked.
const ALL: [bool; 8] = [true; 8];

/// Marks the stripe of a line.
fn mark(line: u16, marks: &mut [bool; 8])
    ensures { (k : ℕ) → k < 8
        → mark_at marks.new k ≡ (mark_at marks.old k || (spec.stripe_of line == k)) }
{
    marks[stripe_of(LineId { number: line })] = true;
}

/// Marks the stripe of a line that may be there.
fn mark_if(line: Option<LineId>, marks: &mut [bool; 8])
    ensures { (k : ℕ) → k < 8
        → mark_at marks.new k
        ≡ (mark_at marks.old k || spec.is_line_in k (option_map (λ l. l.number) line)) }
{
    if let Some(line) = line {
        mark(line.number, marks);
    }
}

/// Marks the stripes of an account's lines, of its fund's first level and of its later one. A call
/// need not know in which year an item is to take them.
fn mark_account(chart: &Chart, fund: u16, dept: u16, object: u16, marks: &mut [bool; 8])
    ensures { (k : ℕ) → k < 8
        → mark_at marks.new k ≡ (mark_at marks.old k || spec.is_in chart.now k fund dept object) }
{
    mark_if(chart.line_in(fund, dept, object, false), marks);
    mark_if(chart.line_in(fund, dept, object, true), marks);
}

/// Marks the stripes of lines.
fn mark_rows(rows: &[LineAmount], marks: &mut [bool; 8])
    ensures { (k : ℕ) → k < 8
        → mark_at marks.new k
        ≡ (mark_at marks.old k || list_any (λ r. spec.stripe_of r.line == k) rows.now) }
{
    for row in rows {
        mark(row.line, marks);
    }
}

/// Marks the stripes of the lines of an item's account.
fn mark_item(chart: &Chart, item: &AccountItem, marks: &mut [bool; 8])
    ensures { (k : ℕ) → k < 8
        → mark_at marks.new k ≡ (mark_at marks.old k || spec.is_item_in chart.now k item.now) }
{
    mark_account(chart, item.fund, item.dept, item.object, marks);
}

/// Marks the stripes of accounts' lines.
fn mark_items(chart: &Chart, items: &[AccountItem], marks: &mut [bool; 8])
    ensures { (k : ℕ) → k < 8
        → mark_at marks.new k
        ≡ (mark_at marks.old k || list_any (spec.is_item_in chart.now k) items.now) }
{
    for item in items {
        mark_item(chart, item, marks);
    }
}

/// Marks the stripes of the lines of a voucher's items.
fn mark_voucher(chart: &Chart, items: &[VoucherItem], marks: &mut [bool; 8])
    ensures { (k : ℕ) → k < 8
        → mark_at marks.new k
        ≡ (mark_at marks.old k || list_any (λ i. spec.is_item_in chart.now k i.account) items.now) }
{
    for item in items {
        mark_item(chart, &item.account, marks);
    }
}

/// Marks the stripe of matured leave's account.
fn mark_leave(chart: &Chart, act: &LeaveAct, marks: &mut [bool; 8])
    ensures { (k : ℕ) → k < 8
        → mark_at marks.new k ≡ (mark_at marks.old k || spec.leave_touches chart.now k act.now) }
{
    match act {
        LeaveAct::Mature(l) => mark_account(chart, l.fund, l.dept, l.object, marks),
        LeaveAct::Earn(_) | LeaveAct::Use(_) => {}
    }
}

/// The stripes that an act touches: those of its lines or of its accounts' lines, or all where
/// documents tell which (own rule). An account has those of its lines at both levels of its fund,
/// and without a line none.
pub fn touched_stripes(chart: &Chart, act: &Act) -> [bool; 8]
    ensures { (k : ℕ) → k < 8 → mark_at result k ≡ spec.touches chart.now k act.now }
{
    let mut marks = NONE;
    match act {
        Act::Adopt(a) => mark_rows(a.lines.as_slice(), &mut marks),
        Act::Amend(a) => mark(a.line, &mut marks),
        Act::Transfer(t) => {
            mark(t.from, &mut marks);
            mark(t.to, &mut marks);
        }
        Act::Requisition(r) => mark_items(chart, r.items.as_slice(), &mut marks),
        Act::Order(o) if o.requisition.is_none() => {
            mark_items(chart, o.items.as_slice(), &mut marks);
        }
        Act::ChangeOrder(c) => mark_account(chart, c.fund, c.dept, c.object, &mut marks),
        Act::Voucher(v) => mark_voucher(chart, v.items.as_slice(), &mut marks),
        Act::PayDue(p) => {
            mark_account(chart, p.fund, p.dept, p.principal, &mut marks);
            mark_account(chart, p.fund, p.dept, p.interest, &mut marks);
        }
        Act::Leave(l) => mark_leave(chart, l, &mut marks),
        Act::Lease(l) => mark_item(chart, &l.account, &mut marks),
        Act::Order(_)
        | Act::Withdraw(_)
        | Act::CancelOrder(_)
        | Act::VoidVoucher(_)
        | Act::Close(_) => marks = ALL,
        Act::Pay(_)
        | Act::Bill(_)
        | Act::Collect(_)
        | Act::Receive(_)
        | Act::WriteOff(_)
        | Act::Asset(_)
        | Act::Issue(_)
        | Act::Interfund(_) => {}
    }
    marks
}

/// The stripes that a look reads.
fn read_by(read: &Read) -> [bool; 8]
    ensures { (k : ℕ) → k < 8 → mark_at result k ≡ spec.read_touches k read.now }
{
    let mut marks = NONE;
    match *read {
        Read::Line { line, year: _ } => mark(line, &mut marks),
        Read::Report { .. } => marks = ALL,
        Read::Requisition { .. }
        | Read::Order { .. }
        | Read::Voucher { .. }
        | Read::Bill { .. }
        | Read::Asset { .. }
        | Read::Bond { .. }
        | Read::Leave { .. }
        | Read::Account { .. }
        | Read::Reconcile { .. } => {}
    }
    marks
}

/// The stripes that a call touches, so that who makes it must hold their line numbers. It takes no
/// memory.
pub fn taken_stripes(chart: &Chart, call: &Call) -> [bool; 8]
    ensures { (k : ℕ) → k < 8 → mark_at result k ≡ spec.call_touches chart.now k call.now }
{
    match call {
        Call::Change(change) => touched_stripes(chart, &change.act),
        Call::Look(look) => read_by(&look.read),
    }
}
