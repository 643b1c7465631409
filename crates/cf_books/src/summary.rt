//! What a chart has, and what a journal has.

ghost use Rattle.std.specs.Prelude.{◌≡◌, ◌++◌, codes, map, OnOk};
ghost use Rattle.cf_books.specs.Summary as spec;

use cf_base::day_text;
use cf_books_lists::put_between;
use cf_calls::acts::Period;
use cf_calls::{Act, Entry};
use cf_chart::{Chart, Fund, LaterLevel, Level};
use cf_json_members::parts::put_number;
use std::alloc::AllocError;

/// Appends a fact with its name.
#[tactic(auto, unfolding(crate::specs::Summary::fact))]
fn put_fact(out: &mut Vec<u8>, name: &str, value: &[u8]) -> Result<(), AllocError>
    ensures { OnOk result (out.new.items ≡ out.old.items ++ spec.fact name.now value.now) }
{
    out.extend_from_slice(name.as_bytes())?;
    out.extend_from_slice(b": ")?;
    out.extend_from_slice(value)?;
    out.push(b'\n')?;
    Ok(())
}

/// Appends a number with its name.
#[tactic(auto, unfolding(crate::specs::Summary::count_fact))]
fn put_count(out: &mut Vec<u8>, name: &str, n: u64) -> Result<(), AllocError>
    ensures { OnOk result (out.new.items ≡ out.old.items ++ spec.count_fact (name.now, n)) }
{
    out.extend_from_slice(name.as_bytes())?;
    out.extend_from_slice(b": ")?;
    put_number(out, n)?;
    out.push(b'\n')?;
    Ok(())
}

/// Appends numbers with their names.
pub(crate) fn put_counts(out: &mut Vec<u8>, facts: &[(&str, u64)]) -> Result<(), AllocError>
    ensures { OnOk result (out.new.items ≡ out.old.items
        ++ spec.counts_text (map spec.named facts.now)) }
{
    for fact in facts {
        put_count(out, fact.0, fact.1)?;
    }
    Ok(())
}

/// A level in the words of a chart.
fn level_word(level: Level) -> &'static str
    ensures { result.now ≡ spec.level_word level }
{
    match level {
        Level::Department => "department",
        Level::Class => "class",
        Level::Object => "object",
    }
}

/// Appends at which level a fund is controlled later, and from which fiscal year on.
fn put_later(out: &mut Vec<u8>, fund: u16, later: Option<LaterLevel>) -> Result<(), AllocError>
    ensures { OnOk result (out.new.items ≡ out.old.items ++ spec.later_text fund later) }
{
    match later {
        None => Ok(()),
        Some(later) => {
            put_between(out, "fund ", fund as u64, " is controlled by ")?;
            out.extend_from_slice(level_word(later.level).as_bytes())?;
            put_between(out, " from ", later.year as u64, "\n")
        }
    }
}

/// Appends a line a fund that changes its level.
fn put_laters(out: &mut Vec<u8>, funds: &[Fund]) -> Result<(), AllocError>
    ensures { OnOk result (out.new.items ≡ out.old.items ++ spec.laters_text funds.now) }
{
    for fund in funds {
        put_later(out, fund.id, fund.later)?;
    }
    Ok(())
}

/// Appends what a chart has.
pub fn put_chart(out: &mut Vec<u8>, chart: &Chart) -> Result<(), AllocError>
    ensures { OnOk result (out.new.items ≡ out.old.items ++ spec.chart_text chart.now) }
{
    let funds = chart.funds();
    put_fact(out, "city", chart.city().as_bytes())?;
    put_counts(
        out,
        &[
            ("first fiscal year", chart.first_year() as u64),
            ("first month", chart.first_month() as u64),
            ("functions", chart.functions().len() as u64),
            ("funds", funds.len() as u64),
            ("departments", chart.depts().len() as u64),
            ("objects", chart.objects().len() as u64),
            ("sources", chart.sources().len() as u64),
            ("lines", chart.lines().len() as u64),
            ("desks", chart.desks().len() as u64),
        ],
    )?;
    put_laters(out, funds)
}

/// Whether an act closes a month, or a fiscal year.
#[tactic(auto, unfolding(crate::specs::Summary::closes))]
fn closes(years: bool, act: &Act) -> bool
    ensures { result ≡ spec.closes years act.now }
{
    match act {
        Act::Close(Period::Month(_)) => !years,
        Act::Close(Period::Year(_)) => years,
        Act::Adopt(_)
        | Act::Amend(_)
        | Act::Transfer(_)
        | Act::Requisition(_)
        | Act::Withdraw(_)
        | Act::Order(_)
        | Act::ChangeOrder(_)
        | Act::CancelOrder(_)
        | Act::Voucher(_)
        | Act::VoidVoucher(_)
        | Act::Pay(_)
        | Act::Bill(_)
        | Act::Collect(_)
        | Act::Receive(_)
        | Act::WriteOff(_)
        | Act::Asset(_)
        | Act::Issue(_)
        | Act::PayDue(_)
        | Act::Leave(_)
        | Act::Interfund(_)
        | Act::Lease(_) => false,
    }
}

/// How many months, or fiscal years, the entries close.
fn closed(years: bool, entries: &[Entry]) -> u64
    ensures { result ≡ spec.closed years entries.now }
{
    let mut count = 0;
    for entry in entries {
        if closes(years, &entry.change.act) {
            count += 1;
        }
    }
    count
}

/// Appends the day of the last entry.
fn put_last_day(out: &mut Vec<u8>, entries: &[Entry]) -> Result<(), AllocError>
    ensures { OnOk result (out.new.items ≡ out.old.items
        ++ spec.fact (codes "last day") (spec.last_day entries.now)) }
{
    match entries.last() {
        Some(entry) => put_fact(out, "last day", &day_text(entry.change.on)),
        None => put_fact(out, "last day", b"none"),
    }
}

/// Appends what the entries of a journal come to.
pub fn put_journal(out: &mut Vec<u8>, entries: &[Entry]) -> Result<(), AllocError>
    ensures { OnOk result (out.new.items ≡ out.old.items ++ spec.journal_text entries.now) }
{
    put_last_day(out, entries)?;
    put_counts(
        out,
        &[
            ("entries", entries.len() as u64),
            ("closed months", closed(false, entries)),
            ("closed years", closed(true, entries)),
        ],
    )
}
