//! The rows of documents.

ghost use Rattle.std.specs.Prelude.{◌≡◌, option_map, string_bytes, IfOk, OnOk};
ghost use Rattle.std.specs.List.{AllByRecursion};
ghost use Rattle.std.specs.Option.{option_copied};
ghost use Rattle.cf_base.specs.Common.{money_of};
ghost use Rattle.cf_books_documents.specs.Dated.{IsDated};
ghost use Rattle.cf_books_documents.specs.KnownIn.{known_in};
ghost use Rattle.cf_books_documents.specs.Once.{EachOnce};
ghost use Rattle.cf_books_lists.specs.Records.{head_text, record_text};
ghost use Rattle.cf_books_lists.specs.Rows.{added};
ghost use Rattle.cf_books_documents.specs.Text as spec;

use crate::documents::{Office, add_documents};
use crate::event::Event;
use crate::facts::{Facts, kind_word, state_word};
use crate::texts::{events_text, paid_text, run_text};
use crate::told::{Told, told_of};
use crate::wanted::{is_wanted, payment_of};
use cf_base::{day_text, money_text};
use cf_books_lists::{Layout, Rows, decimal_text, drawn_text, number_text};
use cf_books_words::{DocumentFilter, DocumentKind};
use cf_calls::Entry;
use cf_chart::Chart;
use cf_office_history::Rest;
use std::alloc::{AllocError, Global};

/// The control line of a document's account and year, where it has both.
fn line_of(chart: &Chart, facts: &Facts) -> Option<u16>
    ensures { result ≡ spec.line_by chart.now facts.now.account facts.now.year }
{
    let account = facts.account;
    match (account.fund, account.dept, account.object, facts.year) {
        (Some(fund), Some(dept), Some(object), Some(year)) => chart
            .line_of(fund, dept, object, year)
            .map(|line| line.number),
        _ => None,
    }
}

/// The amount of a document.
fn amount_text(alloc: Global, facts: &Facts) -> Result<String, AllocError>
    ensures { IfOk result (λ t. string_bytes t ≡ money_of facts.now.amount) }
{
    money_text(alloc, facts.amount)
}

/// What is open of a document.
fn left_text(alloc: Global, facts: &Facts) -> Result<String, AllocError>
    ensures { IfOk result (λ t. string_bytes t ≡ money_of facts.now.left) }
{
    money_text(alloc, facts.left)
}

/// Writes the record of a document that an entry entered, which a payment paid, and to which
/// entries did this.
fn put_row(
    alloc: Global,
    out: &mut Rows,
    chart: &Chart,
    entry: &Entry,
    payment: Option<&Entry>,
    facts: &Facts,
    events: &[Event],
) -> Result<(), AllocError>
    ensures { OnOk result (out.new ≡ added out.old (record_text out.old.csv (spec.row chart.now
        entry.now (option_copied payment.entry) facts.now events.now))) }
{
    let change = &entry.change;
    let account = facts.account;
    let kind = Vec::from_slice(alloc, kind_word(facts.kind).as_bytes())?;
    let number = drawn_text(alloc, facts.number)?;
    let item = drawn_text(alloc, facts.item)?;
    let day = day_text(change.on);
    let desk = decimal_text(alloc, u64::from(change.desk))?;
    let party = drawn_text(alloc, u64::from(facts.party))?;
    let fund = number_text(alloc, account.fund)?;
    let dept = number_text(alloc, account.dept)?;
    let object = number_text(alloc, account.object)?;
    let line = number_text(alloc, line_of(chart, facts))?;
    let source = number_text(alloc, facts.source)?;
    let year = number_text(alloc, facts.year)?;
    let amount = amount_text(alloc, facts)?;
    let left = left_text(alloc, facts)?;
    let state = Vec::from_slice(alloc, state_word(facts.state).as_bytes())?;
    let paid = paid_text(alloc, payment)?;
    let run = Vec::from_slice(alloc, run_text(payment).as_bytes())?;
    let done = events_text(alloc, events)?;
    let fields = [
        kind.as_slice(),
        number.as_slice(),
        item.as_slice(),
        day.as_slice(),
        desk.as_slice(),
        change.key.as_str().as_bytes(),
        party.as_slice(),
        fund.as_slice(),
        dept.as_slice(),
        object.as_slice(),
        line.as_slice(),
        source.as_slice(),
        year.as_slice(),
        amount.as_str().as_bytes(),
        left.as_str().as_bytes(),
        state.as_slice(),
        paid.as_slice(),
        run.as_slice(),
        done.as_slice(),
    ];
    out.put(fields.as_slice())
}

/// What is asked for, of which history.
#[derive(Clone, Copy)]
struct Query<'a> {
    filter: DocumentFilter,
    key: Option<&'a str>,
    entries: &'a [Entry],
    told: &'a Told,
}

/// Writes a document that an entry entered, where it is wanted.
fn put_document(
    out: &mut Rows,
    office: &Office,
    query: &Query,
    entry: &Entry,
    facts: &Facts,
) -> Result<(), AllocError>
    ensures { OnOk result (out.new ≡ added out.old (spec.document_text out.old.csv query.now.filter
        (option_map (λ t. t.now) query.now.key) office.now.chart.now (known_in query.now.told.now)
        query.now.entries.now entry.now facts.now)) }
{
    let events = query.told.events_of(office.alloc, facts)?;
    let payment = payment_of(query.entries, events.as_slice());
    if is_wanted(query.filter, query.key, facts, entry, payment) {
        let alloc = office.alloc;
        let done = events.as_slice();
        return put_row(alloc, out, office.chart, entry, payment, facts, done);
    }
    Ok(())
}

/// Writes the wanted ones of these documents that an entry entered.
fn put_documents(
    out: &mut Rows,
    office: &Office,
    query: &Query,
    entry: &Entry,
    documents: &[Facts],
) -> Result<(), AllocError>
    ensures { OnOk result (out.new ≡ added out.old (spec.documents_text out.old.csv query.now.filter
        (option_map (λ t. t.now) query.now.key) office.now.chart.now (known_in query.now.told.now)
        query.now.entries.now entry.now documents.now)) }
{
    for facts in documents {
        put_document(out, office, query, entry, facts)?;
    }
    Ok(())
}

/// Writes the wanted ones of what the entry at a place entered of a kind.
fn put_entry(
    out: &mut Rows,
    office: &Office,
    query: &Query,
    kind: DocumentKind,
    place: u64,
    entry: &Entry,
) -> Result<(), AllocError>
    requires { IsDated entry.now }
    ensures { OnOk result (out.new ≡ added out.old (spec.entry_text out.old.csv query.now.filter
        (option_map (λ t. t.now) query.now.key) office.now.chart.now
        office.now.registers.now.registers (known_in query.now.told.now) query.now.entries.now kind
        place entry.now)) }
{
    let mut documents = Vec::new(office.alloc);
    add_documents(&mut documents, office, kind, place, entry)?;
    put_documents(out, office, query, entry, documents.as_slice())
}

/// Writes the wanted ones of what these entries entered of a kind.
fn put_kind(
    out: &mut Rows,
    office: &Office,
    query: &Query,
    kind: DocumentKind,
    entries: &[Entry],
) -> Result<(), AllocError>
    requires { AllByRecursion IsDated entries.now }
    ensures { OnOk result (out.new ≡ added out.old (spec.kind_text out.old.csv query.now.filter
        (option_map (λ t. t.now) query.now.key) office.now.chart.now
        office.now.registers.now.registers (known_in query.now.told.now) query.now.entries.now kind
        1 entries.now)) }
{
    let mut place: u64 = 0;
    for entry in entries {
        place += 1;
        put_entry(out, office, query, kind, place, entry)?;
    }
    Ok(())
}

/// Writes the names of the columns.
fn put_head(out: &mut Rows) -> Result<(), AllocError>
    ensures { OnOk result (out.new ≡ added out.old (head_text out.old.csv spec.head)) }
{
    let names: [&[u8]; 19] = [
        b"kind", b"number", b"item", b"day", b"desk", b"key", b"party", b"fund", b"dept",
        b"object", b"line", b"source", b"year", b"amount", b"left", b"state", b"paid", b"run",
        b"entries",
    ];
    out.put_names(names.as_slice())
}

/// Writes the wanted documents, kind by kind.
fn put_kinds(
    out: &mut Rows,
    office: &Office,
    query: &Query,
    entries: &[Entry],
) -> Result<(), AllocError>
    requires { AllByRecursion IsDated entries.now }
    ensures { OnOk result (out.new ≡ added out.old (spec.kinds_text out.old.csv query.now.filter
        (option_map (λ t. t.now) query.now.key) office.now.chart.now
        office.now.registers.now.registers (known_in query.now.told.now) query.now.entries.now
        entries.now spec.kinds)) }
{
    let kinds = [
        DocumentKind::Requisition,
        DocumentKind::Order,
        DocumentKind::Voucher,
        DocumentKind::Bill,
        DocumentKind::Asset,
        DocumentKind::Bond,
        DocumentKind::Lease,
        DocumentKind::Loan,
    ];
    for kind in kinds {
        put_kind(out, office, query, kind, entries)?;
    }
    Ok(())
}

/// The documents that ever were and are wanted, as records below a row of names: requisitions,
/// items of orders, vouchers, bills, assets, bonds, leases and loans between funds, each kind by
/// rising number, as looks show them, in units of money; with the last payment or collection of
/// each, and what entries did to it. With a text in `key`, those in whose keys it stands.
#[tactic(auto, using(crate::proofs::Each::each_once))]
pub fn documents_text(
    layout: Layout,
    filter: DocumentFilter,
    key: Option<&str>,
    rest: &Rest,
) -> Result<Vec<u8>, AllocError>
    ensures text { IfOk result (λ v. v.items ≡ spec.text layout.csv filter (option_map (λ t. t.now)
        key.entry) rest.now.plan rest.now.entries) }
    ensures once { EachOnce rest.now.plan rest.now.entries }
{
    let alloc = layout.alloc;
    let entries = rest.entries();
    let told = told_of(alloc, rest.chart(), entries)?;
    let office = Office {
        alloc,
        chart: rest.chart(),
        registers: rest.registers(),
    };
    let query = Query {
        filter,
        key,
        entries,
        told: &told,
    };
    let mut out = Rows::new(layout);
    put_head(&mut out)?;
    put_kinds(&mut out, &office, &query, entries)?;
    out.into_text()
}
