//! A statement of a fiscal year, with the names of its sections and of control lines.

ghost use Rattle.std.specs.Prelude.{◌≡◌, ◌≤◌, ◌++◌, [], length, string_bytes, IfOk, OnOk};
ghost use Rattle.std.specs.Option.{option_copied};
ghost use Rattle.cf_model.specs.Common.{Budget, report_rows, sums_of};
ghost use Rattle.cf_calls.specs.Common.{IsYear};
ghost use Rattle.cf_text.specs.Records.{field_at};
ghost use Rattle.cf_books_lists.specs.Records.{head_text, record_text};
ghost use Rattle.cf_books_lists.specs.Rows.{added};
ghost use Rattle.cf_books_lists.specs.Statement as spec;
ghost use Rattle.cf_books_lists.specs.Statement.{AreOf};

use crate::lines::{later_of, part_and_years, part_name};
use crate::names::department_name;
use crate::open_fields::line_of;
use crate::rows::{Layout, Rows};
use crate::texts::number_text;
use cf_base::{Kind, money_text};
use cf_calls::Row;
use cf_chart::{Chart, Fund, Line, RevenueSource};
use cf_disk::Disk;
use cf_journal_book::Book;
use cf_run_words::ReportKind;
use std::alloc::{AllocError, Global};

/// The rows of a statement of a book, as `report` prints them.
fn rows_of<D: Disk + Drop>(
    alloc: Global,
    book: &Book<D>,
    year: u16,
    kind: ReportKind,
) -> Result<Vec<Row>, AllocError>
    requires { IsYear year }
    ensures { IfOk result (λ rows. rows.items ≡ spec.rows_of book.now.plan book.now.entries year
        kind) }
{
    match kind {
        ReportKind::Look(kind) => book.report_rows(alloc, year, kind),
        ReportKind::Classes => book.class_rows(alloc, year),
        ReportKind::Components => book.component_rows(alloc, year),
        ReportKind::Major => book.major_rows(alloc, year),
    }
}

// ---- the control lines of the rows

/// Appends that the rows of a fund's revenue sources are of no line.
fn put_sources(
    out: &mut Vec<Option<u16>>,
    sources: &[RevenueSource],
    fund: u16,
) -> Result<(), AllocError>
    ensures { OnOk result (out.new.items ≡ out.old.items ++ spec.source_lines fund sources.now) }
{
    for source in sources {
        if source.fund == fund {
            out.push(None)?;
        }
    }
    Ok(())
}

/// Appends those of these lines that are of a fund at a fiscal year's level of control.
fn put_lines(
    out: &mut Vec<Option<u16>>,
    chart: &Chart,
    year: u16,
    fund: u16,
    lines: &[Line],
) -> Result<(), AllocError>
    requires { length lines.now ≤ 4096 }
    ensures { OnOk result (out.new.items ≡ out.old.items
        ++ spec.fund_lines chart.now year fund 0 lines.now) }
{
    let mut number = 0;
    for line in lines {
        if line.fund == fund && chart.is_of_year(line, year) {
            out.push(Some(number))?;
        }
        number += 1;
    }
    Ok(())
}

/// Appends the control line of each row of a fund: its heading is of none.
fn put_section(
    out: &mut Vec<Option<u16>>,
    chart: &Chart,
    year: u16,
    fund: u16,
) -> Result<(), AllocError>
    ensures { OnOk result (out.new.items ≡ out.old.items
        ++ spec.section_lines chart.now year fund) }
{
    out.push(None)?;
    put_sources(out, chart.sources(), fund)?;
    put_lines(out, chart, year, fund, chart.lines())
}

/// Appends the control line of each row of these funds.
fn put_sections(
    out: &mut Vec<Option<u16>>,
    chart: &Chart,
    year: u16,
    funds: &[Fund],
) -> Result<(), AllocError>
    ensures { OnOk result (out.new.items ≡ out.old.items
        ++ spec.sections_lines chart.now year funds.now) }
{
    for fund in funds {
        put_section(out, chart, year, fund.id)?;
    }
    Ok(())
}

/// The control line of each row of the budgetary comparison, where it is of one.
fn comparison_lines(alloc: Global, chart: &Chart, year: u16) -> Result<Vec<Option<u16>>, AllocError>
    ensures { IfOk result (λ v. v.items ≡ spec.comparison_lines chart.now year) }
{
    let mut lines = Vec::new(alloc);
    put_sections(&mut lines, chart, year, chart.funds())?;
    Ok(lines)
}

/// The control line of each row of a statement: only the comparison has rows that are of one.
fn row_lines(
    alloc: Global,
    chart: &Chart,
    year: u16,
    kind: ReportKind,
) -> Result<Vec<Option<u16>>, AllocError>
    ensures { IfOk result (λ v. v.items ≡ spec.row_lines chart.now year kind) }
{
    match kind {
        ReportKind::Look(Kind::Budget) => comparison_lines(alloc, chart, year),
        ReportKind::Look(
            Kind::Balance
            | Kind::Operating
            | Kind::Position
            | Kind::Activities
            | Kind::Reconcile
            | Kind::Changes,
        )
        | ReportKind::Classes
        | ReportKind::Components
        | ReportKind::Major => Ok(Vec::new(alloc)),
    }
}

/// The line of the row at a place.
fn line_at(lines: &[Option<u16>], place: usize) -> Option<u16>
    ensures { result ≡ spec.line_at lines.now place }
{
    match lines.get(place) {
        Some(line) => *line,
        None => None,
    }
}

// ---- the sections

/// Whether a row is the total of all funds, which stands in no section.
fn is_total(kind: ReportKind, row: &Row) -> bool
    ensures { result ≡ spec.is_total kind row.now }
{
    match kind {
        ReportKind::Look(Kind::Balance) | ReportKind::Classes => {
            row.label.as_str() == "Total fund balances"
        }
        ReportKind::Look(
            Kind::Operating
            | Kind::Budget
            | Kind::Position
            | Kind::Activities
            | Kind::Reconcile
            | Kind::Changes,
        )
        | ReportKind::Components
        | ReportKind::Major => false,
    }
}

/// The section of a row below the heading of this one.
fn section_of<'a>(kind: ReportKind, section: &'a [u8], row: &Row) -> &'a [u8]
    ensures { result.now ≡ spec.section_of kind section.now row.now }
{
    if is_total(kind, row) { b"" } else { section }
}

/// The section of the rows below a row: a heading begins one.
fn section_below<'a>(section: &'a [u8], row: &'a Row) -> &'a [u8]
    ensures { result.now ≡ spec.section_below section.now row.now }
{
    if row.amounts.as_slice().is_empty() {
        row.label.as_str().as_bytes()
    } else {
        section
    }
}

// ---- the records

/// The text of the amount at a place, empty where there is none.
fn amount_text(alloc: Global, amounts: &[i128], place: usize) -> Result<String, AllocError>
    ensures { IfOk result (λ t. string_bytes t ≡ field_at amounts.now place) }
{
    match amounts.get(place) {
        Some(amount) => money_text(alloc, *amount),
        None => Ok(String::new(alloc)),
    }
}

/// Writes the record of a row of one amount.
fn put_single(alloc: Global, out: &mut Rows, section: &[u8], row: &Row) -> Result<(), AllocError>
    ensures { OnOk result (out.new
        ≡ added out.old (record_text out.old.csv (spec.single_fields section.now row.now))) }
{
    let amount = amount_text(alloc, row.amounts.as_slice(), 0)?;
    let fields = [
        section,
        row.label.as_str().as_bytes(),
        amount.as_str().as_bytes(),
    ];
    out.put(fields.as_slice())
}

/// The name of a row: that of its line's department, or else its own.
fn row_name(
    alloc: Global,
    chart: &Chart,
    line: Option<&Line>,
    row: &Row,
) -> Result<Vec<u8>, AllocError>
    ensures { IfOk result (λ t. t.items ≡ spec.row_name chart.now (option_copied line.entry)
        row.now) }
{
    match line {
        Some(line) => Vec::from_slice(alloc, department_name(chart.dept(line.dept)).as_bytes()),
        None => Vec::from_slice(alloc, row.label.as_str().as_bytes()),
    }
}

/// Which part of its department's objects a line has.
pub fn row_part(alloc: Global, chart: &Chart, line: Option<&Line>) -> Result<Vec<u8>, AllocError>
    ensures { IfOk result (λ t. t.items ≡ spec.row_part chart.now (option_copied line.entry)) }
{
    match line {
        Some(line) => part_and_years(alloc, line, later_of(chart.fund(line.fund))),
        None => Ok(Vec::new(alloc)),
    }
}

/// The name of that part.
pub fn row_part_name<'a>(chart: &'a Chart, line: Option<&Line>) -> &'a str
    ensures { result.now ≡ spec.row_part_name chart.now (option_copied line.entry) }
{
    match line {
        Some(line) => part_name(chart, line.part),
        None => "",
    }
}

/// Writes the record of a row of the budgetary comparison.
fn put_compared(
    alloc: Global,
    out: &mut Rows,
    chart: &Chart,
    section: &[u8],
    line: Option<u16>,
    row: &Row,
) -> Result<(), AllocError>
    ensures { OnOk result (out.new
        ≡ added out.old (record_text out.old.csv
        (spec.compared_fields chart.now section.now line row.now))) }
{
    let amounts = row.amounts.as_slice();
    let name = row_name(alloc, chart, line_of(chart, line), row)?;
    let number = number_text(alloc, line)?;
    let part = row_part(alloc, chart, line_of(chart, line))?;
    let adopted = amount_text(alloc, amounts, 0)?;
    let last = amount_text(alloc, amounts, 1)?;
    let actual = amount_text(alloc, amounts, 2)?;
    let on_order = amount_text(alloc, amounts, 3)?;
    let left = amount_text(alloc, amounts, 4)?;
    let fields = [
        section,
        name.as_slice(),
        number.as_slice(),
        part.as_slice(),
        row_part_name(chart, line_of(chart, line)).as_bytes(),
        adopted.as_str().as_bytes(),
        last.as_str().as_bytes(),
        actual.as_str().as_bytes(),
        on_order.as_str().as_bytes(),
        left.as_str().as_bytes(),
    ];
    out.put(fields.as_slice())
}

/// The amounts of a function, interest or the total: a row of one amount has none of them.
fn program_amounts(amounts: &[i128]) -> &[i128]
    ensures { result.now ≡ spec.program_amounts amounts.now }
{
    if amounts.len() == 1 { &[] } else { amounts }
}

/// The amount of a row of one.
fn single_amount(amounts: &[i128]) -> &[i128]
    ensures { result.now ≡ spec.single_amount amounts.now }
{
    if amounts.len() == 1 { amounts } else { &[] }
}

/// Writes the record of a row of the statement of activities.
fn put_activity(alloc: Global, out: &mut Rows, section: &[u8], row: &Row) -> Result<(), AllocError>
    ensures { OnOk result (out.new
        ≡ added out.old (record_text out.old.csv (spec.activity_fields section.now row.now))) }
{
    let program = program_amounts(row.amounts.as_slice());
    let expenses = amount_text(alloc, program, 0)?;
    let charges = amount_text(alloc, program, 1)?;
    let operating = amount_text(alloc, program, 2)?;
    let capital = amount_text(alloc, program, 3)?;
    let net = amount_text(alloc, program, 4)?;
    let amount = amount_text(alloc, single_amount(row.amounts.as_slice()), 0)?;
    let fields = [
        section,
        row.label.as_str().as_bytes(),
        expenses.as_str().as_bytes(),
        charges.as_str().as_bytes(),
        operating.as_str().as_bytes(),
        capital.as_str().as_bytes(),
        net.as_str().as_bytes(),
        amount.as_str().as_bytes(),
    ];
    out.put(fields.as_slice())
}

/// Writes the record of a row in a section.
fn put_fields(
    alloc: Global,
    out: &mut Rows,
    chart: &Chart,
    kind: ReportKind,
    section: &[u8],
    line: Option<u16>,
    row: &Row,
) -> Result<(), AllocError>
    ensures { OnOk result (out.new
        ≡ added out.old (record_text out.old.csv
        (spec.fields_of chart.now kind section.now line row.now))) }
{
    match kind {
        ReportKind::Look(Kind::Budget) => put_compared(alloc, out, chart, section, line, row),
        ReportKind::Look(Kind::Activities) => put_activity(alloc, out, section, row),
        ReportKind::Look(
            Kind::Balance | Kind::Operating | Kind::Position | Kind::Reconcile | Kind::Changes,
        )
        | ReportKind::Classes
        | ReportKind::Components
        | ReportKind::Major => put_single(alloc, out, section, row),
    }
}

/// Writes the record of a row, none of a heading.
fn put_row(
    alloc: Global,
    out: &mut Rows,
    chart: &Chart,
    kind: ReportKind,
    section: &[u8],
    line: Option<u16>,
    row: &Row,
) -> Result<(), AllocError>
    ensures { OnOk result (out.new
        ≡ added out.old (spec.row_text out.old.csv chart.now kind section.now line row.now)) }
{
    if row.amounts.as_slice().is_empty() {
        return Ok(());
    }
    put_fields(
        alloc,
        out,
        chart,
        kind,
        section_of(kind, section, row),
        line,
        row,
    )
}

/// Writes the records of these rows, each with the section that it stands in and its control line.
fn put_rows(
    alloc: Global,
    out: &mut Rows,
    chart: &Chart,
    kind: ReportKind,
    lines: &[Option<u16>],
    rows: &[Row],
) -> Result<(), AllocError>
    ensures { OnOk result (out.new
        ≡ added out.old (spec.rows_text out.old.csv chart.now kind lines.now [] 0 rows.now)) }
{
    let mut section: &[u8] = b"";
    let mut place = 0;
    for row in rows {
        put_row(alloc, out, chart, kind, section, line_at(lines, place), row)?;
        section = section_below(section, row);
        place += 1;
    }
    Ok(())
}

/// Writes the names of the columns.
fn put_head(out: &mut Rows, kind: ReportKind) -> Result<(), AllocError>
    ensures { OnOk result (out.new ≡ added out.old (head_text out.old.csv (spec.head_of kind))) }
{
    match kind {
        ReportKind::Look(Kind::Budget) => put_comparison_head(out),
        ReportKind::Look(Kind::Activities) => put_activities_head(out),
        ReportKind::Look(
            Kind::Balance | Kind::Operating | Kind::Position | Kind::Reconcile | Kind::Changes,
        )
        | ReportKind::Classes
        | ReportKind::Components
        | ReportKind::Major => put_single_head(out),
    }
}

fn put_single_head(out: &mut Rows) -> Result<(), AllocError>
    ensures { OnOk result (out.new ≡ added out.old (head_text out.old.csv spec.single_head)) }
{
    let names: [&[u8]; 3] = [b"section", b"name", b"amount"];
    out.put_names(names.as_slice())
}

fn put_comparison_head(out: &mut Rows) -> Result<(), AllocError>
    ensures { OnOk result (out.new ≡ added out.old (head_text out.old.csv spec.comparison_head)) }
{
    let names: [&[u8]; 10] = [
        b"section",
        b"name",
        b"line",
        b"part",
        b"part_name",
        b"adopted",
        b"final",
        b"actual",
        b"on_order",
        b"left",
    ];
    out.put_names(names.as_slice())
}

fn put_activities_head(out: &mut Rows) -> Result<(), AllocError>
    ensures { OnOk result (out.new ≡ added out.old (head_text out.old.csv spec.activities_head)) }
{
    let names: [&[u8]; 8] = [
        b"section",
        b"name",
        b"expenses",
        b"charges",
        b"operating_grants",
        b"capital_grants",
        b"net_expense",
        b"amount",
    ];
    out.put_names(names.as_slice())
}

/// Rows of a statement of a fiscal year as records below the names of the columns.
pub fn text_of_rows(
    layout: Layout,
    chart: &Chart,
    year: u16,
    kind: ReportKind,
    rows: &[Row],
) -> Result<Vec<u8>, AllocError>
    ensures { IfOk result (λ v. v.items ≡ spec.text_of layout.csv year kind chart.now rows.now) }
{
    let lines = row_lines(layout.alloc, chart, year, kind)?;
    let mut out = Rows::new(layout);
    put_head(&mut out, kind)?;
    put_rows(layout.alloc, &mut out, chart, kind, lines.as_slice(), rows)?;
    out.into_text()
}

/// A statement of a fiscal year from 1971 to 2199: its rows, which are those that `report` prints,
/// as records. Each has the section that it stands in, which is the heading above it, as a fund's
/// name; its name; and its amounts in units of money. A row of a control line has the name of the
/// line's department, the line's number, and which part of the department's objects it has.
pub fn statement_text<D: Disk + Drop>(
    layout: Layout,
    book: &Book<D>,
    year: u16,
    kind: ReportKind,
) -> Result<Vec<u8>, AllocError>
    requires { IsYear year }
    ensures text { IfOk result (λ v. v.items ≡ spec.statement_text layout.csv year kind
        book.now.plan book.now.entries) }
    ensures lines { AreOf (sums_of book.now.plan book.now.entries) year
        (spec.comparison_lines book.now.plan year)
        (report_rows book.now.plan book.now.entries year Budget) }
{
    let rows = rows_of(layout.alloc, book, year, kind)?;
    text_of_rows(layout, book.chart(), year, kind, rows.as_slice())
}
