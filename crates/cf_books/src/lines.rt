//! A row a control line.

ghost use Rattle.std.specs.Prelude.{◌≡◌, IfOk, OnOk};
ghost use Rattle.cf_books.specs.Lines as spec;
ghost use Rattle.cf_books_lists.specs.Records.{record_text};
ghost use Rattle.cf_books_lists.specs.Rows.{added};

use cf_books_lists::{
    Layout, Rows, decimal_text, department_name, fund_name, later_of, part_and_years, part_name,
};
use cf_chart::{Chart, Line};
use std::alloc::{AllocError, Global};

/// Writes the row of a control line.
fn put_line(
    alloc: Global,
    out: &mut Rows,
    chart: &Chart,
    number: u64,
    line: &Line,
) -> Result<(), AllocError>
    ensures { OnOk result (out.new
        ≡ added out.old (record_text out.old.csv (spec.line_row chart.now number line.now))) }
{
    let at = decimal_text(alloc, number)?;
    let fund = decimal_text(alloc, line.fund as u64)?;
    let dept = decimal_text(alloc, line.dept as u64)?;
    let part = part_and_years(alloc, line, later_of(chart.fund(line.fund)))?;
    let fields = [
        at.as_slice(),
        fund.as_slice(),
        fund_name(chart.fund(line.fund)).as_bytes(),
        dept.as_slice(),
        department_name(chart.dept(line.dept)).as_bytes(),
        part.as_slice(),
        part_name(chart, line.part).as_bytes(),
    ];
    out.put(fields.as_slice())
}

/// The control lines of a chart, a row each, with tabs between the fields.
pub fn lines_text(alloc: Global, chart: &Chart) -> Result<Vec<u8>, AllocError>
    ensures { IfOk result (λ bytes. bytes.items ≡ spec.lines_text chart.now) }
{
    let mut out = Rows::new(Layout { alloc, csv: false });
    let mut number = 0;
    for line in chart.lines() {
        put_line(alloc, &mut out, chart, number, line)?;
        number += 1;
    }
    out.into_text()
}
