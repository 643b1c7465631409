//! What the laws of the books rest on, of a chart.

ghost use Rattle.cf_model.proofs.Common.{IsWhole};

use cf_chart::Chart;

/// Each chart has a first fiscal year and month that the office knows, and few functions, among
/// which are those of its departments. It does nothing: its clause is the law.
pub fn whole(chart: &Chart)
    ensures { IsWhole chart.now }
{
    let _year = chart.first_year();
    let _month = chart.first_month();
    let _functions = chart.functions();
    let _departments = chart.depts();
}
