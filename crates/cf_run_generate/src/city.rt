//! The chart of the generator's city.

ghost use Rattle.std.specs.Prelude.{◌≡◌, IfOk, Ok};
ghost use Rattle.cf_chart.specs.Common.{chart_of};
ghost use Rattle.cf_run_generate.specs.Generated.{chart_text};

use cf_chart::{Chart, ChartRefused};
use std::alloc::{AllocError, Global};

/// The chart as a TOML document: three funds, four departments, forty control lines, and a desk for
/// each role.
pub const CITY: &str = "city = \"Milltown\"
first_year = 2026
first_month = 7
function = [
  { id = 1, name = \"General government\" },
  { id = 2, name = \"Public works\" },
]
fund = [
  { id = 1, name = \"General Fund\", type = \"general\", level = \"object\", policy = \"lapse\" },
  { id = 2, name = \"Grant Fund\", type = \"special_revenue\", level = \"object\", policy = \"lapse\" },
  { id = 3, name = \"Building Fund\", type = \"capital_projects\", level = \"department\", policy = \"carry\" },
]
department = [
  { id = 1, name = \"Dept 1\", function = 1 },
  { id = 2, name = \"Dept 2\", function = 1 },
  { id = 3, name = \"Dept 3\", function = 1 },
  { id = 4, name = \"Dept 4\", function = 2 },
]
object = [
  { id = 101, name = \"Object 101\", class = 1, kind = \"current\" },
  { id = 102, name = \"Object 102\", class = 1, kind = \"current\" },
  { id = 103, name = \"Object 103\", class = 1, kind = \"current\" },
  { id = 104, name = \"Object 104\", class = 1, kind = \"current\" },
  { id = 105, name = \"Object 105\", class = 1, kind = \"current\" },
  { id = 106, name = \"Object 106\", class = 1, kind = \"current\" },
  { id = 107, name = \"Object 107\", class = 1, kind = \"current\" },
  { id = 108, name = \"Object 108\", class = 1, kind = \"current\" },
  { id = 109, name = \"Object 109\", class = 1, kind = \"current\" },
  { id = 110, name = \"Object 110\", class = 1, kind = \"current\" },
  { id = 111, name = \"Object 111\", class = 7, kind = \"capital\", life = 60 },
]
source = [
  { id = 1, name = \"Property tax\", fund = 1, kind = \"property_tax\", window = 60 },
  { id = 4, name = \"Fees\", fund = 1, kind = \"general\", window = 30 },
  { id = 5, name = \"State grant\", fund = 2, kind = \"operating_grant\", function = 2, window = 60 },
  { id = 6, name = \"Investment income\", fund = 3, kind = \"general\", window = 30 },
]
line = [
  { fund = 1, dept = 1, object = 101 },
  { fund = 1, dept = 1, object = 102 },
  { fund = 1, dept = 1, object = 103 },
  { fund = 1, dept = 1, object = 104 },
  { fund = 1, dept = 1, object = 105 },
  { fund = 1, dept = 1, object = 106 },
  { fund = 1, dept = 1, object = 107 },
  { fund = 1, dept = 1, object = 108 },
  { fund = 1, dept = 1, object = 109 },
  { fund = 1, dept = 1, object = 110 },
  { fund = 1, dept = 2, object = 101 },
  { fund = 1, dept = 2, object = 102 },
  { fund = 1, dept = 2, object = 103 },
  { fund = 1, dept = 2, object = 104 },
  { fund = 1, dept = 2, object = 105 },
  { fund = 1, dept = 2, object = 106 },
  { fund = 1, dept = 2, object = 107 },
  { fund = 1, dept = 2, object = 108 },
  { fund = 1, dept = 2, object = 109 },
  { fund = 1, dept = 2, object = 110 },
  { fund = 1, dept = 3, object = 101 },
  { fund = 1, dept = 3, object = 102 },
  { fund = 1, dept = 3, object = 103 },
  { fund = 1, dept = 3, object = 104 },
  { fund = 1, dept = 3, object = 105 },
  { fund = 1, dept = 3, object = 106 },
  { fund = 1, dept = 3, object = 107 },
  { fund = 1, dept = 3, object = 108 },
  { fund = 1, dept = 3, object = 109 },
  { fund = 1, dept = 3, object = 110 },
  { fund = 2, dept = 4, object = 101 },
  { fund = 2, dept = 4, object = 102 },
  { fund = 2, dept = 4, object = 103 },
  { fund = 2, dept = 4, object = 104 },
  { fund = 2, dept = 4, object = 105 },
  { fund = 2, dept = 4, object = 106 },
  { fund = 2, dept = 4, object = 107 },
  { fund = 2, dept = 4, object = 108 },
  { fund = 3, dept = 4 },
  { fund = 3, dept = 1 },
]
desk = [
  { id = 1, name = \"Desk 1\", roles = [\"council\"] },
  { id = 2, name = \"Desk 2\", roles = [\"dept\"] },
  { id = 3, name = \"Desk 3\", roles = [\"purchasing\"] },
  { id = 4, name = \"Desk 4\", roles = [\"payables\"] },
  { id = 5, name = \"Desk 5\", roles = [\"treasury\"] },
  { id = 6, name = \"Desk 6\", roles = [\"revenue\"] },
  { id = 7, name = \"Desk 7\", roles = [\"assets\"] },
  { id = 8, name = \"Desk 8\", roles = [\"payroll\"] },
  { id = 9, name = \"Desk 9\", roles = [\"controller\"] },
  { id = 10, name = \"Desk 10\", roles = [\"council\", \"dept\", \"purchasing\", \"payables\", \"treasury\", \"revenue\", \"assets\", \"payroll\", \"controller\"] },
]
";

/// The document's bytes.
fn city_bytes() -> &'static [u8]
    ensures { result.now ≡ chart_text }
{
    CITY.as_bytes()
}

/// The chart of the city.
pub fn city_chart(alloc: Global) -> Result<Chart, AllocError>
    ensures { IfOk result (λ plan. chart_of chart_text ≡ Ok plan) }
{
    match Chart::read(alloc, city_bytes()) {
        Ok(chart) => Ok(chart),
        // The document has no fault.
        Err(ChartRefused::Fault(_)) => unreachable!(),
        Err(ChartRefused::NoMemory) => Err(AllocError),
    }
}
