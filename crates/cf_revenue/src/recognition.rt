//! When a collection is revenue.

ghost use Rattle.std.specs.Prelude.{◌≡◌, true};
ghost use Rattle.cf_base.specs.Common.{is_day};
ghost use Rattle.cf_calls.specs.Common.{IsCount, IsYear};
ghost use Rattle.cf_model.specs.Recognition as spec;

use cf_base::{Day, fiscal_year, is_in_window, month_of, year_end};

/// The fiscal year that a collection is revenue of: the levy year, where the day lies in it or at
/// most `window` days after its last day, and else the day's fiscal year (own rule). It takes no
/// memory.
pub fn revenue_year(window: u16, first_month: u8, levy_year: u16, day: Day) -> u16
    requires month { IsCount 1 12 first_month }
    requires year { IsYear levy_year }
    requires day { is_day day ≡ true }
    ensures { result ≡ spec.revenue_year window first_month levy_year day }
{
    let year = fiscal_year(first_month, month_of(day));
    if year == levy_year || is_in_window(year_end(first_month, levy_year), window, day) {
        levy_year
    } else {
        year
    }
}
