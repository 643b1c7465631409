//! The availability period of a fiscal year, within which what is collected may still be revenue of
//! it.

ghost use Rattle.std.specs.Prelude.{◌≡◌};
ghost use Rattle.cf_calls.specs.Common.{IsActInForm, IsYear};
ghost use Rattle.cf_model.proofs.Common.{IsNamed};
ghost use Rattle.cf_model.specs.Common.{is_month_closed};
ghost use Rattle.cf_model.specs.Rules as spec;

use cf_base::{Day, Month, month_at, window_end, year_end};
use cf_calls::acts::Period;
use cf_calls::{Act, Refusal};
use cf_chart::Chart;
use cf_office_history::History;
use cf_register_parts::is_month_closed;

/// The month that holds the last day of a fiscal year's longest availability period.
fn window_month(chart: &Chart, year: u16) -> Month
    requires { IsYear year }
    ensures value { result ≡ spec.window_month chart.now year }
    ensures named { IsNamed result }
{
    let last_day = year_end(chart.first_month(), year);
    month_at(window_end(last_day, chart.longest_window()))
}

/// Whether a month is closed: it is before the chart's first month, or one of the first months that
/// are closed.
fn is_closed(history: &History, month: Month) -> bool
    requires { IsNamed month }
    ensures { result ≡ is_month_closed history.now.plan history.now.entries month }
{
    is_month_closed(history.chart(), month, history.registers().closed())
}

/// A year closes while what is collected can still be revenue of it.
pub fn window_refusal(history: &History, on: Day, act: &Act) -> Option<Refusal>
    requires { IsActInForm on act.now }
    ensures { result ≡ spec.window_refusal history.now.plan history.now.entries act.now }
{
    let Act::Close(Period::Year(year)) = act else {
        return None;
    };
    let month = window_month(history.chart(), *year);
    if is_closed(history, month) {
        None
    } else {
        Some(Refusal::WindowOpen { month })
    }
}
