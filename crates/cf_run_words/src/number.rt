//! Numbers, months, days and kinds as words.
ghost use Rattle.std.specs.Prelude.{◌≡◌, IfSome, option_map, true};
ghost use Rattle.cf_base.specs.Common.{is_call_month, is_day};
ghost use Rattle.cf_run_words.specs.Ranges.{IsFrom};
ghost use Rattle.cf_run_words.specs.Words.{begins_number, day_in, month_in, number_in, number_of, report_kind_of};

use crate::words::ReportKind;
use cf_base::{Day, Kind, Month, read_day, read_month};

fn begins_as_number(text: &str) -> bool
    ensures { result ≡ begins_number text.now }
{
    matches!(text.as_bytes(), [b'1'..=b'9', ..]) || text == "0"
}

/// The number of digits alone, with no sign and no leading zero, where it fits 64 bits.
pub fn number_of_text(text: &str) -> Option<u64>
    ensures { result ≡ number_of text.now }
{
    if !begins_as_number(text) {
        return None;
    }
    text.parse().ok()
}

/// The number from `low` to `high` that the text writes, where there is one.
pub fn number_from(text: Option<&str>, low: u64, high: u64) -> Option<u64>
    ensures value { result ≡ number_in low high (option_map (λ t. t.now) text.entry) }
    ensures range { IfSome result (IsFrom low high) }
{
    let n = number_of_text(text?)?;
    if low <= n && n <= high { Some(n) } else { None }
}

/// The month that the text writes, from 1970-01 to 2199-12, where there is one.
pub fn month_from(text: Option<&str>) -> Option<Month>
    ensures value { result ≡ month_in (option_map (λ t. t.now) text.entry) }
    ensures range { IfSome result (λ m. is_call_month m ≡ true) }
{
    read_month(text?.as_bytes())
}

/// The day that the text writes, from 1970-01-01 to 2199-12-31, where there is one.
pub fn day_from(text: Option<&str>) -> Option<Day>
    ensures value { result ≡ day_in (option_map (λ t. t.now) text.entry) }
    ensures range { IfSome result (λ d. is_day d ≡ true) }
{
    read_day(text?.as_bytes())
}

/// What `report` prints by this name.
pub fn report_kind_named(text: &str) -> Option<ReportKind>
    ensures { result ≡ report_kind_of text.now }
{
    match text {
        "classes" => Some(ReportKind::Classes),
        "components" => Some(ReportKind::Components),
        "major" => Some(ReportKind::Major),
        _ => Some(ReportKind::Look(Kind::named(text)?)),
    }
}
