//! Where requests can go, and what the words of a path say.

ghost use Rattle.std.specs.Prelude.{◌≡◌};
ghost use Rattle.cf_http_heads.specs.Routes.{number_from, line_route, report_route, method_of, method_name};

use crate::fields::{is_number_text, number_within};
use cf_base::{Kind, LAST_YEAR};

/// Where a request goes.
#[derive(Clone, Copy)]
pub enum Route {
    /// One call, which is the body.
    Calls,
    /// The look at a line's numbers.
    Line { line: u16, year: u16 },
    /// The look at a statement.
    Report { year: u16, kind: Kind },
}

/// How a route is asked.
#[derive(Clone, Copy)]
pub enum Method {
    Get,
    Post,
}

/// Why a request goes nowhere.
#[derive(Clone, Copy)]
pub enum Miss {
    NoRoute,
    /// The route is asked by this method alone, which the answer names (RFC 9110: 405 with the
    /// field `Allow`).
    WrongMethod(Method),
}

impl Route {
    /// The one method by which the route is asked.
    pub fn method(self) -> Method
        ensures { result ≡ method_of self }
    {
        match self {
            Route::Calls => Method::Post,
            Route::Line { .. } => Method::Get,
            Route::Report { .. } => Method::Get,
        }
    }
}

impl Method {
    /// The method as it stands in a head (RFC 9110).
    pub fn name(self) -> &'static str
        ensures { result.now ≡ method_name self }
    {
        match self {
            Method::Get => "GET",
            Method::Post => "POST",
        }
    }
}

/// A number of one to five digits, within bounds.
fn number_in(text: &str, least: u16, most: u16) -> Option<u16>
    ensures { result ≡ number_from least most text.now }
{
    if !is_number_text(text.as_bytes()) || text.len() > 5 {
        return None;
    }
    match number_within(text.as_bytes(), u32::from(most)) {
        Some(number) if number >= u32::from(least) => Some(number as u16),
        _ => None,
    }
}

/// The look at a line, by its number and its fiscal year.
pub fn line_in(line: &str, year: &str) -> Option<Route>
    ensures { result ≡ line_route line.now year.now }
{
    let line = number_in(line, 0, 65535)?;
    let year = number_in(year, 1971, LAST_YEAR)?;
    Some(Route::Line { line, year })
}

/// The look at a statement, by its fiscal year and its word.
pub fn report_in(year: &str, kind: &str) -> Option<Route>
    ensures { result ≡ report_route year.now kind.now }
{
    let year = number_in(year, 1971, LAST_YEAR)?;
    let kind = Kind::named(kind)?;
    Some(Route::Report { year, kind })
}
