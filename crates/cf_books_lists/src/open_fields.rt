//! The fields of a row of what is open.

ghost use Rattle.std.specs.Prelude.{◌≡◌, pos, string_bytes, IfOk};
ghost use Rattle.cf_base.specs.Common.{money_of};
ghost use Rattle.std.specs.Option.{option_copied};
ghost use Rattle.cf_books_lists.specs.Open as spec;

use crate::names::{department_name, fund_name};
use cf_base::{Day, day_text, money_text};
use cf_chart::{Chart, Line};
use cf_debt::Due;
use std::alloc::{AllocError, Global};

pub(crate) fn next_text(alloc: Global, next: Option<Day>) -> Result<Vec<u8>, AllocError>
    ensures { IfOk result (λ t. t.items ≡ spec.next_text next) }
{
    match next {
        Some(day) => Vec::from_slice(alloc, &day_text(day)),
        None => Ok(Vec::new(alloc)),
    }
}

/// A payment that is due comes to its principal and its interest.
pub(crate) fn due_text(alloc: Global, due: Option<Due>) -> Result<Vec<u8>, AllocError>
    ensures { IfOk result (λ t. t.items ≡ spec.due_text due) }
{
    match due {
        Some(due) => {
            let sum = i128::from(due.principal) + i128::from(due.interest);
            Ok(money_text(alloc, sum)?.into_bytes())
        }
        None => Ok(Vec::new(alloc)),
    }
}

pub(crate) fn interest_text(alloc: Global, due: Option<Due>) -> Result<Vec<u8>, AllocError>
    ensures { IfOk result (λ t. t.items ≡ spec.interest_text due) }
{
    match due {
        Some(due) => Ok(amount_text(alloc, due.interest)?.into_bytes()),
        None => Ok(Vec::new(alloc)),
    }
}

/// The control line of a number, if there is one.
pub fn line_of(chart: &Chart, line: Option<u16>) -> Option<&Line>
    ensures { option_copied result ≡ spec.line_of chart.now line }
{
    chart.line(line?)
}

pub(crate) fn line_fund<'a>(chart: &'a Chart, line: Option<&Line>) -> &'a str
    ensures { result.now ≡ spec.line_fund chart.now (option_copied line.entry) }
{
    match line {
        Some(line) => fund_name(chart.fund(line.fund)),
        None => "",
    }
}

pub(crate) fn line_department<'a>(chart: &'a Chart, line: Option<&Line>) -> &'a str
    ensures { result.now ≡ spec.line_department chart.now (option_copied line.entry) }
{
    match line {
        Some(line) => department_name(chart.dept(line.dept)),
        None => "",
    }
}

/// An amount of cents in units of money.
pub(crate) fn amount_text(alloc: Global, amount: u64) -> Result<String, AllocError>
    ensures { IfOk result (λ t. string_bytes t ≡ money_of (pos amount)) }
{
    money_text(alloc, amount as i128)
}
