//! The options, as a parse found them.

ghost use Rattle.std.specs.Prelude.{◌≡◌, IfOk, IfSome, map, option_map, true};
ghost use Rattle.std.specs.List.{list_all, list_any};
ghost use Rattle.std.specs.Str.{bytes_eq};
ghost use Rattle.clap.specs.Words.{first_of, found_of, rows_of};
ghost use Rattle.cf_base.specs.Common.{day_of_text, is_call_month, is_day, month_of_text};
ghost use Rattle.cf_run_words.specs.Words as read;
ghost use Rattle.cf_books_words.specs.Options as spec;
ghost use Rattle.cf_books_words.specs.Ranges.{IsAskedDay, IsAskedMonth, IsOptionDay, IsOptionFrom};

use crate::words::WordsRefused;
use cf_base::{Day, Month, read_day, read_month};
use cf_run_words::number_from;
use clap::ArgMatches;

/// The days of `--from` and `--through`, where they are given.
#[derive(Clone, Copy)]
pub struct Days {
    pub from: Option<Day>,
    pub through: Option<Day>,
}

/// The text of an argument, where it was given one.
pub fn text_of<'a>(matches: &ArgMatches<'a>, id: &str) -> Option<&'a str>
    ensures { option_map (λ t. t.now) result ≡ first_of id.now (rows_of (found_of matches.now)) }
{
    matches.get_str(id)
}

/// Whether an option without a value was given.
pub fn is_set(matches: &ArgMatches, id: &str) -> bool
    ensures { result ≡ read.is_set (first_of id.now (rows_of (found_of matches.now))) }
{
    text_of(matches, id) == Some("true")
}

/// The number from `low` to `high` that an option says, `None` where it isn't given.
pub fn option_from(text: Option<&str>, low: u64, high: u64) -> Option<Option<u64>>
    ensures value { result ≡ spec.option_in low high (option_map (λ t. t.now) text.entry) }
    ensures range { IfSome result (IsOptionFrom low high) }
{
    match text {
        None => Some(None),
        Some(text) => Some(Some(number_from(Some(text), low, high)?)),
    }
}

fn day_of(text: &str) -> Option<Day>
    ensures day { result ≡ day_of_text text.now }
    ensures range { IfSome result (λ d. is_day d ≡ true) }
{
    read_day(text.as_bytes())
}

fn month_of(text: &str) -> Option<Month>
    ensures month { result ≡ month_of_text text.now }
    ensures range { IfSome result (λ m. is_call_month m ≡ true) }
{
    read_month(text.as_bytes())
}

/// The day of a text, from 1971 on.
fn day_from(text: &str) -> Result<Day, WordsRefused>
    ensures day { result ≡ spec.day_in text.now }
    ensures range { IfOk result IsAskedDay }
{
    match day_of(text) {
        Some(day) if 1971 <= day.year => Ok(day),
        Some(_) | None => Err(WordsRefused::NoSuchDay),
    }
}

/// The month of a text, from 1971 on.
pub fn month_from(text: &str) -> Result<Month, WordsRefused>
    ensures month { result ≡ spec.month_in text.now }
    ensures range { IfOk result IsAskedMonth }
{
    match month_of(text) {
        Some(month) if 1971 <= month.year => Ok(month),
        Some(_) | None => Err(WordsRefused::NoSuchDay),
    }
}

/// The day that an option says, `None` where it isn't given.
fn option_day(text: Option<&str>) -> Result<Option<Day>, WordsRefused>
    ensures day { result ≡ spec.option_day_in (option_map (λ t. t.now) text.entry) }
    ensures range { IfOk result IsOptionDay }
{
    match text {
        None => Ok(None),
        Some(text) => Ok(Some(day_from(text)?)),
    }
}

/// The days of the options.
pub fn days_found(matches: &ArgMatches) -> Result<Days, WordsRefused>
    ensures days { result ≡ spec.days_in (rows_of (found_of matches.now)) }
    ensures from { IfOk result (λ d. IsOptionDay d.from) }
    ensures through { IfOk result (λ d. IsOptionDay d.through) }
{
    let from = option_day(text_of(matches, "from"))?;
    let through = option_day(text_of(matches, "through"))?;
    Ok(Days { from, through })
}

fn is_listed(own: &[&str], name: &str) -> bool
    ensures { result ≡ list_any (λ n. bytes_eq n.now name.now) own.now }
{
    own.iter().any(|listed| *listed == name)
}

/// Whether an option with a value wasn't given, or is one of a command's own.
#[tactic(auto, using(crate::proofs::Names::listed_names))]
fn is_own(matches: &ArgMatches, own: &[&str], name: &str) -> bool
    ensures { result ≡ spec.is_own (rows_of (found_of matches.now)) (map (λ n. n.now) own.now)
        name.now }
{
    text_of(matches, name).is_none() || is_listed(own, name)
}

/// Whether an option without a value wasn't given, or is one of a command's own.
#[tactic(auto, using(crate::proofs::Names::listed_names))]
fn is_own_flag(matches: &ArgMatches, own: &[&str], name: &str) -> bool
    ensures { result ≡ spec.is_own_flag (rows_of (found_of matches.now)) (map (λ n. n.now) own.now)
        name.now }
{
    !is_set(matches, name) || is_listed(own, name)
}

/// Whether each of these options with a value that was given is one of a command's own.
fn are_own(matches: &ArgMatches, own: &[&str], names: &[&str]) -> bool
    ensures { result ≡ list_all (λ n. spec.is_own (rows_of (found_of matches.now))
        (map (λ n. n.now) own.now) n.now) names.now }
{
    names.iter().all(|name| is_own(matches, own, name))
}

/// Whether each of these options without a value that was given is one of a command's own.
fn are_own_flags(matches: &ArgMatches, own: &[&str], names: &[&str]) -> bool
    ensures { result ≡ list_all (λ n. spec.is_own_flag (rows_of (found_of matches.now))
        (map (λ n. n.now) own.now) n.now) names.now }
{
    names.iter().all(|name| is_own_flag(matches, own, name))
}

/// The options with a value.
pub fn option_names() -> &'static [&'static str]
    ensures { map (λ n. n.now) result.now ≡ spec.option_names }
{
    &[
        "year", "fund", "account", "entries", "through", "from", "dept", "object", "line",
        "source", "vendor", "kind", "party", "key", "amount",
    ]
}

/// The options without a value.
pub fn flag_names() -> &'static [&'static str]
    ensures { map (λ n. n.now) result.now ≡ spec.flag_names }
{
    &["csv", "alone"]
}

/// Whether each option that was given is one of a command's own.
pub fn has_only(matches: &ArgMatches, own: &[&str]) -> bool
    ensures { result ≡ spec.has_only (rows_of (found_of matches.now)) (map (λ n. n.now) own.now) }
{
    are_own(matches, own, option_names()) && are_own_flags(matches, own, flag_names())
}
