//! The command that a parse found.
ghost use Rattle.std.specs.Prelude.{◌≡◌, IfSome, option_map};
ghost use Rattle.clap.specs.Words.{first_of, found_of, rows_of};
ghost use Rattle.cf_run_words.specs.Parsed.{claim_in, command_in, generate_in, pool_in, report_in, serve_in, ship_in};
ghost use Rattle.cf_run_words.specs.Ranges.{IsInRange};

use crate::number::{day_from, month_from, number_from, report_kind_named};
use crate::words::Command;
use cf_base::{LAST_YEAR, MOST_CENTS, MOST_ENTRIES};
use clap::ArgMatches;

/// The text of the argument, where it was given one.
fn text_of<'a>(matches: &ArgMatches<'a>, id: &str) -> Option<&'a str>
    ensures { option_map (λ t. t.now) result ≡ first_of id.now (rows_of (found_of matches.now)) }
{
    matches.get_str(id)
}

fn serve_found(matches: &ArgMatches) -> Option<Command>
    ensures command { result ≡ serve_in (rows_of (found_of matches.now)) }
    ensures range { IfSome result IsInRange }
{
    let port = number_from(text_of(matches, "port"), 1024, 65_000)?;
    let doors = number_from(text_of(matches, "doors"), 1, 16)?;
    let links = number_from(text_of(matches, "links"), 1, 1_000_000)?;
    Some(Command::Serve {
        port: port as u16,
        doors: doors as u16,
        links: links as u32,
    })
}

fn report_found(matches: &ArgMatches) -> Option<Command>
    ensures command { result ≡ report_in (rows_of (found_of matches.now)) }
    ensures range { IfSome result IsInRange }
{
    let year = number_from(text_of(matches, "year"), 1971, u64::from(LAST_YEAR))?;
    let kind = report_kind_named(text_of(matches, "kind")?)?;
    let csv = text_of(matches, "csv") == Some("true");
    Some(Command::Report {
        year: year as u16,
        kind,
        csv,
    })
}

fn generate_found(matches: &ArgMatches) -> Option<Command>
    ensures command { result ≡ generate_in (rows_of (found_of matches.now)) }
    ensures range { IfSome result IsInRange }
{
    let n = number_from(text_of(matches, "n"), 1, 100_000)?;
    Some(Command::Generate { n: n as u32 })
}

fn pool_found(matches: &ArgMatches) -> Option<Command>
    ensures command { result ≡ pool_in (rows_of (found_of matches.now)) }
    ensures range { IfSome result IsInRange }
{
    let month = month_from(text_of(matches, "month"))?;
    let amount = number_from(text_of(matches, "amount"), 1, MOST_CENTS)?;
    let desk = number_from(text_of(matches, "desk"), 1, 9_999)?;
    Some(Command::Pool {
        month,
        amount,
        desk: desk as u16,
    })
}

fn claim_found(matches: &ArgMatches) -> Option<Command>
    ensures command { result ≡ claim_in (rows_of (found_of matches.now)) }
    ensures range { IfSome result IsInRange }
{
    let grant = number_from(text_of(matches, "grant"), 1, 9_999)?;
    let on = day_from(text_of(matches, "date"))?;
    let desk = number_from(text_of(matches, "desk"), 1, 9_999)?;
    Some(Command::Claim {
        grant: grant as u16,
        on,
        desk: desk as u16,
    })
}

fn ship_found(matches: &ArgMatches) -> Option<Command>
    ensures command { result ≡ ship_in (rows_of (found_of matches.now)) }
    ensures range { IfSome result IsInRange }
{
    let from = number_from(text_of(matches, "from"), 0, MOST_ENTRIES)?;
    Some(Command::Ship { from: from as u32 })
}

/// The command of this name, with the arguments that were found.
pub fn command_found(name: &str, matches: &ArgMatches) -> Option<Command>
    ensures command { result ≡ command_in (name.now, rows_of (found_of matches.now)) }
    ensures range { IfSome result IsInRange }
{
    match name {
        "found" => Some(Command::Found),
        "desk" => Some(Command::Desk),
        "serve" => serve_found(matches),
        "report" => report_found(matches),
        "generate" => generate_found(matches),
        "pool" => pool_found(matches),
        "claim" => claim_found(matches),
        "ship" => ship_found(matches),
        "follow" => Some(Command::Follow),
        _ => None,
    }
}
