//! The command that a parse found.

ghost use Rattle.std.specs.Prelude.{◌≡◌, IfSome, option_map};
ghost use Rattle.clap.specs.Words.{found_of, rows_of};
ghost use Rattle.cf_books_words.specs.Found as spec;
ghost use Rattle.cf_books_words.specs.Ranges.{IsFilterInRange, IsInRange, IsLedgerInRange, IsOptionDay, IsOptionFrom};

use crate::options::{Days, is_set, option_from, text_of};
use crate::words::{Command, DocumentFilter, DocumentKind, LedgerFilter, PostFilter};
use cf_base::{Day, Kind, LAST_YEAR};
use cf_run_words::{ReportKind, number_from, report_kind_named};
use clap::ArgMatches;

/// Whether the flag `--csv` was given.
pub fn is_csv(matches: &ArgMatches) -> bool
    ensures { result ≡ spec.is_csv (rows_of (found_of matches.now)) }
{
    is_set(matches, "csv")
}

/// The id, 1 to 9999, that an option says, `None` where it isn't given.
fn id_found(matches: &ArgMatches, name: &str) -> Option<Option<u16>>
    ensures id { result ≡ spec.id_in name.now (rows_of (found_of matches.now)) }
    ensures range { IfSome result (IsOptionFrom 1 9999) }
{
    let id = option_from(text_of(matches, name), 1, 9_999)?;
    Some(id.map(|n| n as u16))
}

/// The fiscal year, 1971 to 2199, that an option says, `None` where it isn't given.
fn year_found(matches: &ArgMatches) -> Option<Option<u16>>
    ensures year { result ≡ spec.option_year_in (rows_of (found_of matches.now)) }
    ensures range { IfSome result (IsOptionFrom 1971 2199) }
{
    let year = option_from(text_of(matches, "year"), 1971, u64::from(LAST_YEAR))?;
    Some(year.map(|n| n as u16))
}

/// Which posts are wanted.
fn filter_found(matches: &ArgMatches) -> Option<PostFilter>
    ensures filter { result ≡ spec.filter_in (rows_of (found_of matches.now)) }
    ensures range { IfSome result IsFilterInRange }
{
    let year = year_found(matches)?;
    let fund = option_from(text_of(matches, "fund"), 0, 9_999)?;
    let account = option_from(text_of(matches, "account"), 1, 999_999)?;
    Some(PostFilter {
        year,
        fund: fund.map(|n| n as u16),
        account: account.map(|n| n as u32),
    })
}

/// Which rows of the ledger are wanted.
fn ledger_filter_found(matches: &ArgMatches, days: Days) -> Option<LedgerFilter>
    requires from { IsOptionDay days.from }
    requires through { IsOptionDay days.through }
    ensures filter { result ≡ spec.ledger_filter_in days (rows_of (found_of matches.now)) }
    ensures range { IfSome result IsLedgerInRange }
{
    let fund = id_found(matches, "fund")?;
    let dept = id_found(matches, "dept")?;
    let object = id_found(matches, "object")?;
    let line = option_from(text_of(matches, "line"), 0, 4_095)?;
    let source = id_found(matches, "source")?;
    let vendor = option_from(text_of(matches, "vendor"), 0, 4_294_967_295)?;
    let year = year_found(matches)?;
    Some(LedgerFilter {
        fund,
        dept,
        object,
        line: line.map(|n| n as u16),
        source,
        vendor: vendor.map(|n| n as u32),
        year,
        from: days.from,
        through: days.through,
    })
}

/// The kind of document of a word.
fn document_kind_named(text: &str) -> Option<DocumentKind>
    ensures { result ≡ spec.document_kind_of text.now }
{
    match text {
        "requisition" => Some(DocumentKind::Requisition),
        "order" => Some(DocumentKind::Order),
        "voucher" => Some(DocumentKind::Voucher),
        "bill" => Some(DocumentKind::Bill),
        "asset" => Some(DocumentKind::Asset),
        "bond" => Some(DocumentKind::Bond),
        "lease" => Some(DocumentKind::Lease),
        "loan" => Some(DocumentKind::Loan),
        _ => None,
    }
}

/// The kind that an option says, `None` where it isn't given.
fn option_kind(text: Option<&str>) -> Option<Option<DocumentKind>>
    ensures { result ≡ spec.option_kind_in (option_map (λ t. t.now) text.entry) }
{
    match text {
        None => Some(None),
        Some(text) => Some(Some(document_kind_named(text)?)),
    }
}

/// Which documents are wanted.
fn document_filter_found(matches: &ArgMatches) -> Option<DocumentFilter>
    ensures { result ≡ spec.document_filter_in (rows_of (found_of matches.now)) }
{
    let kind = option_kind(text_of(matches, "kind"))?;
    let party = option_from(text_of(matches, "party"), 0, 4_294_967_295)?;
    let amount = option_from(text_of(matches, "amount"), 0, u64::MAX)?;
    Some(DocumentFilter {
        kind,
        party: party.map(|n| n as u32),
        amount,
    })
}

pub fn claims_found(matches: &ArgMatches) -> Option<Command>
    ensures command { result ≡ spec.claims_in (rows_of (found_of matches.now)) }
    ensures range { IfSome result IsInRange }
{
    let grant = number_from(text_of(matches, "first"), 1, 9_999)?;
    Some(Command::Claims {
        grant: grant as u16,
        csv: is_csv(matches),
    })
}

pub fn posts_found(matches: &ArgMatches, through: Option<Day>) -> Option<Command>
    requires { IsOptionDay through }
    ensures command { result ≡ spec.posts_in through (rows_of (found_of matches.now)) }
    ensures range { IfSome result IsInRange }
{
    let filter = filter_found(matches)?;
    Some(Command::Posts {
        filter,
        through,
        csv: is_csv(matches),
    })
}

pub fn balances_found(matches: &ArgMatches, through: Option<Day>) -> Option<Command>
    requires { IsOptionDay through }
    ensures command { result ≡ spec.balances_in through (rows_of (found_of matches.now)) }
    ensures range { IfSome result IsInRange }
{
    let year = number_from(text_of(matches, "first"), 1971, u64::from(LAST_YEAR))?;
    Some(Command::Balances {
        year: year as u16,
        through,
        alone: is_set(matches, "alone"),
        csv: is_csv(matches),
    })
}

/// Whether a statement is said of entries through a day.
fn has_days(kind: ReportKind) -> bool
    ensures { result ≡ spec.has_days kind }
{
    match kind {
        ReportKind::Look(
            Kind::Balance | Kind::Operating | Kind::Budget | Kind::Position | Kind::Activities,
        ) => true,
        ReportKind::Look(Kind::Reconcile | Kind::Changes)
        | ReportKind::Classes
        | ReportKind::Components
        | ReportKind::Major => false,
    }
}

/// The statement, where it is one that can be said through this day.
fn kind_for(through: Option<Day>, kind: ReportKind) -> Option<ReportKind>
    ensures { result ≡ spec.kind_for through kind }
{
    if through.is_none() || has_days(kind) {
        Some(kind)
    } else {
        None
    }
}

pub fn statement_found(matches: &ArgMatches, through: Option<Day>) -> Option<Command>
    requires { IsOptionDay through }
    ensures command { result ≡ spec.statement_in through (rows_of (found_of matches.now)) }
    ensures range { IfSome result IsInRange }
{
    let year = number_from(text_of(matches, "first"), 1971, u64::from(LAST_YEAR))?;
    let named = report_kind_named(text_of(matches, "second")?)?;
    let kind = kind_for(through, named)?;
    Some(Command::Statement {
        year: year as u16,
        kind,
        through,
        csv: is_csv(matches),
    })
}

pub fn ledger_found(matches: &ArgMatches, days: Days) -> Option<Command>
    requires from { IsOptionDay days.from }
    requires through { IsOptionDay days.through }
    ensures command { result ≡ spec.ledger_in days (rows_of (found_of matches.now)) }
    ensures range { IfSome result IsInRange }
{
    let filter = ledger_filter_found(matches, days)?;
    Some(Command::Ledger {
        filter,
        csv: is_csv(matches),
    })
}

pub fn documents_found(matches: &ArgMatches) -> Option<Command>
    ensures command { result ≡ spec.documents_in (rows_of (found_of matches.now)) }
    ensures range { IfSome result IsInRange }
{
    let filter = document_filter_found(matches)?;
    Some(Command::Documents {
        filter,
        csv: is_csv(matches),
    })
}

pub fn paid_found(matches: &ArgMatches) -> Option<Command>
    ensures command { result ≡ spec.paid_in (rows_of (found_of matches.now)) }
    ensures range { IfSome result IsInRange }
{
    let year = number_from(text_of(matches, "first"), 1971, u64::from(LAST_YEAR))?;
    Some(Command::Paid {
        year: year as u16,
        csv: is_csv(matches),
    })
}
