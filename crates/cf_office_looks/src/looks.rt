//! The answer of a look, over any history.

ghost use Rattle.std.specs.Prelude.{◌≡◌, ◌<◌, true, IfOk};
ghost use Rattle.cf_budget.specs.Tables.{has_line};
ghost use Rattle.cf_calls.specs.Common.{IsReadInForm};
ghost use Rattle.cf_calls.specs.declared.call.Call.TheVariants as calls;
ghost use Rattle.cf_model.specs.Common.{registers_of};
ghost use Rattle.cf_model.specs.Step as step;
ghost use Rattle.cf_registers.specs.Lines.{LendsRead};
ghost use Rattle.cf_registers.specs.RegistersState.{register_shown};
ghost use Rattle.cf_office_looks.specs.Posts.{Posts};

use crate::reports::show_report;
use cf_calls::{Body, Look, NameKind, Posted, Read, Refusal, Reply, Shown};
use cf_office_history::History;
use cf_office_rules::{ahead_refusal, leave_refusal};
use std::alloc::{AllocError, Global};

/// The numbers of a line and year, or that there is no such line in the year.
fn show_line(history: &History, line: u16, year: u16) -> Body
    requires year { year < 2201 }
    requires lent { has_line history.now.lines line ≡ true }
    ensures { result ≡ step.line_shown history.now.plan history.now.entries line year }
{
    match history.chart().line(line) {
        Some(row) if history.chart().is_of_year(row, year) => {
            Body::Shown(Shown::Line(history.numbers(line, year)))
        }
        _ => Body::Refused(Refusal::UnknownName {
            kind: NameKind::Line,
            id: u32::from(line),
        }),
    }
}

/// What a look at a document or a bill shows, if there is one of its number.
fn look_at(alloc: Global, history: &History, read: &Read) -> Result<Option<Shown>, AllocError>
    ensures { IfOk result
        (λ s. s ≡ register_shown history.now.plan
        (registers_of history.now.plan history.now.entries) read.now) }
{
    history.registers().look(alloc, history.chart(), read)
}

/// What a look at a document or a bill shows, or that there is none of its number.
fn show_numbered(
    alloc: Global,
    history: &History,
    kind: NameKind,
    number: u32,
    read: &Read,
) -> Result<Body, AllocError>
    ensures { IfOk result
        (λ b. b ≡ step.or_refused kind number
        (register_shown history.now.plan
        (registers_of history.now.plan history.now.entries) read.now)) }
{
    match look_at(alloc, history, read)? {
        Some(shown) => Ok(Body::Shown(shown)),
        None => Ok(Body::Refused(Refusal::UnknownName { kind, id: number })),
    }
}

/// The leave of a fund's department that is left, or that there is no such fund or department.
fn show_leave(history: &History, fund: u16, dept: u16) -> Body
    ensures { result ≡ step.shown_of history.now.plan history.now.entries (Read.Leave fund dept) }
{
    match leave_refusal(history.chart(), fund, dept) {
        Some(refusal) => Body::Refused(refusal),
        None => Body::Shown(Shown::Leave {
            left: history.debt().leave_of(fund, dept),
        }),
    }
}

/// What a look shows, but for what its caller has seen.
fn show(alloc: Global, history: &History, read: &Read) -> Result<Body, AllocError>
    requires form { IsReadInForm read.now }
    requires lent { LendsRead (has_line history.now.lines) read.now }
    ensures { IfOk result (λ b. b ≡ step.shown_of history.now.plan history.now.entries read.now) }
{
    match *read {
        Read::Line { line, year } => Ok(show_line(history, line, year)),
        Read::Requisition { requisition } => {
            show_numbered(alloc, history, NameKind::Requisition, requisition, read)
        }
        Read::Order { order } => { show_numbered(alloc, history, NameKind::Order, order, read) }
        Read::Voucher { voucher } => {
            show_numbered(alloc, history, NameKind::Voucher, voucher, read)
        }
        Read::Bill { bill } => { show_numbered(alloc, history, NameKind::Bill, bill, read) }
        Read::Asset { asset } => { show_numbered(alloc, history, NameKind::Asset, asset, read) }
        Read::Bond { bond } => { show_numbered(alloc, history, NameKind::Bond, bond, read) }
        Read::Leave { fund, dept } => Ok(show_leave(history, fund, dept)),
        Read::Account {
            basis,
            year,
            fund,
            account,
        } => {
            let balance = history.balance(basis, year, fund, account);
            Ok(Body::Shown(Shown::Account { balance }))
        }
        Read::Reconcile { year } => {
            let recon = history.recon(year);
            Ok(Body::Shown(Shown::Reconcile(recon)))
        }
        Read::Report { year, kind } => {
            let shown = show_report(alloc, history, year, kind)?;
            Ok(Body::Shown(shown))
        }
    }
}

/// What a look shows. A look is refused where the caller has seen more than the history has, for
/// which it takes no memory, and where there is nothing of its name. Its list of items takes
/// memory.
pub fn answer(alloc: Global, history: &History, look: &Look) -> Result<Body, AllocError>
    requires form { IsReadInForm look.now.read }
    requires lent { LendsRead (has_line history.now.lines) look.now.read }
    ensures { IfOk result (λ b. b ≡ step.look_body history.now.plan history.now.entries look.now) }
{
    match ahead_refusal(look.after, history.len()) {
        Some(refusal) => Ok(Body::Refused(refusal)),
        None => show(alloc, history, &look.read),
    }
}

/// What is given for a look: what it shows, or want of memory.
pub fn look_reply(alloc: Global, history: &History, look: &Look) -> Posted
    requires form { IsReadInForm look.now.read }
    requires lent { LendsRead (has_line history.now.lines) look.now.read }
    ensures { Posts history.now.plan history.now.entries
        (calls.Look look.now) history.now.entries result }
{
    match answer(alloc, history, look) {
        Ok(body) => Posted::Reply(Reply {
            at: history.len(),
            body,
        }),
        Err(_) => Posted::NoMemory,
    }
}
