//! The verdict on a change: the rules in their order, over any history.

ghost use Rattle.std.specs.Prelude.{◌≡◌, true, None};
ghost use Rattle.cf_base.specs.Common.{is_day};
ghost use Rattle.cf_budget.specs.Tables.{has_line};
ghost use Rattle.cf_calls.specs.Common.{IsChangeInForm};
ghost use Rattle.cf_model.specs.Common.{documents_of, registers_of};
ghost use Rattle.cf_registers.specs.Lines.{LendsTouched};
ghost use Rattle.cf_model.specs.RegisterRules as register;
ghost use Rattle.cf_model.specs.Rules as rules;
ghost use Rattle.cf_model.specs.Step as step;
ghost use Rattle.cf_registers.specs.RegistersState.{register_rules};

use crate::budgets::{adopted_refusal, payment_refusal, unadopted_refusal};
use crate::cash::cash_refusal;
use crate::exceeds::exceed_refusal;
use crate::names::name_refusal;
use crate::register_names::register_name_refusal;
use crate::rules::{
    ahead_refusal, amount_refusal, closed_refusal, closing_refusal, desk_refusal, full_refusal,
    levy_refusal, or, period_refusal, role_refusal, year_refusal,
};
use crate::windows::window_refusal;
use cf_calls::{Change, Refusal, Verdict};
use cf_office_history::History;

/// The rules before a repeat: an unknown desk, and a caller that has seen more than the history
/// has.
fn first_rules(history: &History, change: &Change) -> Option<Refusal>
    ensures { result ≡ rules.first_of
        (step.first_rules history.now.plan history.now.entries change.now) }
{
    or(
        desk_refusal(history.chart(), change.desk),
        or(ahead_refusal(change.after, history.len()), None),
    )
}

/// The rules of the desk's role, the history's length, amounts and names.
fn call_rules(history: &History, change: &Change) -> Option<Refusal>
    requires { is_day change.now.on ≡ true }
    ensures first { result
        ≡ rules.first_of (step.call_rules history.now.plan history.now.entries change.now) }
{
    let chart = history.chart();
    let act = &change.act;
    if let Some(refusal) = role_refusal(chart, change.desk, act) {
        return Some(refusal);
    }
    if let Some(refusal) = full_refusal(history.len()) {
        return Some(refusal);
    }
    if let Some(refusal) = amount_refusal(act) {
        return Some(refusal);
    }
    if let Some(refusal) = name_refusal(chart, history.orders(), change.on, act) {
        return Some(refusal);
    }
    or(
        register_name_refusal(chart, history.registers(), change.on, act),
        None,
    )
}

/// The rules of periods and adopted budgets.
fn period_rules(history: &History, change: &Change) -> Option<Refusal>
    requires { IsChangeInForm change.now }
    ensures { result ≡ rules.first_of
        (step.period_rules history.now.plan history.now.entries change.now) }
{
    if let Some(refusal) = period_refusal(history, change.on) {
        return Some(refusal);
    }
    if let Some(refusal) = year_refusal(history, change.on, &change.act) {
        return Some(refusal);
    }
    if let Some(refusal) = closing_refusal(history, change.on, &change.act) {
        return Some(refusal);
    }
    if let Some(refusal) = levy_refusal(history, change.on, &change.act) {
        return Some(refusal);
    }
    if let Some(refusal) = closed_refusal(history, change.on, &change.act) {
        return Some(refusal);
    }
    if let Some(refusal) = adopted_refusal(history, &change.act) {
        return Some(refusal);
    }
    if let Some(refusal) = unadopted_refusal(history, change.on, &change.act) {
        return Some(refusal);
    }
    if let Some(refusal) = payment_refusal(history, &change.act) {
        return Some(refusal);
    }
    or(window_refusal(history, change.on, &change.act), None)
}

/// The first broken rule of the registers.
fn register_refusal(history: &History, change: &Change) -> Option<Refusal>
    requires { is_day change.now.on ≡ true }
    ensures { result ≡ rules.first_of
        (register_rules history.now.plan
        (registers_of history.now.plan history.now.entries) change.now.on change.now.desk
        change.now.act) }
{
    history
        .registers()
        .check(history.chart(), change.on, change.desk, &change.act)
}

/// The rules on the states of documents, on what is left of bills and loans, on assets, debt, leave
/// and the order of months, of room, and of cash.
#[tactic(auto, using(cf_model::proofs::First::rule_lists))]
fn last_rules(history: &History, change: &Change) -> Option<Refusal>
    requires lent { LendsTouched history.now.plan (has_line history.now.lines) change.now.act }
    requires form { IsChangeInForm change.now }
    requires names { rules.name_refusal history.now.plan
        (documents_of history.now.plan history.now.entries) change.now.on change.now.act ≡ None }
    requires register_names { register.register_name_refusal history.now.plan
        (registers_of history.now.plan history.now.entries) change.now.on change.now.act ≡ None }
    ensures { result ≡ rules.first_of
        (step.last_rules history.now.plan history.now.entries change.now) }
{
    // So that the proof knows that the history is legal.
    let _chart = history.chart();
    if let Some(refusal) = register_refusal(history, change) {
        return Some(refusal);
    }
    if let Some(refusal) = exceed_refusal(history, change) {
        return Some(refusal);
    }
    cash_refusal(history, change.on, &change.act)
}

/// The rules after a repeat, the least broken one first.
#[tactic(auto, using(cf_model::proofs::First::rule_lists))]
fn later_rules(history: &History, change: &Change) -> Option<Refusal>
    requires lent { LendsTouched history.now.plan (has_line history.now.lines) change.now.act }
    requires form { IsChangeInForm change.now }
    ensures { result ≡ rules.first_of
        (step.later_rules history.now.plan history.now.entries change.now) }
{
    if let Some(refusal) = call_rules(history, change) {
        return Some(refusal);
    }
    if let Some(refusal) = period_rules(history, change) {
        return Some(refusal);
    }
    last_rules(history, change)
}

/// A change whose desk used the key before: a repeat where it is the same call.
fn judge_known(history: &History, change: &Change, was: u64) -> Verdict
    ensures { result ≡ step.verdict_known history.now.entries change.now was }
{
    if history.is_repeat(change, was) {
        Verdict::Repeat { was }
    } else {
        Verdict::Refuse(Refusal::KeyReused { was })
    }
}

fn judge_new(history: &History, change: &Change) -> Verdict
    requires lent { LendsTouched history.now.plan (has_line history.now.lines) change.now.act }
    requires form { IsChangeInForm change.now }
    ensures { result ≡ step.verdict_new history.now.plan history.now.entries change.now None }
{
    match later_rules(history, change) {
        Some(refusal) => Verdict::Refuse(refusal),
        None => Verdict::Accept(history.registers().draws(&change.act)),
    }
}

/// What the rules say of a change over a history: that it is accepted with the numbers that it
/// draws, that it repeats an earlier call, or the least broken rule with its values. It takes no
/// memory.
pub fn judge(history: &History, change: &Change) -> Verdict
    requires form { IsChangeInForm change.now }
    requires lent { LendsTouched history.now.plan (has_line history.now.lines) change.now.act }
    ensures { result ≡ step.verdict_of history.now.plan history.now.entries change.now }
{
    if let Some(refusal) = first_rules(history, change) {
        return Verdict::Refuse(refusal);
    }
    match history.known(change) {
        Some(was) => judge_known(history, change, was),
        None => judge_new(history, change),
    }
}
