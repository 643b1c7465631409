//! The run of the generator: an office in memory takes its calls, one after another.

ghost use Rattle.std.specs.Prelude.{◌≡◌, ◌+◌, ◌≤◌, ◌<◌, ◌++◌, ◌∷◌, [], IfOk, OnOk, Ok};
ghost use Rattle.cf_calls.specs.Common.{IsActInForm, IsChangeInForm};
ghost use Rattle.cf_calls.specs.declared.call.Call.TheVariants as calls;
ghost use Rattle.cf_model.specs.Common.{Accept, next_of, verdict_of};
ghost use Rattle.cf_chart.specs.Common.{chart_of};
ghost use Rattle.cf_run_generate.specs.Acts as acts;
ghost use Rattle.cf_run_generate.specs.Generated as spec;
ghost use Rattle.cf_run_generate.specs.Turns.{first_turn};

use crate::acts::{act_of, adoption, change_of, month_close, receipt};
use crate::city::city_chart;
use crate::turn::Turn;
use cf_calls::{Act, Change, Drawn, Verdict, entry_of};
use cf_office::{BookOffice, judge};
use std::alloc::{AllocError, Global};

/// What each fund receives at the beginning, in cents.
const RECEIPT: u64 = 10_000_000_000_000;

/// The numbers that a change draws, where the rules accept it.
fn accepted(office: &BookOffice, change: &Change) -> Option<Drawn>
    requires { IsChangeInForm change.now }
    ensures { result ≡ spec.drawn_by (verdict_of office.now.plan office.now.entries change.now) }
{
    match judge(&office.history(), change) {
        Verdict::Accept(drawn) => Some(drawn),
        _ => None,
    }
}

/// Adds the entry of a change that the rules accept.
fn add(office: &mut BookOffice, change: Change, drawn: Drawn) -> Result<(), AllocError>
    requires form { IsChangeInForm change }
    requires accepted { verdict_of office.old.plan office.old.entries change ≡ Accept drawn }
    ensures plan { office.new.plan ≡ office.old.plan }
    ensures ok { OnOk result
        (office.new.entries ≡ office.old.entries ++ spec.entry_by change drawn ∷ []) }
{
    let entry = entry_of(change, drawn);
    office.accept(entry)?;
    Ok(())
}

/// The office's step for the call of this number.
fn take(alloc: Global, office: &mut BookOffice, number: u32, act: Act) -> Result<(), AllocError>
    requires { IsActInForm acts.first_day act }
    ensures plan { office.new.plan ≡ office.old.plan }
    ensures ok { OnOk result
        (office.new.entries
        ≡ next_of office.old.plan office.old.entries (calls.Change (acts.change_of number act))) }
{
    let change = change_of(alloc, number, act)?;
    match accepted(office, &change) {
        Some(drawn) => {
            add(office, change, drawn)?;
            Ok(())
        }
        None => Ok(()),
    }
}

/// Takes the calls that adopt the budgets.
fn adopt_budgets(alloc: Global, office: &mut BookOffice) -> Result<(), AllocError>
    ensures plan { office.new.plan ≡ office.old.plan }
    ensures ok { OnOk result
        (office.new.entries ≡ spec.after office.old.plan office.old.entries spec.adoptions) }
{
    let first = adoption(alloc, 1, 0, 30)?;
    take(alloc, office, 1, first)?;
    let second = adoption(alloc, 2, 30, 8)?;
    take(alloc, office, 2, second)?;
    let third = adoption(alloc, 3, 38, 2)?;
    take(alloc, office, 3, third)?;
    Ok(())
}

/// Takes the calls that bring in cash.
fn receive_cash(alloc: Global, office: &mut BookOffice) -> Result<(), AllocError>
    ensures plan { office.new.plan ≡ office.old.plan }
    ensures ok { OnOk result
        (office.new.entries ≡ spec.after office.old.plan office.old.entries spec.receipts) }
{
    take(alloc, office, 4, receipt(4, RECEIPT))?;
    take(alloc, office, 5, receipt(5, RECEIPT))?;
    take(alloc, office, 6, receipt(6, RECEIPT))?;
    Ok(())
}

/// Takes the calls that are drawn.
fn take_drawn(alloc: Global, office: &mut BookOffice, n: u32) -> Result<(), AllocError>
    requires { n ≤ 100000 }
    ensures plan { office.new.plan ≡ office.old.plan }
    ensures ok { OnOk result
        (office.new.entries
        ≡ spec.after office.old.plan office.old.entries (spec.drawn n 7 (first_turn n))) }
{
    let mut turn = Turn::first(n);
    for i in 0..n {
        let act = act_of(alloc, turn)?;
        take(alloc, office, i + 7, act)?;
        turn = turn.next();
    }
    Ok(())
}

/// Takes all calls of a run.
fn take_calls(alloc: Global, office: &mut BookOffice, n: u32) -> Result<(), AllocError>
    requires { n ≤ 100000 }
    ensures plan { office.new.plan ≡ office.old.plan }
    ensures ok { OnOk result
        (office.new.entries ≡ spec.after office.old.plan office.old.entries (spec.calls n)) }
{
    adopt_budgets(alloc, office)?;
    receive_cash(alloc, office)?;
    take_drawn(alloc, office, n)?;
    take(alloc, office, n + 7, month_close())?;
    Ok(())
}

/// The office of a generated run of `n` drawn calls, at most 100,000: the history is the one that
/// the office's step makes of the calls.
pub fn generate(alloc: Global, n: u32) -> Result<BookOffice, AllocError>
    requires { n ≤ 100000 }
    ensures chart { IfOk result (λ o. chart_of spec.chart_text ≡ Ok o.plan) }
    ensures history { IfOk result (λ o. o.entries ≡ spec.generated o.plan n) }
{
    let mut office = BookOffice::new(alloc, city_chart(alloc)?);
    take_calls(alloc, &mut office, n)?;
    Ok(office)
}
