//! Budgetary control: whether more is asked of a control line than it has room for.

ghost use Rattle.std.specs.Prelude.{◌≡◌, ◌<◌, None, true, pos, length};
ghost use Rattle.std.specs.List.{All, list_all};
ghost use Rattle.cf_budget.specs.Tables.{has_line};
ghost use Rattle.cf_calls.specs.Common.{IsChangeInForm, overspends};
ghost use Rattle.cf_model.specs.Common.{document_refusal, documents_of, asks_of_moves, registers_of};
ghost use Rattle.cf_model.specs.LineNumbers as numbers;
ghost use Rattle.cf_model.specs.Rules as spec;
ghost use Rattle.cf_model.specs.Results as results;
ghost use Rattle.cf_model.specs.Step as step;
ghost use Rattle.cf_office_rules.specs.Least.{is_before as spec_is_before, lesser as spec_lesser, least_from, excess_by, refusal_in};
ghost use Rattle.cf_registers.specs.Lines.{LendsTouched};
ghost use Rattle.cf_registers.specs.Moved.{act_moves, asks_of, is_inside, AreSmallSums, IsCleared};

use cf_base::Day;
use cf_budget::{LineChange, Row, line_refusal};
use cf_calls::acts::{Amendment, LineTransfer};
use cf_calls::{Act, Change, Refusal};
use cf_office_history::History;
use cf_registers::merged_moves;

/// A line and fiscal year of which too much is asked, with its refusal.
#[derive(Clone, Copy)]
pub struct Excess {
    pub line: u16,
    pub year: u16,
    pub refusal: Refusal,
}

/// The size of a fall, and 0 for a rise.
fn fall_of(by: i64) -> u64
    ensures { result ≡ numbers.fall_of by }
{
    if by < 0 { by.unsigned_abs() } else { 0 }
}

/// What a change asks of its line and year, in cents: by how much it narrows the room.
fn asks(by: &Row) -> i128
    requires { AreSmallSums by.now }
    ensures { result ≡ asks_of by.now }
{
    by.held + by.encumbered + by.expended
}

fn is_before(one: &Excess, other: &Excess) -> bool
    ensures { result ≡ spec_is_before one.now other.now }
{
    one.line < other.line || (one.line == other.line && one.year < other.year)
}

fn lesser(first: Option<Excess>, second: Option<Excess>) -> Option<Excess>
    ensures { result ≡ spec_lesser first second }
{
    match (first, second) {
        (Some(one), Some(other)) => Some(if is_before(&other, &one) { other } else { one }),
        (Some(one), None) => Some(one),
        (None, other) => other,
    }
}

/// What a change asks too much of its line and year.
fn change_excess(history: &History, change: &LineChange) -> Option<Excess>
    requires inside { is_inside history.now.plan change.now.line.number change.now.year ≡ true }
    requires lent { has_line history.now.lines change.now.line.number ≡ true }
    requires small { AreSmallSums change.now.by }
    ensures { result ≡ excess_by
        (λ line year. numbers.room history.now.plan line year history.now.entries) change.now }
{
    let line = change.line.number;
    let year = change.year;
    let room = history.numbers(line, year).room;
    let refusal = line_refusal(line, asks(&change.by), room)?;
    Some(Excess {
        line,
        year,
        refusal,
    })
}

/// The least line, and its least year, of which one of these changes asks too much.
fn least_excess(history: &History, changes: &[LineChange]) -> Option<Excess>
    requires inside { list_all (λ c. is_inside history.now.plan c.line.number c.year) changes.now
        ≡ true }
    requires lent { All (λ c. has_line history.now.lines c.line.number ≡ true) changes.now }
    requires small { All (λ c. AreSmallSums c.by) changes.now }
    ensures { result ≡ least_from
        (excess_by (λ line year. numbers.room history.now.plan line year history.now.entries)) None
        changes.now }
{
    let mut best = None;
    for change in changes {
        best = lesser(best, change_excess(history, change));
    }
    best
}

/// Too much is asked by an act's moves: the least line.
fn moves_refusal(history: &History, on: Day, act: &Act) -> Option<Refusal>
    requires lent { LendsTouched history.now.plan (has_line history.now.lines) act.now }
    requires cleared { IsCleared history.now.plan
        (registers_of history.now.plan history.now.entries) on act.now }
    ensures { result ≡ spec.first_below
        (λ line. spec.first_below
        (λ year. overspends line
        (asks_of_moves history.now.plan line year
        (act_moves history.now.plan
        (registers_of history.now.plan history.now.entries) on act.now))
        (numbers.room history.now.plan line year history.now.entries)) 2201)
        (length history.now.plan.lines) }
{
    let changes = merged_moves(history.chart(), history.registers(), on, act);
    refusal_of(least_excess(history, changes.as_slice()))
}

fn refusal_of(excess: Option<Excess>) -> Option<Refusal>
    ensures { result ≡ refusal_in excess }
{
    match excess {
        Some(excess) => Some(excess.refusal),
        None => None,
    }
}

/// More is asked of a control line than it has room for (GASB Codification 1700: budgetary
/// control).
pub fn exceed_refusal(history: &History, change: &Change) -> Option<Refusal>
    requires lent { LendsTouched history.now.plan (has_line history.now.lines) change.now.act }
    requires legal { step.IsLegal history.now.plan history.now.entries }
    requires form { IsChangeInForm change.now }
    requires names { spec.name_refusal history.now.plan
        (documents_of history.now.plan history.now.entries) change.now.on change.now.act ≡ None }
    requires documents { document_refusal history.now.plan
        (documents_of history.now.plan history.now.entries) change.now.on change.now.desk
        change.now.act ≡ None }
    ensures { result ≡ spec.exceed_refusal history.now.plan history.now.entries
        (results.entry_with (registers_of history.now.plan history.now.entries) change.now) }
{
    if let Some(amendment) = change.act.amendment() {
        return amendment_refusal(history, amendment);
    }
    if let Some(transfer) = change.act.line_transfer() {
        return transfer_refusal(history, transfer);
    }
    if let Act::Close(_) = change.act {
        // What the roll of a year carries has as much appropriation, and all else that a close
        // moves lowers.
        return None;
    }
    // So that the proof knows the chart's calendar.
    let _whole = history.chart();
    moves_refusal(history, change.on, &change.act)
}

fn amendment_refusal(history: &History, amendment: &Amendment) -> Option<Refusal>
    requires line { amendment.now.line < length history.now.plan.lines }
    requires year { amendment.now.year < 2201 }
    requires lent { has_line history.now.lines amendment.now.line ≡ true }
    ensures { result ≡ overspends amendment.now.line (pos (numbers.fall_of amendment.now.by))
        (numbers.room history.now.plan amendment.now.line amendment.now.year history.now.entries) }
{
    let asked = i128::from(fall_of(amendment.by));
    let room = history.numbers(amendment.line, amendment.year).room;
    line_refusal(amendment.line, asked, room)
}

fn transfer_refusal(history: &History, transfer: &LineTransfer) -> Option<Refusal>
    requires line { transfer.now.from < length history.now.plan.lines }
    requires year { transfer.now.year < 2201 }
    requires lent { has_line history.now.lines transfer.now.from ≡ true }
    ensures { result ≡ overspends transfer.now.from (pos transfer.now.amount)
        (numbers.room history.now.plan transfer.now.from transfer.now.year history.now.entries) }
{
    let room = history.numbers(transfer.from, transfer.year).room;
    line_refusal(transfer.from, i128::from(transfer.amount), room)
}
