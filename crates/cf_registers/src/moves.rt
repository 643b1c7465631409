//! What an entry changes of line numbers: its changes, merged by line and year.

ghost use Rattle.std.specs.Prelude.{◌≡◌, ◌<◌, ◌≤◌, ◌+◌, ℕ, Bool, true, None, IfOk, IfSome, length, option_map, slice_get};
ghost use Rattle.std.specs.List.{All, list_all};
ghost use Rattle.cf_model.specs.Common.{Day as OnDay, stripe_of, touches};
ghost use Rattle.cf_calls.specs.Common.{is_distinct, IsActInForm};
ghost use Rattle.cf_budget.specs.Changes.{changes_at, same_place};
ghost use Rattle.cf_budget.specs.Tables.{row_plus, zero_row, AreHeld};
ghost use Rattle.cf_model.specs.Rules as rules;
ghost use Rattle.cf_registers.specs.Lines.{LendsAccount};
ghost use Rattle.cf_orders.specs.Register.{line_move, IsSmall};
ghost use Rattle.cf_registers.specs.Moved as spec;
ghost use Rattle.cf_registers.specs.Numbered.{AreNumberedBonds};
ghost use Rattle.cf_registers.specs.Moved.{Make, IsCleared, act_moves, move_row, moves_row, plainly_moved, is_inside, row_if, row_at_move, AreSmallSums};

use crate::registers::Registers;
use crate::spendings::{spending_at, spendings};
use arrayvec::ArrayVec;
use cf_base::Day;
use cf_budget::{LineChange, MergedChanges, Row, ZERO, merge};
use cf_calls::Act;
use cf_calls::acts::{Amendment, LineTransfer};
use cf_calls::items::LineAmount;
use cf_chart::{Chart, LineId};
use cf_orders::LineMove;
use std::alloc::{AllocError, Global};

/// The changes of the lines that an adoption names.
fn adoption(alloc: Global, year: u16, rows: &[LineAmount]) -> Result<Vec<LineChange>, AllocError>
    ensures { IfOk result (λ v. v.items ≡ spec.adoption_changes year rows.now) }
{
    let mut changes = Vec::new(alloc);
    for row in rows {
        changes.push(LineChange {
            line: LineId { number: row.line },
            year,
            by: Row::adoption(row.amount),
        })?;
    }
    Ok(changes)
}

fn amendment(alloc: Global, amendment: &Amendment) -> Result<Vec<LineChange>, AllocError>
    ensures { IfOk result (λ v. v.items ≡ spec.amendment_changes amendment.now) }
{
    let mut changes = Vec::new(alloc);
    changes.push(LineChange {
        line: LineId {
            number: amendment.line,
        },
        year: amendment.year,
        by: Row::amendment(amendment.by),
    })?;
    Ok(changes)
}

/// The changes of a transfer, which raises one line and lowers another.
fn transfer(alloc: Global, transfer: &LineTransfer) -> Result<Vec<LineChange>, AllocError>
    ensures { IfOk result (λ v. v.items ≡ spec.transfer_changes transfer.now) }
{
    let mut changes = Vec::new(alloc);
    changes.push(LineChange {
        line: LineId {
            number: transfer.to,
        },
        year: transfer.year,
        by: Row::transfer_in(transfer.amount),
    })?;
    changes.push(LineChange {
        line: LineId {
            number: transfer.from,
        },
        year: transfer.year,
        by: Row::transfer_out(transfer.amount),
    })?;
    Ok(changes)
}

/// What a move changes of a row.
fn row_of(moved: &LineMove) -> Row
    ensures { result ≡ move_row moved.now }
{
    let mut row = ZERO;
    row.held = moved.held;
    row.encumbered = moved.encumbered;
    row.expended = moved.expended;
    row
}

/// Whether a move changes nothing, as what a voucher's item that is on no order liquidates.
fn is_nothing(moved: &LineMove) -> bool
    ensures { result ≡ true → move_row moved.now ≡ zero_row }
{
    moved.held == 0 && moved.encumbered == 0 && moved.expended == 0
}

/// Adds a move to what is changed of its account's line and year.
fn add_move(changes: &mut MergedChanges, chart: &Chart, moved: &LineMove)
    requires room { length changes.old.items < 64 }
    requires apart { is_distinct same_place changes.old.items ≡ true }
    requires year { moved.now.year < 2201 }
    requires inside { list_all (λ c. is_inside chart.now c.line.number c.year) changes.old.items
        ≡ true }
    requires held { (line year : ℕ)
        → AreHeld (row_plus (changes_at changes.old.items line year) (move_row moved.now)) }
    ensures few { length changes.new.items ≤ length changes.old.items + 1 }
    ensures apart { is_distinct same_place changes.new.items ≡ true }
    ensures inside { list_all (λ c. is_inside chart.now c.line.number c.year) changes.new.items
        ≡ true }
    ensures adds { (m z : ℕ)
        → changes_at changes.new.items m z
        ≡ row_plus (changes_at changes.old.items m z) (row_at_move chart.now m z moved.now) }
    ensures lines { (p : ℕ → Bool) → LendsAccount chart.now p moved.now.account moved.now.year
        → list_all (λ c. p c.line.number) changes.old.items ≡ true
        → list_all (λ c. p c.line.number) changes.new.items ≡ true }
{
    if is_nothing(moved) {
        return;
    }
    let account = &moved.account;
    let Some(line) = chart.line_of(account.fund, account.dept, account.object, moved.year) else {
        return;
    };
    merge(
        changes,
        &LineChange {
            line,
            year: moved.year,
            by: row_of(moved),
        },
    );
}

/// Adds what a move changes of its account's line, where there is one.
fn add_if(changes: &mut MergedChanges, chart: &Chart, moved: Option<LineMove>)
    requires room { length changes.old.items < 64 }
    requires apart { is_distinct same_place changes.old.items ≡ true }
    requires year { IfSome moved (λ m. m.year < 2201) }
    requires inside { list_all (λ c. is_inside chart.now c.line.number c.year) changes.old.items
        ≡ true }
    requires held { IfSome moved
        (λ m. (line year : ℕ)
        → AreHeld (row_plus (changes_at changes.old.items line year) (move_row m))) }
    ensures few { length changes.new.items ≤ length changes.old.items + 1 }
    ensures apart { is_distinct same_place changes.new.items ≡ true }
    ensures inside { list_all (λ c. is_inside chart.now c.line.number c.year) changes.new.items
        ≡ true }
    ensures adds { (m z : ℕ)
        → changes_at changes.new.items m z
        ≡ row_plus (changes_at changes.old.items m z) (row_if chart.now m z moved) }
    ensures lines { (p : ℕ → Bool) → IfSome moved (λ m. LendsAccount chart.now p m.account m.year)
        → list_all (λ c. p c.line.number) changes.old.items ≡ true
        → list_all (λ c. p c.line.number) changes.new.items ≡ true }
{
    if let Some(moved) = moved {
        add_move(changes, chart, &moved);
    }
}

/// How many moves an act has: at most 64.
fn moves(chart: &Chart, registers: &Registers, act: &Act) -> usize
    requires { AreNumberedBonds registers.now.registers.bonds }
    ensures value { (on : OnDay)
        → result ≡ length (act_moves chart.now registers.now.registers on act.now) }
    ensures few { (on : OnDay) → IsActInForm on act.now → result ≤ 64 }
{
    match act {
        Act::PayDue(_) | Act::Leave(_) | Act::Lease(_) => spendings(chart, registers, act),
        Act::Adopt(_)
        | Act::Amend(_)
        | Act::Transfer(_)
        | Act::Requisition(_)
        | Act::Withdraw(_)
        | Act::Order(_)
        | Act::ChangeOrder(_)
        | Act::CancelOrder(_)
        | Act::Voucher(_)
        | Act::VoidVoucher(_)
        | Act::Pay(_)
        | Act::Bill(_)
        | Act::Collect(_)
        | Act::Receive(_)
        | Act::WriteOff(_)
        | Act::Asset(_)
        | Act::Issue(_)
        | Act::Interfund(_)
        | Act::Close(_) => registers.orders().moves(act),
    }
}

/// The move at a place, from 0, of an act that the rules allow: what an item of its documents
/// holds, encumbers or expends, or what it spends beside them. `None` past the last one.
fn move_at(chart: &Chart, registers: &Registers, on: Day, act: &Act, nth: usize) -> Option<LineMove>
    requires { IsCleared chart.now registers.now.registers on act.now }
    ensures value { result
        ≡ option_map line_move
        (slice_get (act_moves chart.now registers.now.registers on act.now) nth) }
    ensures small { IfSome result IsSmall }
{
    match act {
        Act::PayDue(_) | Act::Leave(_) | Act::Lease(_) => {
            spending_at(chart, registers, on, act, nth)
        }
        Act::Adopt(_)
        | Act::Amend(_)
        | Act::Transfer(_)
        | Act::Requisition(_)
        | Act::Withdraw(_)
        | Act::Order(_)
        | Act::ChangeOrder(_)
        | Act::CancelOrder(_)
        | Act::Voucher(_)
        | Act::VoidVoucher(_)
        | Act::Pay(_)
        | Act::Bill(_)
        | Act::Collect(_)
        | Act::Receive(_)
        | Act::WriteOff(_)
        | Act::Asset(_)
        | Act::Issue(_)
        | Act::Interfund(_)
        | Act::Close(_) => registers.orders().move_at(chart, on, act, nth),
    }
}

/// What an act's moves change, one change a line and year. It takes no memory.
pub fn merged_moves(chart: &Chart, registers: &Registers, on: Day, act: &Act) -> MergedChanges
    requires { IsCleared chart.now registers.now.registers on act.now }
    ensures made { Make chart.now
        (moves_row chart.now (act_moves chart.now registers.now.registers on act.now))
        result.items }
    ensures small { All (λ c. AreSmallSums c.by) result.items }
    ensures touched { list_all
        (λ c. touches chart.now (stripe_of c.line.number) act.now) result.items ≡ true }
{
    let mut changes = ArrayVec::new();
    for nth in 0..moves(chart, registers, act) {
        add_if(&mut changes, chart, move_at(chart, registers, on, act, nth));
    }
    changes
}

/// What an entry that the rules accept and that rolls no year changes, one change a line and year.
pub fn entry_changes(
    alloc: Global,
    chart: &Chart,
    registers: &Registers,
    on: Day,
    act: &Act,
) -> Result<Vec<LineChange>, AllocError>
    requires cleared { IsCleared chart.now registers.now.registers on act.now }
    requires names { rules.name_refusal chart.now registers.now.registers.documents on act.now
        ≡ None }
    ensures make { IfOk result
        (λ v. Make chart.now (plainly_moved chart.now registers.now.registers on act.now) v.items) }
    ensures touched { IfOk result
        (λ v. list_all (λ c. touches chart.now (stripe_of c.line.number) act.now) v.items ≡ true) }
{
    if let Some(a) = act.adoption() {
        return adoption(alloc, a.year, a.lines.as_slice());
    }
    if let Some(a) = act.amendment() {
        return amendment(alloc, a);
    }
    if let Some(t) = act.line_transfer() {
        return transfer(alloc, t);
    }
    Vec::from_slice(alloc, merged_moves(chart, registers, on, act).as_slice())
}
