//! What each act makes of bills and loans.

ghost use Rattle.std.specs.Prelude.{◌≡◌, ◌≤◌, ◌<◌, ◌+◌, ◌-◌, ◌∷◌, ◌++◌, [], length, None, true, slice_index_or, slice_set};
ghost use Rattle.cf_base.specs.Common.{is_day, most_entries, most_cents};
ghost use Rattle.cf_calls.specs.Common.{IsYear};
ghost use Rattle.cf_calls.specs.declared.acts.Act.TheVariants as act;
ghost use Rattle.cf_model.specs.Common.{bills_by, settlements_by, loans_by, repayments_by, owed, receivable_refusal, over_loan};
ghost use Rattle.cf_revenue.specs.Register.{IsBillLevied, HasRoomToMove, HasRoomToLend, HasRoomToRepay};
ghost use Rattle.cf_revenue.specs.Rows.{view_loan, view_settlement};
ghost use Rattle.cf_revenue.specs.Steps.{CanSettle, lowered};
ghost use Rattle.cf_revenue.specs.declared.rows.BillRow.{BillRow as Row};

use crate::revenue::{Revenue, owed_key};
use crate::rows::{BillRow, LoanRow, SettlementRow};
use cf_base::Day;
use cf_calls::acts::{BillAmount, FundMove, FundMoveKind, NewBill};
use cf_chart::Chart;
use cf_register_parts::{amount_at, put_in, raise, year_of_day};

impl Revenue {
    /// Counts an act that is none of the register's own.
    pub(crate) fn count_act(&mut self)
        requires few { self.old.acts < most_entries }
        ensures receivables { self.new.receivables ≡ self.old.receivables }
        ensures acts { self.new.acts ≡ self.old.acts + 1 }
    {
        self.acts += 1;
    }

    /// Enters a bill.
    pub(crate) fn enter_bill(&mut self, number: u32, bill: &NewBill)
        requires number { number ≡ length self.old.receivables.bills + 1 }
        requires year { IsYear bill.now.levy_year }
        requires amount { bill.now.amount ≤ most_cents }
        requires room { length self.old.receivables.bills < self.old.room.bills }
        requires few { self.old.acts < most_entries }
        ensures receivables { self.new.receivables ≡ record self.old.receivables {
          bills = self.old.receivables.bills ++ bills_by number (act.Bill bill.now);
        } }
        ensures acts { self.new.acts ≡ self.old.acts + 1 }
    {
        let row = BillRow {
            number,
            source: bill.source,
            levy_year: bill.levy_year,
            amount: bill.amount,
            left: bill.amount,
        };
        self.bills.push_reserved(row);
        raise(&mut self.billed, row.levy_year, row.amount);
        self.acts += 1;
    }

    /// Collects an amount of a bill, in the fiscal year that it is revenue of.
    pub(crate) fn collect(&mut self, chart: &Chart, on: Day, part: &BillAmount)
        requires day { is_day on ≡ true }
        requires allowed { receivable_refusal self.old.receivables (act.Collect part.now) ≡ None }
        requires levied { IsBillLevied chart.now self.old.receivables.bills on part.now.bill }
        requires amount { part.now.amount ≤ most_cents }
        requires room { length self.old.receivables.settlements < self.old.room.settlements }
        requires few { self.old.acts < most_entries }
        ensures receivables { self.new.receivables ≡ record self.old.receivables {
          settlements = self.old.receivables.settlements
              ++ settlements_by chart.now self.old.receivables.bills on (act.Collect part.now);
        } }
        ensures acts { self.new.acts ≡ self.old.acts + 1 }
    {
        match self.collected_year(chart, on, part.bill) {
            None => self.count_act(),
            Some(year) => self.settle(SettlementRow {
                bill: part.bill,
                year,
                amount: part.amount,
            }),
        }
    }

    /// Writes an amount of a bill off, in the fiscal year of the day.
    pub(crate) fn write_off(&mut self, chart: &Chart, on: Day, part: &BillAmount)
        requires day { is_day on ≡ true }
        requires allowed { receivable_refusal self.old.receivables (act.WriteOff part.now) ≡ None }
        requires levied { IsBillLevied chart.now self.old.receivables.bills on part.now.bill }
        requires amount { part.now.amount ≤ most_cents }
        requires room { length self.old.receivables.settlements < self.old.room.settlements }
        requires few { self.old.acts < most_entries }
        ensures receivables { self.new.receivables ≡ record self.old.receivables {
          settlements = self.old.receivables.settlements
              ++ settlements_by chart.now self.old.receivables.bills on (act.WriteOff part.now);
        } }
        ensures acts { self.new.acts ≡ self.old.acts + 1 }
    {
        let year = year_of_day(chart, on);
        self.settle(SettlementRow {
            bill: part.bill,
            year,
            amount: part.amount,
        });
    }

    fn settle(&mut self, settlement: SettlementRow)
        requires settles { CanSettle self.old.receivables settlement }
        requires amount { settlement.amount ≤ most_cents }
        requires room { length self.old.receivables.settlements < self.old.room.settlements }
        requires few { self.old.acts < most_entries }
        ensures receivables { self.new.receivables ≡ record self.old.receivables {
          settlements = self.old.receivables.settlements ++ view_settlement settlement ∷ [];
        } }
        ensures acts { self.new.acts ≡ self.old.acts + 1 }
    {
        lower(&mut self.bills, settlement.bill, settlement.amount);
        self.settlements.push_reserved(settlement);
        raise(&mut self.settled, settlement.year, settlement.amount);
        self.acts += 1;
    }

    /// Takes in a movement of cash between funds: a loan or a repayment. A transfer is only
    /// counted.
    pub(crate) fn move_cash(&mut self, fund_move: &FundMove)
        requires reserved { HasRoomToMove fund_move.now.what fund_move.now self.old }
        requires allowed { over_loan self.old.receivables fund_move.now.what fund_move.now ≡ None }
        requires amount { fund_move.now.amount ≤ most_cents }
        requires few { self.old.acts < most_entries }
        ensures receivables { self.new.receivables ≡ record self.old.receivables {
          loans = self.old.receivables.loans ++ loans_by (act.Interfund fund_move.now);
          repayments = self.old.receivables.repayments
              ++ repayments_by (act.Interfund fund_move.now);
        } }
        ensures acts { self.new.acts ≡ self.old.acts + 1 }
    {
        match fund_move.what {
            FundMoveKind::Transfer => self.count_act(),
            FundMoveKind::Loan => self.lend(row_of(fund_move)),
            FundMoveKind::Repay => self.repay(row_of(fund_move)),
        }
    }

    /// The borrower owes the lender so much more.
    fn lend(&mut self, loan: LoanRow)
        requires reserved { HasRoomToLend loan.from loan.to self.old }
        requires amount { loan.amount ≤ most_cents }
        requires few { self.old.acts < most_entries }
        ensures receivables { self.new.receivables ≡ record self.old.receivables {
          loans = self.old.receivables.loans ++ view_loan loan ∷ [];
        } }
        ensures acts { self.new.acts ≡ self.old.acts + 1 }
    {
        let key = owed_key(loan.to, loan.from);
        let amount = amount_at(&self.owed, key) + loan.amount;
        put_in(&mut self.owed, key, amount);
        self.loans.push_reserved(loan);
        self.acts += 1;
    }

    /// The fund that repays owes so much less.
    fn repay(&mut self, repayment: LoanRow)
        requires reserved { HasRoomToRepay repayment.from repayment.to self.old }
        requires left { repayment.amount ≤ owed self.old.receivables repayment.from repayment.to }
        requires few { self.old.acts < most_entries }
        ensures receivables { self.new.receivables ≡ record self.old.receivables {
          repayments = self.old.receivables.repayments ++ view_loan repayment ∷ [];
        } }
        ensures acts { self.new.acts ≡ self.old.acts + 1 }
    {
        let key = owed_key(repayment.from, repayment.to);
        let amount = amount_at(&self.owed, key) - repayment.amount;
        put_in(&mut self.owed, key, amount);
        self.repayments.push_reserved(repayment);
        self.acts += 1;
    }
}

/// Takes an amount of what is left of a bill.
fn lower(bills: &mut Vec<BillRow>, number: u32, amount: u64)
    requires first { 1 ≤ number }
    requires within { number ≤ length bills.old.items }
    requires enough { (d : Row) → amount ≤ (slice_index_or bills.old.items (number - 1) d).left }
    ensures { (d : Row)
        → bills.new.items ≡ slice_set bills.old.items (number - 1)
        (lowered (slice_index_or bills.old.items (number - 1) d) amount) }
{
    let k = number as usize - 1;
    let mut row = bills[k];
    row.left -= amount;
    bills[k] = row;
}

/// A movement of cash as a row.
fn row_of(fund_move: &FundMove) -> LoanRow
    ensures { result ≡ record
        { from = fund_move.now.from; to = fund_move.now.to; amount = fund_move.now.amount } }
{
    LoanRow {
        from: fund_move.from,
        to: fund_move.to,
        amount: fund_move.amount,
    }
}
