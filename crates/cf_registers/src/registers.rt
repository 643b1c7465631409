//! The registers of a history as one: what they allow, which memory an entry needs, which numbers
//! it draws, what it makes of them, and what they show.

ghost use Rattle.std.specs.Prelude.{◌≡◌, ◌+◌, ℕ, true, IfOk, OnOk};
ghost use Rattle.cf_assets.specs.Register.{IsOf};
ghost use Rattle.cf_base.specs.Common.{is_day};
ghost use Rattle.cf_debt.specs.Register.{debts_of};
ghost use Rattle.cf_model.specs.Common.{no_registers, registers_step, first_of};
ghost use Rattle.cf_model.specs.Results as results;
ghost use Rattle.cf_registers.specs.RegistersState.{CanTakeIn, HasRoomFor, HaveTaken, register_rules, register_shown};

use cf_assets::Assets;
use cf_base::Day;
use cf_calls::{Act, Drawn, Entry, Read, Refusal, Shown};
use cf_chart::Chart;
use cf_debt::Debt;
use cf_orders::Orders;
use cf_revenue::Revenue;
use std::alloc::{AllocError, Global};
use std::marker::Model;

/// The registers that the entries of a history make. Each register has the calls `check`,
/// `reserve`, `draws`, `apply` and `look`, with the same parameters; the office speaks to all of
/// them through this type. An act that no register knows leaves them as they are.
pub struct Registers {
    orders: Orders,
    revenue: Revenue,
    assets: Assets,
    debt: Debt,
}

/// Written out, for a derived one is proved anew in each crate that lets such a value go.
impl Drop for Registers {
    fn drop(self) {
        let Registers {
            orders: _,
            revenue: _,
            assets: _,
            debt: _,
        } = self;
    }
}

impl Model for Registers {
    ghost use Rattle.cf_registers.specs.RegistersState.{RegistersState};

    ghost Value = { RegistersState };

    ghost use Rattle.cf_registers.specs.RegistersView.{registers_state, AreInStep};

    ghost view = { registers_state };

    ghost invariant = { AreInStep };
}

impl Registers {
    /// The registers of the empty history. It takes no memory.
    pub fn new(alloc: Global) -> Registers
        ensures registers { result.registers ≡ no_registers }
        ensures taken { HaveTaken 0 result }
    {
        Registers {
            orders: Orders::new(alloc),
            revenue: Revenue::new(alloc),
            assets: Assets::new(alloc),
            debt: Debt::new(alloc),
        }
    }

    /// The requisitions, orders and vouchers, with their items.
    pub fn orders(&self) -> &Orders
        ensures { result.now.documents ≡ self.now.registers.documents }
    {
        &self.orders
    }

    /// The bills with what is settled of them, and the loans between funds.
    pub fn revenue(&self) -> &Revenue
        ensures { result.now.receivables ≡ self.now.registers.receivables }
    {
        &self.revenue
    }

    /// The capital assets.
    pub fn assets(&self) -> &Assets
        ensures { IsOf self.now.registers result.now }
    {
        &self.assets
    }

    /// The bonds with what is paid of them, and leave.
    pub fn debt(&self) -> &Debt
        ensures { result.now.debts ≡ debts_of self.now.registers }
    {
        &self.debt
    }

    /// How many months are closed, from the chart's first on.
    pub fn closed(&self) -> u16
        ensures { result ≡ self.now.registers.closed }
    {
        self.debt.closed()
    }

    /// The first broken rule among those of the registers.
    pub fn check(&self, chart: &Chart, on: Day, desk: u16, act: &Act) -> Option<Refusal>
        requires { is_day on ≡ true }
        ensures { result ≡ first_of (register_rules chart.now self.now.registers on desk act.now) }
    {
        self.orders
            .check(chart, on, desk, act)
            .or_else(|| self.revenue.check(chart, on, desk, act))
            .or_else(|| self.assets.check(chart, on, desk, act))
            .or_else(|| self.debt.check(chart, on, desk, act))
    }

    /// Takes all memory of an act. The registers stay.
    pub fn reserve(&mut self, act: &Act) -> Result<(), AllocError>
        ensures ok { OnOk result (HasRoomFor act.now self.new) }
        ensures registers { self.new.registers ≡ self.old.registers }
        ensures taken { (n : ℕ) → HaveTaken n self.old → HaveTaken n self.new }
    {
        self.orders.reserve(act)?;
        self.revenue.reserve(act)?;
        self.assets.reserve(act)?;
        self.debt.reserve(act)
    }

    /// The number of the document, bill, asset, bond or payment that an act enters.
    fn number(&self, act: &Act) -> u32
        ensures { result ≡ (results.draws self.now.registers act.now).number }
    {
        match act {
            Act::Bill(_) => self.revenue.draws(act).number,
            Act::Asset(_) | Act::Lease(_) => self.assets.draws(act).number,
            Act::Issue(_) | Act::PayDue(_) => self.debt.draws(act).number,
            Act::Adopt(_)
            | Act::Amend(_)
            | Act::Transfer(_)
            | Act::Requisition(_)
            | Act::Withdraw(_)
            | Act::Order(_)
            | Act::ChangeOrder(_)
            | Act::CancelOrder(_)
            | Act::Voucher(_)
            | Act::VoidVoucher(_)
            | Act::Pay(_)
            | Act::Collect(_)
            | Act::Receive(_)
            | Act::WriteOff(_)
            | Act::Leave(_)
            | Act::Interfund(_)
            | Act::Close(_) => self.orders.draws(act).number,
        }
    }

    /// The number of the first asset of a voucher, or of the next one where it has none, and that
    /// of a lease's bond.
    fn second(&self, act: &Act) -> u32
        ensures { result ≡ (results.draws self.now.registers act.now).second }
    {
        match act {
            Act::Voucher(_) => self.assets.draws(act).second,
            Act::Lease(_) => self.debt.draws(act).second,
            Act::Adopt(_)
            | Act::Amend(_)
            | Act::Transfer(_)
            | Act::Requisition(_)
            | Act::Withdraw(_)
            | Act::Order(_)
            | Act::ChangeOrder(_)
            | Act::CancelOrder(_)
            | Act::VoidVoucher(_)
            | Act::Pay(_)
            | Act::Bill(_)
            | Act::Collect(_)
            | Act::Receive(_)
            | Act::WriteOff(_)
            | Act::Asset(_)
            | Act::Issue(_)
            | Act::PayDue(_)
            | Act::Leave(_)
            | Act::Interfund(_)
            | Act::Close(_) => 0,
        }
    }

    /// The numbers that an act draws: the next of its kind, from 1. It takes no memory.
    pub fn draws(&self, act: &Act) -> Drawn
        ensures { result ≡ results.draws self.now.registers act.now }
    {
        Drawn {
            number: self.number(act),
            second: self.second(act),
        }
    }

    /// Takes in an entry that the rules accept, with the numbers that it drew: each register is
    /// given the entry. It takes no memory, as that was reserved.
    pub fn apply(&mut self, chart: &Chart, entry: &Entry)
        requires { CanTakeIn chart.now self.old entry.now }
        ensures registers { self.new.registers
            ≡ registers_step chart.now self.old.registers entry.now }
        ensures taken { (n : ℕ) → HaveTaken n self.old → HaveTaken (n + 1) self.new }
    {
        self.orders.apply(chart, entry);
        self.revenue.apply(chart, entry);
        self.assets.apply(chart, entry);
        self.debt.apply(chart, entry);
    }

    /// What a look at a document, a bill, an asset, a bond or leave shows, or nothing where there
    /// is none of its number, and at other looks.
    pub fn look(
        &self,
        alloc: Global,
        chart: &Chart,
        read: &Read,
    ) -> Result<Option<Shown>, AllocError>
        ensures { IfOk result (λ s. s ≡ register_shown chart.now self.now.registers read.now) }
    {
        match read {
            Read::Requisition { .. } | Read::Order { .. } | Read::Voucher { .. } => {
                self.orders.look(alloc, chart, read)
            }
            Read::Bill { .. } => self.revenue.look(alloc, chart, read),
            Read::Asset { .. } => self.assets.look(alloc, chart, read),
            Read::Bond { .. } | Read::Leave { .. } => self.debt.look(alloc, chart, read),
            Read::Line { .. }
            | Read::Account { .. }
            | Read::Reconcile { .. }
            | Read::Report { .. } => Ok(None),
        }
    }
}
