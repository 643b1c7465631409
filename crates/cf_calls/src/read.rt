//! What a look reads.

use cf_base::Kind;

/// A basis of accounting (GASB Statement 34).
#[derive(Clone, Copy)]
pub enum Basis {
    /// Fund statements: current financial resources, modified accrual.
    Fund,
    /// Government-wide statements: economic resources, accrual.
    Gov,
}

/// What a look reads: one variant for each of the 11 looks.
#[derive(Clone, Copy)]
pub enum Read {
    Line {
        line: u16,
        year: u16,
    },
    Requisition {
        requisition: u32,
    },
    Order {
        order: u32,
    },
    Voucher {
        voucher: u32,
    },
    Bill {
        bill: u32,
    },
    Asset {
        asset: u32,
    },
    Bond {
        bond: u32,
    },
    Leave {
        fund: u16,
        dept: u16,
    },
    Account {
        basis: Basis,
        year: u16,
        fund: u16,
        account: u32,
    },
    Reconcile {
        year: u16,
    },
    Report {
        year: u16,
        kind: Kind,
    },
}
