//! The other parties of documents.

ghost use Rattle.std.specs.Prelude.{◌≡◌, ◌++◌, ◌∷◌, [], IfOk, OnOk};
ghost use Rattle.cf_books_ledger.specs.Parties as spec;
ghost use Rattle.cf_books_ledger.specs.Parties.{parties_of};

use cf_calls::{Act, Entry};
use cf_office_rows::LedgerRow;
use std::alloc::{AllocError, Global};
use std::marker::Model;

/// The parties of documents, by kind and number: the vendors of orders and vouchers, the payers of
/// bills, and the vendors of leases, by the numbers of their bonds.
#[derive(Drop)]
pub struct Parties {
    orders: Vec<u32>,
    vouchers: Vec<u32>,
    bills: Vec<u32>,
    bonds: Vec<u32>,
}

impl Model for Parties {
    ghost use Rattle.cf_books_ledger.specs.Parties.{PartyLists};

    ghost Value = { PartyLists };

    ghost use Rattle.cf_books_ledger.specs.PartiesView.{party_lists};

    ghost view = { party_lists };
}

/// Adds a party at the end.
fn push(list: &mut Vec<u32>, party: u32) -> Result<(), AllocError>
    ensures { OnOk result (list.new.items ≡ list.old.items ++ party ∷ []) }
{
    list.push(party)?;
    Ok(())
}

/// Adds the party of what an act enters.
fn put_party(parties: &mut Parties, act: &Act) -> Result<(), AllocError>
    ensures { OnOk result (parties.new ≡ spec.with_act parties.old act.now) }
{
    match act {
        Act::Order(order) => push(&mut parties.orders, order.vendor),
        Act::Voucher(voucher) => push(&mut parties.vouchers, voucher.vendor),
        Act::Bill(bill) => push(&mut parties.bills, bill.payer),
        Act::Issue(_) => push(&mut parties.bonds, 0),
        Act::Lease(lease) => push(&mut parties.bonds, lease.vendor),
        Act::Adopt(_)
        | Act::Amend(_)
        | Act::Transfer(_)
        | Act::Requisition(_)
        | Act::Withdraw(_)
        | Act::ChangeOrder(_)
        | Act::CancelOrder(_)
        | Act::VoidVoucher(_)
        | Act::Pay(_)
        | Act::Collect(_)
        | Act::Receive(_)
        | Act::WriteOff(_)
        | Act::Asset(_)
        | Act::PayDue(_)
        | Act::Leave(_)
        | Act::Interfund(_)
        | Act::Close(_) => Ok(()),
    }
}

/// The parties of the documents of a history.
pub fn all_parties(alloc: Global, entries: &[Entry]) -> Result<Parties, AllocError>
    ensures { IfOk result (λ p. p ≡ parties_of entries.now) }
{
    let mut parties = Parties {
        orders: Vec::new(alloc),
        vouchers: Vec::new(alloc),
        bills: Vec::new(alloc),
        bonds: Vec::new(alloc),
    };
    for entry in entries {
        put_party(&mut parties, &entry.change.act)?;
    }
    Ok(parties)
}

/// The party of a document by its number, from 1; 0 where there is none.
fn party_at(parties: &[u32], number: u32) -> u32
    ensures { result ≡ spec.party_at parties.now number }
{
    if number == 0 {
        return 0;
    }
    match parties.get(number as usize - 1) {
        Some(party) => *party,
        None => 0,
    }
}

/// The vendor of the order that a row of a roll is of; a requisition has none.
fn rolled_party(parties: &Parties, row: &LedgerRow) -> u32
    ensures { result ≡ spec.rolled_party parties.now row.now }
{
    if row.by.held == 0 {
        party_at(parties.orders.as_slice(), row.of.document)
    } else {
        0
    }
}

/// The party of what an act moves; 0 where it has none.
pub fn party_of(parties: &Parties, act: &Act, row: &LedgerRow) -> u32
    ensures { result ≡ spec.party_by parties.now act.now row.now }
{
    match act {
        Act::Order(order) => order.vendor,
        Act::ChangeOrder(change) => party_at(parties.orders.as_slice(), change.order),
        Act::CancelOrder(order) => party_at(parties.orders.as_slice(), *order),
        Act::Voucher(voucher) => voucher.vendor,
        Act::VoidVoucher(voucher) => party_at(parties.vouchers.as_slice(), *voucher),
        Act::Bill(bill) => bill.payer,
        Act::Collect(part) => party_at(parties.bills.as_slice(), part.bill),
        Act::WriteOff(part) => party_at(parties.bills.as_slice(), part.bill),
        Act::PayDue(payment) => party_at(parties.bonds.as_slice(), payment.bond),
        Act::Close(_) => rolled_party(parties, row),
        Act::Lease(lease) => lease.vendor,
        Act::Adopt(_)
        | Act::Amend(_)
        | Act::Transfer(_)
        | Act::Requisition(_)
        | Act::Withdraw(_)
        | Act::Pay(_)
        | Act::Receive(_)
        | Act::Asset(_)
        | Act::Issue(_)
        | Act::Leave(_)
        | Act::Interfund(_) => 0,
    }
}
