//! What the close of a month does to accounts: for each function a charge of depreciation and one
//! of amortization, and one of interest.

ghost use Rattle.std.specs.Prelude.{◌≡◌, ◌++◌, ℕ, List, map, IfOk, OnOk};
ghost use Rattle.cf_assets.specs.Charges.{AreCharges};
ghost use Rattle.cf_model.specs.Common.{Asset};
ghost use Rattle.cf_model.specs.Deeds as spec;
ghost use Rattle.cf_registers.specs.Deeds.{amortize_deed, charge_deed};

use crate::registers::Registers;
use cf_assets::MOST_FUNCTIONS;
use cf_chart::Chart;
use cf_post::deed::{CityTotal, Deed, FunctionTotal};
use std::alloc::{AllocError, Global};

/// The depreciation of each function, by what is charged to each.
fn depreciate(
    alloc: Global,
    chart: &Chart,
    charges: &[u128; MOST_FUNCTIONS],
    year: u16,
) -> Result<Vec<Deed>, AllocError>
    ensures { (closed : ℕ) (assets : List Asset)
        → AreCharges closed assets chart.now.functions charges.now
        → IfOk result (λ v. v.items ≡ map (charge_deed year closed assets) chart.now.functions) }
{
    let functions = chart.functions();
    let mut deeds = Vec::new(alloc);
    for place in 0..functions.len() {
        deeds.push(Deed::Depreciate(FunctionTotal {
            year,
            function: functions[place].id,
            amount: charges[place],
        }))?;
    }
    Ok(deeds)
}

/// Appends the amortization of each function, by what is charged to each (GASB Statement 87).
fn amortize(
    deeds: &mut Vec<Deed>,
    chart: &Chart,
    charges: &[u128; MOST_FUNCTIONS],
    year: u16,
) -> Result<(), AllocError>
    ensures { (closed : ℕ) (assets : List Asset)
        → AreCharges closed assets chart.now.functions charges.now
        → OnOk result (deeds.new.items
        ≡ deeds.old.items ++ map (amortize_deed year closed assets) chart.now.functions) }
{
    let functions = chart.functions();
    for place in 0..functions.len() {
        deeds.push(Deed::Amortize(FunctionTotal {
            year,
            function: functions[place].id,
            amount: charges[place],
        }))?;
    }
    Ok(())
}

/// What the close of the next month does: two deeds for each function, and one with the interest of
/// all bonds and leases.
pub fn close_month(
    alloc: Global,
    chart: &Chart,
    registers: &Registers,
) -> Result<Vec<Deed>, AllocError>
    ensures { IfOk result (λ v. v.items ≡ spec.close_deeds chart.now registers.now.registers) }
{
    let year = chart.first_year() + registers.closed() / 12;
    let charges = registers.assets().month_charges(chart);
    let mut deeds = depreciate(alloc, chart, &charges.owned, year)?;
    amortize(&mut deeds, chart, &charges.leased, year)?;
    deeds.push(Deed::AccrueInterest(CityTotal {
        year,
        amount: registers.debt().month_interest(),
    }))?;
    Ok(deeds)
}
