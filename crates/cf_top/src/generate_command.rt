//! The run of `generate`.

ghost use Rattle.std.specs.Prelude.{◌≡◌, ◌≢◌, ◌≤◌, ◌++◌, IfOk, OnOk};
ghost use Rattle.cf_base.specs.Common.{Rose};
ghost use Rattle.cf_statements.specs.Sums.{single};
ghost use Rattle.cf_text.specs.Statement.{row_line};
ghost use Rattle.cf_top.specs.Generates as spec;
ghost use Rattle.cf_top.specs.Generates.{GenerateEnds, IsGenerated};

use cf_base::Sink;
use cf_calls::shown::ReconShown;
use cf_calls::{Label, List, Row};
use cf_office::{BookOffice, History};
use cf_run_generate::generate;
use cf_run_status::{Status, print};
use cf_text::{put_count, put_row};
use std::alloc::{AllocError, Global};

/// Adds the line of an amount.
fn put_single(alloc: Global, out: &mut Vec<u8>, label: &str, amount: i128) -> Result<(), AllocError>
    ensures { OnOk result (out.new.items ≡ out.old.items ++ row_line (single label.now amount)) }
{
    let row = Row {
        label: Label::new(alloc, label)?,
        amounts: List::of(Vec::from_slice(alloc, [amount].as_slice())?),
    };
    put_row(out, &row)
}

/// The lines of so many entries, and of what they come to.
fn total_lines(alloc: Global, count: u64, recon: &ReconShown) -> Result<Vec<u8>, AllocError>
    ensures { IfOk result (λ text. text.items ≡ spec.total_lines count recon.now) }
{
    let mut out = Vec::new(alloc);
    put_count(&mut out, "Entries", count)?;
    put_single(alloc, &mut out, "Total fund balances", recon.fund_balances)?;
    put_single(alloc, &mut out, "Net position", recon.net_position)?;
    Ok(out)
}

/// The lines of a history, at the end of the fiscal year of all drawn calls.
fn history_lines(alloc: Global, history: &History) -> Result<Vec<u8>, AllocError>
    ensures { IfOk result
        (λ text. text.items ≡ spec.office_lines history.now.plan history.now.entries) }
{
    total_lines(alloc, history.len(), &history.recon(2026))
}

/// The lines of an office, at the end of the fiscal year of all drawn calls.
fn office_lines(alloc: Global, office: &BookOffice) -> Result<Vec<u8>, AllocError>
    ensures { IfOk result
        (λ text. text.items ≡ spec.office_lines office.now.plan office.now.entries) }
{
    history_lines(alloc, &office.history())
}

/// The lines of the run of so many drawn calls.
fn run_lines(alloc: Global, n: u32) -> Result<Vec<u8>, AllocError>
    requires { n ≤ 100000 }
    ensures { IfOk result (λ text. IsGenerated n text.items) }
{
    let office = generate(alloc, n)?;
    office_lines(alloc, &office)
}

/// The run of `generate`: an office in memory takes `n` calls, at most 100,000, drawn by a fixed
/// formula, and how many entries there are then, the total of fund balances and net position are
/// written, a line each. Where there is no memory nothing is written.
pub fn run_generate<O: Sink>(alloc: Global, n: u32, out: &mut O) -> Status
    requires { n ≤ 100000 }
    ensures ends { GenerateEnds n (O.held out.old) (O.held out.new) result }
    ensures write { result ≡ Status.WriteFault → Rose (O.faults out.old) (O.faults out.new) }
    ensures memory { result ≡ Status.NoMemory → O.faults out.new ≡ O.faults out.old }
    ensures out_quiet { result ≢ Status.WriteFault → O.faults out.new ≡ O.faults out.old }
{
    print(run_lines(alloc, n), out)
}
