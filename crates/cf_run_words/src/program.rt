//! The program's command line, as `clap` is told of it.
ghost use Rattle.std.specs.Prelude.{◌≡◌, IfOk, Ok, codes, false};
ghost use Rattle.clap.specs.Words.{AddsSubcommand, app_of};
ghost use Rattle.clap.specs.declared.builder.command.Command.{Command as ACommand};
ghost use Rattle.clap.specs.declared.Command.TheViews.{out-Command as fields_of};
ghost use Rattle.cf_run_words.specs.CommandLine.{app, claim_rules, generate_rules, pool_rules, program as the_program, report_rules, serve_rules, ship_rules};

use clap::{Arg, ArgAction, Command};
use std::alloc::{AllocError, Global};

fn serve<'a>(alloc: Global) -> Result<Command<'a>, AllocError>
    ensures told { IfOk result (λ c. app_of c ≡ app (codes "serve") serve_rules) }
    ensures local { IfOk result (λ c. (fields_of c).has_globals ≡ false) }
{
    Command::new(alloc, "serve")
        .arg(Arg::new(alloc, "port").long("port"))?
        .arg(Arg::new(alloc, "doors").long("doors"))?
        .arg(Arg::new(alloc, "links").long("links"))
}

fn report<'a>(alloc: Global) -> Result<Command<'a>, AllocError>
    ensures told { IfOk result (λ c. app_of c ≡ app (codes "report") report_rules) }
    ensures local { IfOk result (λ c. (fields_of c).has_globals ≡ false) }
{
    Command::new(alloc, "report")
        .arg(Arg::new(alloc, "year"))?
        .arg(Arg::new(alloc, "kind"))?
        .arg(
            Arg::new(alloc, "csv")
                .long("csv")
                .action(ArgAction::SetTrue),
        )
}

fn generate<'a>(alloc: Global) -> Result<Command<'a>, AllocError>
    ensures told { IfOk result (λ c. app_of c ≡ app (codes "generate") generate_rules) }
    ensures local { IfOk result (λ c. (fields_of c).has_globals ≡ false) }
{
    Command::new(alloc, "generate").arg(Arg::new(alloc, "n"))
}

fn pool<'a>(alloc: Global) -> Result<Command<'a>, AllocError>
    ensures told { IfOk result (λ c. app_of c ≡ app (codes "pool") pool_rules) }
    ensures local { IfOk result (λ c. (fields_of c).has_globals ≡ false) }
{
    Command::new(alloc, "pool")
        .arg(Arg::new(alloc, "month"))?
        .arg(Arg::new(alloc, "amount"))?
        .arg(Arg::new(alloc, "desk"))
}

fn claim<'a>(alloc: Global) -> Result<Command<'a>, AllocError>
    ensures told { IfOk result (λ c. app_of c ≡ app (codes "claim") claim_rules) }
    ensures local { IfOk result (λ c. (fields_of c).has_globals ≡ false) }
{
    Command::new(alloc, "claim")
        .arg(Arg::new(alloc, "grant"))?
        .arg(Arg::new(alloc, "date"))?
        .arg(Arg::new(alloc, "desk"))
}

fn ship<'a>(alloc: Global) -> Result<Command<'a>, AllocError>
    ensures told { IfOk result (λ c. app_of c ≡ app (codes "ship") ship_rules) }
    ensures local { IfOk result (λ c. (fields_of c).has_globals ≡ false) }
{
    Command::new(alloc, "ship").arg(Arg::new(alloc, "from"))
}

/// A command with one more command, where there is memory for both.
fn with<'a>(
    command: Result<Command<'a>, AllocError>,
    sub: Result<Command<'a>, AllocError>,
) -> Result<Command<'a>, AllocError>
    ensures { IfOk result
        (λ r. (c : ACommand) × (s : ACommand) × (command.entry ≡ Ok c) × (sub.entry ≡ Ok s)
        × AddsSubcommand c s r) }
{
    command?.subcommand(sub?)
}

/// The program's command line: its nine commands, and no help.
pub fn program<'a>(alloc: Global) -> Result<Command<'a>, AllocError>
    ensures { IfOk result (λ c. app_of c ≡ the_program) }
{
    let bare = Command::new(alloc, "cityfund")
        .no_binary_name(true)
        .disable_help_flag(true)
        .disable_help_subcommand(true);
    let found = with(Ok(bare), Ok(Command::new(alloc, "found")));
    let desk = with(found, Ok(Command::new(alloc, "desk")));
    let served = with(desk, serve(alloc));
    let reported = with(served, report(alloc));
    let generated = with(reported, generate(alloc));
    let pooled = with(generated, pool(alloc));
    let claimed = with(pooled, claim(alloc));
    let shipped = with(claimed, ship(alloc));
    with(shipped, Ok(Command::new(alloc, "follow")))
}
