// The command that the words are parsed by.
ghost use Rattle.std.specs.Prelude.{◌≡◌, IfOk, false};
ghost use Rattle.clap.specs.Walk.{rule_of};
ghost use Rattle.clap.specs.Simple.{app_of};
ghost use Rattle.clap.specs.declared.builder.command.Command.TheViews.{out-Command};
ghost use Rattle.pt_words.specs.Command.{option_rule, with_options, check_command, run_command, generation_command, demonstration_command, stages_rule, bare_program};
ghost use Rattle.pt_words.specs.Command as told;

use clap::{Arg, Command};
use std::alloc::{AllocError, Global};

/// The name of the number of workers.
pub const WORKERS: &str = "workers";

/// The name of the budget.
pub const BUDGET: &str = "budget";

/// The name of the number of stages.
pub const STAGES: &str = "stages";

/// An option with one value, which is read as a text.
fn option<'a>(alloc: Global, name: &'a str) -> Arg<'a>
    ensures rule { rule_of result ≡ option_rule name.entry.now }
    ensures local { result.global ≡ false }
{
    Arg::new(alloc, name).long(name)
}

/// The number of stages, which stands by itself.
fn stages<'a>(alloc: Global) -> Arg<'a>
    ensures rule { rule_of result ≡ stages_rule }
    ensures local { result.global ≡ false }
{
    Arg::new(alloc, STAGES)
}

/// The command with the options of a run.
fn with_run_options<'a>(alloc: Global, command: Command<'a>) -> Result<Command<'a>, AllocError>
    ensures app { IfOk result (λ c. app_of c ≡ with_options (app_of command.entry)) }
    ensures local { IfOk result (λ c. (out-Command command.entry).has_globals ≡ false → (out-Command c).has_globals ≡ false) }
{
    command
        .arg(option(alloc, WORKERS))?
        .arg(option(alloc, BUDGET))
}

fn run<'a>(alloc: Global) -> Result<Command<'a>, AllocError>
    ensures app { IfOk result (λ c. app_of c ≡ run_command) }
    ensures local { IfOk result (λ c. (out-Command c).has_globals ≡ false) }
{
    with_run_options(alloc, Command::new(alloc, "run"))
}

fn check<'a>(alloc: Global) -> Command<'a>
    ensures app { app_of result ≡ check_command }
    ensures local { (out-Command result).has_globals ≡ false }
{
    Command::new(alloc, "check")
}

fn generation<'a>(alloc: Global) -> Result<Command<'a>, AllocError>
    ensures app { IfOk result (λ c. app_of c ≡ generation_command) }
    ensures local { IfOk result (λ c. (out-Command c).has_globals ≡ false) }
{
    Command::new(alloc, "gen").arg(stages(alloc))
}

fn demonstration<'a>(alloc: Global) -> Result<Command<'a>, AllocError>
    ensures app { IfOk result (λ c. app_of c ≡ demonstration_command) }
    ensures local { IfOk result (λ c. (out-Command c).has_globals ≡ false) }
{
    with_run_options(alloc, Command::new(alloc, "demo"))?.arg(stages(alloc))
}

/// The program without its subcommands. The first word is already one of them, and no help is given.
fn bare<'a>(alloc: Global) -> Command<'a>
    ensures app { app_of result ≡ bare_program }
{
    Command::new(alloc, "ptrun")
        .no_binary_name(true)
        .disable_help_flag(true)
        .disable_help_subcommand(true)
        .subcommand_required(true)
}

/// The program, with a subcommand for each task.
pub fn program<'a>(alloc: Global) -> Result<Command<'a>, AllocError>
    ensures { IfOk result (λ c. app_of c ≡ told.program) }
{
    bare(alloc)
        .subcommand(run(alloc)?)?
        .subcommand(check(alloc))?
        .subcommand(generation(alloc)?)?
        .subcommand(demonstration(alloc)?)
}
