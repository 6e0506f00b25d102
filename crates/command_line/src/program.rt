//! The command line, as clap is told of it.
ghost use Rattle.std.specs.Prelude.{◌≡◌, IfOk, false};
ghost use Rattle.clap.specs.Words.{app_of};
ghost use Rattle.clap.specs.declared.builder.Command.TheViews.{out-Command};
ghost use Rattle.command_line.specs.Program.{job_app, word_app, operand_app, operands_app, program_app};

use clap::{Arg, ArgAction, Command};
use std::alloc::{AllocError, Global};

/// The program: one level of subcommands, no help and no version. The values are read elsewhere.
pub(crate) fn program<'a>(alloc: Global) -> Result<Command<'a>, AllocError>
    ensures { IfOk result (λ c. app_of c ≡ program_app) }
{
    Command::new(alloc, "orb")
        .no_binary_name(true)
        .disable_help_flag(true)
        .disable_help_subcommand(true)
        .disable_version_flag(true)
        .subcommand(job(alloc, "filter")?)?
        .subcommand(job(alloc, "explain")?)?
        .subcommand(two_operands(alloc, "trial")?)?
        .subcommand(one_operand(alloc, "mime")?)?
        .subcommand(no_operand(alloc, "har"))?
        .subcommand(no_operand(alloc, "type"))?
        .subcommand(two_operands(alloc, "serve")?)?
        .subcommand(two_operands(alloc, "proxy")?)
}

/// A subcommand with the options `--policy` and `--limit`.
fn job<'a>(alloc: Global, name: &'a str) -> Result<Command<'a>, AllocError>
    ensures shape { IfOk result (λ c. app_of c ≡ job_app name.entry.now) }
    ensures local { IfOk result (λ c. (out-Command c).has_globals ≡ false) }
{
    let policy = Arg::new(alloc, "policy")
        .long("policy")
        .action(ArgAction::Set);
    let limit = Arg::new(alloc, "limit")
        .long("limit")
        .action(ArgAction::Set);
    Command::new(alloc, name).arg(policy)?.arg(limit)
}

/// A subcommand without operands.
fn no_operand<'a>(alloc: Global, name: &'a str) -> Command<'a>
    ensures shape { app_of result ≡ word_app name.entry.now }
    ensures local { (out-Command result).has_globals ≡ false }
{
    Command::new(alloc, name)
}

/// A subcommand with one operand.
fn one_operand<'a>(alloc: Global, name: &'a str) -> Result<Command<'a>, AllocError>
    ensures shape { IfOk result (λ c. app_of c ≡ operand_app name.entry.now) }
    ensures local { IfOk result (λ c. (out-Command c).has_globals ≡ false) }
{
    let first = Arg::new(alloc, "first").action(ArgAction::Set);
    no_operand(alloc, name).arg(first)
}

/// A subcommand with two operands.
fn two_operands<'a>(alloc: Global, name: &'a str) -> Result<Command<'a>, AllocError>
    ensures shape { IfOk result (λ c. app_of c ≡ operands_app name.entry.now) }
    ensures local { IfOk result (λ c. (out-Command c).has_globals ≡ false) }
{
    let second = Arg::new(alloc, "second").action(ArgAction::Set);
    one_operand(alloc, name)?.arg(second)
}
