//! From words to a command.
ghost use Rattle.std.specs.Prelude.{◌≡◌, [], ◌∷◌, IfOk, IfErr, List, ℕ, map, option_map, string_bytes, codes};
ghost use Rattle.std.specs.List.{list_any};
ghost use Rattle.clap.specs.Words.{subcommand_of, subcommand_rows_of, fault_of, found_of, rows_of};
ghost use Rattle.clap.specs.Walk.{first_of};
ghost use Rattle.command_line.specs.Program.{program_app};
ghost use Rattle.command_line.specs.Taken.{Asked, Serve, Proxy, IsTaken, IsInRange, asked_of};
ghost use Rattle.command_line.specs.Values.{asked_by, judge_of, trial_of, mime_of, listening_of, operand_of, is_end_of_options};

use crate::asked::{Command, Job, Refused};
use crate::numbers::{MOST_SEED, read_count, read_number};
use crate::options::{read_limit, read_policy};
use crate::program::program;
use clap::ArgMatches;
use clap::error::ErrorKind;
use std::alloc::Global;

/// The command that the words ask for.
///
/// # Errors
///
/// [`Refused::Usage`] only where the words ask for none, and [`Refused::NoMemory`] where clap was
/// refused memory.
pub fn read_words(alloc: Global, words: &[String]) -> Result<Command<'_>, Refused>
    ensures taken { IfOk result (λ c. IsTaken (map string_bytes words.now) (asked_of c)) }
    ensures usage { IfErr result (λ e. e ≡ Refused.Usage → (asked : Asked)
        → IsTaken (map string_bytes words.now) asked → ⊥) }
    ensures ranges { IfOk result (λ c. IsInRange (asked_of c)) }
{
    if has_end_of_options(words) {
        return Err(Refused::Usage);
    }
    let matches = match parse(alloc, words) {
        Ok(matches) => matches,
        Err(refused) => return Err(refused),
    };
    match read_command(&matches) {
        Some(command) => Ok(command),
        None => Err(Refused::Usage),
    }
}

/// Whether one of the words is `--`, after which clap takes every word for an operand.
fn has_end_of_options(words: &[String]) -> bool
    ensures { result ≡ list_any is_end_of_options (map string_bytes words.now) }
{
    for word in words {
        if word.as_str() == "--" {
            return true;
        }
    }
    false
}

fn parse<'w>(alloc: Global, words: &'w [String]) -> Result<ArgMatches<'w>, Refused>
    ensures rows { IfOk result (λ m. subcommand_rows_of m
        ≡ subcommand_of program_app (map string_bytes words.entry.now)) }
    ensures ok { IfOk result (λ _. fault_of program_app (map string_bytes words.entry.now) ≡ []) }
    ensures err { IfErr result (λ e. e ≡ Refused.Usage
        → fault_of program_app (map string_bytes words.entry.now) ≡ [] → ⊥) }
{
    let command = match program(alloc) {
        Ok(command) => command,
        Err(_) => return Err(Refused::NoMemory),
    };
    match command.try_get_matches_from(words) {
        Ok(matches) => Ok(matches),
        Err(error) => match error.kind() {
            ErrorKind::OutOfMemory => Err(Refused::NoMemory),
            _ => Err(Refused::Usage),
        },
    }
}

/// The command of the subcommand that was met, and of the values that it was given.
fn read_command<'w>(matches: &ArgMatches<'w>) -> Option<Command<'w>>
    ensures { option_map asked_of result ≡ asked_by (subcommand_rows_of matches.now) }
{
    let (name, given) = matches.subcommand()?;
    match name {
        "filter" => read_judge(Job::Filter, given),
        "explain" => read_judge(Job::Explain, given),
        "trial" => read_trial(given),
        "mime" => read_mime(given),
        "har" => Some(Command::Har),
        "type" => Some(Command::Type),
        "serve" => read_serve(given),
        "proxy" => read_proxy(given),
        _ => None,
    }
}

fn read_judge<'w>(job: Job, given: &ArgMatches<'w>) -> Option<Command<'w>>
    ensures { option_map asked_of result ≡ judge_of job (rows_of (found_of given.now)) }
{
    let policy = read_policy(value_of(given, "policy"))?;
    let limit = read_limit(value_of(given, "limit"))?;
    Some(Command::Judge { job, policy, limit })
}

fn read_trial<'w>(given: &ArgMatches<'w>) -> Option<Command<'w>>
    ensures { option_map asked_of result ≡ trial_of (rows_of (found_of given.now)) }
{
    let seed = read_number(value_of(given, "first")?, 0, MOST_SEED)?;
    let count = read_count(value_of(given, "second")?)?;
    Some(Command::Trial { seed, count })
}

fn read_mime<'w>(given: &ArgMatches<'w>) -> Option<Command<'w>>
    ensures { option_map asked_of result ≡ mime_of (rows_of (found_of given.now)) }
{
    let text = read_operand(value_of(given, "first")?)?;
    Some(Command::Mime(text))
}

fn read_serve<'w>(given: &ArgMatches<'w>) -> Option<Command<'w>>
    ensures { option_map asked_of result ≡ listening_of Serve (rows_of (found_of given.now)) }
{
    let address = read_operand(value_of(given, "first")?)?;
    let count = read_count(value_of(given, "second")?)?;
    Some(Command::Serve { address, count })
}

fn read_proxy<'w>(given: &ArgMatches<'w>) -> Option<Command<'w>>
    ensures { option_map asked_of result ≡ listening_of Proxy (rows_of (found_of given.now)) }
{
    let address = read_operand(value_of(given, "first")?)?;
    let count = read_count(value_of(given, "second")?)?;
    Some(Command::Proxy { address, count })
}

/// The value that clap found for the argument.
fn value_of<'w>(given: &ArgMatches<'w>, id: &str) -> Option<&'w str>
    ensures { option_map (λ v. v.now) result ≡ first_of id.now (rows_of (found_of given.now)) }
{
    given.get_str(id)
}

/// The word, where it doesn't begin with `-`.
fn read_operand(word: &str) -> Option<&[u8]>
    ensures { option_map (λ text. text.now) result ≡ operand_of word.now }
{
    if word.starts_with('-') {
        None
    } else {
        Some(word.as_bytes())
    }
}
