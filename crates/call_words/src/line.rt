//! The words as the crate `clap` reads them.

ghost use Rattle.std.specs.Prelude.{◌≡◌, IfOk, IfErr, map, string_bytes, false, option_map};
ghost use Rattle.bk_memory.specs.Shortage.{MemoryIsShort};
ghost use Rattle.clap.specs.Words.{app_of, found_of, rows_of, rule_of};
ghost use Rattle.call_words.specs.Line as spec;
ghost use Rattle.call_words.specs.model.Matches.{IsFaultBy, IsMatched, IsUnmatched};

use crate::read::WordsFault;
use crate::request::OptionName;
use bk_memory::memory_is_short;
use clap::error::ErrorKind;
use clap::{Arg, ArgMatches, Command, Error};
use std::alloc::{AllocError, Global};

/// The name of an option.
fn option_id<'a>(name: OptionName) -> &'a str
    ensures { result.now ≡ spec.option_id name }
{
    match name {
        OptionName::Pass => "pass",
        OptionName::Alloc => "alloc",
        OptionName::Stack => "stack",
        OptionName::Budget => "budget",
        OptionName::Seed => "seed",
        OptionName::Size => "size",
    }
}

/// An option with one value.
fn option_arg<'a>(alloc: Global, name: OptionName) -> Arg<'a>
    ensures rule { rule_of result ≡ spec.option_rule name }
    ensures local { result.global ≡ false }
{
    let id = option_id(name);
    Arg::new(alloc, id).long(id)
}

/// COMMAND.
fn command_arg<'a>(alloc: Global) -> Arg<'a>
    ensures rule { rule_of result ≡ spec.command_rule }
    ensures local { result.global ≡ false }
{
    Arg::new(alloc, "COMMAND").required(true)
}

/// FILE.
fn file_arg<'a>(alloc: Global) -> Arg<'a>
    ensures rule { rule_of result ≡ spec.file_rule }
    ensures local { result.global ≡ false }
{
    Arg::new(alloc, "FILE")
}

/// The command line without its arguments.
fn bare_line<'a>(alloc: Global) -> Command<'a>
    ensures { app_of result ≡ spec.bare_line }
{
    Command::new(alloc, "msc")
        .disable_help_flag(true)
        .disable_version_flag(true)
}

/// The command line.
fn command_line<'a>(alloc: Global) -> Result<Command<'a>, AllocError>
    ensures { IfOk result (λ c. app_of c ≡ spec.command_line) }
{
    let command = command_arg(alloc);
    let file = file_arg(alloc);
    let pass = option_arg(alloc, OptionName::Pass);
    let allocator = option_arg(alloc, OptionName::Alloc);
    let stack = option_arg(alloc, OptionName::Stack);
    let budget = option_arg(alloc, OptionName::Budget);
    let seed = option_arg(alloc, OptionName::Seed);
    let size = option_arg(alloc, OptionName::Size);
    let with_command = bare_line(alloc).arg(command)?;
    let with_file = with_command.arg(file)?;
    let with_pass = with_file.arg(pass)?;
    let with_allocator = with_pass.arg(allocator)?;
    let with_stack = with_allocator.arg(stack)?;
    let with_budget = with_stack.arg(budget)?;
    let with_seed = with_budget.arg(seed)?;
    let with_size = with_seed.arg(size)?;
    Ok(with_size)
}

/// Why the words have no matches, by the error that says so.
fn fault_by(error: &Error) -> WordsFault
    ensures { IsFaultBy error.now result }
{
    match error.kind() {
        // the crate makes this error of the error of an allocation alone, and does not hand that on
        ErrorKind::OutOfMemory => {
            memory_is_short(AllocError);
            WordsFault::NoMemory
        }
        _ => WordsFault::Usage,
    }
}

/// What the words give.
pub(crate) fn matches_of<'a>(
    alloc: Global,
    words: &'a [String],
) -> Result<ArgMatches<'a>, WordsFault>
    ensures matched { IfOk result (IsMatched (map string_bytes words.now)) }
    ensures unmatched { IfErr result (IsUnmatched (map string_bytes words.now)) }
{
    let command = match command_line(alloc) {
        Ok(command) => command,
        Err(error) => {
            memory_is_short(error);
            return Err(WordsFault::NoMemory);
        }
    };
    match command.try_get_matches_from(words) {
        Ok(matches) => Ok(matches),
        Err(error) => Err(fault_by(&error)),
    }
}

/// The word in the place of the command.
#[tactic(auto, using(crate::proofs::Gives::given_first))]
pub(crate) fn command_in<'a>(matches: &ArgMatches<'a>) -> Option<&'a str>
    ensures { option_map (λ s. s.now) result ≡ spec.command_in (rows_of (found_of matches.now)) }
{
    matches.get_str("COMMAND")
}

/// The word in the place of the file.
#[tactic(auto, using(crate::proofs::Gives::given_first))]
pub(crate) fn file_in<'a>(matches: &ArgMatches<'a>) -> Option<&'a str>
    ensures { option_map (λ s. s.now) result ≡ spec.file_in (rows_of (found_of matches.now)) }
{
    matches.get_str("FILE")
}

/// The value of an option.
#[tactic(auto, using(crate::proofs::Gives::given_as))]
pub(crate) fn option_in<'a>(name: OptionName, matches: &ArgMatches<'a>) -> Option<&'a str>
    ensures { option_map (λ s. s.now) result ≡ spec.option_in name (rows_of (found_of matches.now)) }
{
    matches.get_str(option_id(name))
}
