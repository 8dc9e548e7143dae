//! The request of the words.

ghost use Rattle.std.specs.Prelude.{◌≡◌, IfOk, IfErr, IfSome, Some, None, map, option_map, string_bytes};
ghost use Rattle.clap.specs.Words.{found_of, rows_of};
ghost use Rattle.call_words.specs.Request as spec;
ghost use Rattle.call_words.specs.Line.{file_in};

use crate::line::{command_in, file_in, matches_of};
use crate::options::{budget_in, generation_in, gives_none, limits_in, options_in, pass_in};
use crate::request::{Command, OptionName, Request};
use clap::ArgMatches;
use std::alloc::Global;
use thiserror::Error;

/// Why the words are not read.
#[derive(Clone, Copy, Debug, PartialEq, Eq, Error)]
pub enum WordsFault {
    /// They are none that the compiler takes.
    #[error("the words are not those of a call")]
    Usage,
    /// Memory is short.
    #[error("out of memory")]
    NoMemory,
}

/// `build`: `--alloc`.
fn build_in(matches: &ArgMatches<'_>) -> Option<Command>
    ensures value { result ≡ spec.build_in (rows_of (found_of matches.now)) }
    ensures stack { IfSome result spec.CommandHasStack }
{
    let others = [
        OptionName::Pass,
        OptionName::Stack,
        OptionName::Budget,
        OptionName::Seed,
        OptionName::Size,
    ];
    if !gives_none(others.as_slice(), matches) {
        return None;
    }
    Some(Command::Build(options_in(matches)?))
}

/// `run`: `--alloc`, `--stack` and `--budget`.
fn run_in(matches: &ArgMatches<'_>) -> Option<Command>
    ensures value { result ≡ spec.run_in (rows_of (found_of matches.now)) }
    ensures stack { IfSome result spec.CommandHasStack }
{
    let others = [OptionName::Pass, OptionName::Seed, OptionName::Size];
    if !gives_none(others.as_slice(), matches) {
        return None;
    }
    let options = options_in(matches)?;
    Some(Command::Run(options, limits_in(matches)?))
}

/// `vm`: `--budget`.
fn vm_in(matches: &ArgMatches<'_>) -> Option<Command>
    ensures value { result ≡ spec.vm_in (rows_of (found_of matches.now)) }
    ensures stack { IfSome result spec.CommandHasStack }
{
    let others = [
        OptionName::Pass,
        OptionName::Alloc,
        OptionName::Stack,
        OptionName::Seed,
        OptionName::Size,
    ];
    if !gives_none(others.as_slice(), matches) {
        return None;
    }
    let turns = budget_in(matches)?;
    Some(Command::Vm { turns })
}

/// `exec`: `--stack` and `--budget`.
fn exec_in(matches: &ArgMatches<'_>) -> Option<Command>
    ensures value { result ≡ spec.exec_in (rows_of (found_of matches.now)) }
    ensures stack { IfSome result spec.CommandHasStack }
{
    let others = [
        OptionName::Pass,
        OptionName::Alloc,
        OptionName::Seed,
        OptionName::Size,
    ];
    if !gives_none(others.as_slice(), matches) {
        return None;
    }
    Some(Command::Exec(limits_in(matches)?))
}

/// A command without options.
fn alone(command: Command, matches: &ArgMatches<'_>) -> Option<Command>
    ensures value { result ≡ spec.no_options command (rows_of (found_of matches.now)) }
    ensures stack { spec.CommandHasStack command → IfSome result spec.CommandHasStack }
{
    let others = [
        OptionName::Pass,
        OptionName::Alloc,
        OptionName::Stack,
        OptionName::Budget,
        OptionName::Seed,
        OptionName::Size,
    ];
    if gives_none(others.as_slice(), matches) {
        Some(command)
    } else {
        None
    }
}

/// `print`: `--pass`, which has to be given, and `--alloc`.
fn print_in(matches: &ArgMatches<'_>) -> Option<Command>
    ensures value { result ≡ spec.print_in (rows_of (found_of matches.now)) }
    ensures stack { IfSome result spec.CommandHasStack }
{
    let others = [
        OptionName::Stack,
        OptionName::Budget,
        OptionName::Seed,
        OptionName::Size,
    ];
    if !gives_none(others.as_slice(), matches) {
        return None;
    }
    let pass = pass_in(matches)?;
    Some(Command::Print(pass, options_in(matches)?))
}

/// The command of a word.
fn command_of(word: &str, matches: &ArgMatches<'_>) -> Option<Command>
    ensures value { result ≡ spec.command_of word.now (rows_of (found_of matches.now)) }
    ensures stack { IfSome result spec.CommandHasStack }
{
    match word {
        "build" => build_in(matches),
        "run" => run_in(matches),
        "vm" => vm_in(matches),
        "exec" => exec_in(matches),
        "migrate" => alone(Command::Migrate, matches),
        "assemble" => alone(Command::Assemble, matches),
        "print" => print_in(matches),
        _ => None,
    }
}

/// A command of a word over its file.
fn on_file<'a>(word: &str, matches: &ArgMatches<'a>) -> Option<Request<'a>>
    ensures value { option_map spec.call_is result ≡ spec.with_file (file_in (rows_of (found_of matches.now)))
        (spec.command_of word.now (rows_of (found_of matches.now))) }
    ensures stack { IfSome result (λ r. spec.HasStack (spec.call_is r)) }
{
    let command = command_of(word, matches)?;
    let file = file_in(matches)?;
    Some(Request::OnFile { command, file })
}

/// `gen`: `--seed` and `--size`, which have to be given, `--alloc`, `--stack` and `--budget`, and no file.
fn generate_in<'a>(matches: &ArgMatches<'a>) -> Option<Request<'a>>
    ensures value { option_map spec.call_is result ≡ spec.generate_in (rows_of (found_of matches.now)) }
    ensures stack { IfSome result (λ r. spec.HasStack (spec.call_is r)) }
{
    let others = [OptionName::Pass];
    if !gives_none(others.as_slice(), matches) {
        return None;
    }
    if file_in(matches).is_some() {
        return None;
    }
    Some(Request::Generate(generation_in(matches)?))
}

/// The request of what the words give.
fn request_in<'a>(matches: &ArgMatches<'a>) -> Option<Request<'a>>
    ensures value { option_map spec.call_is result ≡ spec.request_in (rows_of (found_of matches.now)) }
    ensures stack { IfSome result (λ r. spec.HasStack (spec.call_is r)) }
{
    match command_in(matches)? {
        "gen" => generate_in(matches),
        word => on_file(word, matches),
    }
}

/// The request of what the words give, or that they give none.
fn asked_by<'a>(matches: &ArgMatches<'a>) -> Result<Request<'a>, WordsFault>
    ensures request { IfOk result (λ r. spec.request_in (rows_of (found_of matches.now)) ≡ Some (spec.call_is r)) }
    ensures stack { IfOk result (λ r. spec.HasStack (spec.call_is r)) }
    ensures fault { IfErr result (λ f. (f ≡ WordsFault.Usage)
        × (spec.request_in (rows_of (found_of matches.now)) ≡ None)) }
{
    match request_in(matches) {
        Some(request) => Ok(request),
        None => Err(WordsFault::Usage),
    }
}

/// The request of the words, of which the first is the program's name.
///
/// # Errors
///
/// [`WordsFault::Usage`] comes exactly where they are none that the compiler takes, unless memory is short, and
/// [`WordsFault::NoMemory`] only where it is.
#[tactic(auto, using(crate::proofs::Asked::refused_words))]
pub fn read_words(alloc: Global, words: &[String]) -> Result<Request<'_>, WordsFault>
    ensures request { IfOk result (λ r. spec.request_of (map string_bytes words.now) ≡ Some (spec.call_is r)) }
    ensures stack { IfOk result (λ r. spec.HasStack (spec.call_is r)) }
    ensures fault { IfErr result (spec.IsWordsFault (map string_bytes words.now)) }
{
    match matches_of(alloc, words) {
        Ok(matches) => asked_by(&matches),
        Err(fault) => Err(fault),
    }
}
