//! What the options say.

ghost use Rattle.std.specs.Prelude.{◌≡◌, IfSome, is_some};
ghost use Rattle.alpha_isa.specs.Behave.{IsStack};
ghost use Rattle.clap.specs.Words.{found_of, rows_of};
ghost use Rattle.call_words.specs.Line as line;
ghost use Rattle.call_words.specs.Options as spec;

use crate::compile_options::{Allocator, Generation, MachineLimits, Options, PassName};
use crate::line::option_in;
use crate::numbers::{budget_at, stack_at, text_seed_at, text_size_at};
use crate::request::OptionName;
use clap::ArgMatches;

/// The stack of a run, in bytes, where the words do not say.
pub const DEFAULT_STACK: u64 = 8_388_608;

/// The steps or the turns of a run, where the words do not say.
pub const DEFAULT_BUDGET: u64 = 1_000_000_000;

/// Whether an option is given.
fn is_given(name: OptionName, matches: &ArgMatches<'_>) -> bool
    ensures { result ≡ is_some (line.option_in name (rows_of (found_of matches.now))) }
{
    option_in(name, matches).is_some()
}

/// Whether none of these options is given.
pub(crate) fn gives_none(names: &[OptionName], matches: &ArgMatches<'_>) -> bool
    ensures { result ≡ spec.gives_none names.now (rows_of (found_of matches.now)) }
{
    match names {
        [] => true,
        [name, rest @ ..] => !is_given(*name, matches) && gives_none(rest, matches),
    }
}

/// The allocator of a word.
fn allocator_at(word: &str) -> Option<Allocator>
    ensures { result ≡ spec.allocator_at word.now }
{
    match word {
        "binpack" => Some(Allocator::Binpack),
        "plain" => Some(Allocator::Plain),
        _ => None,
    }
}

/// The allocator of a compile: the default one is `binpack`.
fn allocator_in(matches: &ArgMatches<'_>) -> Option<Allocator>
    ensures { result ≡ spec.allocator_in (rows_of (found_of matches.now)) }
{
    match option_in(OptionName::Alloc, matches) {
        None => Some(Allocator::Binpack),
        Some(word) => allocator_at(word),
    }
}

/// The options of a compile.
pub(crate) fn options_in(matches: &ArgMatches<'_>) -> Option<Options>
    ensures { result ≡ spec.options_in (rows_of (found_of matches.now)) }
{
    let allocator = allocator_in(matches)?;
    Some(Options { allocator })
}

/// The pass of a word.
fn pass_at(word: &str) -> Option<PassName>
    ensures { result ≡ spec.pass_at word.now }
{
    match word {
        "tree" => Some(PassName::Tree),
        "vm" => Some(PassName::Vm),
        "graph" => Some(PassName::Graph),
        "select" => Some(PassName::Select),
        "live" => Some(PassName::Live),
        "alloc" => Some(PassName::Alloc),
        "journal" => Some(PassName::Journal),
        "asm" => Some(PassName::Asm),
        _ => None,
    }
}

/// The pass that is to be printed.
pub(crate) fn pass_in(matches: &ArgMatches<'_>) -> Option<PassName>
    ensures { result ≡ spec.pass_in (rows_of (found_of matches.now)) }
{
    pass_at(option_in(OptionName::Pass, matches)?)
}

/// The stack of a run.
fn stack_in(matches: &ArgMatches<'_>) -> Option<u64>
    ensures value { result ≡ spec.stack_in (rows_of (found_of matches.now)) }
    ensures stack { IfSome result IsStack }
{
    match option_in(OptionName::Stack, matches) {
        None => Some(DEFAULT_STACK),
        Some(text) => stack_at(text),
    }
}

/// The steps or the turns of a run.
pub(crate) fn budget_in(matches: &ArgMatches<'_>) -> Option<u64>
    ensures { result ≡ spec.budget_in (rows_of (found_of matches.now)) }
{
    match option_in(OptionName::Budget, matches) {
        None => Some(DEFAULT_BUDGET),
        Some(text) => budget_at(text),
    }
}

/// How much a run on the machine gets.
pub(crate) fn limits_in(matches: &ArgMatches<'_>) -> Option<MachineLimits>
    ensures value { result ≡ spec.limits_in (rows_of (found_of matches.now)) }
    ensures stack { IfSome result (λ limits. IsStack limits.stack) }
{
    let stack = stack_in(matches)?;
    let budget = budget_in(matches)?;
    Some(MachineLimits { stack, budget })
}

/// The seed of a text that is made, which has to be given.
fn seed_option_in(matches: &ArgMatches<'_>) -> Option<u32>
    ensures { result ≡ spec.seed_option_in (rows_of (found_of matches.now)) }
{
    text_seed_at(option_in(OptionName::Seed, matches)?)
}

/// The size of a text that is made, which has to be given.
fn size_option_in(matches: &ArgMatches<'_>) -> Option<u32>
    ensures { result ≡ spec.size_option_in (rows_of (found_of matches.now)) }
{
    text_size_at(option_in(OptionName::Size, matches)?)
}

/// The text that is to be made, and how it is compiled and run.
pub(crate) fn generation_in(matches: &ArgMatches<'_>) -> Option<Generation>
    ensures value { result ≡ spec.generation_in (rows_of (found_of matches.now)) }
    ensures stack { IfSome result (λ generation. IsStack generation.limits.stack) }
{
    let seed = seed_option_in(matches)?;
    let size = size_option_in(matches)?;
    let options = options_in(matches)?;
    let limits = limits_in(matches)?;
    Some(Generation {
        seed,
        size,
        options,
        limits,
    })
}
