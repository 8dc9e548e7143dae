//! Whole texts.

ghost use Rattle.std.specs.Prelude.{◌≤◌, ◌<◌, ◌≡◌, ◌⊎◌, [], length, map, IfOk, IfErr};
ghost use Rattle.bk_memory.specs.Shortage.{MemoryIsShort};
ghost use Rattle.c_tree.specs.Nodes.{unit_nodes, unit_height};
ghost use Rattle.c_lexer.specs.Limits.{text_limit};
ghost use Rattle.c_parser_nesting.specs.HasNesting.{IsTokens, toks_of};
ghost use Rattle.c_parser_nesting.specs.OpenConstructs.{most_open_from, kind_of_token};
ghost use Rattle.c_parser.specs.declared.fault.ParseFault.TheVariants.{Nesting, NoMemory};
ghost use Rattle.c_parser.specs.Limits.{most_nesting, most_nodes, most_height, most_open};
ghost use Rattle.c_parser.specs.Reading.{IsRead, IsNotRead};
ghost use Rattle.c_parser.specs.model.Gives.{Gives};

use crate::fault::ParseFault;
use crate::units::externals;
use c_lexer::Token;
use c_parser_cursor::{Tokens, TypedefScope};
use c_parser_nesting::{nesting_of, open_constructs, tokens};
use c_tree::{TranslationUnit, is_within_height};
use std::alloc::Global;

/// The greatest nesting that is taken.
const MOST_NESTING: u32 = 256;

/// The most nodes that stand one under the other.
const MOST_HEIGHT: u32 = 2048;

/// The most constructs that are open at once.
const MOST_OPEN: usize = 1024;

/// The unit, where its tree is no higher than is taken.
fn low_enough(unit: TranslationUnit) -> Result<TranslationUnit, ParseFault>
    ensures same { IfOk result (λ u. u ≡ unit) }
    ensures height { IfOk result (λ u. unit_height u ≤ most_height) }
    ensures fault { IfErr result (λ e. (e ≡ NoMemory) × (most_height < unit_height unit)) }
{
    if is_within_height(&unit, MOST_HEIGHT) {
        Ok(unit)
    } else {
        Err(ParseFault::NoMemory)
    }
}

/// Whether a nesting is taken.
///
/// # Errors
///
/// [`ParseFault::Nesting`] where it exceeds 256.
fn nests_within(counted: u32) -> Result<(), ParseFault>
    ensures taken { IfOk result (λ _. counted ≤ most_nesting) }
    ensures fault { IfErr result (λ e. (e ≡ Nesting counted) × (most_nesting < counted)) }
{
    if counted > MOST_NESTING {
        Err(ParseFault::Nesting { counted })
    } else {
        Ok(())
    }
}

/// Whether so many constructs may be open at once.
fn opens_within(counted: usize) -> Result<(), ParseFault>
    ensures { IfErr result (λ e. (e ≡ NoMemory) × (most_open < counted)) }
{
    if counted > MOST_OPEN {
        Err(ParseFault::NoMemory)
    } else {
        Ok(())
    }
}

/// Whether no more constructs of the tokens are open at once than are taken.
fn few_open(alloc: Global, tokens: &[Token]) -> Result<(), ParseFault>
    requires { length tokens.now ≤ text_limit }
    ensures { IfErr result (λ e. (e ≡ NoMemory) × (MemoryIsShort ⊎ (most_open < most_open_from []
        (map kind_of_token tokens.now)))) }
{
    match open_constructs(alloc, tokens) {
        Err(error) => Err(ParseFault::from(error)),
        Ok(counted) => opens_within(counted),
    }
}

/// The unit that the tokens of the text spell.
fn unit_of(alloc: Global, text: &[u8], tokens: &[Token]) -> Result<TranslationUnit, ParseFault>
    requires { length text.now ≤ text_limit }
    ensures gives { Gives (toks_of text.now tokens.now) result }
    ensures height { IfOk result (λ unit. unit_height unit ≤ most_height) }
{
    let length = text.len() as u32;
    let mut scope = TypedefScope::new(alloc);
    let mut cursor = Tokens::new(text, tokens);
    match externals(alloc, &mut scope, &mut cursor) {
        Ok(externals) => low_enough(TranslationUnit { externals, length }),
        Err(fault) => Err(ParseFault::of_stop(fault, cursor.place_or(length))),
    }
}

/// The unit that tokens spell, which are those of a text of at most 4,194,304 bytes.
fn unit_within(alloc: Global, text: &[u8], tokens: &[Token]) -> Result<TranslationUnit, ParseFault>
    requires length { length text.now ≤ text_limit }
    requires all { IsTokens text.now tokens.now }
    requires count { length tokens.now ≤ length text.now }
    ensures read { IfOk result (IsRead text.now) }
    ensures fault { IfErr result (IsNotRead text.now) }
    ensures nodes { IfOk result (λ unit. unit_nodes unit ≤ most_nodes) }
    ensures height { IfOk result (λ unit. unit_height unit ≤ most_height) }
{
    match nesting_of(alloc, tokens) {
        Err(error) => Err(ParseFault::from(error)),
        Ok(counted) => match nests_within(counted) {
            Err(fault) => Err(fault),
            Ok(()) => match few_open(alloc, tokens) {
                Err(fault) => Err(fault),
                Ok(()) => unit_of(alloc, text, tokens),
            },
        },
    }
}

/// The unit that a text of at most 4,194,304 bytes spells (C99 6.9). Its tree has at most 33,554,432
/// nodes, and at most 2,048 of them stand one under the other.
///
/// # Errors
///
/// [`ParseFault::Lex`] where the text has an offset at which no token begins, with the first;
/// [`ParseFault::Nesting`] where it has none and its nesting exceeds 256, with the nesting;
/// [`ParseFault::Syntax`] where neither holds and its tokens have no reading, with the offset of the
/// refused token, the first that ends no front of any list of tokens with a reading, or the text's
/// length where each front can go on; and [`ParseFault::NoMemory`] where memory is short, the tree would
/// be higher, or more than 1,024 constructs are open at once.
pub fn parse(alloc: Global, text: &[u8]) -> Result<TranslationUnit, ParseFault>
    requires { length text.now ≤ text_limit }
    ensures read { IfOk result (IsRead text.now) }
    ensures fault { IfErr result (IsNotRead text.now) }
    ensures nodes { IfOk result (λ unit. unit_nodes unit ≤ most_nodes) }
    ensures height { IfOk result (λ unit. unit_height unit ≤ most_height) }
{
    match tokens(alloc, text) {
        Err(fault) => Err(ParseFault::of_scan(fault)),
        Ok(tokens) => unit_within(alloc, text, &tokens),
    }
}
