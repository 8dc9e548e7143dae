//! Specifiers without braces.

ghost use Rattle.std.specs.Prelude.{◌≡◌, length, IfOk};
ghost use Rattle.c_parser_grammar.specs.WordSets.{no_words, basic_of};
ghost use Rattle.c_parser_grammar.specs.ParseExpr as model;
ghost use Rattle.c_parser_grammar.specs.Types as types;
ghost use Rattle.c_parser_cursor.specs.Answers.{Answers};

use crate::c_parser_types::SpecifierType;
use crate::cursor::{ParseStop, Tokens};
use crate::scope::TypedefScope;
use c_parser_grammar::{Specifier, SpecifierStart, WordSet, specifier_of};
use std::alloc::Global;

/// What the words so far spell, or else what stands behind them.
fn start_of(set: WordSet, kind: Specifier) -> SpecifierStart
    ensures { result ≡ model.start_of (basic_of set) kind }
{
    match set.basic() {
        Some(basic) => SpecifierStart::Basic(basic),
        None => SpecifierStart::Other(kind),
    }
}

/// The set with the word more that stands here, if one does.
fn extend(set: WordSet, kind: Specifier) -> Option<WordSet>
    ensures { result ≡ model.extend set kind }
{
    match kind {
        Specifier::Const => Some(set),
        Specifier::Word(word) => set.with_word(word),
        _ => None,
    }
}

/// Reads the words of a specifier.
#[tactic(auto, using(crate::proofs::Loops::words_turn, crate::proofs::Loops::words_end))]
pub fn read_words(tokens: &mut Tokens<'_>) -> SpecifierStart
    ensures { model.words_from (length tokens.old) no_words tokens.old ≡ (result, tokens.new) }
{
    let mut set = WordSet::new();
    for _turn in 0..tokens.count_left() {
        let kind = specifier_of(tokens.peek());
        let Some(more) = extend(set, kind) else {
            return start_of(set, kind);
        };
        tokens.take();
        set = more;
    }
    start_of(set, Specifier::Nothing)
}

/// Reads the name of a type.
///
/// # Errors
///
/// [`ParseStop::Refused`] where the grammar refuses a token, at which the cursor then stands, and
/// [`ParseStop::NoMemory`], after which nothing is known of the cursor.
#[tactic(auto, unfolding(c_parser_grammar::specs::ParseExpr::named_type))]
pub fn named_type(
    alloc: Global,
    scope: &TypedefScope,
    tokens: &mut Tokens<'_>,
) -> Result<SpecifierType, ParseStop>
    ensures answers { Answers (model.named_type scope.now tokens.old) result tokens.new }
    ensures bare { IfOk result (λ base. types.without_body base ≡ base) }
{
    if !scope.is_type_at(tokens) {
        return Err(ParseStop::Refused);
    }
    let name = tokens.name(alloc)?;
    tokens.take();
    tokens.consts();
    Ok(SpecifierType::of_name(name))
}

/// Reads the tag behind its word.
#[tactic(auto, unfolding(c_parser_grammar::specs::ParseExpr::tag))]
fn tag(alloc: Global, tokens: &mut Tokens<'_>, word: Specifier) -> Result<SpecifierType, ParseStop>
    ensures answers { Answers (model.tag word tokens.old) result tokens.new }
    ensures bare { IfOk result (λ base. types.without_body base ≡ base) }
{
    if !tokens.sees_name() {
        return Err(ParseStop::Refused);
    }
    let at = tokens.place();
    let name = tokens.name(alloc)?;
    tokens.take();
    tokens.consts();
    Ok(SpecifierType::tag_type(word, at, name))
}

/// Reads a specifier without braces.
///
/// # Errors
///
/// [`ParseStop::Refused`] where the grammar refuses a token, at which the cursor then stands, and
/// [`ParseStop::NoMemory`], after which nothing is known of the cursor.
#[tactic(auto, using(crate::proofs::Words::plain_words))]
pub fn plain(
    alloc: Global,
    scope: &TypedefScope,
    tokens: &mut Tokens<'_>,
) -> Result<SpecifierType, ParseStop>
    ensures answers { Answers (model.plain scope.now tokens.old) result tokens.new }
    ensures bare { IfOk result (λ base. types.without_body base ≡ base) }
{
    match read_words(tokens) {
        SpecifierStart::Basic(basic) => Ok(SpecifierType::basic(basic)),
        SpecifierStart::Other(Specifier::Struct) => {
            tokens.take();
            tag(alloc, tokens, Specifier::Struct)
        }
        SpecifierStart::Other(Specifier::Enum) => {
            tokens.take();
            tag(alloc, tokens, Specifier::Enum)
        }
        SpecifierStart::Other(Specifier::Name) => named_type(alloc, scope, tokens),
        SpecifierStart::Other(_) => Err(ParseStop::Refused),
    }
}
