//! Declarations (C99 6.7), and the specifiers with braces that stand in them.

ghost use Rattle.std.specs.Prelude.{◌≡◌, ◌++◌, [], length, IfOk};
ghost use Rattle.c_parser_grammar.specs.ParseSpecifiers as model;
ghost use Rattle.c_parser_cursor.specs.Answers.{Answers};

use bk_containers::{Box, Name, Seq};
use c_lexer::Punct;
use c_parser_cursor::c_parser_types::{SpecifierType, with_shapes};
use c_parser_cursor::{ParseStop, Tokens, TypedefScope, named_type, read_words};
use c_parser_expressions::{declarator, expr};
use c_parser_grammar::{Declarator, NameRequirement, Specifier, SpecifierStart, levels};
use c_tree::{Constant, Declaration};
use std::alloc::{AllocError, Global};

/// One list and another behind it.
pub fn append<T: Drop>(found: Seq<T>, more: Seq<T>) -> Result<Seq<T>, AllocError>
    ensures { IfOk result (λ all. all ≡ found ++ more) }
{
    let mut all = Seq::into_vec(found);
    let mut rest = Seq::into_vec(more);
    all.append(&mut rest)?;
    Ok(Seq::from_vec(all))
}

/// Reads a declarator that has a name, behind its type.
///
/// # Errors
///
/// [`ParseStop::Refused`] where the grammar refuses a token, at which the cursor then stands, and
/// [`ParseStop::NoMemory`], after which nothing is known of the cursor.
#[tactic(auto, unfolding(c_parser_grammar::specs::ParseSpecifiers::declaration))]
pub fn declaration(
    alloc: Global,
    scope: &TypedefScope,
    tokens: &mut Tokens<'_>,
    depth: usize,
    naming: NameRequirement,
    base: SpecifierType,
) -> Result<Declaration, ParseStop>
    ensures { Answers (model.declaration scope.now depth naming base tokens.old) result tokens.new }
{
    let base = Box::new(alloc, base)?;
    let Declarator { name, shapes } = declarator(alloc, scope, tokens, depth, naming)?;
    let Some(named) = name else {
        return Err(ParseStop::Refused);
    };
    let ty = with_shapes(alloc, shapes, Box::into_inner(base).into_type())?;
    Ok(Declaration {
        at: named.at,
        name: named.name,
        ty,
    })
}

/// Reads an enumeration constant.
#[tactic(auto, unfolding(c_parser_grammar::specs::ParseSpecifiers::enumerator))]
fn enumerator(
    alloc: Global,
    scope: &TypedefScope,
    tokens: &mut Tokens<'_>,
    depth: usize,
) -> Result<Constant, ParseStop>
    ensures { Answers (model.enumerator scope.now depth tokens.old) result tokens.new }
{
    if !tokens.sees_name() {
        return Err(ParseStop::Refused);
    }
    if scope.is_type_at(tokens) {
        return Err(ParseStop::Refused);
    }
    let at = tokens.place();
    let name = tokens.name(alloc)?;
    tokens.take();
    if !tokens.sees(Punct::Assign) {
        return Ok(Constant {
            at,
            name,
            value: None,
        });
    }
    tokens.take();
    let value = expr(alloc, scope, tokens, depth, levels::CONDITIONAL)?;
    Ok(Constant {
        at,
        name,
        value: Some(value),
    })
}

/// Reads enumeration constants with commas between them, one or more, and perhaps a comma behind.
#[tactic(auto, using(crate::proofs::Loops::braced_turn, crate::proofs::Loops::braced_end))]
fn enumerators(
    alloc: Global,
    scope: &TypedefScope,
    tokens: &mut Tokens<'_>,
    depth: usize,
) -> Result<Seq<Constant>, ParseStop>
    ensures { Answers (model.braced_list_from (model.enumerator scope.now depth) (length tokens.old) []
        tokens.old) result tokens.new }
{
    let mut found = Seq::new(alloc);
    for _turn in 0..tokens.count_left() {
        found.push(enumerator(alloc, scope, tokens, depth)?)?;
        if !tokens.sees(Punct::Comma) {
            return Ok(found);
        }
        tokens.take();
        if tokens.sees(Punct::RightBrace) {
            return Ok(found);
        }
    }
    Err(ParseStop::Refused)
}

/// Reads the declarators of members behind their type.
#[tactic(auto, using(crate::proofs::Loops::declarators_turn, crate::proofs::Loops::declarators_end))]
fn member_declarators(
    alloc: Global,
    scope: &TypedefScope,
    tokens: &mut Tokens<'_>,
    depth: usize,
    base: SpecifierType,
) -> Result<Seq<Declaration>, ParseStop>
    ensures { Answers (model.declarators_from scope.now depth (length tokens.old) base [] tokens.old) result
        tokens.new }
{
    let mut found = Seq::new(alloc);
    let mut ty = Box::new(alloc, base)?;
    for _turn in 0..tokens.count_left() {
        let bare = Box::new(alloc, ty.bare()?)?;
        let first = Box::into_inner(ty);
        found.push(declaration(alloc, scope, tokens, depth, NameRequirement::Member, first)?)?;
        ty = bare;
        if !tokens.sees(Punct::Comma) {
            return Ok(found);
        }
        tokens.take();
    }
    Err(ParseStop::Refused)
}

/// Reads one declaration of members.
#[cycle(specifier)]
#[tactic(auto, unfolding(c_parser_grammar::specs::ParseSpecifiers::struct_declaration))]
fn struct_declaration(
    alloc: Global,
    scope: &TypedefScope,
    tokens: &mut Tokens<'_>,
    depth: usize,
) -> Result<Seq<Declaration>, ParseStop>
    ensures { Answers (model.struct_declaration scope.now depth (model.specifier scope.now depth) tokens.old) result
        tokens.new }
{
    let base = specifier(alloc, scope, tokens, depth)?;
    let found = member_declarators(alloc, scope, tokens, depth, base)?;
    tokens.close(Punct::Semicolon, found)
}

/// Reads the declarations of members, one or more, up to the brace that closes them.
#[cycle(specifier)]
#[tactic(auto, using(crate::proofs::Loops::members_turn, crate::proofs::Loops::members_end))]
fn struct_declarations(
    alloc: Global,
    scope: &TypedefScope,
    tokens: &mut Tokens<'_>,
    depth: usize,
) -> Result<Seq<Declaration>, ParseStop>
    ensures { Answers (model.struct_declarations_from scope.now depth (model.specifier scope.now depth)
        (length tokens.old) [] tokens.old) result tokens.new }
{
    let mut found = Seq::new(alloc);
    for _turn in 0..tokens.count_left() {
        found = append(found, struct_declaration(alloc, scope, tokens, depth)?)?;
        if tokens.sees(Punct::RightBrace) {
            return Ok(found);
        }
    }
    Err(ParseStop::Refused)
}

/// Reads the braces of a `struct` or an `enum`.
#[cycle(specifier)]
#[tactic(auto, unfolding(c_parser_grammar::specs::ParseSpecifiers::braces))]
fn braces(
    alloc: Global,
    scope: &TypedefScope,
    tokens: &mut Tokens<'_>,
    depth: usize,
    word: Specifier,
    at: u32,
    tag: Option<Name>,
) -> Result<SpecifierType, ParseStop>
    ensures { Answers (model.braces scope.now depth (model.specifier scope.now depth) word at tag tokens.old)
        result tokens.new }
{
    tokens.expect(Punct::LeftBrace)?;
    match word {
        Specifier::Struct => {
            let found = struct_declarations(alloc, scope, tokens, depth)?;
            tokens.expect(Punct::RightBrace)?;
            tokens.consts();
            Ok(SpecifierType::structure(at, tag, Some(found)))
        }
        _ => {
            let found = enumerators(alloc, scope, tokens, depth)?;
            tokens.expect(Punct::RightBrace)?;
            tokens.consts();
            Ok(SpecifierType::enumeration(at, tag, Some(found)))
        }
    }
}

/// Reads what stands behind `struct` or `enum`, whose place is given.
#[cycle(specifier)]
#[tactic(auto, unfolding(c_parser_grammar::specs::ParseSpecifiers::tag_or_body))]
fn tag_or_body(
    alloc: Global,
    scope: &TypedefScope,
    tokens: &mut Tokens<'_>,
    depth: usize,
    word: Specifier,
    at: u32,
) -> Result<SpecifierType, ParseStop>
    ensures { Answers (model.tag_or_body scope.now depth (model.specifier scope.now depth) word at
        tokens.old) result tokens.new }
{
    if !tokens.sees_name() {
        return braces(alloc, scope, tokens, depth, word, at, None);
    }
    let place = tokens.place();
    let name = tokens.name(alloc)?;
    tokens.take();
    if tokens.sees(Punct::LeftBrace) {
        return braces(alloc, scope, tokens, depth, word, place, Some(name));
    }
    tokens.consts();
    Ok(SpecifierType::tag_type(word, place, name))
}

/// Reads a specifier. The depth bounds how deep it goes: as much as there are tokens is enough.
///
/// # Errors
///
/// [`ParseStop::Refused`] where the grammar refuses a token, at which the cursor then stands, and
/// [`ParseStop::NoMemory`], after which nothing is known of the cursor.
#[cycle(specifier)]
#[tactic(auto, using(crate::proofs::Deeper::specifier_deeper), unfolding(c_parser_grammar::specs::ParseSpecifiers::specifier))]
pub fn specifier(
    alloc: Global,
    scope: &TypedefScope,
    tokens: &mut Tokens<'_>,
    depth: usize,
) -> Result<SpecifierType, ParseStop>
    ensures { Answers (model.specifier scope.now depth tokens.old) result tokens.new }
{
    if depth == 0 {
        return Err(ParseStop::Refused);
    }
    match read_words(tokens) {
        SpecifierStart::Basic(basic) => Ok(SpecifierType::basic(basic)),
        SpecifierStart::Other(Specifier::Struct) => {
            let at = tokens.place();
            tokens.take();
            tag_or_body(alloc, scope, tokens, depth - 1, Specifier::Struct, at)
        }
        SpecifierStart::Other(Specifier::Enum) => {
            let at = tokens.place();
            tokens.take();
            tag_or_body(alloc, scope, tokens, depth - 1, Specifier::Enum, at)
        }
        SpecifierStart::Other(Specifier::Name) => named_type(alloc, scope, tokens),
        SpecifierStart::Other(_) => Err(ParseStop::Refused),
    }
}
