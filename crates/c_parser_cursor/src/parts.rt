//! Parts of expressions and declarators that hold no further ones.

ghost use Rattle.std.specs.Prelude.{◌≡◌, [], length};
ghost use Rattle.c_parser_grammar.specs.ParseExpr as model;
ghost use Rattle.c_parser_cursor.specs.Answers.{Answers};

use crate::c_parser_types::{may_be_nameless, takes_name};
use crate::cursor::{ParseStop, Tokens};
use crate::scope::TypedefScope;
use bk_containers::{Name, Seq};
use c_parser_grammar::{Declarator, DeclaredName, NameRequirement};
use std::alloc::Global;

/// Reads the text literals that stand here side by side.
#[tactic(auto, using(crate::proofs::Loops::texts_turn, crate::proofs::Loops::texts_end))]
pub fn texts(alloc: Global, tokens: &mut Tokens<'_>) -> Result<Seq<Name>, ParseStop>
    ensures { Answers (model.texts_from (length tokens.old) [] tokens.old) result tokens.new }
{
    let mut found = Seq::new(alloc);
    for _turn in 0..tokens.count_left() {
        if !tokens.sees_text() {
            return Ok(found);
        }
        found.push(tokens.name(alloc)?)?;
        tokens.take();
    }
    Ok(found)
}

/// Reads the name of a member.
#[tactic(auto, unfolding(c_parser_grammar::specs::ParseExpr::member_name))]
pub fn member_name(alloc: Global, tokens: &mut Tokens<'_>) -> Result<Name, ParseStop>
    ensures { Answers (model.member_name tokens.old) result tokens.new }
{
    if !tokens.sees_name() {
        return Err(ParseStop::Refused);
    }
    let name = tokens.name(alloc)?;
    tokens.take();
    Ok(name)
}

/// Reads no name, where a declarator may do without one.
pub fn no_name(
    alloc: Global,
    tokens: &Tokens<'_>,
    naming: NameRequirement,
) -> Result<Declarator, ParseStop>
    ensures { Answers (model.no_name naming tokens.now) result tokens.now }
{
    if !may_be_nameless(naming) {
        return Err(ParseStop::Refused);
    }
    Ok(Declarator {
        name: None,
        shapes: Seq::new(alloc),
    })
}

/// Reads the name of a declarator where a name stands, which may be none of its own.
pub fn core_name(
    alloc: Global,
    scope: &TypedefScope,
    tokens: &mut Tokens<'_>,
    naming: NameRequirement,
) -> Result<Declarator, ParseStop>
    ensures { Answers (model.core_name scope.now naming tokens.old) result tokens.new }
{
    if !takes_name(naming, scope.is_type_at(tokens)) {
        return no_name(alloc, tokens, naming);
    }
    let at = tokens.place();
    let name = tokens.name(alloc)?;
    tokens.take();
    Ok(Declarator {
        name: Some(DeclaredName { at, name }),
        shapes: Seq::new(alloc),
    })
}
