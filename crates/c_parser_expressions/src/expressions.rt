//! Expressions, by precedence climbing, and the type names and declarators that stand in them.

ghost use Rattle.std.specs.Prelude.{◌≡◌, [], length};
ghost use Rattle.c_tree.specs.declared.expressions.Expr as trees;
ghost use Rattle.c_parser_grammar.specs.Parser.{and_then, pure};
ghost use Rattle.c_parser_grammar.specs.Levels as levels;
ghost use Rattle.c_parser_grammar.specs.ParseExpr as model;
ghost use Rattle.c_parser_grammar.specs.declared.classes.Infix.TheVariants as roles;
ghost use Rattle.c_parser_grammar.specs.declared.classes.Prefix.TheVariants as fronts;
ghost use Rattle.c_parser_cursor.specs.Answers.{Answers};
ghost use Rattle.c_parser_expressions.specs.model.Suffixes as suffixes;

use bk_containers::{Box, Name, Seq};
use c_lexer::Punct;
use c_parser_cursor::c_parser_types::{
    comma_of, may_be_nameless, parameter_of, with_shape, with_shapes, without_void,
};
use c_parser_cursor::{
    ParseStop, Tokens, TypedefScope, core_name, member_name, no_name, plain, texts,
};
use c_parser_grammar::levels::{self, binding_level, level_of, operand_level, result_level};
use c_parser_grammar::{Declarator, Infix, NameRequirement, Prefix, Shape, infix_of, prefix_of};
use c_tree::{AssignOp, BinaryOp, Expr, Parameter, TypeName, UnaryOp};
use std::alloc::Global;

/// Reads assignments with commas between them, one or more.
#[cycle(expr)]
#[tactic(auto, using(crate::proofs::Loops::list_turn, crate::proofs::Loops::list_end))]
fn assignments(
    alloc: Global,
    scope: &TypedefScope,
    tokens: &mut Tokens<'_>,
    depth: usize,
) -> Result<Seq<Expr>, ParseStop>
    ensures { Answers (model.list_from (model.expr scope.now depth levels.assignment) (length tokens.old) []
        tokens.old) result tokens.new }
{
    let mut found = Seq::new(alloc);
    for _turn in 0..tokens.count_left() {
        found.push(expr(alloc, scope, tokens, depth, levels::ASSIGNMENT)?)?;
        if !tokens.sees(Punct::Comma) {
            return Ok(found);
        }
        tokens.take();
    }
    Err(ParseStop::Refused)
}

/// Reads an expression with its commas.
///
/// # Errors
///
/// [`ParseStop::Refused`] where the grammar refuses a token, at which the cursor then stands, and
/// [`ParseStop::NoMemory`], after which nothing is known of the cursor.
#[cycle(expr)]
#[tactic(auto, unfolding(c_parser_grammar::specs::ParseExpr::whole))]
pub fn whole(
    alloc: Global,
    scope: &TypedefScope,
    tokens: &mut Tokens<'_>,
    depth: usize,
) -> Result<Expr, ParseStop>
    ensures { Answers (model.whole scope.now (model.expr scope.now depth) (model.declarator scope.now depth)
        tokens.old) result tokens.new }
{
    let at = tokens.place();
    let operands = assignments(alloc, scope, tokens, depth)?;
    Ok(comma_of(at, operands))
}

/// Reads a type name.
#[cycle(expr)]
#[tactic(auto, unfolding(c_parser_grammar::specs::ParseExpr::type_name))]
fn type_name(
    alloc: Global,
    scope: &TypedefScope,
    tokens: &mut Tokens<'_>,
    depth: usize,
) -> Result<TypeName, ParseStop>
    ensures { Answers (model.type_name scope.now (model.expr scope.now depth)
        (model.declarator scope.now depth) tokens.old) result tokens.new }
{
    let at = tokens.place();
    let base = Box::new(alloc, plain(alloc, scope, tokens)?)?;
    let found = declarator(alloc, scope, tokens, depth, NameRequirement::Refused)?;
    let ty = with_shapes(alloc, found.shapes, Box::into_inner(base).into_type())?;
    Ok(TypeName { at, ty })
}

/// Reads a parameter.
#[cycle(expr)]
#[tactic(auto, unfolding(c_parser_grammar::specs::ParseExpr::parameter))]
fn parameter(
    alloc: Global,
    scope: &TypedefScope,
    tokens: &mut Tokens<'_>,
    depth: usize,
) -> Result<Parameter, ParseStop>
    ensures { Answers (model.parameter scope.now (model.expr scope.now depth)
        (model.declarator scope.now depth) tokens.old) result tokens.new }
{
    let at = tokens.place();
    let base = Box::new(alloc, plain(alloc, scope, tokens)?)?;
    let found = declarator(alloc, scope, tokens, depth, NameRequirement::Optional)?;
    let ty = Box::into_inner(base).into_type();
    Ok(parameter_of(alloc, at, ty, found)?)
}

/// Reads parameters with commas between them, one or more.
#[cycle(expr)]
#[tactic(auto, using(crate::proofs::Loops::list_turn, crate::proofs::Loops::list_end))]
fn parameter_list(
    alloc: Global,
    scope: &TypedefScope,
    tokens: &mut Tokens<'_>,
    depth: usize,
) -> Result<Seq<Parameter>, ParseStop>
    ensures { Answers (model.list_from (model.parameter scope.now (model.expr scope.now depth)
        (model.declarator scope.now depth)) (length tokens.old) [] tokens.old) result tokens.new }
{
    let mut found = Seq::new(alloc);
    for _turn in 0..tokens.count_left() {
        found.push(parameter(alloc, scope, tokens, depth)?)?;
        if !tokens.sees(Punct::Comma) {
            return Ok(found);
        }
        tokens.take();
    }
    Err(ParseStop::Refused)
}

/// Reads parameters behind their bracket, up to the one that closes it.
#[cycle(expr)]
#[tactic(auto, unfolding(c_parser_grammar::specs::ParseExpr::parameters_behind))]
fn parameters_behind(
    alloc: Global,
    scope: &TypedefScope,
    tokens: &mut Tokens<'_>,
    depth: usize,
) -> Result<Seq<Parameter>, ParseStop>
    ensures { Answers (model.parameters_behind scope.now (model.expr scope.now depth)
        (model.declarator scope.now depth) tokens.old) result tokens.new }
{
    if tokens.sees(Punct::RightParen) {
        tokens.take();
        return Ok(Seq::new(alloc));
    }
    let found = parameter_list(alloc, scope, tokens, depth)?;
    tokens.close(Punct::RightParen, found)
}

/// Reads the arguments of a call behind the bracket, up to the one that closes it.
#[cycle(expr)]
#[tactic(auto, unfolding(c_parser_grammar::specs::ParseExpr::arguments_behind))]
fn arguments_behind(
    alloc: Global,
    scope: &TypedefScope,
    tokens: &mut Tokens<'_>,
    depth: usize,
) -> Result<Seq<Expr>, ParseStop>
    ensures { Answers (model.arguments_behind scope.now (model.expr scope.now depth)
        (model.declarator scope.now depth) tokens.old) result tokens.new }
{
    if tokens.sees(Punct::RightParen) {
        tokens.take();
        return Ok(Seq::new(alloc));
    }
    let found = assignments(alloc, scope, tokens, depth)?;
    tokens.close(Punct::RightParen, found)
}

/// Reads what stands behind a name that is no type.
#[cycle(expr)]
#[tactic(auto, unfolding(c_parser_grammar::specs::ParseExpr::behind_name))]
fn behind_name(
    alloc: Global,
    scope: &TypedefScope,
    tokens: &mut Tokens<'_>,
    depth: usize,
    at: u32,
    name: Name,
) -> Result<(Expr, u8), ParseStop>
    ensures { Answers (model.behind_name scope.now (model.expr scope.now depth)
        (model.declarator scope.now depth) at name tokens.old) result tokens.new }
{
    if !tokens.sees(Punct::LeftParen) {
        return Ok((Expr::Name { at, name }, levels::PRIMARY));
    }
    tokens.take();
    let arguments = arguments_behind(alloc, scope, tokens, depth)?;
    Ok((
        Expr::Call {
            at,
            name,
            arguments,
        },
        levels::PRIMARY,
    ))
}

/// Reads a cast behind its first bracket.
#[cycle(expr)]
#[tactic(auto, unfolding(c_parser_grammar::specs::ParseExpr::cast_behind))]
fn cast_behind(
    alloc: Global,
    scope: &TypedefScope,
    tokens: &mut Tokens<'_>,
    depth: usize,
    at: u32,
) -> Result<(Expr, u8), ParseStop>
    ensures { Answers (model.cast_behind scope.now (model.expr scope.now depth)
        (model.declarator scope.now depth) at tokens.old) result tokens.new }
{
    let to = Box::new(alloc, type_name(alloc, scope, tokens, depth)?)?;
    let to = tokens.close(Punct::RightParen, to)?;
    let operand = Box::new(alloc, expr(alloc, scope, tokens, depth, levels::CAST)?)?;
    Ok((Expr::Cast { at, to, operand }, levels::CAST))
}

/// Reads an expression in brackets, behind the first.
#[cycle(expr)]
#[tactic(auto, unfolding(c_parser_grammar::specs::ParseExpr::brackets_behind))]
fn brackets_behind(
    alloc: Global,
    scope: &TypedefScope,
    tokens: &mut Tokens<'_>,
    depth: usize,
) -> Result<(Expr, u8), ParseStop>
    ensures { Answers (model.brackets_behind scope.now (model.expr scope.now depth)
        (model.declarator scope.now depth) tokens.old) result tokens.new }
{
    let found = whole(alloc, scope, tokens, depth)?;
    tokens.close(Punct::RightParen, (found, levels::PRIMARY))
}

/// Reads the type of a `sizeof`, behind the bracket.
#[cycle(expr)]
#[tactic(auto, unfolding(c_parser_grammar::specs::ParseExpr::sizeof_type_name))]
fn sizeof_type_name(
    alloc: Global,
    scope: &TypedefScope,
    tokens: &mut Tokens<'_>,
    depth: usize,
    at: u32,
) -> Result<(Expr, u8), ParseStop>
    ensures { Answers (model.sizeof_type_name scope.now (model.expr scope.now depth)
        (model.declarator scope.now depth) at tokens.old) result tokens.new }
{
    let operand = Box::new(alloc, type_name(alloc, scope, tokens, depth)?)?;
    tokens.close(
        Punct::RightParen,
        (Expr::SizeOfType { at, operand }, levels::UNARY),
    )
}

/// Reads the operand of a `sizeof`, which is no type in brackets.
#[cycle(expr)]
#[tactic(auto, unfolding(c_parser_grammar::specs::ParseExpr::sizeof_unary))]
fn sizeof_unary(
    alloc: Global,
    scope: &TypedefScope,
    tokens: &mut Tokens<'_>,
    depth: usize,
    at: u32,
) -> Result<(Expr, u8), ParseStop>
    ensures { Answers (model.sizeof_unary scope.now (model.expr scope.now depth)
        (model.declarator scope.now depth) at tokens.old) result tokens.new }
{
    let operand = Box::new(alloc, expr(alloc, scope, tokens, depth, levels::UNARY)?)?;
    Ok((Expr::SizeOfValue { at, operand }, levels::UNARY))
}

/// Reads what stands behind `sizeof`.
#[cycle(expr)]
fn sizeof_behind(
    alloc: Global,
    scope: &TypedefScope,
    tokens: &mut Tokens<'_>,
    depth: usize,
    at: u32,
) -> Result<(Expr, u8), ParseStop>
    ensures { Answers (model.sizeof_behind scope.now (model.expr scope.now depth)
        (model.declarator scope.now depth) at tokens.old) result tokens.new }
{
    if tokens.sees(Punct::LeftParen) && scope.begins_type(&tokens.behind()) {
        tokens.take();
        sizeof_type_name(alloc, scope, tokens, depth, at)
    } else {
        sizeof_unary(alloc, scope, tokens, depth, at)
    }
}

/// Reads a name that is no type, or a call of it.
#[cycle(expr)]
fn name_or_call(
    alloc: Global,
    scope: &TypedefScope,
    tokens: &mut Tokens<'_>,
    depth: usize,
) -> Result<(Expr, u8), ParseStop>
    ensures { Answers (model.operand_by scope.now (model.expr scope.now depth)
        (model.declarator scope.now depth) 0 fronts.Name tokens.old) result tokens.new }
{
    let at = tokens.place();
    if scope.is_type_at(tokens) {
        return Err(ParseStop::Refused);
    }
    let name = tokens.name(alloc)?;
    tokens.take();
    behind_name(alloc, scope, tokens, depth, at, name)
}

/// Reads what stands behind a bracket: a cast, or an expression and the bracket that closes it. A cast
/// stands only where an expression of the level `least` may be one.
#[cycle(expr)]
fn bracket_operand(
    alloc: Global,
    scope: &TypedefScope,
    tokens: &mut Tokens<'_>,
    depth: usize,
    at: u32,
    least: u8,
) -> Result<(Expr, u8), ParseStop>
    ensures { Answers (model.bracket_operand scope.now (model.expr scope.now depth)
        (model.declarator scope.now depth) least at tokens.old) result tokens.new }
{
    if !scope.begins_type(tokens) {
        return brackets_behind(alloc, scope, tokens, depth);
    }
    if least >= levels::UNARY {
        return Err(ParseStop::Refused);
    }
    cast_behind(alloc, scope, tokens, depth, at)
}

/// Reads the operand behind an operator, which is of the level `least` or above.
#[cycle(expr)]
fn unary(
    alloc: Global,
    scope: &TypedefScope,
    tokens: &mut Tokens<'_>,
    depth: usize,
    least: u8,
    at: u32,
    op: UnaryOp,
) -> Result<(Expr, u8), ParseStop>
    ensures { Answers (and_then (model.expr scope.now depth least tokens.old)
        (λ x. pure (trees.Unary at op x, levels.unary))) result tokens.new }
{
    let operand = Box::new(alloc, expr(alloc, scope, tokens, depth, least)?)?;
    Ok((Expr::Unary { at, op, operand }, levels::UNARY))
}

/// Reads the front of an expression, up to the operators behind it, and says its level. A cast stands
/// only where an expression of the level `least` may be one.
#[cycle(expr)]
#[tactic(auto, unfolding(c_parser_grammar::specs::ParseExpr::operand))]
fn operand(
    alloc: Global,
    scope: &TypedefScope,
    tokens: &mut Tokens<'_>,
    depth: usize,
    least: u8,
) -> Result<(Expr, u8), ParseStop>
    ensures { Answers (model.operand scope.now (model.expr scope.now depth)
        (model.declarator scope.now depth) least tokens.old) result tokens.new }
{
    let at = tokens.place();
    match prefix_of(tokens.peek()) {
        Prefix::Name => name_or_call(alloc, scope, tokens, depth),
        Prefix::Number => {
            let spelling = tokens.name(alloc)?;
            tokens.take();
            Ok((Expr::Number { at, spelling }, levels::PRIMARY))
        }
        Prefix::Character => {
            let spelling = tokens.name(alloc)?;
            tokens.take();
            Ok((Expr::Character { at, spelling }, levels::PRIMARY))
        }
        Prefix::Text => {
            let spellings = texts(alloc, tokens)?;
            Ok((Expr::Text { at, spellings }, levels::PRIMARY))
        }
        Prefix::Bracket => {
            tokens.take();
            bracket_operand(alloc, scope, tokens, depth, at, least)
        }
        Prefix::Step(op) => {
            tokens.take();
            unary(alloc, scope, tokens, depth, levels::UNARY, at, op)
        }
        Prefix::Unary(op) => {
            tokens.take();
            unary(alloc, scope, tokens, depth, levels::CAST, at, op)
        }
        Prefix::SizeOf => {
            tokens.take();
            sizeof_behind(alloc, scope, tokens, depth, at)
        }
        Prefix::Nothing => Err(ParseStop::Refused),
    }
}

/// Reads what stands behind an operator, whose left operand is given with its place.
#[cycle(expr)]
fn step(
    alloc: Global,
    scope: &TypedefScope,
    tokens: &mut Tokens<'_>,
    depth: usize,
    kind: Infix,
    at: u32,
    left: Expr,
) -> Result<Expr, ParseStop>
    ensures { Answers (model.step_by scope.now (model.expr scope.now depth)
        (model.declarator scope.now depth) kind at left tokens.old) result tokens.new }
{
    let left = Box::new(alloc, left)?;
    match kind {
        Infix::Index => index(alloc, scope, tokens, depth, at, left),
        Infix::Field => {
            let name = member_name(alloc, tokens)?;
            Ok(Expr::Field {
                at,
                operand: left,
                name,
            })
        }
        Infix::Arrow => {
            let name = member_name(alloc, tokens)?;
            Ok(Expr::Arrow {
                at,
                operand: left,
                name,
            })
        }
        Infix::Step(op) => Ok(Expr::Postfix {
            at,
            op,
            operand: left,
        }),
        Infix::Binary(op) => binary(alloc, scope, tokens, depth, at, op, left),
        Infix::Conditional => choice(alloc, scope, tokens, depth, at, left),
        Infix::Assign(op) => assignment(alloc, scope, tokens, depth, at, op, left),
        _ => Err(ParseStop::Refused),
    }
}

/// Reads an index behind its bracket, up to the one that closes it.
#[cycle(expr)]
fn index(
    alloc: Global,
    scope: &TypedefScope,
    tokens: &mut Tokens<'_>,
    depth: usize,
    at: u32,
    left: Box<Expr>,
) -> Result<Expr, ParseStop>
    ensures { Answers (model.step_by scope.now (model.expr scope.now depth)
        (model.declarator scope.now depth) roles.Index at left tokens.old) result tokens.new }
{
    let right = Box::new(alloc, whole(alloc, scope, tokens, depth)?)?;
    tokens.close(Punct::RightBracket, Expr::Index { at, left, right })
}

/// Reads the right operand behind an operator between two, which groups to the left.
#[cycle(expr)]
fn binary(
    alloc: Global,
    scope: &TypedefScope,
    tokens: &mut Tokens<'_>,
    depth: usize,
    at: u32,
    op: BinaryOp,
    left: Box<Expr>,
) -> Result<Expr, ParseStop>
    ensures { Answers (model.step_by scope.now (model.expr scope.now depth)
        (model.declarator scope.now depth) (roles.Binary op) at left tokens.old) result tokens.new }
{
    let right = expr(alloc, scope, tokens, depth, level_of(op) + 1)?;
    let right = Box::new(alloc, right)?;
    Ok(Expr::Binary {
        at,
        op,
        left,
        right,
    })
}

/// Reads the right operand behind an assignment, which groups to the right.
#[cycle(expr)]
fn assignment(
    alloc: Global,
    scope: &TypedefScope,
    tokens: &mut Tokens<'_>,
    depth: usize,
    at: u32,
    op: AssignOp,
    left: Box<Expr>,
) -> Result<Expr, ParseStop>
    ensures { Answers (model.step_by scope.now (model.expr scope.now depth)
        (model.declarator scope.now depth) (roles.Assign op) at left tokens.old) result tokens.new }
{
    let right = expr(alloc, scope, tokens, depth, levels::ASSIGNMENT)?;
    let right = Box::new(alloc, right)?;
    Ok(Expr::Assign {
        at,
        op,
        left,
        right,
    })
}

/// Reads the two branches of a choice, behind `?`.
#[cycle(expr)]
fn choice(
    alloc: Global,
    scope: &TypedefScope,
    tokens: &mut Tokens<'_>,
    depth: usize,
    at: u32,
    condition: Box<Expr>,
) -> Result<Expr, ParseStop>
    ensures { Answers (model.step_by scope.now (model.expr scope.now depth)
        (model.declarator scope.now depth) roles.Conditional at condition tokens.old) result tokens.new }
{
    let holds = Box::new(alloc, whole(alloc, scope, tokens, depth)?)?;
    let holds = tokens.close(Punct::Colon, holds)?;
    let fails = expr(alloc, scope, tokens, depth, levels::CONDITIONAL)?;
    let fails = Box::new(alloc, fails)?;
    Ok(Expr::Conditional {
        at,
        condition,
        holds,
        fails,
    })
}

/// Reads the operators behind an expression of this level, down to the least that is wanted.
#[cycle(expr)]
#[tactic(auto, using(crate::proofs::Loops::climbing))]
fn climb(
    alloc: Global,
    scope: &TypedefScope,
    tokens: &mut Tokens<'_>,
    depth: usize,
    at: u32,
    least: u8,
    first: (Expr, u8),
) -> Result<Expr, ParseStop>
    ensures { Answers (model.climb scope.now (model.expr scope.now depth) (model.declarator scope.now depth)
        at least (length tokens.old) first.1 first.0 tokens.old) result tokens.new }
{
    let (mut left, mut level) = first;
    for _turn in 0..tokens.count_left() {
        let kind = infix_of(tokens.peek());
        if binding_level(kind) < least {
            return Ok(left);
        }
        if level < operand_level(kind) {
            // So the drops of its parts are proved apart.
            drop(left);
            return Err(ParseStop::Refused);
        }
        tokens.take();
        left = step(alloc, scope, tokens, depth, kind, at, left)?;
        level = result_level(kind);
    }
    Ok(left)
}

/// Reads an expression of the level `least` or above. The depth bounds how deep it goes: as much as
/// there are tokens is enough.
///
/// # Errors
///
/// [`ParseStop::Refused`] where the grammar refuses a token, at which the cursor then stands, and
/// [`ParseStop::NoMemory`], after which nothing is known of the cursor.
#[cycle(expr)]
#[tactic(auto, using(crate::proofs::Deeper::expr_deeper), unfolding(c_parser_grammar::specs::ParseExpr::expr))]
pub fn expr(
    alloc: Global,
    scope: &TypedefScope,
    tokens: &mut Tokens<'_>,
    depth: usize,
    least: u8,
) -> Result<Expr, ParseStop>
    ensures { Answers (model.expr scope.now depth least tokens.old) result tokens.new }
{
    if depth == 0 {
        return Err(ParseStop::Refused);
    }
    let at = tokens.place();
    let first = operand(alloc, scope, tokens, depth - 1, least)?;
    climb(alloc, scope, tokens, depth - 1, at, least, first)
}

/// Reads the length of an array behind its bracket, up to the one that closes it.
#[cycle(expr)]
#[tactic(auto, unfolding(crate::specs::model::Suffixes::array_length))]
fn array_length(
    alloc: Global,
    scope: &TypedefScope,
    tokens: &mut Tokens<'_>,
    depth: usize,
) -> Result<Option<Expr>, ParseStop>
    ensures { Answers (suffixes.array_length (model.expr scope.now depth) tokens.old) result tokens.new }
{
    if tokens.sees(Punct::RightBracket) {
        tokens.take();
        return Ok(None);
    }
    let length = expr(alloc, scope, tokens, depth, levels::CONDITIONAL)?;
    tokens.close(Punct::RightBracket, Some(length))
}

/// Reads the brackets behind a declarator.
#[cycle(expr)]
#[tactic(auto, using(crate::proofs::Loops::suffixes_turn, crate::proofs::Loops::suffixes_end))]
fn suffixes(
    alloc: Global,
    scope: &TypedefScope,
    tokens: &mut Tokens<'_>,
    depth: usize,
    mut found: Declarator,
) -> Result<Declarator, ParseStop>
    ensures { Answers (model.suffixes scope.now (model.expr scope.now depth)
        (model.declarator scope.now depth) (length tokens.old) found tokens.old) result tokens.new }
{
    for _turn in 0..tokens.count_left() {
        if tokens.sees(Punct::LeftBracket) {
            tokens.take();
            let length = array_length(alloc, scope, tokens, depth)?;
            found = with_shape(found, Shape::Array(length))?;
        } else if tokens.sees(Punct::LeftParen) {
            tokens.take();
            let parameters = parameters_behind(alloc, scope, tokens, depth)?;
            found = with_shape(found, Shape::Takes(without_void(alloc, parameters)))?;
        } else {
            return Ok(found);
        }
    }
    Ok(found)
}

/// Reads a declarator in brackets, behind the first one and its star.
#[cycle(expr)]
#[tactic(auto, unfolding(c_parser_grammar::specs::ParseExpr::group_behind))]
fn group_behind(
    alloc: Global,
    scope: &TypedefScope,
    tokens: &mut Tokens<'_>,
    depth: usize,
    naming: NameRequirement,
) -> Result<Declarator, ParseStop>
    ensures { Answers (model.group_behind scope.now (model.expr scope.now depth)
        (model.declarator scope.now depth) naming tokens.old) result tokens.new }
{
    let found = pointer_declarator(alloc, scope, tokens, depth, naming)?;
    tokens.close(Punct::RightParen, found)
}

/// Reads a declarator without its stars and the brackets behind it.
#[cycle(expr)]
#[tactic(auto, unfolding(c_parser_grammar::specs::ParseExpr::core))]
fn core(
    alloc: Global,
    scope: &TypedefScope,
    tokens: &mut Tokens<'_>,
    depth: usize,
    naming: NameRequirement,
) -> Result<Declarator, ParseStop>
    ensures { Answers (model.core scope.now (model.expr scope.now depth) (model.declarator scope.now depth)
        naming tokens.old) result tokens.new }
{
    if tokens.sees_name() {
        return core_name(alloc, scope, tokens, naming);
    }
    if !tokens.sees(Punct::LeftParen) {
        return no_name(alloc, tokens, naming);
    }
    if tokens.behind().sees(Punct::Star) {
        tokens.take();
        tokens.take();
        return group_behind(alloc, scope, tokens, depth, naming);
    }
    if !may_be_nameless(naming) {
        tokens.take();
    }
    no_name(alloc, tokens, naming)
}

/// Reads a pointer's declarator behind the star.
#[cycle(expr)]
#[tactic(auto, unfolding(c_parser_grammar::specs::ParseExpr::pointer_declarator))]
fn pointer_declarator(
    alloc: Global,
    scope: &TypedefScope,
    tokens: &mut Tokens<'_>,
    depth: usize,
    naming: NameRequirement,
) -> Result<Declarator, ParseStop>
    ensures { Answers (model.pointer_declarator scope.now (model.expr scope.now depth)
        (model.declarator scope.now depth) naming tokens.old) result tokens.new }
{
    tokens.consts();
    let found = declarator(alloc, scope, tokens, depth, naming)?;
    Ok(with_shape(found, Shape::Pointer)?)
}

/// Reads a declarator.
///
/// # Errors
///
/// [`ParseStop::Refused`] where the grammar refuses a token, at which the cursor then stands, and
/// [`ParseStop::NoMemory`], after which nothing is known of the cursor.
#[cycle(expr)]
#[tactic(auto, using(crate::proofs::Deeper::declarator_deeper), unfolding(c_parser_grammar::specs::ParseExpr::declarator))]
pub fn declarator(
    alloc: Global,
    scope: &TypedefScope,
    tokens: &mut Tokens<'_>,
    depth: usize,
    naming: NameRequirement,
) -> Result<Declarator, ParseStop>
    ensures { Answers (model.declarator scope.now depth naming tokens.old) result tokens.new }
{
    if depth == 0 {
        return Err(ParseStop::Refused);
    }
    if tokens.sees(Punct::Star) {
        tokens.take();
        return pointer_declarator(alloc, scope, tokens, depth - 1, naming);
    }
    let found = core(alloc, scope, tokens, depth - 1, naming)?;
    suffixes(alloc, scope, tokens, depth - 1, found)
}
