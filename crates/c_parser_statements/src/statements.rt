//! Statements.

ghost use Rattle.std.specs.Prelude.{◌≡◌, ◌++◌, [], length, OnOk};
ghost use Rattle.c_lexer.specs.declared.token.Punct.TheVariants.{Semicolon};
ghost use Rattle.c_tree.specs.declared.statements.Stmt as trees;
ghost use Rattle.c_parser_grammar.specs.Parser.{and_then, expect, pure};
ghost use Rattle.c_parser_grammar.specs.Types.{without_body};
ghost use Rattle.c_parser_grammar.specs.Statements.{locals_of};
ghost use Rattle.c_parser_grammar.specs.ParseExpr.{list_from};
ghost use Rattle.c_parser_grammar.specs.ParseStatements as model;
ghost use Rattle.c_parser_cursor.specs.Answers.{Answers};

use bk_containers::{Box, Seq};
use c_lexer::{Keyword, Punct};
use c_parser_cursor::c_parser_types::SpecifierType;
use c_parser_cursor::{ParseStop, Tokens, TypedefScope, plain};
use c_parser_expressions::{expr, whole};
use c_parser_grammar::{Head, NameRequirement, head_of, levels};
use c_parser_specifiers::declaration;
use c_tree::{Expr, ForFirst, Label, LocalDeclarator, Section, Stmt};
use std::alloc::{AllocError, Global};

/// Reads a declarator in a block, behind its type, and its initialiser.
#[tactic(auto, unfolding(c_parser_grammar::specs::ParseStatements::local_declarator))]
fn local_declarator(
    alloc: Global,
    scope: &TypedefScope,
    tokens: &mut Tokens<'_>,
    depth: usize,
    base: SpecifierType,
) -> Result<LocalDeclarator, ParseStop>
    ensures { Answers (model.local_declarator scope.now depth base tokens.old) result tokens.new }
{
    let declaration = declaration(alloc, scope, tokens, depth, NameRequirement::Required, base)?;
    if !tokens.sees(Punct::Assign) {
        return Ok(LocalDeclarator {
            declaration,
            init: None,
        });
    }
    let declaration = Box::new(alloc, declaration)?;
    tokens.take();
    let init = Box::new(
        alloc,
        expr(alloc, scope, tokens, depth, levels::ASSIGNMENT)?,
    )?;
    Ok(LocalDeclarator {
        declaration: Box::into_inner(declaration),
        init: Some(init),
    })
}

/// Reads the declarators in a block behind their type, which has no braces.
#[tactic(auto, using(c_parser_expressions::proofs::Loops::list_turn, c_parser_expressions::proofs::Loops::list_end))]
fn locals(
    alloc: Global,
    scope: &TypedefScope,
    tokens: &mut Tokens<'_>,
    depth: usize,
    base: &SpecifierType,
) -> Result<Seq<LocalDeclarator>, ParseStop>
    requires { without_body base.now ≡ base.now }
    ensures { Answers (list_from (model.local_declarator scope.now depth base.now) (length tokens.old) [] tokens.old) result
        tokens.new }
{
    let mut found = Seq::new(alloc);
    for _turn in 0..tokens.count_left() {
        found.push(local_declarator(alloc, scope, tokens, depth, base.bare()?)?)?;
        if !tokens.sees(Punct::Comma) {
            return Ok(found);
        }
        tokens.take();
    }
    Err(ParseStop::Refused)
}

/// Reads a declaration in a block.
#[tactic(auto, unfolding(c_parser_grammar::specs::ParseStatements::line))]
fn line(
    alloc: Global,
    scope: &TypedefScope,
    tokens: &mut Tokens<'_>,
    depth: usize,
) -> Result<Seq<LocalDeclarator>, ParseStop>
    ensures { Answers (model.line scope.now depth tokens.old) result tokens.new }
{
    let base = Box::new(alloc, plain(alloc, scope, tokens)?)?;
    let found = locals(alloc, scope, tokens, depth, &base)?;
    tokens.close(Punct::Semicolon, found)
}

/// Reads an expression that is missing where this punctuator stands.
#[tactic(auto, unfolding(c_parser_grammar::specs::ParseStatements::optional_expression))]
fn optional_expression(
    alloc: Global,
    scope: &TypedefScope,
    tokens: &mut Tokens<'_>,
    depth: usize,
    mark: Punct,
) -> Result<Option<Box<Expr>>, ParseStop>
    ensures { Answers (model.optional_expression scope.now depth mark tokens.old) result tokens.new }
{
    if tokens.sees(mark) {
        return Ok(None);
    }
    Ok(Some(Box::new(alloc, whole(alloc, scope, tokens, depth)?)?))
}

/// Reads an expression in brackets.
#[tactic(auto, unfolding(c_parser_grammar::specs::ParseStatements::controlling_expression))]
fn controlling_expression(
    alloc: Global,
    scope: &TypedefScope,
    tokens: &mut Tokens<'_>,
    depth: usize,
) -> Result<Box<Expr>, ParseStop>
    ensures { Answers (model.controlling_expression scope.now depth tokens.old) result tokens.new }
{
    tokens.expect(Punct::LeftParen)?;
    let found = Box::new(alloc, whole(alloc, scope, tokens, depth)?)?;
    tokens.close(Punct::RightParen, found)
}

/// Reads the first part of a `for`, where it is an expression.
#[tactic(auto, unfolding(c_parser_grammar::specs::ParseStatements::first_expression))]
fn first_expression(
    alloc: Global,
    scope: &TypedefScope,
    tokens: &mut Tokens<'_>,
    depth: usize,
) -> Result<Box<ForFirst>, ParseStop>
    ensures { Answers (model.first_expression scope.now depth tokens.old) result tokens.new }
{
    let found = ForFirst::Value(whole(alloc, scope, tokens, depth)?);
    let found = Box::new(alloc, found)?;
    tokens.close(Punct::Semicolon, found)
}

/// Reads the first part of a `for`, up to the semicolon behind it.
#[tactic(auto, unfolding(c_parser_grammar::specs::ParseStatements::first_clause))]
fn first_clause(
    alloc: Global,
    scope: &TypedefScope,
    tokens: &mut Tokens<'_>,
    depth: usize,
) -> Result<Box<ForFirst>, ParseStop>
    ensures { Answers (model.first_clause scope.now depth tokens.old) result tokens.new }
{
    if tokens.sees(Punct::Semicolon) {
        tokens.take();
        return Ok(Box::new(alloc, ForFirst::Nothing)?);
    }
    if scope.begins_type(tokens) {
        let locals = line(alloc, scope, tokens, depth)?;
        return Ok(Box::new(alloc, ForFirst::Locals(locals))?);
    }
    first_expression(alloc, scope, tokens, depth)
}

/// Reads a `case` behind its word.
#[tactic(auto, unfolding(c_parser_grammar::specs::ParseStatements::case_behind))]
fn case_behind(
    alloc: Global,
    scope: &TypedefScope,
    tokens: &mut Tokens<'_>,
    depth: usize,
    at: u32,
) -> Result<Label, ParseStop>
    ensures { Answers (model.case_behind scope.now depth at tokens.old) result tokens.new }
{
    let value = expr(alloc, scope, tokens, depth, levels::CONDITIONAL)?;
    tokens.close(Punct::Colon, Label::Case { at, value })
}

/// Reads a label of a `switch`.
#[tactic(auto, unfolding(c_parser_grammar::specs::ParseStatements::label))]
fn label(
    alloc: Global,
    scope: &TypedefScope,
    tokens: &mut Tokens<'_>,
    depth: usize,
) -> Result<Label, ParseStop>
    ensures { Answers (model.label scope.now depth tokens.old) result tokens.new }
{
    let at = tokens.place();
    if tokens.sees_word(Keyword::Case) {
        tokens.take();
        return case_behind(alloc, scope, tokens, depth, at);
    }
    tokens.expect_word(Keyword::Default)?;
    tokens.close(Punct::Colon, Label::Default { at })
}

/// Reads the semicolon that ends this statement, and gives that in a box.
fn end_statement(
    alloc: Global,
    tokens: &mut Tokens<'_>,
    found: Stmt,
) -> Result<Box<Stmt>, ParseStop>
    ensures { Answers (and_then (expect Semicolon tokens.old) (λ _. pure found)) result tokens.new }
{
    let found = Box::new(alloc, found)?;
    tokens.close(Punct::Semicolon, found)
}

/// Reads the value of a `return` behind its word, up to the semicolon behind it.
#[tactic(auto, unfolding(c_parser_grammar::specs::ParseStatements::return_behind))]
fn return_behind(
    alloc: Global,
    scope: &TypedefScope,
    tokens: &mut Tokens<'_>,
    depth: usize,
    at: u32,
) -> Result<Box<Stmt>, ParseStop>
    ensures { Answers (model.return_behind scope.now depth at tokens.old) result tokens.new }
{
    let value = optional_expression(alloc, scope, tokens, depth, Punct::Semicolon)?;
    end_statement(alloc, tokens, Stmt::Return { at, value })
}

/// Reads an expression as a statement.
#[tactic(auto, unfolding(c_parser_grammar::specs::ParseStatements::value_line))]
fn expression_statement(
    alloc: Global,
    scope: &TypedefScope,
    tokens: &mut Tokens<'_>,
    depth: usize,
) -> Result<Box<Stmt>, ParseStop>
    ensures { Answers (model.value_line scope.now depth tokens.old) result tokens.new }
{
    let found = Box::new(alloc, whole(alloc, scope, tokens, depth)?)?;
    end_statement(alloc, tokens, Stmt::Expression(found))
}

/// Whether the statements under a label end here.
fn ends_section(tokens: &Tokens<'_>) -> bool
    ensures { result ≡ model.ends_section tokens.now }
{
    tokens.sees(Punct::RightBrace)
        || tokens.sees_word(Keyword::Case)
        || tokens.sees_word(Keyword::Default)
}

/// Puts declarations behind statements.
fn push_locals(
    alloc: Global,
    found: &mut Seq<Stmt>,
    locals: Seq<LocalDeclarator>,
) -> Result<(), AllocError>
    ensures { OnOk result (found.new ≡ found.old ++ locals_of locals) }
{
    for local in Seq::into_vec(locals) {
        found.push(Stmt::Local(Box::new(alloc, local)?))?;
    }
    Ok(())
}

/// Reads what stands in a block behind its brace, and the brace that closes it.
///
/// # Errors
///
/// [`ParseStop::Refused`] where the grammar refuses a token, at which the cursor then stands, and
/// [`ParseStop::NoMemory`], after which nothing is known of the cursor.
#[cycle(stmt)]
#[tactic(auto, using(crate::proofs::Loops::items_turn, crate::proofs::Loops::items_end))]
pub fn items(
    alloc: Global,
    scope: &TypedefScope,
    tokens: &mut Tokens<'_>,
    depth: usize,
    inner: usize,
) -> Result<Seq<Stmt>, ParseStop>
    ensures { Answers (model.items_from scope.now depth (model.stmt scope.now inner) (length tokens.old) []
        tokens.old) result tokens.new }
{
    let mut found = Seq::new(alloc);
    for _turn in 0..tokens.count_left() {
        if tokens.sees(Punct::RightBrace) {
            tokens.take();
            return Ok(found);
        }
        if scope.begins_type(tokens) {
            push_locals(alloc, &mut found, line(alloc, scope, tokens, depth)?)?;
        } else {
            found.push(Box::into_inner(stmt(alloc, scope, tokens, inner)?))?;
        }
    }
    Err(ParseStop::Refused)
}

/// Reads a block behind its brace.
#[cycle(stmt)]
fn block(
    alloc: Global,
    scope: &TypedefScope,
    tokens: &mut Tokens<'_>,
    depth: usize,
    inner: usize,
) -> Result<Box<Stmt>, ParseStop>
    ensures { Answers (and_then (model.items_from scope.now depth (model.stmt scope.now inner) (length tokens.old)
        [] tokens.old) (λ xs. pure (trees.Block xs))) result tokens.new }
{
    let found = items(alloc, scope, tokens, depth, inner)?;
    Ok(Box::new(alloc, Stmt::Block(found))?)
}

/// Reads the statements under a label.
#[cycle(stmt)]
#[tactic(auto, using(crate::proofs::Loops::stmts_turn, crate::proofs::Loops::stmts_end))]
fn stmts(
    alloc: Global,
    scope: &TypedefScope,
    tokens: &mut Tokens<'_>,
    depth: usize,
    inner: usize,
) -> Result<Seq<Stmt>, ParseStop>
    ensures { Answers (model.stmts_from scope.now depth (model.stmt scope.now inner) (length tokens.old) []
        tokens.old) result tokens.new }
{
    let mut found = Seq::new(alloc);
    for _turn in 0..tokens.count_left() {
        if ends_section(tokens) {
            return Ok(found);
        }
        found.push(Box::into_inner(stmt(alloc, scope, tokens, inner)?))?;
    }
    Err(ParseStop::Refused)
}

/// Reads a label and the statements under it.
#[cycle(stmt)]
#[tactic(auto, unfolding(c_parser_grammar::specs::ParseStatements::section))]
fn section(
    alloc: Global,
    scope: &TypedefScope,
    tokens: &mut Tokens<'_>,
    depth: usize,
    inner: usize,
) -> Result<Section, ParseStop>
    ensures { Answers (model.section scope.now depth (model.stmt scope.now inner) tokens.old) result tokens.new }
{
    let label = Box::new(alloc, label(alloc, scope, tokens, depth)?)?;
    let statements = stmts(alloc, scope, tokens, depth, inner)?;
    Ok(Section {
        label: Box::into_inner(label),
        statements,
    })
}

/// Reads the sections of a `switch` behind the brace, and the brace that closes them.
#[cycle(stmt)]
#[tactic(auto, using(crate::proofs::Loops::sections_turn, crate::proofs::Loops::sections_end))]
fn sections(
    alloc: Global,
    scope: &TypedefScope,
    tokens: &mut Tokens<'_>,
    depth: usize,
    inner: usize,
) -> Result<Seq<Section>, ParseStop>
    ensures { Answers (model.sections_from scope.now depth (model.stmt scope.now inner) (length tokens.old)
        [] tokens.old) result tokens.new }
{
    let mut found = Seq::new(alloc);
    for _turn in 0..tokens.count_left() {
        if tokens.sees(Punct::RightBrace) {
            tokens.take();
            return Ok(found);
        }
        found.push(section(alloc, scope, tokens, depth, inner)?)?;
    }
    Err(ParseStop::Refused)
}

/// Reads the second branch of an `if`, which goes to the nearest one.
#[cycle(stmt)]
#[tactic(auto, unfolding(c_parser_grammar::specs::ParseStatements::alternative))]
fn alternative(
    alloc: Global,
    scope: &TypedefScope,
    tokens: &mut Tokens<'_>,
    depth: usize,
    inner: usize,
    condition: Box<Expr>,
    then: Box<Stmt>,
) -> Result<Box<Stmt>, ParseStop>
    ensures { Answers (model.alternative scope.now depth (model.stmt scope.now inner) condition then
        tokens.old) result tokens.new }
{
    if !tokens.sees_word(Keyword::Else) {
        let found = Stmt::If {
            condition,
            then,
            otherwise: None,
        };
        return Ok(Box::new(alloc, found)?);
    }
    tokens.take();
    let otherwise = Some(stmt(alloc, scope, tokens, inner)?);
    let found = Stmt::If {
        condition,
        then,
        otherwise,
    };
    Ok(Box::new(alloc, found)?)
}

/// Reads an `if` behind its word.
#[cycle(stmt)]
#[tactic(auto, unfolding(c_parser_grammar::specs::ParseStatements::if_behind))]
fn if_behind(
    alloc: Global,
    scope: &TypedefScope,
    tokens: &mut Tokens<'_>,
    depth: usize,
    inner: usize,
) -> Result<Box<Stmt>, ParseStop>
    ensures { Answers (model.if_behind scope.now depth (model.stmt scope.now inner) tokens.old) result tokens.new }
{
    let condition = controlling_expression(alloc, scope, tokens, depth)?;
    let then = stmt(alloc, scope, tokens, inner)?;
    alternative(alloc, scope, tokens, depth, inner, condition, then)
}

/// Reads a `while` behind its word.
#[cycle(stmt)]
#[tactic(auto, unfolding(c_parser_grammar::specs::ParseStatements::while_behind))]
fn while_behind(
    alloc: Global,
    scope: &TypedefScope,
    tokens: &mut Tokens<'_>,
    depth: usize,
    inner: usize,
) -> Result<Box<Stmt>, ParseStop>
    ensures { Answers (model.while_behind scope.now depth (model.stmt scope.now inner) tokens.old) result tokens.new }
{
    let condition = controlling_expression(alloc, scope, tokens, depth)?;
    let body = stmt(alloc, scope, tokens, inner)?;
    Ok(Box::new(alloc, Stmt::While { condition, body })?)
}

/// Reads a `do` behind its word.
#[cycle(stmt)]
#[tactic(auto, unfolding(c_parser_grammar::specs::ParseStatements::do_behind))]
fn do_behind(
    alloc: Global,
    scope: &TypedefScope,
    tokens: &mut Tokens<'_>,
    depth: usize,
    inner: usize,
) -> Result<Box<Stmt>, ParseStop>
    ensures { Answers (model.do_behind scope.now depth (model.stmt scope.now inner) tokens.old) result tokens.new }
{
    let body = stmt(alloc, scope, tokens, inner)?;
    tokens.expect_word(Keyword::While)?;
    let condition = controlling_expression(alloc, scope, tokens, depth)?;
    end_statement(alloc, tokens, Stmt::Do { body, condition })
}

/// Reads a `for` behind its word.
#[cycle(stmt)]
#[tactic(auto, unfolding(c_parser_grammar::specs::ParseStatements::for_behind))]
fn for_behind(
    alloc: Global,
    scope: &TypedefScope,
    tokens: &mut Tokens<'_>,
    depth: usize,
    inner: usize,
) -> Result<Box<Stmt>, ParseStop>
    ensures { Answers (model.for_behind scope.now depth (model.stmt scope.now inner) tokens.old) result tokens.new }
{
    tokens.expect(Punct::LeftParen)?;
    let first = first_clause(alloc, scope, tokens, depth)?;
    let condition = optional_expression(alloc, scope, tokens, depth, Punct::Semicolon)?;
    tokens.expect(Punct::Semicolon)?;
    let step = optional_expression(alloc, scope, tokens, depth, Punct::RightParen)?;
    tokens.expect(Punct::RightParen)?;
    let body = stmt(alloc, scope, tokens, inner)?;
    let found = Stmt::For {
        first,
        condition,
        step,
        body,
    };
    Ok(Box::new(alloc, found)?)
}

/// Reads a `switch` behind its word.
#[cycle(stmt)]
#[tactic(auto, unfolding(c_parser_grammar::specs::ParseStatements::switch_behind))]
fn switch_behind(
    alloc: Global,
    scope: &TypedefScope,
    tokens: &mut Tokens<'_>,
    depth: usize,
    inner: usize,
) -> Result<Box<Stmt>, ParseStop>
    ensures { Answers (model.switch_behind scope.now depth (model.stmt scope.now inner) tokens.old) result tokens.new }
{
    let operand = controlling_expression(alloc, scope, tokens, depth)?;
    tokens.expect(Punct::LeftBrace)?;
    let sections = sections(alloc, scope, tokens, depth, inner)?;
    Ok(Box::new(alloc, Stmt::Switch { operand, sections })?)
}

/// Reads a statement into a box, so that what is open takes little of the machine's stack. The depth bounds how
/// deep it goes: as much as there are tokens is enough.
///
/// # Errors
///
/// [`ParseStop::Refused`] where the grammar refuses a token, at which the cursor then stands, and
/// [`ParseStop::NoMemory`], after which nothing is known of the cursor.
#[cycle(stmt)]
#[tactic(auto, using(crate::proofs::Deeper::stmt_deeper), unfolding(crate::proofs::Opens::statement))]
pub fn stmt(
    alloc: Global,
    scope: &TypedefScope,
    tokens: &mut Tokens<'_>,
    depth: usize,
) -> Result<Box<Stmt>, ParseStop>
    ensures { Answers (model.stmt scope.now depth tokens.old) result tokens.new }
{
    if depth == 0 {
        return Err(ParseStop::Refused);
    }
    let at = tokens.place();
    let inner = depth - 1;
    let head = head_of(tokens.peek());
    if head != Head::Other {
        tokens.take();
    }
    match head {
        Head::Block => block(alloc, scope, tokens, depth, inner),
        Head::Empty => Ok(Box::new(alloc, Stmt::Empty)?),
        Head::If => if_behind(alloc, scope, tokens, depth, inner),
        Head::While => while_behind(alloc, scope, tokens, depth, inner),
        Head::Do => do_behind(alloc, scope, tokens, depth, inner),
        Head::For => for_behind(alloc, scope, tokens, depth, inner),
        Head::Switch => switch_behind(alloc, scope, tokens, depth, inner),
        Head::Break => end_statement(alloc, tokens, Stmt::Break { at }),
        Head::Continue => end_statement(alloc, tokens, Stmt::Continue { at }),
        Head::Return => return_behind(alloc, scope, tokens, depth, at),
        Head::Other => expression_statement(alloc, scope, tokens, depth),
    }
}
