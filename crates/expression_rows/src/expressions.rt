//! Expressions behind declarations.

use crate::types::push_type;
use anyhow::{Context, Result, bail, ensure};
use c_lexer::TEXT_LIMIT;
use c_parser::parse;
use c_tree::{Expr, External, FunctionEnd, Stmt, TranslationUnit};
use c_typing_expressions::judge;
use c_typing_faults::{Fault, least};
use c_typing_rules::{LvalueKind, TypedExpression};
use c_typing_units::{UnitState, judge as judge_unit};
use std::alloc::Global;

/// What stands between the declarations and the expression.
const FUNCTION: &str = "int main(void) {";

/// What stands behind the expression.
const END: &str = ";}";

/// The expression that is the one statement of the last external.
fn last_expression(externals: &[External]) -> Option<&Expr> {
    match externals.last()? {
        External::Function {
            end: FunctionEnd::Body(list),
            ..
        } => match list.as_slice().first()? {
            Stmt::Expression(e) => Some(e),
            _ => None,
        },
        _ => None,
    }
}

/// The type of an expression, and whether it is a place.
fn push_expression(alloc: Global, text: &mut String, e: &TypedExpression) -> Result<()> {
    push_type(alloc, text, &e.ty)?;
    if !matches!(e.place, LvalueKind::Nowhere) {
        text.push_str(" place")?;
    }
    Ok(())
}

/// The type of an expression that has no fault, or the first fault with its place behind `begin`.
fn put_outcome(
    alloc: Global,
    text: &mut String,
    faults: &[Fault],
    begin: u32,
    found: &Option<TypedExpression>,
) -> Result<()> {
    match least(faults) {
        Some(Fault { at, kind }) => {
            let at = at
                .checked_sub(begin)
                .context("a fault before the expression")?;
            text.push_str(&format!(in alloc; "{kind:?} {at}")?)?;
            Ok(())
        }
        None => match found {
            None => bail!("neither a type nor a fault"),
            Some(e) => push_expression(alloc, text, e),
        },
    }
}

/// What comes of an expression behind a unit, whose names are in scope there.
fn put_behind<'a>(
    alloc: Global,
    text: &mut String,
    e: &'a Expr,
    begin: u32,
    state: &mut UnitState<'a>,
) -> Result<()> {
    let found = judge(alloc, e, &mut state.env, &mut state.notes)?;
    let put = put_outcome(alloc, text, state.notes.faults.as_slice(), begin, &found);
    // So the drops of its parts are proved apart, here and below.
    drop(found);
    put
}

/// What comes of the expression of a unit. It is judged once more behind the unit.
fn put_expression(
    alloc: Global,
    text: &mut String,
    unit: &TranslationUnit,
    begin: u32,
) -> Result<()> {
    let e = last_expression(unit.externals.as_slice()).context("no expression in the unit")?;
    let mut state = judge_unit(alloc, unit)?;
    let put = put_behind(alloc, text, e, begin, &mut state);
    drop(state);
    put
}

/// Of declarations with an expression behind them in braces: its type, or its first fault with the place in it.
pub fn answer(alloc: Global, given: &str) -> Result<Vec<u8>> {
    let (declarations, rest) = given.rsplit_once("{ ").context("no expression")?;
    let expression = rest.strip_suffix(" }").context("no end of the expression")?;
    let source = format!(in alloc; "{declarations}{FUNCTION}{expression}{END}")?;
    ensure!(source.len() <= TEXT_LIMIT, "a text that is too long");
    let begin = u32::try_from(declarations.len().saturating_add(FUNCTION.len()))?;
    let Ok(unit) = parse(alloc, source.as_bytes()) else {
        bail!("no unit");
    };
    let mut text = String::new(alloc);
    let put = put_expression(alloc, &mut text, &unit, begin);
    drop(unit);
    put?;
    text.push('\n')?;
    Ok(text.into_bytes())
}
