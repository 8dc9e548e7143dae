//! Names of file scope.

use crate::types::push_type;
use anyhow::{Context, Result, bail, ensure};
use c_lexer::TEXT_LIMIT;
use c_parser::parse;
use c_tree::TranslationUnit;
use c_typed_tree::{CType, Callee};
use c_typing_faults::{Fault, Kind, least};
use c_typing_rules::c_typing_declared_types::DeclaredType;
use c_typing_state::{NameMeaning, meaning_of};
use c_typing_units::{UnitState, judge};
use std::alloc::Global;

/// A function type: that of its result, and the parameters in brackets.
fn push_function(alloc: Global, text: &mut String, of: &CType, parameters: &[CType]) -> Result<()> {
    push_type(alloc, text, of)?;
    text.push_str(" (")?;
    let mut is_first = true;
    for ty in parameters {
        if !is_first {
            text.push_str(", ")?;
        }
        is_first = false;
        push_type(alloc, text, ty)?;
    }
    text.push(')')?;
    Ok(())
}

/// The type of a typedef name.
fn push_declared(alloc: Global, text: &mut String, ty: &DeclaredType) -> Result<()> {
    match ty {
        DeclaredType::Value(ty) => push_type(alloc, text, ty),
        DeclaredType::Unsized(element) => {
            push_type(alloc, text, element)?;
            text.push_str(" ?")?;
            Ok(())
        }
        DeclaredType::Function { result, parameters } => {
            push_function(alloc, text, result, parameters.as_slice())
        }
    }
}

/// What a name means.
fn push_meaning(alloc: Global, text: &mut String, meaning: Option<&NameMeaning>) -> Result<()> {
    match meaning {
        None => text.push_str("none")?,
        Some(NameMeaning::Faulty) => text.push_str("faulty")?,
        Some(NameMeaning::Undefined(number)) => {
            text.push_str(&format!(in alloc; "undefined {number}")?)?;
        }
        Some(NameMeaning::Local { .. }) => text.push_str("local")?,
        Some(NameMeaning::Object { number, ty }) => {
            text.push_str(&format!(in alloc; "object {number} ")?)?;
            push_type(alloc, text, ty)?;
        }
        Some(NameMeaning::Constant(word)) => {
            let value = word.cast_signed();
            text.push_str(&format!(in alloc; "constant {value}")?)?;
        }
        Some(
            NameMeaning::Function {
                callee,
                result,
                parameters,
            },
        ) => {
            match callee {
                Callee::Function(number) => {
                    text.push_str(&format!(in alloc; "function {number} ")?)?;
                }
                Callee::Builtin(_) => text.push_str("function built in ")?,
            }
            push_function(alloc, text, result, parameters.as_slice())?;
        }
        Some(NameMeaning::Typedef(ty)) => {
            text.push_str("typedef ")?;
            push_declared(alloc, text, ty)?;
        }
    }
    Ok(())
}

/// The first fault of a unit with its place, or what a name means behind it. A unit here needs no `main`, whose want is
/// always the last fault.
fn put_outcome(alloc: Global, text: &mut String, state: &UnitState<'_>, name: &[u8]) -> Result<()> {
    match least(state.notes.faults.as_slice()) {
        Some(Fault { at, kind }) if kind != Kind::MissingMain => {
            text.push_str(&format!(in alloc; "{kind:?} {at}")?)?;
            Ok(())
        }
        _ => push_meaning(alloc, text, meaning_of(&state.env, name)),
    }
}

/// What comes of a unit.
fn put_unit(alloc: Global, text: &mut String, unit: &TranslationUnit, name: &[u8]) -> Result<()> {
    let state = judge(alloc, unit)?;
    let put = put_outcome(alloc, text, &state, name);
    // So the drops of its parts are proved apart, here and below.
    drop(state);
    put
}

/// Of a name and declarations: the first fault of these with its place, or what the name means behind them.
pub fn answer(alloc: Global, given: &str) -> Result<Vec<u8>> {
    let (name, source) = given.split_once(": ").context("no name")?;
    ensure!(source.len() <= TEXT_LIMIT, "a text that is too long");
    let Ok(unit) = parse(alloc, source.as_bytes()) else {
        bail!("no unit");
    };
    let mut text = String::new(alloc);
    let put = put_unit(alloc, &mut text, &unit, name.as_bytes());
    drop(unit);
    put?;
    text.push('\n')?;
    Ok(text.into_bytes())
}
