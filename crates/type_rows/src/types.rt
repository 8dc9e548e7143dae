//! Types as the rows write them.

use anyhow::{Context, Result, bail};
use c_typed_tree::{CType, StructDef};
use c_typing_rules::c_typing_declared_types::{DeclaredType, array_of, pointer_to};
use row_sheets::number::number;
use std::alloc::Global;

/// The type of a word: an integer type, or a struct by its number in the row.
fn base_of(word: &str) -> Result<CType> {
    let (bytes, signed) = match word {
        "char" => (1, true),
        "unsigned-char" => (1, false),
        "short" => (2, true),
        "unsigned-short" => (2, false),
        "int" => (4, true),
        "unsigned-int" => (4, false),
        "long" => (8, true),
        "unsigned-long" => (8, false),
        "void" => return Ok(CType::Void),
        _ => {
            let digits = word.strip_prefix("struct-").context("no type")?;
            return Ok(CType::Struct(u32::try_from(number(digits)?)?));
        }
    };
    Ok(CType::Int { bytes, signed })
}

/// The type of words that stand behind a base type: `*` is a pointer to what stands before it, and a number an array of
/// that.
pub fn type_of(alloc: Global, structs: &[StructDef], text: &str) -> Result<CType> {
    let mut words = text.split(' ');
    let base = words.next().context("a type has a word")?;
    let mut ty = DeclaredType::Value(base_of(base)?);
    for word in words {
        let made = if word == "*" {
            pointer_to(alloc, ty)?
        } else {
            array_of(alloc, structs, ty, Some(number(word)?))?
        };
        ty = made.context("no such type")?;
    }
    match ty {
        DeclaredType::Value(ty) => Ok(ty),
        DeclaredType::Unsized(_) => bail!("an array without a length"),
        DeclaredType::Function { .. } => bail!("a function"),
    }
}
