//! Types, as the rows write them.

use anyhow::Result;
use c_typed_tree::CType;
use std::alloc::Global;

/// Writes a type as the rows do.
pub fn push_type(alloc: Global, text: &mut String, ty: &CType) -> Result<()> {
    match ty {
        CType::Void => text.push_str("void")?,
        CType::Int { bytes, signed } => {
            if !*signed {
                text.push_str("unsigned-")?;
            }
            text.push_str(match bytes {
                1 => "char",
                2 => "short",
                4 => "int",
                _ => "long",
            })?;
        }
        CType::Pointer(target) => {
            push_type(alloc, text, target)?;
            text.push_str(" *")?;
        }
        CType::Array(element, length) => {
            push_type(alloc, text, element)?;
            text.push_str(&format!(in alloc; " {length}")?)?;
        }
        CType::Struct(number) => text.push_str(&format!(in alloc; "struct-{number}")?)?,
    }
    Ok(())
}
