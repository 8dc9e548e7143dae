//! Structs with the places of their members.

ghost use Rattle.std.specs.Prelude.{All, IfOk, IsTrue, OnOk, ◌≤◌};
ghost use Rattle.c_typed_tree.specs.Layout as layout;
ghost use Rattle.c_typed_tree.specs.Typing.{depth_of, most_depth};
ghost use Rattle.c_typed_tree.specs.View.{type_view};

use crate::types::type_of;
use anyhow::{Context, Result, bail};
use bk_containers::Name;
use c_typed_tree::layout::offset_of;
use c_typed_tree::{CType, StructDef};
use c_typing_rules::c_typing_declared_types::{MOST_DEPTH, is_deep_at_most};
use c_typing_rules::types::is_object;
use c_typing_struct_layout::{Field, lay_out};
use std::alloc::Global;

/// Puts a member behind others, where its type is one that members may have.
fn push_member(structs: &[StructDef], fields: &mut Vec<Field>, name: Name, ty: CType) -> Result<()>
    requires objects { All (λ f. IsTrue (layout.is_object structs.now (type_view f.ty))) fields.old.items }
    requires shallow { All (λ f. depth_of structs.now (type_view f.ty) ≤ most_depth) fields.old.items }
    ensures objects { OnOk result (All (λ f. IsTrue (layout.is_object structs.now (type_view f.ty))) fields.new.items) }
    ensures shallow { OnOk result (All (λ f. depth_of structs.now (type_view f.ty) ≤ most_depth) fields.new.items) }
{
    if !is_object(structs, &ty) {
        bail!("no object has the type");
    }
    if !is_deep_at_most(structs, MOST_DEPTH, &ty) {
        bail!("the type is too deep");
    }
    fields.push(Field { name, ty })?;
    Ok(())
}

/// The members that a row gives, with colons between.
fn fields_of(alloc: Global, structs: &[StructDef], text: &str) -> Result<Vec<Field>>
    ensures objects { IfOk result (λ fs. All (λ f. IsTrue (layout.is_object structs.now (type_view f.ty))) fs.items) }
    ensures shallow { IfOk result (λ fs. All (λ f. depth_of structs.now (type_view f.ty) ≤ most_depth) fs.items) }
{
    let mut fields = Vec::new(alloc);
    for part in text.split(',') {
        let name = Name::from_slice(alloc, b"m")?;
        let ty = type_of(alloc, structs, part.trim())?;
        push_member(structs, &mut fields, name, ty)?;
    }
    Ok(fields)
}

/// The struct of these members.
fn struct_of(alloc: Global, structs: &[StructDef], text: &str) -> Result<StructDef> {
    let fields = fields_of(alloc, structs, text)?;
    let tag = Name::from_slice(alloc, b"s")?;
    lay_out(alloc, structs, tag, fields.as_slice())?.context("the struct is too large")
}

/// The size, the alignment and the depth of the last struct of a row, and the places of its members.
pub fn answer(alloc: Global, given: &str) -> Result<Vec<u8>> {
    let mut structs = Vec::new(alloc);
    for part in given.split(';') {
        let found = struct_of(alloc, structs.as_slice(), part.trim())?;
        structs.push(found)?;
    }
    let last = structs.last().context("a row has a struct")?;
    let mut text = format!(in alloc; "{} {} {}:", last.size, last.align, last.depth)?;
    let number = u32::try_from(structs.len())?.saturating_sub(1);
    for member in 0..u32::try_from(last.members.len())? {
        let place = offset_of(structs.as_slice(), number, member);
        text.push_str(format!(in alloc; " {place}")?.as_str())?;
    }
    text.push('\n')?;
    Ok(text.into_bytes())
}
