//! Typed units, as the rows write them.

use anyhow::{Result, bail, ensure};
use bk_containers::Name;
use c_lexer::TEXT_LIMIT;
use c_parser::parse;
use c_rewrite::rewrite_unit;
use c_typed_tree::{Member, StructDef, TypedFn, TypedUnit, copy_unit};
use c_types::check;
use c_typing_weight::{data_size, function_weight, locals_bytes, weight};
use mem_objects::{DataCell, DataObject};
use row_sheets::escape::unescape;
use row_typed_texts::statements::{put_indent, put_stmt};
use row_typed_texts::types::{put, put_number, put_type};
use std::alloc::{AllocError, Global};

/// The typed unit of a text without faults.
fn unit_of(alloc: Global, given: &str) -> Result<TypedUnit> {
    let text = unescape(alloc, given)?;
    ensure!(text.len() <= TEXT_LIMIT, "a text that is too long");
    match parse(alloc, text.as_slice()) {
        Err(_fault) => bail!("a text that has no tree"),
        Ok(unit) => match check(alloc, &unit) {
            Err(fault) => bail!("{fault}"),
            Ok(typed) => Ok(typed),
        },
    }
}

/// Puts a word and a number, each behind a blank.
fn put_measure(
    alloc: Global,
    out: &mut Vec<u8>,
    word: &str,
    number: u64,
) -> Result<(), AllocError> {
    put(out, word)?;
    put_number(alloc, out, number)
}

/// Puts a name, or a dash where it is empty.
fn put_name(out: &mut Vec<u8>, name: &Name) -> Result<(), AllocError> {
    let bytes = name.as_slice();
    if bytes.is_empty() {
        put(out, "-")
    } else {
        out.extend_from_slice(bytes)
    }
}

/// Puts the line of a member: its place, its type and its name.
fn put_member(alloc: Global, out: &mut Vec<u8>, member: &Member) -> Result<(), AllocError> {
    put_measure(alloc, out, "  ", member.offset)?;
    put(out, " ")?;
    put_type(alloc, out, &member.ty)?;
    put(out, " ")?;
    put_name(out, &member.name)?;
    put(out, "\n")
}

/// Puts the lines of a struct.
fn put_struct(alloc: Global, out: &mut Vec<u8>, structure: &StructDef) -> Result<(), AllocError> {
    put(out, "struct ")?;
    put_name(out, &structure.tag)?;
    if !structure.complete {
        return put(out, " incomplete\n");
    }
    put_measure(alloc, out, " size ", structure.size)?;
    put_measure(alloc, out, " align ", structure.align)?;
    put_measure(alloc, out, " depth ", structure.depth)?;
    put(out, "\n")?;
    for member in structure.members.as_slice() {
        put_member(alloc, out, member)?;
    }
    Ok(())
}

/// Puts what a byte of an object holds, behind a blank.
fn put_cell(alloc: Global, out: &mut Vec<u8>, cell: DataCell) -> Result<(), AllocError> {
    let text = match cell {
        DataCell::Byte(byte) => format!(in alloc; " {byte}")?,
        DataCell::AddressPart { global, plus, part } => format!(in alloc;
            " g{global}+{plus}.{part}"
        )?,
    };
    put(out, text.as_str())
}

/// Puts the line of an object.
fn put_object(alloc: Global, out: &mut Vec<u8>, object: &DataObject) -> Result<(), AllocError> {
    put(
        out,
        if object.writable {
            "object "
        } else {
            "constant "
        },
    )?;
    put_name(out, &object.name)?;
    put_measure(alloc, out, " size ", object.size)?;
    put_measure(alloc, out, " align ", u64::from(object.align))?;
    put_measure(alloc, out, " at ", object.offset)?;
    if !object.cells.is_empty() {
        put(out, " =")?;
        for cell in object.cells.as_slice() {
            put_cell(alloc, out, *cell)?;
        }
    }
    put(out, "\n")
}

/// Puts the line of a function with its weight and its room.
fn put_function_line(
    alloc: Global,
    out: &mut Vec<u8>,
    function: &TypedFn,
    structs: &[StructDef],
) -> Result<(), AllocError> {
    let own = function_weight(function, structs);
    let room = own
        .saturating_mul(64)
        .saturating_add(256)
        .saturating_add(locals_bytes(function, structs));
    put(out, "function ")?;
    put_name(out, &function.name)?;
    put(out, " ")?;
    put_type(alloc, out, &function.result)?;
    put_measure(alloc, out, " weight ", own)?;
    put_measure(alloc, out, " room ", room)?;
    put(out, "\n")
}

/// Puts the lines of the parameters and locals of a function.
fn put_locals(alloc: Global, out: &mut Vec<u8>, function: &TypedFn) -> Result<(), AllocError> {
    for (number, local) in function.locals.as_slice().iter().enumerate() {
        put_indent(out, 1)?;
        let word = if number < function.params as usize {
            "parameter l"
        } else {
            "local l"
        };
        put_measure(alloc, out, word, number as u64)?;
        put(out, " ")?;
        put_type(alloc, out, &local.ty)?;
        put(out, if local.in_memory { " memory\n" } else { "\n" })?;
    }
    Ok(())
}

/// Puts the line of a unit with its weight and its data size.
fn put_unit_line(alloc: Global, out: &mut Vec<u8>, unit: &TypedUnit) -> Result<(), AllocError> {
    put_measure(alloc, out, "weight ", weight(unit))?;
    put_measure(alloc, out, " data ", data_size(unit))?;
    put(out, "\n")
}

/// Puts a unit.
fn put_unit(alloc: Global, out: &mut Vec<u8>, unit: &TypedUnit) -> Result<(), AllocError> {
    put_unit_line(alloc, out, unit)?;
    for structure in unit.structs.as_slice() {
        put_struct(alloc, out, structure)?;
    }
    for object in unit.globals.as_slice() {
        put_object(alloc, out, object)?;
    }
    for function in unit.functions.as_slice() {
        put_function_line(alloc, out, function, unit.structs.as_slice())?;
        put_locals(alloc, out, function)?;
        put_stmt(alloc, out, 1, &function.body)?;
    }
    Ok(())
}

/// The weight, the data size and the typed tree of a unit, as they are of its copy.
pub fn typed_unit_text(alloc: Global, given: &str) -> Result<Vec<u8>> {
    let unit = unit_of(alloc, given)?;
    let copy = copy_unit(alloc, &unit)?;
    let mut out = Vec::new(alloc);
    put_unit(alloc, &mut out, &copy)?;
    Ok(out)
}

/// The weight, the data size and the typed tree of a unit as the three rules rewrite it.
pub fn rewritten_unit_text(alloc: Global, given: &str) -> Result<Vec<u8>> {
    let unit = rewrite_unit(alloc, unit_of(alloc, given)?)?;
    let mut out = Vec::new(alloc);
    put_unit(alloc, &mut out, &unit)?;
    Ok(out)
}

/// The weight and the data size of a unit, and those of its functions.
pub fn measures(alloc: Global, given: &str) -> Result<Vec<u8>> {
    let unit = unit_of(alloc, given)?;
    let mut out = Vec::new(alloc);
    put_unit_line(alloc, &mut out, &unit)?;
    for function in unit.functions.as_slice() {
        put_function_line(alloc, &mut out, function, unit.structs.as_slice())?;
    }
    Ok(out)
}
