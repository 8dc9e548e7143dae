//! The weight of a unit and its data, shown at a function that copies a struct. The numbers are counted by hand.

use crate::{data_size, weight};
use bk_containers::{Box, Name, Seq};
use c_tree::AssignOp;
use c_typed_tree::{CType, Local, StructDef, TExpr, TLocal, TStmt, TypedFn, TypedUnit};
use mem_objects::DataObject;
use std::alloc::{AllocError, Global};
use std::test::Fail;

/// A local whose type is the struct.
fn local(number: u32) -> TExpr {
    TExpr::Local {
        ty: CType::Struct(0),
        number,
    }
}

/// The assignment of one struct to another one: itself, two names, and a copy of two words.
fn copy_tree(alloc: Global) -> Result<TExpr, AllocError> {
    let left = Box::new(alloc, local(1))?;
    let right = Box::new(alloc, local(2))?;
    Ok(TExpr::Assign {
        ty: CType::Struct(0),
        op: AssignOp::Set,
        left,
        right,
    })
}

/// A written conversion of a name.
fn conversion_tree(alloc: Global) -> Result<TExpr, AllocError> {
    let operand = Box::new(alloc, local(0))?;
    Ok(TExpr::Cast {
        ty: CType::Void,
        operand,
    })
}

/// A block with a declaration, the copy, and a return of the conversion.
fn body(alloc: Global) -> Result<TStmt, AllocError> {
    let mut list = Seq::new(alloc);
    list.push(TStmt::Local(TLocal {
        number: 1,
        init: None,
    }))?;
    list.push(TStmt::Expression(Box::new(alloc, copy_tree(alloc)?)?))?;
    list.push(TStmt::Return(Some(Box::new(alloc, conversion_tree(alloc)?)?)))?;
    Ok(TStmt::Block(list))
}

/// A parameter in a register, and two structs in memory.
fn locals(alloc: Global) -> Result<Seq<Local>, AllocError> {
    let mut list = Seq::new(alloc);
    for in_memory in [false, true, true] {
        list.push(Local {
            ty: CType::Struct(0),
            in_memory,
        })?;
    }
    Ok(list)
}

/// A list of one element.
fn one<T: Drop>(alloc: Global, item: T) -> Result<Seq<T>, AllocError> {
    let mut list = Seq::new(alloc);
    list.push(item)?;
    Ok(list)
}

/// A struct of 12 bytes.
fn structs(alloc: Global) -> Result<Seq<StructDef>, AllocError> {
    let tag = Name::from_slice(alloc, b"s")?;
    one(
        alloc,
        StructDef {
            tag,
            complete: true,
            members: Seq::new(alloc),
            size: 12,
            align: 4,
            depth: 1,
        },
    )
}

/// An object of some bytes.
fn globals(alloc: Global, size: u64) -> Result<Seq<DataObject>, AllocError> {
    let name = Name::from_slice(alloc, b"g")?;
    one(
        alloc,
        DataObject {
            name,
            size,
            align: 1,
            offset: 0,
            writable: true,
            cells: Seq::new(alloc),
        },
    )
}

/// The function with its body and its locals.
fn functions(alloc: Global) -> Result<Seq<TypedFn>, AllocError> {
    let name = Name::from_slice(alloc, b"f")?;
    let locals = locals(alloc)?;
    let body = body(alloc)?;
    one(
        alloc,
        TypedFn {
            name,
            result: CType::Void,
            params: 1,
            locals,
            body,
        },
    )
}

/// The unit with an object of some bytes.
fn unit(alloc: Global, size: u64) -> Result<TypedUnit, AllocError> {
    let structs = structs(alloc)?;
    let globals = globals(alloc, size)?;
    Ok(TypedUnit {
        structs,
        globals,
        functions: functions(alloc)?,
    })
}

#[test]
fn the_parts_of_a_unit_are_counted(rt: HostRuntime) -> Result<(), Fail> {
    // unit, function, parameter, block, declaration; statement, =, 2 names, 2 words; return, conversion, name
    assert_eq!(rt; weight(&unit(rt.alloc(), 20)?), 14);
    Ok(())
}

#[test]
fn the_larger_of_locals_and_data_is_taken(rt: HostRuntime) -> Result<(), Fail> {
    assert_eq!(rt; data_size(&unit(rt.alloc(), 20)?), 32);
    assert_eq!(rt; data_size(&unit(rt.alloc(), 40)?), 40);
    Ok(())
}
