//! Typed units (C99 6.9).

use crate::{CType, StructDef, TStmt};
use bk_containers::{Name, Seq};
use mem_objects::DataObject;

/// A local of a function; a parameter is one.
#[derive(Drop)]
pub struct Local {
    pub ty: CType,
    /// Whether it is an object in memory; if not, a register holds it.
    pub in_memory: bool,
}

/// A function that the unit defines (C99 6.9.1).
#[derive(Drop)]
pub struct TypedFn {
    pub name: Name,
    /// The type of its result.
    pub result: CType,
    /// The number of parameters, which are the first locals.
    pub params: u32,
    pub locals: Seq<Local>,
    pub body: TStmt,
}

/// A unit: its structs, its objects of static storage and the functions that it defines, each by its number.
#[derive(Drop)]
pub struct TypedUnit {
    pub structs: Seq<StructDef>,
    pub globals: Seq<DataObject>,
    pub functions: Seq<TypedFn>,
}
