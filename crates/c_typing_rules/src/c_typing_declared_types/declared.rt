//! What stars, lengths and lists of parameters make of types (C99 6.7.5.1 to 6.7.5.3).

ghost use Rattle.std.specs.Prelude.{◌≡◌, IfOk};
ghost use Rattle.c_typed_tree.specs.declared.types.CType as t;
ghost use Rattle.c_typing_rules.specs.c_typing_declared_types.Declarators as spec;

use crate::types::{is_object, is_scalar, is_void};
use bk_containers::{Box, Seq};
use c_typed_tree::{CType, StructDef};
use std::alloc::{AllocError, Global};

/// The type that a declarator gives.
#[derive(Drop)]
pub enum DeclaredType {
    /// `void`, or a type that objects have once it is complete.
    Value(CType),
    /// An array of these elements, without a length.
    Unsized(CType),
    /// A function. Parameters of array type are pointers here.
    Function {
        result: CType,
        parameters: Seq<CType>,
    },
}

fn pointer(alloc: Global, target: CType) -> Result<CType, AllocError>
    ensures { IfOk result (λ r. r ≡ t.Pointer target) }
{
    Ok(CType::Pointer(Box::new(alloc, target)?))
}

/// A pointer to a type; `None` of a function, and of an array without a length.
pub fn pointer_to(alloc: Global, target: DeclaredType) -> Result<Option<DeclaredType>, AllocError>
    ensures { IfOk result (λ r. r ≡ spec.pointer_to target) }
{
    match target {
        DeclaredType::Value(ty) => Ok(Some(DeclaredType::Value(pointer(alloc, ty)?))),
        DeclaredType::Unsized(_) => Ok(None),
        DeclaredType::Function { .. } => Ok(None),
    }
}

/// An array of a type with a length, where objects have the type of this array.
fn array_of_length(
    alloc: Global,
    structs: &[StructDef],
    element: CType,
    length: u64,
) -> Result<Option<DeclaredType>, AllocError>
    ensures { IfOk result (λ r. r ≡ spec.array_with structs.now element length) }
{
    let array = CType::Array(Box::new(alloc, element)?, length);
    if is_object(structs, &array) {
        return Ok(Some(DeclaredType::Value(array)));
    }
    Ok(None)
}

/// An array of objects without a length.
fn unsized_of(structs: &[StructDef], element: CType) -> Option<DeclaredType>
    ensures { result ≡ spec.array_without structs.now element }
{
    if is_object(structs, &element) {
        return Some(DeclaredType::Unsized(element));
    }
    None
}

/// An array of a type; `None` where objects do not have this type, where the length is 0, and where the array is larger
/// than the data may be.
pub fn array_of(
    alloc: Global,
    structs: &[StructDef],
    element: DeclaredType,
    length: Option<u64>,
) -> Result<Option<DeclaredType>, AllocError>
    ensures { IfOk result (λ r. r ≡ spec.array_of structs.now element length) }
{
    match element {
        DeclaredType::Value(ty) => match length {
            None => Ok(unsized_of(structs, ty)),
            Some(length) => array_of_length(alloc, structs, ty, length),
        },
        DeclaredType::Unsized(_) => Ok(None),
        DeclaredType::Function { .. } => Ok(None),
    }
}

/// The type of a parameter, of which an array becomes a pointer to its first element (C99 6.7.5.3); `None` where it is
/// no scalar then.
pub fn parameter_of(alloc: Global, ty: DeclaredType) -> Result<Option<CType>, AllocError>
    ensures { IfOk result (λ r. r ≡ spec.adjusted_parameter ty) }
{
    match ty {
        DeclaredType::Value(ty) => parameter_value(alloc, ty),
        DeclaredType::Unsized(element) => Ok(Some(pointer(alloc, element)?)),
        DeclaredType::Function { .. } => Ok(None),
    }
}

#[tactic(auto, unfolding(crate::specs::model::c_typing_declared_types::Open::opens))]
fn parameter_value(alloc: Global, ty: CType) -> Result<Option<CType>, AllocError>
    ensures { IfOk result (λ r. r ≡ spec.parameter_value ty) }
{
    match ty {
        CType::Void => Ok(None),
        CType::Int { bytes, signed } => Ok(Some(CType::Int { bytes, signed })),
        CType::Pointer(target) => Ok(Some(CType::Pointer(target))),
        CType::Array(element, _) => Ok(Some(CType::Pointer(element))),
        CType::Struct(_) => Ok(None),
    }
}

/// A function with these parameters; `None` where its result is neither void nor a scalar.
pub fn function_of(of: DeclaredType, parameters: Seq<CType>) -> Option<DeclaredType>
    ensures { result ≡ spec.function_of of parameters }
{
    match of {
        DeclaredType::Value(ty) => function_with(ty, parameters),
        DeclaredType::Unsized(_) => None,
        DeclaredType::Function { .. } => None,
    }
}

fn function_with(of: CType, parameters: Seq<CType>) -> Option<DeclaredType>
    ensures { result ≡ spec.function_with of parameters }
{
    if is_void(&of) {
        return Some(DeclaredType::Function {
            result: of,
            parameters,
        });
    }
    if is_scalar(&of) {
        return Some(DeclaredType::Function {
            result: of,
            parameters,
        });
    }
    None
}
