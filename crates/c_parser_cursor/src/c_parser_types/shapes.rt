//! What declarators make of types.

ghost use Rattle.std.specs.Prelude.{◌≡◌, [], IfOk, if◌then◌else◌, List};
ghost use Rattle.c_tree.specs.declared.types.Parameter.{Parameter as Declared};
ghost use Rattle.c_parser_grammar.specs.Types as types;

use bk_containers::{Box, Name, Seq};
use c_parser_grammar::{Declarator, NameRequirement, Shape};
use c_tree::{BasicType, Expr, Parameter, TypeNode};
use std::alloc::{AllocError, Global};

/// Whether a declarator may have this name, which is one of a type or not.
pub fn takes_name(naming: NameRequirement, is_type: bool) -> bool
    ensures { result ≡ types.takes_name naming is_type }
{
    match naming {
        NameRequirement::Required => !is_type,
        NameRequirement::Member => true,
        NameRequirement::Optional => !is_type,
        NameRequirement::Refused => false,
    }
}

/// Whether a declarator may have no name.
pub fn may_be_nameless(naming: NameRequirement) -> bool
    ensures { result ≡ types.may_be_nameless naming }
{
    match naming {
        NameRequirement::Required | NameRequirement::Member => false,
        NameRequirement::Optional | NameRequirement::Refused => true,
    }
}

/// The declarator with one shape more, behind the others.
pub fn with_shape(mut found: Declarator, shape: Shape) -> Result<Declarator, AllocError>
    ensures { IfOk result (λ d. d ≡ types.with_shape found shape) }
{
    found.shapes.push(shape)?;
    Ok(found)
}

/// Both in boxes of their own.
fn boxes<A: Drop, B: Drop>(alloc: Global, a: A, b: B) -> Result<(Box<A>, Box<B>), AllocError>
    ensures { IfOk result (λ both. (both.0 ≡ a) × (both.1 ≡ b)) }
{
    let a = Box::new(alloc, a)?;
    let b = Box::new(alloc, b)?;
    Ok((a, b))
}

/// One shape round a type (C99 6.7.5).
fn with_one_shape(alloc: Global, shape: Shape, ty: TypeNode) -> Result<TypeNode, AllocError>
    ensures { IfOk result (λ t. t ≡ types.with_one_shape shape ty) }
{
    match shape {
        Shape::Pointer => Ok(TypeNode::Pointer(Box::new(alloc, ty)?)),
        Shape::Array(None) => Ok(TypeNode::Array {
            element: Box::new(alloc, ty)?,
            length: None,
        }),
        Shape::Array(Some(length)) => {
            let (element, length) = boxes(alloc, ty, length)?;
            Ok(TypeNode::Array {
                element,
                length: Some(length),
            })
        }
        Shape::Takes(parameters) => Ok(TypeNode::Takes {
            result: Box::new(alloc, ty)?,
            parameters,
        }),
    }
}

/// All shapes of a declarator round a type: the first is the nearest to the name.
#[tactic(auto, using(crate::proofs::CParserTypes::Layers::with_shapes_last))]
pub fn with_shapes(alloc: Global, shapes: Seq<Shape>, ty: TypeNode) -> Result<TypeNode, AllocError>
    ensures { IfOk result (λ t. t ≡ types.with_shapes shapes ty) }
{
    let mut left = Seq::into_vec(shapes);
    let mut ty = ty;
    while let Some(shape) = left.pop() {
        ty = with_one_shape(alloc, shape, ty)?;
    }
    Ok(ty)
}

/// A parameter, at its name or at the place of its declaration.
pub fn parameter_of(
    alloc: Global,
    at: u32,
    ty: TypeNode,
    found: Declarator,
) -> Result<Parameter, AllocError>
    ensures { IfOk result (λ p. p ≡ types.parameter_of at ty found) }
{
    let Declarator { name, shapes } = found;
    let ty = with_shapes(alloc, shapes, ty)?;
    match name {
        None => Ok(Parameter { at, name: None, ty }),
        Some(named) => Ok(Parameter {
            at: named.at,
            name: Some(named.name),
            ty,
        }),
    }
}

/// Whether a lone parameter of this name and type is none.
fn is_lone_void(name: &Option<Name>, ty: &TypeNode) -> bool
    ensures { (ps : List Declared) → types.lone_void name.now ty.now ps ≡ (if result then [] else ps) }
{
    match name {
        Some(_) => false,
        None => match ty {
            TypeNode::Basic(BasicType::Void) => true,
            _ => false,
        },
    }
}

/// The parameters, of which the lone `void` is none (C99 6.7.5.3).
pub fn without_void(alloc: Global, parameters: Seq<Parameter>) -> Seq<Parameter>
    ensures { result ≡ types.without_void parameters }
{
    let is_none = match parameters.as_slice() {
        [lone] => is_lone_void(&lone.name, &lone.ty),
        _ => false,
    };
    if is_none { Seq::new(alloc) } else { parameters }
}

/// Operands with commas between them: a lone one is itself.
pub fn comma_of(at: u32, operands: Seq<Expr>) -> Expr
    ensures { result ≡ types.comma_of at operands }
{
    if operands.len() != 1 {
        return Expr::Comma { at, operands };
    }
    Seq::into_vec(operands).pop().unwrap()
}
