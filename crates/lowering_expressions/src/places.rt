//! The places of expressions. No call takes memory.

ghost use Rattle.std.specs.Prelude.{◌≡◌, ◌^◌, ◌<◌};
ghost use Rattle.c_typed_tree.specs.View.{type_view, expr_view};
ghost use Rattle.c_typed_tree.specs.Typing.{is_array};
ghost use Rattle.c_semantics.specs.Evaluates.{target_of};
ghost use Rattle.lowering_code.specs.Expressions.{member_plus};
ghost use Rattle.lowering_expressions.specs.model.Scopes.{register_if, register_of, plus_of};

use crate::scope::LoweringScope;
use c_typed_tree::{CType, StructDef, TExpr};
use lowering_emitter::sizes::member_plus;

/// The register of a local that one holds.
pub(crate) fn register_if(scope: &LoweringScope<'_>, number: u32) -> Option<u32>
    ensures { result ≡ register_if scope.now number }
{
    match scope.locals.get(number as usize) {
        None => None,
        Some(local) => { if local.in_memory { None } else { Some(number) } }
    }
}

#[tactic(auto, unfolding(c_typed_tree::specs::model::View::opens))]
pub(crate) fn is_array(ty: &CType) -> bool
    ensures { result ≡ is_array (type_view ty.now) }
{
    match ty {
        CType::Array(_, _) => true,
        CType::Void => false,
        CType::Int { .. } => false,
        CType::Pointer(_) => false,
        CType::Struct(_) => false,
    }
}

/// The register that holds a place, if one does.
#[tactic(auto, unfolding(c_typed_tree::specs::model::View::opens))]
pub(crate) fn register_of(scope: &LoweringScope<'_>, e: &TExpr) -> Option<u32>
    ensures { result ≡ register_of scope.now (expr_view e.now) }
{
    match e {
        TExpr::Local { number, .. } => register_if(scope, *number),
        TExpr::Number { .. } => None,
        TExpr::Global { .. } => None,
        TExpr::Call { .. } => None,
        TExpr::Unary { .. } => None,
        TExpr::Binary { .. } => None,
        TExpr::Assign { .. } => None,
        TExpr::Conditional { .. } => None,
        TExpr::Cast { .. } => None,
        TExpr::Convert { .. } => None,
        TExpr::Index { .. } => None,
        TExpr::Field { .. } => None,
        TExpr::Arrow { .. } => None,
        TExpr::Postfix { .. } => None,
        TExpr::Comma { .. } => None,
    }
}

/// The bytes to a member of a struct type, and so many more: a number that an `s64` holds.
pub(crate) fn member(structs: &[StructDef], ty: &CType, number: u32, plus: u64) -> u64
    ensures is { result ≡ member_plus structs.now (type_view ty.now) number plus }
    ensures small { result < 2 ^ 63 }
{
    member_plus(structs, ty, number, plus)
}

/// The bytes to a member of the struct that a pointer points to, and so many more.
#[tactic(auto, unfolding(c_typed_tree::specs::model::View::opens))]
pub(crate) fn target_member(structs: &[StructDef], ty: &CType, number: u32, plus: u64) -> u64
    ensures is { result ≡ member_plus structs.now (target_of (type_view ty.now)) number plus }
    ensures small { result < 2 ^ 63 }
{
    match ty {
        CType::Pointer(target) => member(structs, target, number, plus),
        CType::Void => member(structs, &CType::Void, number, plus),
        CType::Int { .. } => member(structs, &CType::Void, number, plus),
        CType::Array(_, _) => member(structs, &CType::Void, number, plus),
        CType::Struct(_) => member(structs, &CType::Void, number, plus),
    }
}

/// By how many bytes the pointer that the code of a place gives is still to be moved.
#[tactic(auto, unfolding(c_typed_tree::specs::model::View::opens))]
pub(crate) fn plus_of(scope: &LoweringScope<'_>, e: &TExpr, plus: u64) -> u64
    requires { plus < 2 ^ 63 }
    ensures is { result ≡ plus_of scope.now (expr_view e.now) plus }
    ensures small { result < 2 ^ 63 }
{
    match e {
        TExpr::Local { .. } => 0,
        TExpr::Global { .. } => 0,
        TExpr::Field {
            operand,
            member: number,
            ..
        } => {
            let inner = member(scope.structs, operand.ty(), *number, plus);
            plus_of(scope, operand, inner)
        }
        TExpr::Arrow {
            operand,
            member: number,
            ..
        } => target_member(scope.structs, operand.ty(), *number, plus),
        TExpr::Number { .. } => plus,
        TExpr::Call { .. } => plus,
        TExpr::Unary { .. } => plus,
        TExpr::Binary { .. } => plus,
        TExpr::Assign { .. } => plus,
        TExpr::Conditional { .. } => plus,
        TExpr::Cast { .. } => plus,
        TExpr::Convert { .. } => plus,
        TExpr::Index { .. } => plus,
        TExpr::Postfix { .. } => plus,
        TExpr::Comma { .. } => plus,
    }
}
