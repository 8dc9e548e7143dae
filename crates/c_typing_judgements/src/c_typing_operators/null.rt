//! Null pointer constants (C99 6.3.2.3), and values where one of a type is wanted.

ghost use Rattle.std.specs.Prelude.{◌≡◌};
ghost use Rattle.c_typing_judgements.specs.c_typing_operators.Null as spec;
ghost use Rattle.c_typing_rules.specs.Rulings.{RuleGives};

use bk_containers::Box;
use c_typed_tree::{CType, TExpr};
use c_typing_constants::{is_null_constant, is_null_void};
use c_typing_rules::conversions::{decay, value_for_type};
use c_typing_rules::types::{is_integer, is_pointer};
use c_typing_rules::{Refusal, TypedExpression};
use std::alloc::Global;

fn is_null(a: &TypedExpression) -> bool
    ensures { result ≡ spec.is_null_value a.now }
{
    if is_integer(&a.ty) {
        return is_null_constant(&a.tree);
    }
    is_null_void(&a.tree)
}

/// Whether it is a null pointer constant, asked where a type is a pointer's.
pub(crate) fn is_null_for(to: &CType, a: &TypedExpression) -> bool
    ensures { result ≡ spec.is_null_for to.now a.now }
{
    if is_pointer(to) {
        return is_null(a);
    }
    false
}

/// A value where one of a type is wanted: an argument, an initialiser, the operand of `return`.
pub fn take_value(alloc: Global, to: &CType, a: TypedExpression) -> Result<Box<TExpr>, Refusal>
    ensures { RuleGives (spec.take_value to.now a) result }
{
    let value = decay(alloc, a)?;
    let null = is_null_for(to, &value);
    value_for_type(alloc, to, value, null)
}
