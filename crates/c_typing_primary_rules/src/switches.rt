//! The operand of `switch` (C99 6.8.4.2).

ghost use Rattle.std.specs.Prelude.{◌≡◌, IfOk};
ghost use Rattle.c_typing_primary_rules.specs.Switches as spec;
ghost use Rattle.c_typing_rules.specs.Rulings.{RuleGives};

use bk_arithmetic::integer_type::IntegerType;
use bk_containers::Box;
use c_typed_tree::TExpr;
use c_typed_tree::layout::integer_of;
use c_typing_faults::Kind;
use c_typing_rules::trees::convert_tree;
use c_typing_rules::types::integer_type;
use c_typing_rules::{Refusal, TypedExpression, refuse};
use std::alloc::{AllocError, Global};

/// The operand of a `switch`, promoted, with its promoted type.
#[derive(Drop)]
pub struct SwitchValue {
    pub tree: Box<TExpr>,
    pub ty: IntegerType,
}

fn in_type(alloc: Global, ty: IntegerType, a: TypedExpression) -> Result<SwitchValue, AllocError>
    ensures { IfOk result (λ r. r ≡ spec.in_type ty a) }
{
    let tree = convert_tree(alloc, &integer_type(ty), a)?;
    Ok(SwitchValue { tree, ty })
}

/// The operand of a `switch`.
pub fn switch_operand(alloc: Global, a: TypedExpression) -> Result<SwitchValue, Refusal>
    ensures { RuleGives (spec.switch_operand a) result }
{
    match integer_of(&a.ty) {
        None => Err(refuse(a.at, Kind::BadOperand)),
        Some(t) => Ok(in_type(alloc, t.promote(), a)?),
    }
}
