//! The comma operator (C99 6.5.17).

ghost use Rattle.std.specs.Prelude.{◌≡◌, IfOk, OnOk};
ghost use Rattle.c_typing_primary_rules.specs.Commas as spec;

use bk_containers::{Box, Seq};
use c_typed_tree::{CType, TExpr};
use c_typing_rules::conversions::decay;
use c_typing_rules::{TypedExpression, value};
use std::alloc::{AllocError, Global};

/// Operands that were gathered: their trees, and the type of the last.
#[derive(Drop)]
pub struct CommaOperands {
    pub trees: Seq<TExpr>,
    pub last: CType,
}

/// One value more.
fn gather(gathered: &mut CommaOperands, value: TypedExpression) -> Result<(), AllocError>
    ensures { OnOk result (gathered.new ≡ spec.with_operand value gathered.old) }
{
    let TypedExpression { tree, ty, .. } = value;
    gathered.trees.push(Box::into_inner(tree))?;
    gathered.last = ty;
    Ok(())
}

/// The operands, gathered in their order.
fn gather_all(alloc: Global, operands: Seq<TypedExpression>) -> Result<CommaOperands, AllocError>
    ensures { IfOk result (λ r. r ≡ spec.comma_operands spec.no_operands operands) }
{
    let mut gathered = CommaOperands {
        trees: Seq::new(alloc),
        last: CType::Void,
    };
    let mut rest = Seq::into_vec(operands).into_iter();
    while let Some(operand) = rest.next() {
        let value = decay(alloc, operand)?;
        gather(&mut gathered, value)?;
    }
    Ok(gathered)
}

/// The operands of commas, which are taken as values. The last one is the value of all.
pub fn comma(
    alloc: Global,
    at: u32,
    operands: Seq<TypedExpression>,
) -> Result<TypedExpression, AllocError>
    ensures { IfOk result (λ r. r ≡ spec.comma_value at operands) }
{
    let CommaOperands { trees, last } = gather_all(alloc, operands)?;
    let ty = last.copy(alloc)?;
    let tree = Box::new(
        alloc,
        TExpr::Comma {
            ty,
            operands: trees,
        },
    )?;
    Ok(value(at, last, tree))
}
