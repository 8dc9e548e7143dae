//! Calls (C99 6.5.2.2).

ghost use Rattle.std.specs.Prelude.{◌≡◌, IfOk};
ghost use Rattle.c_typing_primary_rules.specs.Calls as spec;
ghost use Rattle.c_typing_rules.specs.Rulings.{RuleGives};

use bk_containers::{Box, Seq};
use c_typed_tree::{CType, Callee, TExpr};
use c_typing_faults::Kind;
use c_typing_rules::{Refusal, TypedExpression, refuse, value};
use std::alloc::{AllocError, Global};

/// The arguments of a function with these parameters. Whether each is converted to the type of its parameter is not
/// judged here.
pub fn count_arguments(
    at: u32,
    parameters: &[CType],
    arguments: Seq<TypedExpression>,
) -> Result<Seq<TypedExpression>, Refusal>
    ensures { RuleGives (spec.count_arguments at parameters.now arguments) result }
{
    if arguments.len() == parameters.len() {
        return Ok(arguments);
    }
    Err(refuse(at, Kind::BadCall))
}

/// A call with arguments that are converted to the types of the parameters.
pub fn call(
    alloc: Global,
    at: u32,
    callee: Callee,
    of: &CType,
    arguments: Seq<TExpr>,
) -> Result<TypedExpression, AllocError>
    ensures { IfOk result (λ r. r ≡ spec.call_rvalue at callee of.now arguments) }
{
    let ty = of.copy(alloc)?;
    let tree = Box::new(
        alloc,
        TExpr::Call {
            ty,
            callee,
            arguments,
        },
    )?;
    let ty = of.copy(alloc)?;
    Ok(value(at, ty, tree))
}
