//! Units in which each outermost expression is rewritten.

ghost use Rattle.std.specs.Prelude.{◌≤◌, ◌*◌, IfOk};
ghost use Rattle.std.specs.List.{AllZip};
ghost use Rattle.c_typed_tree.specs.Lawful.{IsTypedUnit, IsLawfulUnit};
ghost use Rattle.c_typed_tree.specs.c_typed_height.Heights.{typed_unit_height};
ghost use Rattle.c_semantics.specs.Refines.{UnitRefines};
ghost use Rattle.c_rewrite.specs.Rewritten.{IsRewrittenFn, IsRewritten};

use crate::rewrite_statements::rewrite_statement;
use bk_containers::Seq;
use c_typed_tree::{TypedFn, TypedUnit};
use std::alloc::{AllocError, Global};

fn rewrite_function(alloc: Global, f: TypedFn) -> Result<TypedFn, AllocError>
    ensures { IfOk result (λ made. IsRewrittenFn f made) }
{
    let TypedFn {
        name,
        result: ty,
        params,
        locals,
        body,
    } = f;
    let body = rewrite_statement(alloc, body, locals.as_slice())?;
    Ok(TypedFn {
        name,
        result: ty,
        params,
        locals,
        body,
    })
}

fn rewrite_functions(alloc: Global, list: Seq<TypedFn>) -> Result<Seq<TypedFn>, AllocError>
    ensures { IfOk result (λ made. AllZip IsRewrittenFn list made) }
{
    let mut made = Seq::new(alloc);
    for f in Seq::into_vec(list) {
        made.push(rewrite_function(alloc, f)?)?;
    }
    Ok(made)
}

/// The unit in which each outermost expression is what `FoldConst`, `Simplify` and `DeadArm` make of it, one after the
/// other. Nothing else changes. Where the unit is well typed the result is, and refines it; where it is lawful the result
/// is; and the result is at most twice as high.
/// It fails for want of memory alone, and the unit is given up then.
pub fn rewrite_unit(alloc: Global, unit: TypedUnit) -> Result<TypedUnit, AllocError>
    ensures is { IfOk result (λ made. IsRewritten unit made) }
    ensures refines { IsTypedUnit unit → IfOk result (λ made. UnitRefines made unit) }
    ensures lawful { IsLawfulUnit unit → IfOk result IsLawfulUnit }
    ensures height { IfOk result (λ made. typed_unit_height made ≤ 2 * typed_unit_height unit) }
{
    let TypedUnit {
        structs,
        globals,
        functions,
    } = unit;
    let functions = rewrite_functions(alloc, functions)?;
    Ok(TypedUnit {
        structs,
        globals,
        functions,
    })
}
