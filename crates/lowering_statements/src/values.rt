//! The values of statements: initialisers, tests of loops, and what a call gives.

ghost use Rattle.std.specs.Prelude.{◌≡◌, OnOk, option_map, map, slice_get};
ghost use Rattle.c_typed_tree.specs.View.{type_view, expr_view, local_view, first_view};
ghost use Rattle.lowering_expressions.specs.Levels.{register_levels};
ghost use Rattle.lowering_expressions.specs.Scopes.{HasLevels};
ghost use Rattle.lowering_statements.specs.Levels.{optional_levels, declared_levels, locals_levels, first_levels};
ghost use Rattle.lowering_statements.specs.Scopes.{declare_code, first_code, again_code, test_code, after_code, return_code};
ghost use Rattle.lowering_statements.specs.model.Scopes.{put_code, put_scalar_code, put_local_code, initialise_code, declares_code};

use bk_containers::Box;
use c_typed_tree::{CType, TExpr, TFirst, TLocal};
use lowering_emitter::code::EmittedCode;
use lowering_emitter::registers::register_type;
use lowering_expressions::{LoweringScope, expr, local_place};
use std::alloc::{AllocError, Global};
use suifvm_ir::insn::TypedRegister;

/// The value at the lowest depth comes into a memory local; a struct is copied.
#[tactic(auto, unfolding(c_typed_tree::specs::model::View::opens))]
fn put(
    code: &mut EmittedCode,
    scope: &LoweringScope<'_>,
    ty: &CType,
    number: u32,
) -> Result<(), AllocError>
    requires { HasLevels scope.now 0 5 }
    ensures { OnOk result (code.new ≡ put_code scope.now (type_view ty.now) number code.old) }
{
    match ty {
        CType::Struct(_) => {
            let to = scope.registers.address(1);
            code.copy(scope.structs, to, scope.registers.address(0), ty)?;
            local_place(code, scope, 1, number, 0)
        }
        CType::Void => put_scalar(code, scope, ty, number),
        CType::Int { .. } => put_scalar(code, scope, ty, number),
        CType::Pointer(_) => put_scalar(code, scope, ty, number),
        CType::Array(_, _) => put_scalar(code, scope, ty, number),
    }
}

fn put_scalar(
    code: &mut EmittedCode,
    scope: &LoweringScope<'_>,
    ty: &CType,
    number: u32,
) -> Result<(), AllocError>
    requires { HasLevels scope.now 0 5 }
    ensures { OnOk result (code.new ≡ put_scalar_code scope.now (type_view ty.now) number code.old) }
{
    let value = scope.registers.value(0, ty);
    code.store(ty, scope.registers.address(1), 0, value)?;
    local_place(code, scope, 1, number, 0)
}

/// The value at the lowest depth comes into a local.
fn put_local(
    code: &mut EmittedCode,
    scope: &LoweringScope<'_>,
    number: u32,
) -> Result<(), AllocError>
    requires { HasLevels scope.now 0 5 }
    ensures { OnOk result (code.new ≡
        put_local_code scope.now number (slice_get scope.now.locals.now number) code.old) }
{
    match scope.locals.get(number as usize) {
        None => Ok(()),
        Some(local) => {
            if local.in_memory {
                return put(code, scope, &local.ty, number);
            }
            let value = scope.registers.value(0, &local.ty);
            code.move_value(&local.ty, number, value)
        }
    }
}

/// The code of an initialiser. It fails only where memory is short.
fn initialise(
    alloc: Global,
    code: &mut EmittedCode,
    scope: &LoweringScope<'_>,
    number: u32,
    init: &Option<Box<TExpr>>,
) -> Result<(), AllocError>
    requires own { HasLevels scope.now 0 5 }
    requires value { HasLevels scope.now 0 (optional_levels (option_map expr_view init.now)) }
    ensures { OnOk result (code.new ≡ initialise_code scope.now number (option_map expr_view init.now) code.old) }
{
    match init {
        None => Ok(()),
        Some(value) => {
            put_local(code, scope, number)?;
            expr(alloc, code, scope, 0, value)
        }
    }
}

/// The code of the declaration of a local. It fails only where memory is short.
pub fn declare(
    alloc: Global,
    code: &mut EmittedCode,
    scope: &LoweringScope<'_>,
    local: &TLocal,
) -> Result<(), AllocError>
    requires own { HasLevels scope.now 0 5 }
    requires value { HasLevels scope.now 0 (declared_levels (local_view local.now)) }
    ensures { OnOk result (code.new ≡ declare_code scope.now (local_view local.now) code.old) }
{
    initialise(alloc, code, scope, local.number, &local.init)
}

/// The code of declarations.
fn declares(
    alloc: Global,
    code: &mut EmittedCode,
    scope: &LoweringScope<'_>,
    list: &[TLocal],
) -> Result<(), AllocError>
    requires own { HasLevels scope.now 0 5 }
    requires values { HasLevels scope.now 0 (locals_levels (map local_view list.now)) }
    ensures { OnOk result (code.new ≡ declares_code scope.now (map local_view list.now) code.old) }
{
    let mut i = list.len();
    while i > 0 {
        i -= 1;
        declare(alloc, code, scope, &list[i])?;
    }
    Ok(())
}

/// The code of the first part of a `for`. It fails only where memory is short.
pub fn first(
    alloc: Global,
    code: &mut EmittedCode,
    scope: &LoweringScope<'_>,
    first: &TFirst,
) -> Result<(), AllocError>
    requires own { HasLevels scope.now 0 5 }
    requires values { HasLevels scope.now 0 (first_levels (first_view first.now)) }
    ensures { OnOk result (code.new ≡ first_code scope.now (first_view first.now) code.old) }
{
    match first {
        TFirst::Nothing => Ok(()),
        TFirst::Value(value) => expr(alloc, code, scope, 0, value),
        TFirst::Locals(list) => declares(alloc, code, scope, list.as_slice()),
    }
}

/// The test at the end of a loop. It fails only where memory is short.
pub fn again(
    alloc: Global,
    code: &mut EmittedCode,
    scope: &LoweringScope<'_>,
    e: &TExpr,
) -> Result<(), AllocError>
    requires own { HasLevels scope.now 0 5 }
    requires value { HasLevels scope.now 0 (register_levels (expr_view e.now)) }
    ensures { OnOk result (code.new ≡ again_code scope.now (expr_view e.now) code.old) }
{
    let source = scope.registers.value(0, e.ty());
    code.again(register_type(e.ty()), source)?;
    expr(alloc, code, scope, 0, e)
}

/// The test at the end of a `for`, which may be missing. It fails only where memory is short.
pub fn test(
    alloc: Global,
    code: &mut EmittedCode,
    scope: &LoweringScope<'_>,
    condition: &Option<Box<TExpr>>,
) -> Result<(), AllocError>
    requires own { HasLevels scope.now 0 5 }
    requires value { HasLevels scope.now 0 (optional_levels (option_map expr_view condition.now)) }
    ensures { OnOk result (code.new ≡ test_code scope.now (option_map expr_view condition.now) code.old) }
{
    match condition {
        None => code.repeat(),
        Some(e) => again(alloc, code, scope, e),
    }
}

/// The step of a `for`, which may be missing. It fails only where memory is short.
pub fn after(
    alloc: Global,
    code: &mut EmittedCode,
    scope: &LoweringScope<'_>,
    step: &Option<Box<TExpr>>,
) -> Result<(), AllocError>
    requires own { HasLevels scope.now 0 5 }
    requires value { HasLevels scope.now 0 (optional_levels (option_map expr_view step.now)) }
    ensures { OnOk result (code.new ≡ after_code scope.now (option_map expr_view step.now) code.old) }
{
    match step {
        None => Ok(()),
        Some(e) => {
            code.start()?;
            expr(alloc, code, scope, 0, e)
        }
    }
}

/// The end of the call, with a value or without. It fails only where memory is short.
pub fn give(
    alloc: Global,
    code: &mut EmittedCode,
    scope: &LoweringScope<'_>,
    value: &Option<Box<TExpr>>,
) -> Result<(), AllocError>
    requires own { HasLevels scope.now 0 5 }
    requires value { HasLevels scope.now 0 (optional_levels (option_map expr_view value.now)) }
    ensures { OnOk result (code.new ≡ return_code scope.now (option_map expr_view value.now) code.old) }
{
    match value {
        None => code.give(None),
        Some(e) => {
            let register = scope.registers.value(0, e.ty());
            code.give(Some(TypedRegister {
                ty: register_type(e.ty()),
                register,
            }))?;
            expr(alloc, code, scope, 0, e)
        }
    }
}
