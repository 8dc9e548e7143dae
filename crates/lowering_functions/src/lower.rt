//! The code of a function.

ghost use Rattle.std.specs.Prelude.{◌≡◌, ◌≤◌, ◌<◌, ◌+◌, ◌*◌, ◌^◌, ◌-◌, max, [], take, length, slice_get, All, OnOk, IfOk};
ghost use Rattle.c_typed_tree.specs.View.{stmt_view};
ghost use Rattle.c_typed_tree.specs.Lawful.{is_main};
ghost use Rattle.lowering_code.specs.Functions.{objects_of, items_of, function_blocks};
ghost use Rattle.lowering_expressions.specs.Scopes.{HasLevels};
ghost use Rattle.lowering_statements.specs.Levels.{stmt_levels};
ghost use Rattle.lowering_statements.specs.Scopes.{stmt_code};
ghost use Rattle.lowering_layout.specs.Tops.{blocks_top};
ghost use Rattle.lowering_layout.specs.Views.{GoesBackToMarks};
ghost use Rattle.lowering_functions.specs.Parts.{stmt_parts};
ghost use Rattle.lowering_functions.specs.Scopes.{LocalHasSize};
ghost use Rattle.lowering_functions.specs.model.Scopes.{parameters_code, number_code};

use crate::memory::objects;
use c_typed_tree::{StructDef, TypedFn};
use lowering_emitter::code::EmittedCode;
use lowering_expressions::{LoweringScope, local_place};
use lowering_layout::function;
use lowering_statements::stmt;
use pass_core::function::Func;
use std::alloc::{AllocError, Global};
use suifvm_ir::insn::VmInsn;

/// An argument comes in the first registers; that of a parameter in memory is stored.
fn parameter(
    code: &mut EmittedCode,
    scope: &LoweringScope<'_>,
    number: u32,
) -> Result<(), AllocError>
    requires { HasLevels scope.now 0 5 }
    ensures { OnOk result (code.new ≡
        number_code scope.now number (slice_get scope.now.locals.now number) code.old) }
{
    match scope.locals.get(number as usize) {
        None => Ok(()),
        Some(local) => {
            if !local.in_memory {
                return Ok(());
            }
            code.store(&local.ty, scope.registers.address(0), 0, number)?;
            local_place(code, scope, 0, number, 0)
        }
    }
}

/// The parameters, of which the last one comes last.
#[tactic(auto, using(crate::proofs::Objects::parameter_more))]
fn parameters(
    code: &mut EmittedCode,
    scope: &LoweringScope<'_>,
    params: u32,
) -> Result<(), AllocError>
    requires levels { HasLevels scope.now 0 5 }
    requires few { params ≤ length scope.now.locals.now }
    ensures { OnOk result (code.new ≡
        parameters_code scope.now 0 (take params scope.now.locals.now) code.old) }
{
    let mut k = params;
    while k > 0 {
        k -= 1;
        parameter(code, scope, k)?;
    }
    Ok(())
}

/// The code of the parameters and the body of a function.
fn body(alloc: Global, scope: &LoweringScope<'_>, f: &TypedFn) -> Result<EmittedCode, AllocError>
    requires few { f.now.params ≤ length scope.now.locals.now }
    requires levels { HasLevels scope.now 0 (max 5 (stmt_levels (stmt_view f.now.body))) }
    ensures { IfOk result (λ code. code ≡
        parameters_code scope.now 0 (take f.now.params scope.now.locals.now)
        (stmt_code scope.now 0 0 (stmt_view f.now.body) [])) }
{
    let mut code = EmittedCode::new(alloc);
    stmt(alloc, &mut code, scope, 0, 0, &f.body)?;
    parameters(&mut code, scope, f.params)?;
    Ok(code)
}

/// The items of a function.
fn items(alloc: Global, structs: &[StructDef], f: &TypedFn) -> Result<EmittedCode, AllocError>
    requires few { f.now.params ≤ length f.now.locals }
    requires registers { length f.now.locals + 5 * max 5 (stmt_levels (stmt_view f.now.body)) < 2 ^ 32 - 1 }
    ensures { IfOk result (λ code. code ≡ items_of structs.now f.now) }
{
    let scope = LoweringScope::new(alloc, structs, f.locals.as_slice())?;
    let code = body(alloc, &scope, f)?;
    Ok(code)
}

fn is_main(f: &TypedFn) -> bool
    ensures { result ≡ is_main f.now }
{
    f.name.as_slice() == b"main".as_slice()
}

/// The code of a function over virtual registers. It fails only where memory is short.
#[tactic(auto, using(crate::proofs::Bodies::good_items, crate::proofs::Bodies::few_items))]
pub fn lower_function(
    alloc: Global,
    structs: &[StructDef],
    f: &TypedFn,
) -> Result<Func<VmInsn>, AllocError>
    requires few { f.now.params ≤ length f.now.locals }
    requires sizes { All (LocalHasSize structs.now) f.now.locals }
    requires registers { length f.now.locals + 5 * max 5 (stmt_levels (stmt_view f.now.body)) < 2 ^ 32 - 1 }
    requires size { 2 * (2 * f.now.params + 16 * stmt_parts (stmt_view f.now.body)) + 3 < 2 ^ 30 }
    ensures name { IfOk result (λ g. g.name ≡ f.now.name) }
    ensures params { IfOk result (λ g. g.params ≡ f.now.params) }
    ensures objects { IfOk result (λ g. g.objects ≡ objects_of structs.now f.now.locals) }
    ensures blocks { IfOk result (λ g. g.blocks ≡ function_blocks structs.now f.now) }
    ensures temps { IfOk result (λ g. g.temps ≡ max g.params (blocks_top g.blocks)) }
    ensures marks { IfOk result (λ g. GoesBackToMarks g.blocks) }
{
    let code = items(alloc, structs, f)?;
    let objects = objects(alloc, structs, f.locals.as_slice())?;
    let name = f.name.copy()?;
    let locals = f.locals.len() as u32;
    function(alloc, name, f.params, objects, locals, is_main(f), code)
}
