//! The code of forms without operands, and what stands behind the operands of other ones.

ghost use Rattle.std.specs.Prelude.{◌≡◌, ◌+◌, ◌*◌, ◌^◌, ◌<◌, OnOk, IfOk};
ghost use Rattle.c_typed_tree.specs.View.{type_view};
ghost use Rattle.c_typed_tree.specs.model.View.{exprs_view};
ghost use Rattle.lowering_code.specs.Items.{block_total};
ghost use Rattle.lowering_code.specs.Expressions.{vm_builtin, vm_callee};
ghost use Rattle.lowering_expressions.specs.Levels.{levels_above};
ghost use Rattle.lowering_expressions.specs.Scopes.{HasLevels, local_address};
ghost use Rattle.lowering_expressions.specs.model.Scopes.{local_code, global_code, destination_of, call_registers, call_code, combine_register_code, decided_code, both_code};

use crate::places::register_if;
use crate::scope::LoweringScope;
use c_tree::BinaryOp;
use c_typed_tree::{Builtin, CType, Callee, TExpr};
use lowering_emitter::code::EmittedCode;
use lowering_emitter::operators::Depths;
use lowering_emitter::registers::Registers;
use std::alloc::{AllocError, Global};
use suifvm_ir::insn::{VmBuiltin, VmCallee, VmInsn, VmObject};
use suifvm_ir::operands::ArgumentRegisters;

/// The address of a memory local, moved by so many bytes. It fails only where memory is short.
pub fn local_place(
    code: &mut EmittedCode,
    scope: &LoweringScope<'_>,
    depth: u32,
    number: u32,
    plus: u64,
) -> Result<(), AllocError>
    requires { HasLevels scope.now depth 1 }
    ensures { OnOk result (code.new ≡ local_address scope.now depth number plus code.old) }
{
    let object = scope.object(number);
    code.address_of(scope.registers, depth, VmObject::Local(object), plus)
}

/// The value of a local.
pub(crate) fn local(
    code: &mut EmittedCode,
    scope: &LoweringScope<'_>,
    depth: u32,
    ty: &CType,
    number: u32,
) -> Result<(), AllocError>
    requires { HasLevels scope.now depth 1 }
    ensures { OnOk result (code.new ≡ local_code scope.now depth (type_view ty.now) number code.old) }
{
    match register_if(scope, number) {
        Some(register) => {
            let value = scope.registers.value(depth, ty);
            code.move_value(ty, value, register)
        }
        None => {
            code.load(scope.registers, depth, ty, 0)?;
            local_place(code, scope, depth, number, 0)
        }
    }
}

/// The value of an object of static storage.
pub(crate) fn global(
    code: &mut EmittedCode,
    scope: &LoweringScope<'_>,
    depth: u32,
    ty: &CType,
    number: u32,
) -> Result<(), AllocError>
    requires { HasLevels scope.now depth 1 }
    ensures { OnOk result (code.new ≡ global_code scope.now depth (type_view ty.now) number code.old) }
{
    code.load(scope.registers, depth, ty, 0)?;
    code.address_of(scope.registers, depth, VmObject::Global(number), 0)
}

fn vm_builtin(builtin: Builtin) -> VmBuiltin
    ensures { result ≡ vm_builtin builtin }
{
    match builtin {
        Builtin::Putchar => VmBuiltin::PutChar,
        Builtin::Getchar => VmBuiltin::GetChar,
        Builtin::Abort => VmBuiltin::Abort,
        Builtin::Exit => VmBuiltin::Exit,
    }
}

fn vm_callee(callee: Callee) -> VmCallee
    ensures { result ≡ vm_callee callee }
{
    match callee {
        Callee::Function(number) => VmCallee::Function(number),
        Callee::Builtin(builtin) => VmCallee::Builtin(vm_builtin(builtin)),
    }
}

/// Where the result of a call goes.
#[tactic(auto, unfolding(c_typed_tree::specs::model::View::opens))]
fn destination_of(scope: &LoweringScope<'_>, depth: u32, ty: &CType) -> Option<u32>
    requires { HasLevels scope.now depth 1 }
    ensures { result ≡ destination_of scope.now depth (type_view ty.now) }
{
    match ty {
        CType::Void => None,
        CType::Int { .. } => Some(scope.registers.value(depth, ty)),
        CType::Pointer(_) => Some(scope.registers.value(depth, ty)),
        CType::Array(_, _) => Some(scope.registers.value(depth, ty)),
        CType::Struct(_) => Some(scope.registers.value(depth, ty)),
    }
}

/// The registers of arguments, from a depth on. It fails only where memory is short.
///
/// They are gathered in a vector, since where the list of a call grows beyond the places that it has without one, the
/// toolchain's own compiler takes 4 KiB of the stack, which the walk over expressions would hold at each level.
#[tactic(auto, using(crate::proofs::Depths::registers_more))]
fn argument_registers(
    alloc: Global,
    scope: &LoweringScope<'_>,
    depth: u32,
    arguments: &[TExpr],
) -> Result<ArgumentRegisters, AllocError>
    requires { HasLevels scope.now depth (levels_above (exprs_view arguments.now)) }
    ensures { IfOk result (λ o. o ≡ call_registers scope.now depth (exprs_view arguments.now)) }
{
    let mut registers = Vec::new(alloc);
    let mut at = depth;
    for argument in arguments {
        registers.push(scope.registers.value(at, argument.ty()))?;
        at += 1;
    }
    ArgumentRegisters::from_slice(alloc, registers.as_slice())
}

/// The call itself, behind its arguments.
pub(crate) fn call(
    alloc: Global,
    code: &mut EmittedCode,
    scope: &LoweringScope<'_>,
    depth: u32,
    ty: &CType,
    callee: Callee,
    arguments: &[TExpr],
) -> Result<(), AllocError>
    requires own { HasLevels scope.now depth 1 }
    requires arguments { HasLevels scope.now depth (levels_above (exprs_view arguments.now)) }
    ensures { OnOk result (code.new ≡
        call_code scope.now depth (type_view ty.now) callee (exprs_view arguments.now) code.old) }
{
    let registers = argument_registers(alloc, scope, depth, arguments)?;
    code.plain(VmInsn::Call {
        destination: destination_of(scope, depth, ty),
        callee: vm_callee(callee),
        arguments: registers,
    })
}

/// What a compound assignment to a register does behind its right side, which stands one depth above.
pub(crate) fn combine_register(
    code: &mut EmittedCode,
    scope: &LoweringScope<'_>,
    depth: u32,
    op: BinaryOp,
    ty: &CType,
    right: &CType,
    local: u32,
) -> Result<(), AllocError>
    requires { HasLevels scope.now depth 5 }
    ensures { OnOk result (code.new ≡
        combine_register_code scope.now depth op (type_view ty.now) (type_view right.now) local code.old) }
{
    let value = scope.registers.value(depth, ty);
    let at = Depths {
        left: depth,
        right: depth + 1,
        free: depth + 2,
    };
    code.move_value(ty, local, value)?;
    code.combine(scope.structs, scope.registers, op, at, ty, right)?;
    code.move_value(ty, value, local)
}

/// What stands behind the second operand of `&&` or `||`: the value where it does not decide, and then where one
/// decided. Gives the name of the block of the latter.
pub(crate) fn decision(
    code: &mut EmittedCode,
    r: Registers,
    depth: u32,
    ty: &CType,
    word: u64,
    other: u64,
) -> Result<usize, AllocError>
    requires { r.locals + 5 * (depth + 1) < 2 ^ 32 }
    ensures name { IfOk result (λ n. n ≡ block_total (decided_code r.locals depth (type_view ty.now) word code.old)) }
    ensures code { OnOk result (code.new ≡ both_code r.locals depth (type_view ty.now) word other code.old) }
{
    let end = code.name();
    code.start()?;
    code.constant(r, depth, ty, word)?;
    let name = code.name();
    code.jump(end)?;
    code.constant(r, depth, ty, other)?;
    Ok(name)
}
