//! The code of instructions.

ghost use Rattle.std.specs.Prelude.{◌≡◌, ◌++◌, ◌-◌, ◌^◌, OnOk};
ghost use Rattle.selection_code.specs.Instructions as code;
ghost use Rattle.selection_code.specs.Fields.{HasFields, HasNumbers};
ghost use Rattle.suifvm_zero_branches.specs.Tests.{tested_insn};
ghost use Rattle.suifvm_zero_branches.specs.model.Registers.{KnownIsBelow};

use crate::calls::{put_call, put_return};
use crate::temporaries::temp_of;
use pass_core::block::Block;
use selection_forms::alpha_copies::copies::put_copy;
use selection_forms::alpha_forms::accesses::{put_load, put_store};
use selection_forms::alpha_forms::constants::put_constant;
use selection_forms::alpha_forms::operations::{
    branch_op, put_binary, put_compare, put_convert, put_shift, put_unary,
};
use std::alloc::AllocError;
use suifvm_ir::insn::VmInsn;
use suifvm_zero_branches::RegisterFact;
use temp_ir::insn::TempInsn;

/// Puts the code of an instruction, where this is known of registers. Where memory is short a part of it may have been
/// put.
pub(crate) fn put_insn(
    out: &mut Block<TempInsn>,
    known: RegisterFact,
    insn: &VmInsn,
) -> Result<(), AllocError>
    requires numbers { HasNumbers insn.now }
    requires known { KnownIsBelow (2 ^ 32 - 4) known }
    ensures put { OnOk result (out.new ≡ out.old ++ code.selected_insn (tested_insn known insn.now)) }
    ensures fields { OnOk result (HasFields insn.now) }
{
    match insn {
        VmInsn::LoadConstant {
            ty: _,
            destination,
            word,
        } => put_constant(out, temp_of(*destination), *word),
        VmInsn::LoadAddress {
            destination,
            place,
            plus,
        } => out.push(TempInsn::ObjectAddress {
            destination: temp_of(*destination),
            place: *place,
            plus: *plus,
        }),
        VmInsn::Load {
            ty,
            destination,
            pointer,
            plus,
        } => put_load(out, *ty, temp_of(*destination), temp_of(*pointer), *plus),
        VmInsn::Store {
            ty,
            pointer,
            plus,
            value,
        } => put_store(out, *ty, temp_of(*pointer), *plus, temp_of(*value)),
        VmInsn::Copy {
            to,
            from,
            size,
            align,
        } => put_copy(out, *align, temp_of(*to), temp_of(*from), *size),
        VmInsn::Unary {
            op,
            ty,
            destination,
            source,
        } => put_unary(out, *op, *ty, temp_of(*destination), temp_of(*source)),
        VmInsn::Binary {
            op,
            ty,
            destination,
            left,
            right,
        } => put_binary(
            out,
            *op,
            *ty,
            temp_of(*destination),
            temp_of(*left),
            temp_of(*right),
        ),
        VmInsn::Shift {
            op,
            ty,
            destination,
            source,
            count,
        } => put_shift(
            out,
            *op,
            *ty,
            temp_of(*destination),
            temp_of(*source),
            temp_of(*count),
        ),
        VmInsn::Convert {
            from,
            to,
            destination,
            source,
        } => put_convert(out, *from, *to, temp_of(*destination), temp_of(*source)),
        VmInsn::Compare {
            op,
            ty,
            destination,
            left,
            right,
        } => put_compare(
            out,
            *op,
            *ty,
            temp_of(*destination),
            temp_of(*left),
            temp_of(*right),
        ),
        VmInsn::Branch {
            op,
            ty,
            source,
            block,
        } => out.push(TempInsn::Branch {
            op: branch_op(*op),
            source: temp_of(known.register(*ty, *source)),
            block: *block,
        }),
        VmInsn::Jump { block } => out.push(TempInsn::Jump { block: *block }),
        VmInsn::Call {
            destination,
            callee,
            arguments,
        } => put_call(out, *destination, *callee, arguments.as_slice()),
        VmInsn::Return { value } => put_return(out, *value),
        VmInsn::Mark => out.push(TempInsn::Mark),
        VmInsn::Nop => Ok(()),
    }
}
