//! Instructions over other temporaries.

ghost use Rattle.std.specs.Prelude.{◌≡◌, ◌<◌, Some, IfSome, true, not};
ghost use Rattle.temp_ir.specs.declared.insn.TempInsn.TheVariants.{Operate, Store};
ghost use Rattle.temp_ir.specs.Insns.{reads_of};
ghost use Rattle.block_coalescing.specs.Forms.{form_of, write_of, copy_of};
ghost use Rattle.block_coalescing.specs.Forms as forms;
ghost use Rattle.block_coalescing.specs.Walks.{IsRenamed};
ghost use Rattle.block_coalescing.specs.model.Steps.{put_reads};
ghost use Rattle.block_coalescing.specs.model.Tables.{name_of};

use crate::table::NameTable;
use bk_bits::BitSet;
use pass_core::Insn;
use temp_ir::insn::{FirstOperand, SecondOperand, TempInsn};
use temp_ir::operation::Operation;

/// An operation on other temporaries.
fn operation_with(
    op: Operation,
    left: FirstOperand,
    right: SecondOperand,
    to: u32,
    first: u32,
    second: u32,
) -> TempInsn
    ensures form { form_of result ≡ form_of (Operate op 0 left right) }
    ensures reads { reads_of result ≡ put_reads (reads_of (Operate op 0 left right)) first second }
    ensures write { write_of result ≡ Some to }
{
    match (left, right) {
        (FirstOperand::Zero, SecondOperand::Literal(number)) => TempInsn::Operate {
            op,
            destination: to,
            left: FirstOperand::Zero,
            right: SecondOperand::Literal(number),
        },
        (FirstOperand::Zero, SecondOperand::Temp(_)) => TempInsn::Operate {
            op,
            destination: to,
            left: FirstOperand::Zero,
            right: SecondOperand::Temp(first),
        },
        (FirstOperand::Temp(_), SecondOperand::Literal(number)) => TempInsn::Operate {
            op,
            destination: to,
            left: FirstOperand::Temp(first),
            right: SecondOperand::Literal(number),
        },
        (FirstOperand::Temp(_), SecondOperand::Temp(_)) => TempInsn::Operate {
            op,
            destination: to,
            left: FirstOperand::Temp(first),
            right: SecondOperand::Temp(second),
        },
    }
}

/// The instruction with another destination, if it has one, and with other temporaries in the place of the first and the
/// second that it reads.
fn with_temporaries(insn: TempInsn, to: u32, first: u32, second: u32) -> TempInsn
    ensures form { form_of result ≡ form_of insn }
    ensures reads { reads_of result ≡ put_reads (reads_of insn) first second }
    ensures write { IfSome (write_of result) (λ e. e ≡ to) }
{
    match insn {
        TempInsn::Address {
            op,
            destination: _,
            base: FirstOperand::Zero,
            plus,
        } => TempInsn::Address {
            op,
            destination: to,
            base: FirstOperand::Zero,
            plus,
        },
        TempInsn::Address {
            op,
            destination: _,
            base: FirstOperand::Temp(_),
            plus,
        } => TempInsn::Address {
            op,
            destination: to,
            base: FirstOperand::Temp(first),
            plus,
        },
        TempInsn::ObjectAddress {
            destination: _,
            place,
            plus,
        } => TempInsn::ObjectAddress {
            destination: to,
            place,
            plus,
        },
        TempInsn::Load {
            op,
            destination: _,
            pointer: _,
            plus,
        } => TempInsn::Load {
            op,
            destination: to,
            pointer: first,
            plus,
        },
        TempInsn::Store {
            op,
            value: FirstOperand::Zero,
            pointer: _,
            plus,
        } => TempInsn::Store {
            op,
            value: FirstOperand::Zero,
            pointer: first,
            plus,
        },
        TempInsn::Store {
            op,
            value: FirstOperand::Temp(_),
            pointer: _,
            plus,
        } => TempInsn::Store {
            op,
            value: FirstOperand::Temp(first),
            pointer: second,
            plus,
        },
        TempInsn::Operate {
            op,
            destination: _,
            left,
            right,
        } => operation_with(op, left, right, to, first, second),
        TempInsn::Extend {
            op,
            destination: _,
            source: SecondOperand::Temp(_),
        } => TempInsn::Extend {
            op,
            destination: to,
            source: SecondOperand::Temp(first),
        },
        TempInsn::Extend {
            op,
            destination: _,
            source: SecondOperand::Literal(number),
        } => TempInsn::Extend {
            op,
            destination: to,
            source: SecondOperand::Literal(number),
        },
        TempInsn::ToFixed {
            register,
            source: _,
        } => TempInsn::ToFixed {
            register,
            source: first,
        },
        TempInsn::FromFixed {
            destination: _,
            register,
        } => TempInsn::FromFixed {
            destination: to,
            register,
        },
        TempInsn::SetFixed { register, number } => TempInsn::SetFixed { register, number },
        TempInsn::WriteArgument { number, source: _ } => TempInsn::WriteArgument {
            number,
            source: first,
        },
        TempInsn::ReadArgument {
            destination: _,
            number,
        } => TempInsn::ReadArgument {
            destination: to,
            number,
        },
        TempInsn::Branch {
            op,
            source: _,
            block,
        } => TempInsn::Branch {
            op,
            source: first,
            block,
        },
        TempInsn::Jump { block } => TempInsn::Jump { block },
        TempInsn::Call {
            function,
            arguments,
        } => TempInsn::Call {
            function,
            arguments,
        },
        TempInsn::Divide { routine } => TempInsn::Divide { routine },
        TempInsn::Serve { service } => TempInsn::Serve { service },
        TempInsn::Return { with_value } => TempInsn::Return { with_value },
        TempInsn::Mark => TempInsn::Mark,
    }
}

/// The name of a temporary, if that is below the bound; any number where none is asked for.
fn name_of_read(names: &NameTable, top: &BitSet, temps: u32, read: Option<u32>) -> Option<u32>
    ensures { IfSome result (λ q. IfSome read (λ r. (name_of names.now top.now r ≡ Some q) × (q < temps))) }
{
    match read {
        None => Some(0),
        Some(temp) => match names.name(top, temp) {
            None => None,
            Some(name) => if name < temps { Some(name) } else { None },
        },
    }
}

/// The instruction over the temporaries that now hold what it reads, with another destination. Where there are so many
/// temporaries, these are among them.
pub(crate) fn renamed(
    names: &NameTable,
    top: &BitSet,
    temps: u32,
    insn: TempInsn,
    to: u32,
) -> Option<TempInsn>
    ensures { IfSome result (λ y. IsRenamed temps (name_of names.now top.now) insn y) }
{
    if to >= temps {
        return None;
    }
    let Some(first) = name_of_read(names, top, temps, insn.read_at(0)) else {
        return None;
    };
    let Some(second) = name_of_read(names, top, temps, insn.read_at(1)) else {
        return None;
    };
    Some(with_temporaries(insn, to, first, second))
}

/// The destination and the source of a copy.
pub(crate) fn copied(insn: TempInsn) -> Option<(u32, u32)>
    ensures { IfSome result (λ p. insn ≡ copy_of p.0 p.1) }
{
    match insn {
        TempInsn::Operate {
            op: Operation::Bis,
            destination,
            left: FirstOperand::Zero,
            right: SecondOperand::Temp(source),
        } => Some((destination, source)),
        _ => None,
    }
}

/// Whether the write of a temporary is all that comes of an instruction that has a meaning.
pub(crate) fn is_pure(insn: TempInsn) -> bool
    ensures { result ≡ forms.is_pure insn }
{
    match insn {
        TempInsn::Address { .. } => true,
        TempInsn::ObjectAddress { .. } => true,
        TempInsn::Operate { .. } => !insn.may_trap(),
        TempInsn::Extend { .. } => true,
        TempInsn::FromFixed { .. } => true,
        TempInsn::ReadArgument { .. } => true,
        TempInsn::Load { .. } => false,
        TempInsn::Store { .. } => false,
        TempInsn::ToFixed { .. } => false,
        TempInsn::SetFixed { .. } => false,
        TempInsn::WriteArgument { .. } => false,
        TempInsn::Branch { .. } => false,
        TempInsn::Jump { .. } => false,
        TempInsn::Call { .. } => false,
        TempInsn::Divide { .. } => false,
        TempInsn::Serve { .. } => false,
        TempInsn::Return { .. } => false,
        TempInsn::Mark => false,
    }
}
