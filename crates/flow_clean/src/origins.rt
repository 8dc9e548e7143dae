//! Of which register another one is a copy, by when each was written last.

ghost use Rattle.std.specs.Prelude.{◌≡◌, ◌<◌, All, length, map, slice_get, slice_set, IfOk};
ghost use Rattle.suifvm_ir.specs.Insns.{writes_of};
ghost use Rattle.flow_clean.specs.Copies.{move_source, with_reads, with_returned};
ghost use Rattle.flow_clean.specs.model.Origins.{origin, is_before, noted};

use pass_core::Insn;
use std::alloc::{AllocError, Global};
use suifvm_ir::insn::{TypedRegister, VmInsn, VmUnaryOp};
use suifvm_ir::operands::ArgumentRegisters;

/// When a register was written last, counted in instructions, and of which register it was a copy then: of itself where
/// of no other.
#[derive(Clone, Copy, Debug)]
pub(crate) struct LastWrite {
    pub(crate) when: u32,
    pub(crate) source: u32,
}

/// The last write of a register, if there is such a register.
fn last_write(writes: &[LastWrite], register: u32) -> Option<LastWrite>
    ensures { result ≡ slice_get writes.now register }
{
    writes.get(register as usize).copied()
}

/// Whether a register was written last before some time.
fn is_before(writes: &[LastWrite], register: u32, when: u32) -> bool
    ensures { result ≡ is_before writes.now register when }
{
    match last_write(writes, register) {
        None => false,
        Some(last) => last.when < when,
    }
}

/// The register of which another one is a copy, in the block that began at some time: itself where of no other.
fn origin(writes: &[LastWrite], start: u32, register: u32) -> u32
    ensures { result ≡ origin writes.now start register }
{
    match last_write(writes, register) {
        None => register,
        Some(last) => {
            if start <= last.when && is_before(writes, last.source, last.when) {
                last.source
            } else {
                register
            }
        }
    }
}

/// The registers of which others are copies. It fails only where memory is short.
#[tactic(auto, using(crate::proofs::LastWrites::origins_more))]
fn origins(
    alloc: Global,
    writes: &[LastWrite],
    start: u32,
    registers: &[u32],
) -> Result<ArgumentRegisters, AllocError>
    ensures { IfOk result (λ made. made ≡ map (origin writes.now start) registers.now) }
{
    let mut made = ArgumentRegisters::new(alloc);
    for register in registers {
        made.push(origin(writes, start, *register))?;
    }
    Ok(made)
}

/// What a return gives, from the register of which its own is a copy.
fn returned(writes: &[LastWrite], start: u32, value: Option<TypedRegister>) -> Option<TypedRegister>
    ensures { result ≡ with_returned (origin writes.now start) value }
{
    match value {
        None => None,
        Some(value) => Some(TypedRegister {
            ty: value.ty,
            register: origin(writes, start, value.register),
        }),
    }
}

/// An instruction that reads the registers of which those are copies that another one reads, and else is the same. It
/// fails only where memory is short.
pub(crate) fn with_origins(
    alloc: Global,
    writes: &[LastWrite],
    start: u32,
    insn: &VmInsn,
) -> Result<VmInsn, AllocError>
    ensures { IfOk result (λ made. made ≡ with_reads (origin writes.now start) insn.now) }
{
    Ok(match insn {
        VmInsn::LoadConstant {
            ty,
            destination,
            word,
        } => VmInsn::LoadConstant {
            ty: *ty,
            destination: *destination,
            word: *word,
        },
        VmInsn::LoadAddress {
            destination,
            place,
            plus,
        } => VmInsn::LoadAddress {
            destination: *destination,
            place: *place,
            plus: *plus,
        },
        VmInsn::Load {
            ty,
            destination,
            pointer,
            plus,
        } => VmInsn::Load {
            ty: *ty,
            destination: *destination,
            pointer: origin(writes, start, *pointer),
            plus: *plus,
        },
        VmInsn::Store {
            ty,
            pointer,
            plus,
            value,
        } => VmInsn::Store {
            ty: *ty,
            pointer: origin(writes, start, *pointer),
            plus: *plus,
            value: origin(writes, start, *value),
        },
        VmInsn::Copy {
            to,
            from,
            size,
            align,
        } => VmInsn::Copy {
            to: origin(writes, start, *to),
            from: origin(writes, start, *from),
            size: *size,
            align: *align,
        },
        VmInsn::Unary {
            op,
            ty,
            destination,
            source,
        } => VmInsn::Unary {
            op: *op,
            ty: *ty,
            destination: *destination,
            source: origin(writes, start, *source),
        },
        VmInsn::Binary {
            op,
            ty,
            destination,
            left,
            right,
        } => VmInsn::Binary {
            op: *op,
            ty: *ty,
            destination: *destination,
            left: origin(writes, start, *left),
            right: origin(writes, start, *right),
        },
        VmInsn::Shift {
            op,
            ty,
            destination,
            source,
            count,
        } => VmInsn::Shift {
            op: *op,
            ty: *ty,
            destination: *destination,
            source: origin(writes, start, *source),
            count: origin(writes, start, *count),
        },
        VmInsn::Convert {
            from,
            to,
            destination,
            source,
        } => VmInsn::Convert {
            from: *from,
            to: *to,
            destination: *destination,
            source: origin(writes, start, *source),
        },
        VmInsn::Compare {
            op,
            ty,
            destination,
            left,
            right,
        } => VmInsn::Compare {
            op: *op,
            ty: *ty,
            destination: *destination,
            left: origin(writes, start, *left),
            right: origin(writes, start, *right),
        },
        VmInsn::Branch {
            op,
            ty,
            source,
            block,
        } => VmInsn::Branch {
            op: *op,
            ty: *ty,
            source: origin(writes, start, *source),
            block: *block,
        },
        VmInsn::Jump { block } => VmInsn::Jump { block: *block },
        VmInsn::Call {
            destination,
            callee,
            arguments,
        } => VmInsn::Call {
            destination: *destination,
            callee: *callee,
            arguments: origins(alloc, writes, start, arguments.as_slice())?,
        },
        VmInsn::Return { value } => VmInsn::Return {
            value: returned(writes, start, *value),
        },
        VmInsn::Mark => VmInsn::Mark,
        VmInsn::Nop => VmInsn::Nop,
    })
}

/// The register of which another one is a copy that an instruction writes: of itself, unless the instruction moves
/// another one.
fn move_source(insn: &VmInsn, register: u32) -> u32
    ensures { result ≡ move_source insn.now register }
{
    match insn {
        VmInsn::Unary {
            op: VmUnaryOp::Move,
            source,
            ..
        } => *source,
        _ => register,
    }
}

/// Notes the last write of a register.
fn note_write(writes: &mut [LastWrite], register: u32, last: LastWrite)
    requires { register < length writes.now }
    ensures { writes.new ≡ slice_set writes.old register last }
{
    writes[register as usize] = last;
}

/// Notes what an instruction writes at some time.
pub(crate) fn note(writes: &mut [LastWrite], now: u32, insn: &VmInsn)
    requires { All (λ register. register < length writes.now) (writes_of insn.now) }
    ensures { writes.new ≡ noted writes.old now insn.now }
{
    match insn.write_at(0) {
        None => {}
        Some(register) => {
            let source = move_source(insn, register);
            note_write(writes, register, LastWrite { when: now, source });
        }
    }
}
