//! The function, and where its temporaries stand.

ghost use Rattle.std.specs.Prelude.{◌≡◌, IfOk, [], ◌∷◌};
ghost use Rattle.alloc_model.specs.Places.{plan_of};
ghost use Rattle.alloc_model.specs.Faithful.{Faithful};
ghost use Rattle.frame_rows.specs.callee_saved_rows.Keeping as spec;

use crate::callee_saved_rows::registers::KeptRegister;
use alloc_model::allocation::{Allocation, TempPlace, Transfer};
use bk_containers::{Name, Seq};
use pass_core::block::Block;
use pass_core::function::Func;
use std::alloc::{AllocError, Global};
use temp_ir::insn::{FirstOperand, FixedRegister, SecondOperand, TempInsn};
use temp_ir::operation::{AddressOp, Operation};

/// The temporary that is kept over the call.
const KEPT: u32 = 0;

/// The temporary with what the called function returned.
const ANSWER: u32 = 1;

/// The temporary with the sum of both.
const SUM: u32 = 2;

/// The register of what was returned, which calls end.
const ANSWER_REGISTER: u8 = 1;

/// The register of the sum, which calls end.
const SUM_REGISTER: u8 = 2;

/// The one block.
fn kept_sum_block(alloc: Global, value: i16, callee: u32) -> Result<Block<TempInsn>, AllocError>
    ensures { IfOk result (λ block. block ≡ spec.kept_sum value callee) }
{
    let mut block = Block::new(alloc);
    block.push(TempInsn::Address {
        op: AddressOp::Lda,
        destination: KEPT,
        base: FirstOperand::Zero,
        plus: value,
    })?;
    block.push(TempInsn::Call {
        function: callee,
        arguments: 0,
    })?;
    block.push(TempInsn::FromFixed {
        destination: ANSWER,
        register: FixedRegister::Value,
    })?;
    block.push(TempInsn::Operate {
        op: Operation::Addq,
        destination: SUM,
        left: FirstOperand::Temp(KEPT),
        right: SecondOperand::Temp(ANSWER),
    })?;
    block.push(TempInsn::ToFixed {
        register: FixedRegister::Value,
        source: SUM,
    })?;
    block.push(TempInsn::Return { with_value: true })?;
    Ok(block)
}

/// The function of this block.
fn function(
    alloc: Global,
    name: &[u8],
    value: i16,
    callee: u32,
) -> Result<Func<TempInsn>, AllocError>
    ensures name { IfOk result (λ f. f.name ≡ name.now) }
    ensures params { IfOk result (λ f. f.params ≡ 0) }
    ensures temps { IfOk result (λ f. f.temps ≡ 3) }
    ensures objects { IfOk result (λ f. f.objects ≡ []) }
    ensures blocks { IfOk result (λ f. f.blocks ≡ spec.kept_sum value callee ∷ []) }
{
    let name = Name::from_slice(alloc, name)?;
    let mut blocks = Seq::new(alloc);
    blocks.push(kept_sum_block(alloc, value, callee)?)?;
    Ok(Func {
        name,
        params: 0,
        temps: 3,
        objects: Seq::new(alloc),
        blocks,
    })
}

/// The registers of an instruction.
fn registers_of(alloc: Global, registers: &[u8]) -> Result<Seq<u8>, AllocError>
    ensures { IfOk result (λ list. list ≡ registers.now) }
{
    Ok(Seq::from_vec(Vec::from_slice(alloc, registers)?))
}

/// The registers of all instructions, with this one for the temporary that is kept.
fn registers_of_all(alloc: Global, register: u8) -> Result<Seq<Seq<u8>>, AllocError>
    ensures { IfOk result (λ lists. lists ≡ spec.stated_registers register) }
{
    let mut lists = Seq::new(alloc);
    lists.push(registers_of(alloc, &[register])?)?;
    lists.push(Seq::new(alloc))?;
    lists.push(registers_of(alloc, &[ANSWER_REGISTER])?)?;
    lists.push(registers_of(alloc, &[register, ANSWER_REGISTER, SUM_REGISTER])?)?;
    lists.push(registers_of(alloc, &[SUM_REGISTER])?)?;
    lists.push(Seq::new(alloc))?;
    Ok(lists)
}

/// No transfer before any of the instructions.
fn no_transfers(alloc: Global) -> Result<Seq<Seq<Transfer>>, AllocError>
    ensures { IfOk result (λ lists. lists ≡ spec.no_transfers) }
{
    let mut lists = Seq::new(alloc);
    lists.push(Seq::new(alloc))?;
    lists.push(Seq::new(alloc))?;
    lists.push(Seq::new(alloc))?;
    lists.push(Seq::new(alloc))?;
    lists.push(Seq::new(alloc))?;
    lists.push(Seq::new(alloc))?;
    Ok(lists)
}

/// The map of the one block, which names no temporary.
fn no_places(alloc: Global) -> Result<Seq<Seq<TempPlace>>, AllocError>
    ensures { IfOk result (λ maps. maps ≡ [] ∷ []) }
{
    let mut maps = Seq::new(alloc);
    maps.push(Seq::new(alloc))?;
    Ok(maps)
}

/// A function without parameters that puts a value into a register, calls another function without arguments, and
/// returns the sum of the value and of what that one returned. The value stays in the register over the call; no other
/// of the registers 9 to 15 is used. The journal is empty. It fails only where memory is short.
pub fn kept_over_call(
    alloc: Global,
    name: &[u8],
    register: KeptRegister,
    value: i16,
    callee: u32,
) -> Result<Allocation, AllocError>
    ensures faithful { IfOk result (λ a. Faithful (plan_of a)) }
    ensures plan { IfOk result (λ a. plan_of a ≡ spec.kept_plan (spec.kept_number register) value callee) }
    ensures name { IfOk result (λ a. a.func.name ≡ name.now) }
    ensures objects { IfOk result (λ a. a.func.objects ≡ []) }
    ensures journal { IfOk result (λ a. a.journal ≡ []) }
{
    let top = no_places(alloc)?;
    let bottom = no_places(alloc)?;
    let at = no_transfers(alloc)?;
    let regs = registers_of_all(alloc, register.number())?;
    Ok(Allocation {
        func: function(alloc, name, value, callee)?,
        top,
        bottom,
        at,
        regs,
        edges: Seq::new(alloc),
        journal: Seq::new(alloc),
    })
}
