//! The items of instructions.

ghost use Rattle.std.specs.Prelude.{◌≡◌, ◌+◌, ◌<◌, ◌++◌, ◌^◌, All, length, slice_index, OnOk};
ghost use Rattle.alpha_isa.specs.Lawful.{IsOperand};
ghost use Rattle.alpha_isa.specs.declared.insn.Fields.TheVariants as fields;
ghost use Rattle.alpha_isa.specs.declared.insn.MemoryOp.TheVariants as m;
ghost use Rattle.temp_ir.specs.Fixed.{register_number};
ghost use Rattle.temp_ir.specs.declared.insn.TempInsn.TheVariants as insn;
ghost use Rattle.temp_ir.specs.Insns.{source_reads, operand_reads};
ghost use Rattle.alloc_model.specs.Effect.{right_index};
ghost use Rattle.frame_steps.specs.function_items.InstructionItems as spec;
ghost use Rattle.frame_steps.specs.function_items.InstructionItems.{insn_items, source_register};
ghost use Rattle.frame_emitter.specs.Settings.{IsFit};
ghost use Rattle.frame_emitter.specs.Layouts.{setting_in};

use crate::accesses::{RETURN, ZERO, frame_address, frame_load, frame_store, register_move};
use crate::items::FrameItems;
use crate::layout::FrameLayout;
use crate::operations::{
    address_op, branch_op, entry_label, extend_op, load_op, operate_op, register_number,
    service_function, store_op,
};
use alpha_isa::insn::{BranchOp as MachineBranch, Fields, MemoryOp, Operand as MachineOperand};
use alpha_items::item::AsmItem;
use std::alloc::AllocError;
use suifvm_ir::insn::VmObject;
use temp_ir::insn::{FirstOperand, FixedRegister, SecondOperand, TempInsn};
use temp_ir::operation::{
    AddressOp, DivisionRoutine, ExtendOp, LoadOp, Operation, Service, StoreOp, TempBranchOp,
};

/// The label of the function with the number 0. That of each other one is its number more.
pub const FUNCTIONS: u32 = 256;

/// What calls of division routines write the return address to.
const ROUTINE_RETURN: u8 = 23;

/// The register that is stated at a place.
fn register(registers: &[u8], place: usize) -> u8
    requires { All (λ r. r < 32) registers.now }
    ensures is { result ≡ slice_index registers.now place }
    ensures small { result < 32 }
{
    match registers.get(place) {
        Some(register) => *register,
        None => 0,
    }
}

/// How many temporaries a first operand reads.
fn behind(source: FirstOperand) -> usize
    ensures is { result ≡ right_index source }
    ensures count { result ≡ length (source_reads source) }
{
    match source {
        FirstOperand::Zero => 0,
        FirstOperand::Temp(_) => 1,
    }
}

/// How many temporaries a second operand reads.
fn operand_count(operand: SecondOperand) -> usize
    ensures { result ≡ length (operand_reads operand) }
{
    match operand {
        SecondOperand::Temp(_) => 1,
        SecondOperand::Literal(_) => 0,
    }
}

/// The register of a first operand.
fn source_register(source: FirstOperand, registers: &[u8]) -> u8
    requires { All (λ r. r < 32) registers.now }
    ensures is { result ≡ source_register source registers.now }
    ensures small { result < 32 }
{
    match source {
        FirstOperand::Zero => ZERO,
        FirstOperand::Temp(_) => register(registers, 0),
    }
}

/// A second operand.
fn operand_at(operand: SecondOperand, registers: &[u8], place: usize) -> MachineOperand
    requires { All (λ r. r < 32) registers.now }
    ensures is { result ≡ spec.machine_operand operand registers.now place }
    ensures small { IsOperand result }
{
    match operand {
        SecondOperand::Temp(_) => MachineOperand::Reg(register(registers, place)),
        SecondOperand::Literal(n) => MachineOperand::Literal(n),
    }
}

fn address(
    items: &mut FrameItems,
    layout: &FrameLayout<'_>,
    registers: &[u8],
    op: AddressOp,
    destination: u32,
    base: FirstOperand,
    plus: i16,
) -> Result<(), AllocError>
    requires { All (λ r. r < 32) registers.now }
    ensures { OnOk result (items.new ≡
        insn_items (setting_in layout.now) registers.now (insn.Address op destination base plus) ++ items.old) }
{
    items.memory(
        address_op(op),
        register(registers, behind(base)),
        source_register(base, registers),
        plus,
    )
}

fn object_address(
    items: &mut FrameItems,
    layout: &FrameLayout<'_>,
    registers: &[u8],
    destination: u32,
    place: VmObject,
    plus: u64,
) -> Result<(), AllocError>
    requires registers { All (λ r. r < 32) registers.now }
    requires fit { IsFit (setting_in layout.now) (insn.ObjectAddress destination place plus) }
    ensures { OnOk result (items.new ≡
        insn_items (setting_in layout.now) registers.now (insn.ObjectAddress destination place plus) ++ items.old) }
{
    match place {
        VmObject::Global(number) => items.put(AsmItem::DataAddress {
            ra: register(registers, 0),
            offset: (layout.global_at(number) + plus) as u32,
        }),
        VmObject::Local(number) => frame_address(
            items,
            register(registers, 0),
            layout.object_at(number) + plus,
        ),
    }
}

fn load(
    items: &mut FrameItems,
    layout: &FrameLayout<'_>,
    registers: &[u8],
    op: LoadOp,
    destination: u32,
    pointer: u32,
    plus: i16,
) -> Result<(), AllocError>
    requires { All (λ r. r < 32) registers.now }
    ensures { OnOk result (items.new ≡
        insn_items (setting_in layout.now) registers.now (insn.Load op destination pointer plus) ++ items.old) }
{
    items.memory(
        load_op(op),
        register(registers, 1),
        register(registers, 0),
        plus,
    )
}

fn store(
    items: &mut FrameItems,
    layout: &FrameLayout<'_>,
    registers: &[u8],
    op: StoreOp,
    value: FirstOperand,
    pointer: u32,
    plus: i16,
) -> Result<(), AllocError>
    requires { All (λ r. r < 32) registers.now }
    ensures { OnOk result (items.new ≡
        insn_items (setting_in layout.now) registers.now (insn.Store op value pointer plus) ++ items.old) }
{
    items.memory(
        store_op(op),
        source_register(value, registers),
        register(registers, behind(value)),
        plus,
    )
}

fn operate(
    items: &mut FrameItems,
    layout: &FrameLayout<'_>,
    registers: &[u8],
    op: Operation,
    destination: u32,
    left: FirstOperand,
    right: SecondOperand,
) -> Result<(), AllocError>
    requires { All (λ r. r < 32) registers.now }
    ensures { OnOk result (items.new ≡
        insn_items (setting_in layout.now) registers.now (insn.Operate op destination left right) ++ items.old) }
{
    items.plain(Fields::Operate {
        op: operate_op(op),
        ra: source_register(left, registers),
        rb: operand_at(right, registers, behind(left)),
        rc: register(registers, behind(left) + operand_count(right)),
    })
}

fn extend(
    items: &mut FrameItems,
    layout: &FrameLayout<'_>,
    registers: &[u8],
    op: ExtendOp,
    destination: u32,
    source: SecondOperand,
) -> Result<(), AllocError>
    requires { All (λ r. r < 32) registers.now }
    ensures { OnOk result (items.new ≡
        insn_items (setting_in layout.now) registers.now (insn.Extend op destination source) ++ items.old) }
{
    items.plain(Fields::Operate {
        op: extend_op(op),
        ra: ZERO,
        rb: operand_at(source, registers, 0),
        rc: register(registers, operand_count(source)),
    })
}

/// A call of the machine.
fn serve(
    items: &mut FrameItems,
    layout: &FrameLayout<'_>,
    registers: &[u8],
    service: Service,
) -> Result<(), AllocError>
    ensures { OnOk result (items.new ≡
        insn_items (setting_in layout.now) registers.now (insn.Serve service) ++ items.old) }
{
    items.plain(Fields::Pal {
        function: service_function(service),
    })
}

/// Moves between temporaries, fixed registers and argument places.
fn set_fixed(items: &mut FrameItems, register: FixedRegister, number: i16) -> Result<(), AllocError>
    ensures { OnOk result (items.new ≡
        spec.plain_item (fields.Memory m.Lda (register_number register) 31 number) ++ items.old) }
{
    items.memory(MemoryOp::Lda, register_number(register), ZERO, number)
}

fn write_argument(
    items: &mut FrameItems,
    layout: &FrameLayout<'_>,
    registers: &[u8],
    number: u32,
    source: u32,
) -> Result<(), AllocError>
    requires registers { All (λ r. r < 32) registers.now }
    requires fit { IsFit (setting_in layout.now) (insn.WriteArgument number source) }
    ensures { OnOk result (items.new ≡
        insn_items (setting_in layout.now) registers.now (insn.WriteArgument number source) ++ items.old) }
{
    frame_store(items, register(registers, 0), 8 * u64::from(number))
}

fn read_argument(
    items: &mut FrameItems,
    layout: &FrameLayout<'_>,
    registers: &[u8],
    destination: u32,
    number: u32,
) -> Result<(), AllocError>
    requires registers { All (λ r. r < 32) registers.now }
    requires fit { IsFit (setting_in layout.now) (insn.ReadArgument destination number) }
    ensures { OnOk result (items.new ≡
        insn_items (setting_in layout.now) registers.now (insn.ReadArgument destination number) ++ items.old) }
{
    frame_load(
        items,
        register(registers, 0),
        layout.size + 8 * u64::from(number),
    )
}

fn branch(
    items: &mut FrameItems,
    layout: &FrameLayout<'_>,
    registers: &[u8],
    op: TempBranchOp,
    source: u32,
    block: u32,
) -> Result<(), AllocError>
    requires registers { All (λ r. r < 32) registers.now }
    requires fit { IsFit (setting_in layout.now) (insn.Branch op source block) }
    ensures { OnOk result (items.new ≡
        insn_items (setting_in layout.now) registers.now (insn.Branch op source block) ++ items.old) }
{
    items.branch(
        branch_op(op),
        register(registers, 0),
        layout.block_label(block),
    )
}

/// A call of a function.
fn call(
    items: &mut FrameItems,
    layout: &FrameLayout<'_>,
    registers: &[u8],
    function: u32,
    arguments: u32,
) -> Result<(), AllocError>
    requires { IsFit (setting_in layout.now) (insn.Call function arguments) }
    ensures { OnOk result (items.new ≡
        insn_items (setting_in layout.now) registers.now (insn.Call function arguments) ++ items.old) }
{
    items.branch(MachineBranch::Bsr, RETURN, FUNCTIONS + function)
}

/// A call of a division routine.
fn divide(
    items: &mut FrameItems,
    layout: &FrameLayout<'_>,
    registers: &[u8],
    routine: DivisionRoutine,
) -> Result<(), AllocError>
    ensures { OnOk result (items.new ≡
        insn_items (setting_in layout.now) registers.now (insn.Divide routine) ++ items.old) }
{
    items.branch(MachineBranch::Bsr, ROUTINE_RETURN, entry_label(routine))
}

/// An instruction with the registers of its temporaries. It fails only where memory is short.
pub fn insn_items(
    items: &mut FrameItems,
    layout: &FrameLayout<'_>,
    registers: &[u8],
    insn: TempInsn,
) -> Result<(), AllocError>
    requires registers { All (λ r. r < 32) registers.now }
    requires fit { IsFit (setting_in layout.now) insn }
    ensures { OnOk result (items.new ≡ insn_items (setting_in layout.now) registers.now insn ++ items.old) }
{
    match insn {
        TempInsn::Address {
            op,
            destination,
            base,
            plus,
        } => address(items, layout, registers, op, destination, base, plus),
        TempInsn::ObjectAddress {
            destination,
            place,
            plus,
        } => object_address(items, layout, registers, destination, place, plus),
        TempInsn::Load {
            op,
            destination,
            pointer,
            plus,
        } => load(items, layout, registers, op, destination, pointer, plus),
        TempInsn::Store {
            op,
            value,
            pointer,
            plus,
        } => store(items, layout, registers, op, value, pointer, plus),
        TempInsn::Operate {
            op,
            destination,
            left,
            right,
        } => operate(items, layout, registers, op, destination, left, right),
        TempInsn::Extend {
            op,
            destination,
            source,
        } => extend(items, layout, registers, op, destination, source),
        TempInsn::ToFixed {
            register: fixed,
            ..
        } => register_move(items, register(registers, 0), register_number(fixed)),
        TempInsn::FromFixed {
            register: fixed,
            ..
        } => register_move(items, register_number(fixed), register(registers, 0)),
        TempInsn::SetFixed { register, number } => set_fixed(items, register, number),
        TempInsn::WriteArgument { number, source } => {
            write_argument(items, layout, registers, number, source)
        }
        TempInsn::ReadArgument {
            destination,
            number,
        } => read_argument(items, layout, registers, destination, number),
        TempInsn::Branch { op, source, block } => {
            branch(items, layout, registers, op, source, block)
        }
        TempInsn::Jump { block } => items.branch(
            MachineBranch::Br,
            ZERO,
            layout.block_label(block),
        ),
        TempInsn::Call {
            function,
            arguments,
        } => call(items, layout, registers, function, arguments),
        TempInsn::Divide { routine } => divide(items, layout, registers, routine),
        TempInsn::Serve { service } => serve(items, layout, registers, service),
        TempInsn::Return { .. } => items.branch(MachineBranch::Br, ZERO, layout.exit_label),
        TempInsn::Mark => Ok(()),
    }
}
