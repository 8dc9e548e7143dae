//! The items of the routines.

ghost use Rattle.std.specs.Prelude.{◌≡◌, ◌<◌, [], ◌∷◌, ℕ, IfOk, OnOk};
ghost use Rattle.alpha_isa.specs.Lawful.{AreLawfulFields, IsFirstOperand};
ghost use Rattle.alpha_isa.specs.declared.insn.BranchOp.TheVariants.{Br};
ghost use Rattle.alpha_isa.specs.declared.insn.Fields.TheVariants as fields;
ghost use Rattle.alpha_items.specs.declared.item.AsmItem.TheVariants as item;
ghost use Rattle.alpha_rt.specs.Code as code;
ghost use Rattle.alpha_rt.specs.Items as spec;
ghost use Rattle.alpha_rt.specs.Items.{all_items};
ghost use Rattle.alpha_rt.specs.model.Written as written;

use alpha_isa::insn::Operand::{Literal, Reg};
use alpha_isa::insn::{BranchOp, Fields, Insn32, JumpOp, MemoryOp, Operand, OperateOp};
use alpha_items::item::AsmItem;
use std::alloc::{AllocError, Global};

/// Where the common part is entered, and where the routines leave.
const COMMON: u32 = 9;

const EPILOGUE: u32 = 10;

/// Behind the trap of the common part, and before its rounds.
const DIVISION: u32 = 11;

const ROUND: u32 = 12;

/// The items of the eight division routines. Labels 1 to 8 are the entries of `__divq`, `__remq`, `__divqu`,
/// `__remqu`, `__divl`, `__reml`, `__divlu` and `__remlu`, and labels 9 to 20 stand within them. It fails only
/// where memory is short.
pub fn routine_items(alloc: Global) -> Result<Vec<AsmItem>, AllocError>
    ensures { IfOk result (λ v. v.items ≡ all_items) }
{
    let mut items = Vec::new(alloc);
    write_all(alloc, &mut items)?;
    Ok(items)
}

/// All routines, the common part, and the part that leaves.
#[tactic(auto, unfolding(crate::specs::model::Written::all_behind))]
fn write_all(alloc: Global, items: &mut Vec<AsmItem>) -> Result<(), AllocError>
    ensures { OnOk result (items.new.items ≡ written.all_behind items.old.items) }
{
    write_quads(alloc, items)?;
    write_longs(alloc, items)?;
    write_common(alloc, items)?;
    Ok(())
}

/// The routines on words of 64 bits.
#[tactic(auto, unfolding(crate::specs::model::Written::quads_behind))]
fn write_quads(alloc: Global, items: &mut Vec<AsmItem>) -> Result<(), AllocError>
    ensures { OnOk result (items.new.items ≡ written.quads_behind items.old.items) }
{
    write_signed(alloc, items, 1, OperateOp::SubqV, 17)?;
    write(alloc, items, signed_quotient())?;
    write_signed(alloc, items, 2, OperateOp::SubqV, 18)?;
    write(alloc, items, signed_remainder())?;
    write_unsigned(alloc, items, 3)?;
    write(alloc, items, [leave()])?;
    write_unsigned(alloc, items, 4)?;
    write(
        alloc,
        items,
        [operate(OperateOp::Bis, 31, Reg(1), 27), leave()],
    )?;
    Ok(())
}

/// The routines on words of 32 bits.
#[tactic(auto, unfolding(crate::specs::model::Written::longs_behind))]
fn write_longs(alloc: Global, items: &mut Vec<AsmItem>) -> Result<(), AllocError>
    ensures { OnOk result (items.new.items ≡ written.longs_behind items.old.items) }
{
    write_signed(alloc, items, 5, OperateOp::SublV, 19)?;
    write(alloc, items, signed_quotient())?;
    write_signed(alloc, items, 6, OperateOp::SublV, 20)?;
    write(alloc, items, signed_remainder())?;
    write_long(alloc, items, 7)?;
    write(
        alloc,
        items,
        [operate(OperateOp::Addl, 27, Literal(0), 27), leave()],
    )?;
    write_long(alloc, items, 8)?;
    write(
        alloc,
        items,
        [operate(OperateOp::Addl, 1, Literal(0), 27), leave()],
    )?;
    Ok(())
}

/// The common part, and the part that leaves.
#[tactic(auto, unfolding(crate::specs::model::Written::common_behind))]
fn write_common(alloc: Global, items: &mut Vec<AsmItem>) -> Result<(), AllocError>
    ensures { OnOk result (items.new.items ≡ written.common_behind items.old.items) }
{
    write(alloc, items, refusal())?;
    write(alloc, items, preparation())?;
    write(alloc, items, place(13))?;
    write(alloc, items, place(14))?;
    write(alloc, items, place(15))?;
    write(alloc, items, place(16))?;
    write(alloc, items, turn())?;
    write(alloc, items, epilogue())?;
    Ok(())
}

/// A signed routine up to the common part, with its entry and the label behind its test.
#[tactic(auto, unfolding(crate::specs::model::Written::signed_behind))]
fn write_signed(
    alloc: Global,
    items: &mut Vec<AsmItem>,
    entry: u32,
    negation: OperateOp,
    past: u32,
) -> Result<(), AllocError>
    requires { IsFirstOperand negation 31 }
    ensures { OnOk result (items.new.items ≡ written.signed_behind items.old.items entry negation past) }
{
    write(alloc, items, test(entry, negation, past))?;
    write(alloc, items, prologue())?;
    write(alloc, items, magnitudes())?;
    Ok(())
}

/// An unsigned routine up to the common part, with its entry.
#[tactic(auto, unfolding(crate::specs::model::Written::unsigned_behind))]
fn write_unsigned(alloc: Global, items: &mut Vec<AsmItem>, entry: u32) -> Result<(), AllocError>
    ensures { OnOk result (items.new.items ≡ written.unsigned_behind items.old.items entry) }
{
    write(alloc, items, [AsmItem::Label(entry)])?;
    write(alloc, items, prologue())?;
    write(alloc, items, numbers())?;
    Ok(())
}

/// The same of unsigned numbers of 32 bits.
#[tactic(auto, unfolding(crate::specs::model::Written::long_behind))]
fn write_long(alloc: Global, items: &mut Vec<AsmItem>, entry: u32) -> Result<(), AllocError>
    ensures { OnOk result (items.new.items ≡ written.long_behind items.old.items entry) }
{
    write(alloc, items, [AsmItem::Label(entry)])?;
    write(alloc, items, prologue())?;
    write(alloc, items, low_numbers())?;
    Ok(())
}

/// Puts items behind others.
#[tactic(auto, unfolding(crate::specs::model::Written::behind))]
fn write<const N: usize>(
    alloc: Global,
    items: &mut Vec<AsmItem>,
    part: [AsmItem; N],
) -> Result<(), AllocError>
    ensures { OnOk result (items.new.items ≡ written.behind items.old.items part.entry) }
{
    let mut more = Vec::from_array(alloc, part)?;
    items.append(&mut more)
}

// ---- parts

/// The entry of a signed routine, with its test: where the divisor is -1 the dividend is negated, which traps with
/// the code 3 for the least number.
fn test(entry: u32, negation: OperateOp, past: u32) -> [AsmItem; 5]
    requires { IsFirstOperand negation 31 }
    ensures { result ≡ spec.test_items entry negation past }
{
    [
        AsmItem::Label(entry),
        operate(OperateOp::Addq, 25, Literal(1), 28),
        branch(BranchOp::Bne, 28, past),
        operate(negation, 31, Reg(24), 28),
        AsmItem::Label(past),
    ]
}

/// Registers 1 to 4 below the stack's top.
fn prologue() -> [AsmItem; 4]
    ensures { result ≡ spec.plain_items code.prologue }
{
    [
        memory(MemoryOp::Stq, 1, 30, -8),
        memory(MemoryOp::Stq, 2, 30, -16),
        memory(MemoryOp::Stq, 3, 30, -24),
        memory(MemoryOp::Stq, 4, 30, -32),
    ]
}

/// The absolute values of the operands.
fn magnitudes() -> [AsmItem; 7]
    ensures { result ≡ spec.operand_items code.magnitudes }
{
    [
        operate(OperateOp::Cmplt, 24, Reg(31), 28),
        operate(OperateOp::Subq, 31, Reg(24), 27),
        operate(OperateOp::Cmoveq, 28, Reg(24), 27),
        operate(OperateOp::Cmplt, 25, Reg(31), 28),
        operate(OperateOp::Subq, 31, Reg(25), 2),
        operate(OperateOp::Cmoveq, 28, Reg(25), 2),
        branch(BranchOp::Bsr, 4, COMMON),
    ]
}

/// The operands as they are.
fn numbers() -> [AsmItem; 3]
    ensures { result ≡ spec.operand_items code.numbers }
{
    [
        operate(OperateOp::Bis, 31, Reg(24), 27),
        operate(OperateOp::Bis, 31, Reg(25), 2),
        branch(BranchOp::Bsr, 4, COMMON),
    ]
}

/// The low 32 bits of the operands.
fn low_numbers() -> [AsmItem; 3]
    ensures { result ≡ spec.operand_items code.low_numbers }
{
    [
        operate(OperateOp::Zapnot, 24, Literal(0x0F), 27),
        operate(OperateOp::Zapnot, 25, Literal(0x0F), 2),
        branch(BranchOp::Bsr, 4, COMMON),
    ]
}

/// The quotient, which is negative where one of the signs is.
fn signed_quotient() -> [AsmItem; 6]
    ensures { result ≡ spec.answer_items code.signed_quotient }
{
    [
        operate(OperateOp::Cmplt, 24, Reg(31), 28),
        operate(OperateOp::Cmplt, 25, Reg(31), 1),
        operate(OperateOp::Xor, 28, Reg(1), 28),
        operate(OperateOp::Subq, 31, Reg(27), 1),
        operate(OperateOp::Cmovne, 28, Reg(1), 27),
        leave(),
    ]
}

/// The remainder, with the dividend's sign.
fn signed_remainder() -> [AsmItem; 4]
    ensures { result ≡ spec.answer_items code.signed_remainder }
{
    [
        operate(OperateOp::Cmplt, 24, Reg(31), 28), // the sign of the dividend
        operate(OperateOp::Subq, 31, Reg(1), 27),
        operate(OperateOp::Cmoveq, 28, Reg(1), 27),
        leave(),
    ]
}

/// The trap for a divisor 0, with which the common part begins.
fn refusal() -> [AsmItem; 5]
    ensures { result ≡ spec.refusal_items }
{
    [
        AsmItem::Label(COMMON),
        branch(BranchOp::Bne, 2, DIVISION),
        memory(MemoryOp::Lda, 16, 31, 1),
        plain(Fields::Pal { function: 0xAA }),
        AsmItem::Label(DIVISION),
    ]
}

/// No rest so far, and 16 rounds to go.
fn preparation() -> [AsmItem; 3]
    ensures { result ≡ spec.preparation_items }
{
    [
        operate(OperateOp::Bis, 31, Reg(31), 1),
        memory(MemoryOp::Lda, 3, 31, 16),
        AsmItem::Label(ROUND),
    ]
}

/// One place of the quotient.
fn place(past: u32) -> [AsmItem; 9]
    ensures { result ≡ spec.place_items past }
{
    [
        operate(OperateOp::Srl, 27, Literal(63), 28),
        operate(OperateOp::Addq, 27, Reg(27), 27),
        operate(OperateOp::Addq, 1, Reg(1), 1),
        operate(OperateOp::Addq, 1, Reg(28), 1),
        operate(OperateOp::Cmpule, 2, Reg(1), 28),
        branch(BranchOp::Beq, 28, past),
        operate(OperateOp::Subq, 1, Reg(2), 1),
        operate(OperateOp::Addq, 27, Literal(1), 27),
        AsmItem::Label(past),
    ]
}

/// The next round, or the way back.
fn turn() -> [AsmItem; 3]
    ensures { result ≡ spec.turn_items }
{
    [
        operate(OperateOp::Subq, 3, Literal(1), 3),
        branch(BranchOp::Bne, 3, ROUND),
        plain(Fields::Jump {
            op: JumpOp::Ret,
            ra: 31,
            rb: 4,
        }),
    ]
}

/// Registers 1 to 4 as they were, and the way back to the caller.
fn epilogue() -> [AsmItem; 6]
    ensures { result ≡ spec.epilogue_items }
{
    [
        AsmItem::Label(EPILOGUE),
        memory(MemoryOp::Ldq, 1, 30, -8),
        memory(MemoryOp::Ldq, 2, 30, -16),
        memory(MemoryOp::Ldq, 3, 30, -24),
        memory(MemoryOp::Ldq, 4, 30, -32),
        plain(Fields::Jump {
            op: JumpOp::Ret,
            ra: 31,
            rb: 23,
        }),
    ]
}

// ---- items

/// The way out of a routine.
fn leave() -> AsmItem
    ensures { result ≡ item.Branch Br 31 spec.epilogue_label }
{
    branch(BranchOp::Br, 31, EPILOGUE)
}

fn plain(fields: Fields) -> AsmItem
    requires { AreLawfulFields fields }
    ensures { result ≡ item.Plain fields }
{
    AsmItem::Plain(Insn32 { fields })
}

fn operate(op: OperateOp, ra: u8, rb: Operand, rc: u8) -> AsmItem
    requires { AreLawfulFields (fields.Operate op ra rb rc) }
    ensures { result ≡ item.Plain (fields.Operate op ra rb rc) }
{
    plain(Fields::Operate { op, ra, rb, rc })
}

fn memory(op: MemoryOp, ra: u8, rb: u8, disp: i16) -> AsmItem
    requires { AreLawfulFields (fields.Memory op ra rb disp) }
    ensures { result ≡ item.Plain (fields.Memory op ra rb disp) }
{
    plain(Fields::Memory { op, ra, rb, disp })
}

fn branch(op: BranchOp, ra: u8, label: u32) -> AsmItem
    ensures { result ≡ item.Branch op ra label }
{
    AsmItem::Branch { op, ra, label }
}
