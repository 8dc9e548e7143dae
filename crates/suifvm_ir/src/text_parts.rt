//! The text of instructions.

ghost use Rattle.std.specs.Prelude.{◌≡◌, ◌++◌, OnOk, decimal, codes};
ghost use Rattle.std.specs.Fmt.{signed_decimal};
ghost use Rattle.suifvm_ir.specs.Lines.{block_name};
ghost use Rattle.suifvm_ir.specs.Text as text;

use crate::insn::{TypedRegister, VmCallee, VmInsn, VmObject};
use crate::words::{
    binary_word, branch_word, builtin_word, compare_word, memory_word, shift_word, type_word,
    unary_word,
};
use itoa::Buffer;
use pass_core::function::Func;
use std::alloc::AllocError;

/// Puts a word.
pub fn put(out: &mut Vec<u8>, word: &str) -> Result<(), AllocError>
    ensures { OnOk result (out.new.items ≡ out.old.items ++ word.now) }
{
    out.extend_from_slice(word.as_bytes())
}

/// Puts a number.
pub fn put_number(out: &mut Vec<u8>, number: u64) -> Result<(), AllocError>
    ensures { OnOk result (out.new.items ≡ out.old.items ++ decimal number) }
{
    let mut buffer = Buffer::new();
    out.extend_from_slice(buffer.format(number).as_bytes())
}

/// Puts a number with its sign.
pub fn put_signed(out: &mut Vec<u8>, number: i64) -> Result<(), AllocError>
    ensures { OnOk result (out.new.items ≡ out.old.items ++ signed_decimal number) }
{
    let mut buffer = Buffer::new();
    out.extend_from_slice(buffer.format(number).as_bytes())
}

/// Puts a register.
fn put_register(out: &mut Vec<u8>, register: u32) -> Result<(), AllocError>
    ensures { OnOk result (out.new.items ≡ out.old.items ++ text.register_text register) }
{
    put(out, "v")?;
    put_number(out, u64::from(register))
}

/// Puts the name of a block.
pub fn put_block(out: &mut Vec<u8>, block: u32) -> Result<(), AllocError>
    ensures { OnOk result (out.new.items ≡ out.old.items ++ block_name block) }
{
    put(out, "B")?;
    put_number(out, u64::from(block))
}

/// Puts the name of an object.
pub fn put_place(out: &mut Vec<u8>, place: VmObject) -> Result<(), AllocError>
    ensures { OnOk result (out.new.items ≡ out.old.items ++ text.place_name place) }
{
    match place {
        VmObject::Global(k) => {
            put(out, "g")?;
            put_number(out, u64::from(k))
        }
        VmObject::Local(k) => {
            put(out, "m")?;
            put_number(out, u64::from(k))
        }
    }
}

/// Puts two registers.
fn put_two(out: &mut Vec<u8>, a: u32, b: u32) -> Result<(), AllocError>
    ensures { OnOk result (out.new.items ≡ out.old.items ++ text.two_registers a b) }
{
    put_register(out, a)?;
    put(out, ", ")?;
    put_register(out, b)
}

/// Puts three registers.
fn put_three(out: &mut Vec<u8>, a: u32, b: u32, c: u32) -> Result<(), AllocError>
    ensures { OnOk result (out.new.items ≡ out.old.items ++ text.three_registers a b c) }
{
    put_two(out, a, b)?;
    put(out, ", ")?;
    put_register(out, c)
}

/// Puts an operation with its type.
fn put_typed(out: &mut Vec<u8>, op: &str, ty: &str) -> Result<(), AllocError>
    ensures { OnOk result (out.new.items ≡ out.old.items ++ (op.now ++ codes "." ++ ty.now ++ codes " ")) }
{
    put(out, op)?;
    put(out, ".")?;
    put(out, ty)?;
    put(out, " ")
}

/// Puts an operation on three registers.
fn put_triple(
    out: &mut Vec<u8>,
    op: &str,
    ty: &str,
    a: u32,
    b: u32,
    c: u32,
) -> Result<(), AllocError>
    ensures { OnOk result
        (out.new.items ≡ out.old.items ++ text.typed_text op.now ty.now (text.three_registers a b c)) }
{
    put_typed(out, op, ty)?;
    put_three(out, a, b, c)
}

/// Puts the registers, each with a comma before it.
#[tactic(auto, using(crate::proofs::TextLoops::arguments_next, crate::proofs::TextLoops::arguments_end))]
fn put_arguments(out: &mut Vec<u8>, registers: &[u32]) -> Result<(), AllocError>
    ensures { OnOk result (out.new.items ≡ out.old.items ++ text.arguments_text registers.now) }
{
    for register in registers {
        put(out, ", ")?;
        put_register(out, *register)?;
    }
    Ok(())
}

/// Puts the name of a function.
fn put_callee(
    out: &mut Vec<u8>,
    functions: &[Func<VmInsn>],
    callee: VmCallee,
) -> Result<(), AllocError>
    ensures { OnOk result (out.new.items ≡ out.old.items ++ text.callee_name functions.now callee) }
{
    match callee {
        VmCallee::Function(k) => match functions.get(k as usize) {
            None => Ok(()),
            Some(function) => out.extend_from_slice(function.name.as_slice()),
        },
        VmCallee::Builtin(builtin) => put(out, builtin_word(builtin)),
    }
}

/// Puts the register of a call's result.
fn put_destination(out: &mut Vec<u8>, destination: Option<u32>) -> Result<(), AllocError>
    ensures { OnOk result (out.new.items ≡ out.old.items ++ text.destination_text destination) }
{
    match destination {
        None => put(out, "-"),
        Some(register) => put_register(out, register),
    }
}

/// Puts a return.
fn put_return(out: &mut Vec<u8>, value: Option<TypedRegister>) -> Result<(), AllocError>
    ensures { OnOk result (out.new.items ≡ out.old.items ++ text.return_text value) }
{
    match value {
        None => put(out, "ret"),
        Some(value) => {
            put_typed(out, "ret", type_word(value.ty))?;
            put_register(out, value.register)
        }
    }
}

/// Puts the text of an instruction that names neither a block nor a function nor an object.
fn put_plain(out: &mut Vec<u8>, op: &str, ty: &str, a: u32, b: u32) -> Result<(), AllocError>
    ensures { OnOk result (out.new.items ≡ out.old.items ++ text.typed_text op.now ty.now (text.two_registers a b)) }
{
    put_typed(out, op, ty)?;
    put_two(out, a, b)
}

/// Puts a constant that is loaded.
fn put_constant(out: &mut Vec<u8>, ty: &str, destination: u32, word: u64) -> Result<(), AllocError>
    ensures { OnOk result (out.new.items ≡ out.old.items
        ++ text.typed_text (codes "ldc") ty.now (text.register_text destination ++ codes ", " ++ text.word_text word)) }
{
    put_typed(out, "ldc", ty)?;
    put_register(out, destination)?;
    put(out, ", ")?;
    put_signed(out, word.cast_signed())
}

/// Puts an address that is loaded.
fn put_address(
    out: &mut Vec<u8>,
    destination: u32,
    place: VmObject,
    plus: u64,
) -> Result<(), AllocError>
    ensures { OnOk result (out.new.items ≡ out.old.items
        ++ (codes "lda " ++ text.register_text destination ++ codes ", " ++ text.place_name place ++ codes "+"
        ++ decimal plus)) }
{
    put(out, "lda ")?;
    put_register(out, destination)?;
    put(out, ", ")?;
    put_place(out, place)?;
    put(out, "+")?;
    put_number(out, plus)
}

/// Puts a load.
fn put_load(
    out: &mut Vec<u8>,
    ty: &str,
    destination: u32,
    pointer: u32,
    plus: i64,
) -> Result<(), AllocError>
    ensures { OnOk result (out.new.items ≡ out.old.items
        ++ text.typed_text (codes "lod") ty.now
        (text.two_registers destination pointer ++ codes ", " ++ signed_decimal plus)) }
{
    put_typed(out, "lod", ty)?;
    put_two(out, destination, pointer)?;
    put(out, ", ")?;
    put_signed(out, plus)
}

/// Puts a store.
fn put_store(
    out: &mut Vec<u8>,
    ty: &str,
    pointer: u32,
    plus: i64,
    value: u32,
) -> Result<(), AllocError>
    ensures { OnOk result (out.new.items ≡ out.old.items ++ text.typed_text (codes "str") ty.now
        (text.register_text pointer ++ codes ", " ++ signed_decimal plus ++ codes ", " ++ text.register_text value)) }
{
    put_typed(out, "str", ty)?;
    put_register(out, pointer)?;
    put(out, ", ")?;
    put_signed(out, plus)?;
    put(out, ", ")?;
    put_register(out, value)
}

/// Puts a copy.
fn put_copy(out: &mut Vec<u8>, to: u32, from: u32, size: u64, align: u32) -> Result<(), AllocError>
    ensures { OnOk result (out.new.items ≡ out.old.items
        ++ (codes "mcpy " ++ text.two_registers to from ++ codes ", " ++ decimal size ++ codes ", " ++ decimal align)) }
{
    put(out, "mcpy ")?;
    put_two(out, to, from)?;
    put(out, ", ")?;
    put_number(out, size)?;
    put(out, ", ")?;
    put_number(out, u64::from(align))
}

/// Puts a conversion.
fn put_convert(
    out: &mut Vec<u8>,
    from: &str,
    to: &str,
    destination: u32,
    source: u32,
) -> Result<(), AllocError>
    ensures { OnOk result (out.new.items ≡ out.old.items
        ++ text.typed_text (codes "cvt") (from.now ++ codes "." ++ to.now) (text.two_registers destination source)) }
{
    put(out, "cvt.")?;
    put_typed(out, from, to)?;
    put_two(out, destination, source)
}

/// Puts a branch.
fn put_branch(
    out: &mut Vec<u8>,
    op: &str,
    ty: &str,
    source: u32,
    block: u32,
) -> Result<(), AllocError>
    ensures { OnOk result (out.new.items ≡ out.old.items
        ++ text.typed_text op.now ty.now (text.register_text source ++ codes ", " ++ block_name block)) }
{
    put_typed(out, op, ty)?;
    put_register(out, source)?;
    put(out, ", ")?;
    put_block(out, block)
}

/// Puts a jump.
fn put_jump(out: &mut Vec<u8>, block: u32) -> Result<(), AllocError>
    ensures { OnOk result (out.new.items ≡ out.old.items ++ (codes "jmp " ++ block_name block)) }
{
    put(out, "jmp ")?;
    put_block(out, block)
}

/// Puts a call.
fn put_call(
    out: &mut Vec<u8>,
    functions: &[Func<VmInsn>],
    destination: Option<u32>,
    callee: VmCallee,
    arguments: &[u32],
) -> Result<(), AllocError>
    ensures { OnOk result (out.new.items ≡ out.old.items
        ++ (codes "cal " ++ text.destination_text destination ++ codes ", " ++ text.callee_name functions.now callee
        ++ text.arguments_text arguments.now)) }
{
    put(out, "cal ")?;
    put_destination(out, destination)?;
    put(out, ", ")?;
    put_callee(out, functions, callee)?;
    put_arguments(out, arguments)
}

/// Puts an instruction.
pub fn put_insn(
    out: &mut Vec<u8>,
    functions: &[Func<VmInsn>],
    insn: &VmInsn,
) -> Result<(), AllocError>
    ensures { OnOk result (out.new.items ≡ out.old.items ++ text.insn_text functions.now insn.now) }
{
    match insn {
        VmInsn::LoadConstant {
            ty,
            destination,
            word,
        } => put_constant(out, type_word(*ty), *destination, *word),
        VmInsn::LoadAddress {
            destination,
            place,
            plus,
        } => put_address(out, *destination, *place, *plus),
        VmInsn::Load {
            ty,
            destination,
            pointer,
            plus,
        } => { put_load(out, memory_word(*ty), *destination, *pointer, *plus) }
        VmInsn::Store {
            ty,
            pointer,
            plus,
            value,
        } => put_store(out, memory_word(*ty), *pointer, *plus, *value),
        VmInsn::Copy {
            to,
            from,
            size,
            align,
        } => put_copy(out, *to, *from, *size, align.bytes()),
        VmInsn::Unary {
            op,
            ty,
            destination,
            source,
        } => { put_plain(out, unary_word(*op), type_word(*ty), *destination, *source) }
        VmInsn::Binary {
            op,
            ty,
            destination,
            left,
            right,
        } => {
            put_triple(
                out,
                binary_word(*op),
                type_word(*ty),
                *destination,
                *left,
                *right,
            )
        }
        VmInsn::Shift {
            op,
            ty,
            destination,
            source,
            count,
        } => {
            put_triple(
                out,
                shift_word(*op),
                type_word(*ty),
                *destination,
                *source,
                *count,
            )
        }
        VmInsn::Convert {
            from,
            to,
            destination,
            source,
        } => {
            put_convert(
                out,
                memory_word(*from),
                type_word(*to),
                *destination,
                *source,
            )
        }
        VmInsn::Compare {
            op,
            ty,
            destination,
            left,
            right,
        } => {
            put_triple(
                out,
                compare_word(*op),
                type_word(*ty),
                *destination,
                *left,
                *right,
            )
        }
        VmInsn::Branch {
            op,
            ty,
            source,
            block,
        } => { put_branch(out, branch_word(*op), type_word(*ty), *source, *block) }
        VmInsn::Jump { block } => put_jump(out, *block),
        VmInsn::Call {
            destination,
            callee,
            arguments,
        } => { put_call(out, functions, *destination, *callee, arguments.as_slice()) }
        VmInsn::Return { value } => put_return(out, *value),
        VmInsn::Mark => put(out, "mrk"),
        VmInsn::Nop => put(out, "nop"),
    }
}
