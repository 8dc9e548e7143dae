//! Pieces of code, each some instructions in front of the code so far.
//!
//! Where a call asks for so many levels, registers of the depths from the one that is given on are there.

ghost use Rattle.std.specs.Prelude.{◌≡◌, ◌+◌, ◌*◌, ◌^◌, ◌<◌, OnOk};
ghost use Rattle.c_typed_tree.specs.View.{type_view};
ghost use Rattle.lowering_code.specs.Registers.{value_register, address_register};
ghost use Rattle.lowering_code.specs.Expressions.{load_from, address_code, narrow_type, fills_register, keeps_register, is_same_register, constant_code, move_code, moved_code, load_code, store_code, convert_code, sized_code, scaled_code, add_code, negate_code, divided_code, unary_code, not_code, branch_by_value_code};

use crate::code::EmittedCode;
use crate::registers::{Registers, memory_type, register_type};
use c_typed_tree::CType;
use std::alloc::AllocError;
use suifvm_ir::insn::{CompareOp, VmBinaryOp, VmBranchOp, VmInsn, VmObject, VmUnaryOp};
use suifvm_ir::types::{MemoryType, VmType};

impl EmittedCode {
    /// A word as a value of a type.
    pub fn constant(
        &mut self,
        r: Registers,
        depth: u32,
        ty: &CType,
        word: u64,
    ) -> Result<(), AllocError>
        requires { r.locals + 5 * (depth + 1) < 2 ^ 32 }
        ensures { OnOk result (self.new ≡ constant_code r.locals depth (type_view ty.now) word self.old) }
    {
        self.plain(VmInsn::LoadConstant {
            ty: register_type(ty),
            destination: r.value(depth, ty),
            word,
        })
    }

    /// A value of a type moves from register to register.
    pub fn move_value(&mut self, ty: &CType, to: u32, from: u32) -> Result<(), AllocError>
        ensures { OnOk result (self.new ≡ move_code (type_view ty.now) to from self.old) }
    {
        self.plain(VmInsn::Unary {
            op: VmUnaryOp::Move,
            ty: register_type(ty),
            destination: to,
            source: from,
        })
    }

    /// The pointer at a depth is moved by a number of bytes.
    pub fn move_pointer(&mut self, r: Registers, depth: u32, plus: u64) -> Result<(), AllocError>
        requires { r.locals + 5 * (depth + 1) < 2 ^ 32 }
        ensures { OnOk result (self.new ≡ moved_code r.locals depth plus self.old) }
    {
        if plus == 0 {
            return Ok(());
        }
        self.plain(VmInsn::Binary {
            op: VmBinaryOp::Add,
            ty: VmType::P64,
            destination: r.address(depth),
            left: r.address(depth),
            right: r.bytes(depth),
        })?;
        self.plain(VmInsn::LoadConstant {
            ty: VmType::S64,
            destination: r.bytes(depth),
            word: plus,
        })
    }

    /// What stands behind the pointer at a depth, moved by so many bytes: a scalar is loaded, of others the value is
    /// the address.
    #[tactic(auto, unfolding(c_typed_tree::specs::model::View::opens))]
    pub fn load(
        &mut self,
        r: Registers,
        depth: u32,
        ty: &CType,
        plus: u64,
    ) -> Result<(), AllocError>
        requires at { r.locals + 5 * (depth + 1) < 2 ^ 32 }
        requires plus { plus < 2 ^ 63 }
        ensures { OnOk result (self.new ≡ load_code r.locals depth (type_view ty.now) plus self.old) }
    {
        match ty {
            CType::Void => Ok(()),
            CType::Int { .. } => self.load_scalar(r, depth, ty, plus),
            CType::Pointer(_) => self.load_scalar(r, depth, ty, plus),
            CType::Array(_, _) => self.move_pointer(r, depth, plus),
            CType::Struct(_) => self.move_pointer(r, depth, plus),
        }
    }

    /// A scalar is loaded from the pointer at a depth, moved by so many bytes.
    pub fn load_scalar(
        &mut self,
        r: Registers,
        depth: u32,
        ty: &CType,
        plus: u64,
    ) -> Result<(), AllocError>
        requires at { r.locals + 5 * (depth + 1) < 2 ^ 32 }
        requires plus { plus < 2 ^ 63 }
        ensures { OnOk result
            (self.new ≡ load_from (type_view ty.now) (value_register r.locals depth (type_view ty.now))
            (address_register r.locals depth) plus self.old) }
    {
        self.load_from(ty, r.value(depth, ty), r.address(depth), plus)
    }

    /// A scalar is loaded from a pointer moved by so many bytes.
    pub fn load_from(
        &mut self,
        ty: &CType,
        destination: u32,
        pointer: u32,
        plus: u64,
    ) -> Result<(), AllocError>
        requires plus { plus < 2 ^ 63 }
        ensures { OnOk result (self.new ≡ load_from (type_view ty.now) destination pointer plus self.old) }
    {
        self.plain(VmInsn::Load {
            ty: memory_type(ty),
            destination,
            pointer,
            plus: plus as i64,
        })
    }

    /// A scalar is stored to a pointer moved by so many bytes.
    pub fn store(
        &mut self,
        ty: &CType,
        pointer: u32,
        plus: u64,
        value: u32,
    ) -> Result<(), AllocError>
        requires plus { plus < 2 ^ 63 }
        ensures { OnOk result (self.new ≡ store_code (type_view ty.now) pointer plus value self.old) }
    {
        self.plain(VmInsn::Store {
            ty: memory_type(ty),
            pointer,
            plus: plus as i64,
            value,
        })
    }

    /// The address of an object, moved by so many bytes.
    pub fn address_of(
        &mut self,
        r: Registers,
        depth: u32,
        place: VmObject,
        plus: u64,
    ) -> Result<(), AllocError>
        requires { r.locals + 5 * (depth + 1) < 2 ^ 32 }
        ensures { OnOk result (self.new ≡ address_code r.locals depth place plus self.old) }
    {
        self.plain(VmInsn::LoadAddress {
            destination: r.address(depth),
            place,
            plus,
        })
    }

    /// An integer at a depth becomes one of another type.
    pub fn convert(
        &mut self,
        r: Registers,
        depth: u32,
        from: &CType,
        to: &CType,
    ) -> Result<(), AllocError>
        requires { r.locals + 5 * (depth + 1) < 2 ^ 32 }
        ensures { OnOk result
            (self.new ≡ convert_code r.locals depth (type_view from.now) (type_view to.now) self.old) }
    {
        if is_kept(from, to) {
            return Ok(());
        }
        self.plain(VmInsn::Convert {
            from: narrow_type(from, to),
            to: register_type(to),
            destination: r.value(depth, to),
            source: r.value(depth, from),
        })
    }

    /// The number of elements at a depth becomes one of bytes. The depth of the size is free.
    fn size(&mut self, r: Registers, depth: u32, free: u32, size: u64) -> Result<(), AllocError>
        requires at { r.locals + 5 * (depth + 1) < 2 ^ 32 }
        requires free { r.locals + 5 * (free + 1) < 2 ^ 32 }
        ensures { OnOk result (self.new ≡ sized_code r.locals depth free size self.old) }
    {
        if size == 1 {
            return Ok(());
        }
        self.plain(VmInsn::Binary {
            op: VmBinaryOp::Multiply,
            ty: VmType::S64,
            destination: r.bytes(depth),
            left: r.bytes(depth),
            right: r.bytes(free),
        })?;
        self.plain(VmInsn::LoadConstant {
            ty: VmType::S64,
            destination: r.bytes(free),
            word: size,
        })
    }

    /// The integer at a depth becomes the bytes of so many elements. The depth of the size is free.
    #[tactic(auto, unfolding(c_typed_tree::specs::model::View::opens))]
    pub fn scale(
        &mut self,
        r: Registers,
        depth: u32,
        free: u32,
        ty: &CType,
        size: u64,
    ) -> Result<(), AllocError>
        requires at { r.locals + 5 * (depth + 1) < 2 ^ 32 }
        requires free { r.locals + 5 * (free + 1) < 2 ^ 32 }
        ensures { OnOk result (self.new ≡ scaled_code r.locals depth free (type_view ty.now) size self.old) }
    {
        self.size(r, depth, free, size)?;
        let long = CType::Int {
            bytes: 8,
            signed: true,
        };
        self.convert(r, depth, ty, &long)
    }

    /// A pointer is moved by a number of bytes.
    pub fn add(&mut self, destination: u32, pointer: u32, bytes: u32) -> Result<(), AllocError>
        ensures { OnOk result (self.new ≡ add_code destination pointer bytes self.old) }
    {
        self.plain(VmInsn::Binary {
            op: VmBinaryOp::Add,
            ty: VmType::P64,
            destination,
            left: pointer,
            right: bytes,
        })
    }

    /// A number of bytes changes its sign.
    pub fn negate(&mut self, bytes: u32) -> Result<(), AllocError>
        ensures { OnOk result (self.new ≡ negate_code bytes self.old) }
    {
        self.plain(VmInsn::Unary {
            op: VmUnaryOp::Negate,
            ty: VmType::S64,
            destination: bytes,
            source: bytes,
        })
    }

    /// A distance in bytes at a depth becomes one in elements. The depth of the size is free.
    pub fn divide(
        &mut self,
        r: Registers,
        depth: u32,
        free: u32,
        size: u64,
    ) -> Result<(), AllocError>
        requires at { r.locals + 5 * (depth + 1) < 2 ^ 32 }
        requires free { r.locals + 5 * (free + 1) < 2 ^ 32 }
        ensures { OnOk result (self.new ≡ divided_code r.locals depth free size self.old) }
    {
        if size == 1 {
            return Ok(());
        }
        self.plain(VmInsn::Binary {
            op: VmBinaryOp::Divide,
            ty: VmType::S64,
            destination: r.bytes(depth),
            left: r.bytes(depth),
            right: r.bytes(free),
        })?;
        self.plain(VmInsn::LoadConstant {
            ty: VmType::S64,
            destination: r.bytes(free),
            word: size,
        })
    }

    /// An operation on the value at a depth.
    pub fn unary(
        &mut self,
        op: VmUnaryOp,
        r: Registers,
        depth: u32,
        ty: &CType,
    ) -> Result<(), AllocError>
        requires { r.locals + 5 * (depth + 1) < 2 ^ 32 }
        ensures { OnOk result (self.new ≡ unary_code r.locals op depth (type_view ty.now) self.old) }
    {
        self.plain(VmInsn::Unary {
            op,
            ty: register_type(ty),
            destination: r.value(depth, ty),
            source: r.value(depth, ty),
        })
    }

    /// 1 where the value at a depth is zero or null, else 0. The depth above it is free.
    pub fn not(
        &mut self,
        r: Registers,
        depth: u32,
        ty: &CType,
        operand: &CType,
    ) -> Result<(), AllocError>
        requires { r.locals + 5 * (depth + 2) < 2 ^ 32 }
        ensures { OnOk result (self.new ≡ not_code r.locals depth (type_view ty.now) (type_view operand.now) self.old) }
    {
        self.plain(VmInsn::Compare {
            op: CompareOp::Equal,
            ty: register_type(operand),
            destination: r.value(depth, ty),
            left: r.value(depth, operand),
            right: r.value(depth + 1, operand),
        })?;
        self.constant(r, depth + 1, operand, 0)
    }

    /// A branch by the value at a depth.
    pub fn branch_by(
        &mut self,
        op: VmBranchOp,
        r: Registers,
        depth: u32,
        ty: &CType,
        name: usize,
    ) -> Result<(), AllocError>
        requires { r.locals + 5 * (depth + 1) < 2 ^ 32 }
        ensures { OnOk result (self.new ≡ branch_by_value_code r.locals op depth (type_view ty.now) name self.old) }
    {
        self.branch(op, register_type(ty), r.value(depth, ty), name)
    }
}

/// The bytes that a conversion takes of a word, and how it extends them.
#[tactic(auto, unfolding(c_typed_tree::specs::model::View::opens))]
fn narrow_type(from: &CType, to: &CType) -> MemoryType
    ensures { result ≡ narrow_type (type_view from.now) (type_view to.now) }
{
    match to {
        CType::Int { bytes: 8, .. } => memory_type(from),
        CType::Int { .. } => memory_type(to),
        CType::Void => memory_type(from),
        CType::Pointer(_) => memory_type(from),
        CType::Array(_, _) => memory_type(from),
        CType::Struct(_) => memory_type(from),
    }
}

/// Every word of the register is one of the type.
#[tactic(auto, unfolding(c_typed_tree::specs::model::View::opens))]
fn is_whole(ty: &CType) -> bool
    ensures { result ≡ fills_register (type_view ty.now) }
{
    match ty {
        CType::Int { bytes, .. } => *bytes == 8 || *bytes == 4,
        CType::Void => true,
        CType::Pointer(_) => true,
        CType::Array(_, _) => true,
        CType::Struct(_) => true,
    }
}

fn is_same_register(a: VmType, b: VmType) -> bool
    ensures { result ≡ is_same_register a b }
{
    match (a, b) {
        (VmType::S32, VmType::S32) => true,
        (VmType::U32, VmType::U32) => true,
        (VmType::S64, VmType::S64) => true,
        (VmType::U64, VmType::U64) => true,
        (VmType::P64, VmType::P64) => true,
        _ => false,
    }
}

/// A conversion leaves the register as it is.
fn is_kept(from: &CType, to: &CType) -> bool
    ensures { result ≡ keeps_register (type_view from.now) (type_view to.now) }
{
    is_same_register(register_type(from), register_type(to)) && is_whole(to)
}
