//! The code of operators and of changes of places, behind that of their operands.

ghost use Rattle.std.specs.Prelude.{◌≡◌, ◌+◌, ◌*◌, ◌^◌, ◌<◌, OnOk};
ghost use Rattle.c_typed_tree.specs.View.{type_view};
ghost use Rattle.lowering_code.specs.Expressions.{step_code, step_back_code, pointers_code, operate_code, integers_code, binary_code, combine_in, combine_code, element_code, integer_code, converted_code, copy_code};

use crate::code::EmittedCode;
use crate::operations::{
    alignment_of, element_of, integer_of, is_signed_type, one_type, operation_insn, operation_of,
    operation_type, plain_of, step_operator,
};
use crate::registers::{Registers, register_type};
use crate::sizes::stride;
use bk_arithmetic::integer_type::IntegerType;
use c_tree::{BinaryOp, StepOp};
use c_typed_tree::layout::align_of;
use c_typed_tree::{CType, StructDef};
use std::alloc::AllocError;
use suifvm_ir::insn::{VmBinaryOp as Calculation, VmInsn, VmUnaryOp};
use suifvm_ir::types::VmType;

/// The depths at which the operands of an operator stand, and one that is free.
#[derive(Clone, Copy, Debug, PartialEq, Eq)]
pub struct Depths {
    /// Of the left operand, or of the old value.
    pub left: u32,
    pub right: u32,
    pub free: u32,
}

impl EmittedCode {
    /// The pointer on the left is moved by, or back by, as many elements as the integer on the right says.
    pub fn step_pointer(
        &mut self,
        structs: &[StructDef],
        r: Registers,
        op: BinaryOp,
        at: Depths,
        element: &CType,
        ty: &CType,
    ) -> Result<(), AllocError>
        requires left { r.locals + 5 * (at.left + 1) < 2 ^ 32 }
        requires right { r.locals + 5 * (at.right + 1) < 2 ^ 32 }
        requires free { r.locals + 5 * (at.free + 1) < 2 ^ 32 }
        ensures { OnOk result
            (self.new ≡ step_code r.locals structs.now op at.left at.right at.free (type_view element.now)
            (type_view ty.now) self.old) }
    {
        self.add(r.address(at.left), r.address(at.left), r.bytes(at.right))?;
        if op == BinaryOp::Subtract {
            self.negate(r.bytes(at.right))?;
        }
        self.scale(r, at.right, at.free, ty, stride(structs, element))
    }

    /// The pointer above a depth is moved by as many elements as the integer at the depth says, and comes there.
    pub fn step_back(
        &mut self,
        structs: &[StructDef],
        r: Registers,
        depth: u32,
        element: &CType,
        ty: &CType,
    ) -> Result<(), AllocError>
        requires { r.locals + 5 * (depth + 3) < 2 ^ 32 }
        ensures { OnOk result
            (self.new ≡ step_back_code r.locals structs.now depth (depth + 2) (type_view element.now)
            (type_view ty.now) self.old) }
    {
        self.add(r.address(depth), r.address(depth + 1), r.bytes(depth))?;
        self.scale(r, depth, depth + 2, ty, stride(structs, element))
    }

    /// An operator between two pointers.
    fn pointers(
        &mut self,
        structs: &[StructDef],
        r: Registers,
        op: BinaryOp,
        depth: u32,
        ty: &CType,
        element: &CType,
    ) -> Result<(), AllocError>
        requires { r.locals + 5 * (depth + 3) < 2 ^ 32 }
        ensures { OnOk result
            (self.new ≡ pointers_code r.locals structs.now op depth (type_view ty.now)
            (type_view element.now) self.old) }
    {
        match op {
            BinaryOp::Subtract => {
                self.divide(r, depth, depth + 1, stride(structs, element))?;
                self.plain(VmInsn::Binary {
                    op: Calculation::Subtract,
                    ty: VmType::P64,
                    destination: r.bytes(depth),
                    left: r.address(depth),
                    right: r.address(depth + 1),
                })
            }
            _ => self.plain(operation_insn(
                operation_of(op, false),
                VmType::P64,
                r.value(depth, ty),
                r.address(depth),
                r.address(depth + 1),
            )),
        }
    }

    /// An operator between integers of a type in registers.
    fn operate(
        &mut self,
        op: BinaryOp,
        ty: &CType,
        destination: u32,
        left: u32,
        right: u32,
    ) -> Result<(), AllocError>
        ensures { OnOk result (self.new ≡ operate_code op (type_view ty.now) destination left right self.old) }
    {
        let operation = operation_of(op, is_signed_type(ty));
        self.plain(operation_insn(operation, register_type(ty), destination, left, right))
    }

    /// An operator between integers at a depth and above it.
    fn integers(
        &mut self,
        r: Registers,
        op: BinaryOp,
        depth: u32,
        ty: &CType,
        left: &CType,
        right: &CType,
    ) -> Result<(), AllocError>
        requires { r.locals + 5 * (depth + 3) < 2 ^ 32 }
        ensures { OnOk result
            (self.new ≡ integers_code r.locals op depth (type_view ty.now) (type_view left.now)
            (type_view right.now) self.old) }
    {
        let destination = r.value(depth, ty);
        let from = r.value(depth, left);
        let other = r.value(depth + 1, right);
        self.operate(op, left, destination, from, other)
    }

    /// An operator between a value at a depth and one above it.
    pub fn binary(
        &mut self,
        structs: &[StructDef],
        r: Registers,
        op: BinaryOp,
        depth: u32,
        ty: &CType,
        left: &CType,
        right: &CType,
    ) -> Result<(), AllocError>
        requires { r.locals + 5 * (depth + 3) < 2 ^ 32 }
        ensures { OnOk result
            (self.new ≡ binary_code r.locals structs.now op depth (type_view ty.now) (type_view left.now)
            (type_view right.now) self.old) }
    {
        match (element_of(left), element_of(right)) {
            (Some(element), Some(_)) => self.pointers(structs, r, op, depth, ty, element),
            (Some(element), None) => {
                let at = Depths {
                    left: depth,
                    right: depth + 1,
                    free: depth + 2,
                };
                self.step_pointer(structs, r, op, at, element, right)
            }
            (None, Some(element)) => self.step_back(structs, r, depth, element, left),
            (None, None) => self.integers(r, op, depth, ty, left, right),
        }
    }

    /// What a compound assignment makes of an old value, by an operator in an integer type.
    fn combine_in(
        &mut self,
        r: Registers,
        op: BinaryOp,
        t: IntegerType,
        at: Depths,
        left: &CType,
        ty: &CType,
    ) -> Result<(), AllocError>
        requires left { r.locals + 5 * (at.left + 1) < 2 ^ 32 }
        requires right { r.locals + 5 * (at.right + 1) < 2 ^ 32 }
        requires free { r.locals + 5 * (at.free + 1) < 2 ^ 32 }
        ensures { OnOk result
            (self.new ≡ combine_in r.locals op t at.left at.right (type_view left.now) (type_view ty.now) self.old) }
    {
        let whole = plain_of(t);
        self.convert(r, at.left, &whole, left)?;
        self.plain(operation_insn(
            operation_of(op, t.is_signed()),
            register_type(&whole),
            r.value(at.left, &whole),
            r.value(at.left, &whole),
            r.value(at.right, ty),
        ))?;
        self.convert(r, at.left, left, &whole)
    }

    /// What a compound assignment makes of an old value and the right side.
    pub fn combine(
        &mut self,
        structs: &[StructDef],
        r: Registers,
        op: BinaryOp,
        at: Depths,
        left: &CType,
        ty: &CType,
    ) -> Result<(), AllocError>
        requires left { r.locals + 5 * (at.left + 1) < 2 ^ 32 }
        requires right { r.locals + 5 * (at.right + 1) < 2 ^ 32 }
        requires free { r.locals + 5 * (at.free + 1) < 2 ^ 32 }
        ensures { OnOk result
            (self.new ≡ combine_code r.locals structs.now op at.left at.right at.free (type_view left.now)
            (type_view ty.now) self.old) }
    {
        match element_of(left) {
            Some(element) => self.step_pointer(structs, r, op, at, element, ty),
            None => {
                let t = operation_type(op, integer_of(left), integer_of(ty));
                self.combine_in(r, op, t, at, left, ty)
            }
        }
    }

    /// The place and the index of an element stand at a depth and above it, and its address comes to the depth.
    pub fn element(
        &mut self,
        structs: &[StructDef],
        r: Registers,
        depth: u32,
        left: &CType,
        right: &CType,
    ) -> Result<(), AllocError>
        requires { r.locals + 5 * (depth + 3) < 2 ^ 32 }
        ensures { OnOk result
            (self.new ≡ element_code r.locals structs.now depth (type_view left.now) (type_view right.now) self.old) }
    {
        match (element_of(left), element_of(right)) {
            (Some(element), _) => {
                let at = Depths {
                    left: depth,
                    right: depth + 1,
                    free: depth + 2,
                };
                self.step_pointer(structs, r, BinaryOp::Add, at, element, right)
            }
            (None, Some(element)) => self.step_back(structs, r, depth, element, left),
            (None, None) => Ok(()),
        }
    }

    /// An integer becomes one of another integer type, or a null pointer.
    #[tactic(auto, unfolding(c_typed_tree::specs::model::View::opens))]
    fn convert_integer(
        &mut self,
        r: Registers,
        depth: u32,
        from: &CType,
        to: &CType,
    ) -> Result<(), AllocError>
        requires { r.locals + 5 * (depth + 1) < 2 ^ 32 }
        ensures { OnOk result
            (self.new ≡ integer_code r.locals depth (type_view from.now) (type_view to.now) self.old) }
    {
        match to {
            CType::Int { .. } => self.convert(r, depth, from, to),
            CType::Pointer(_) => self.plain(VmInsn::Unary {
                op: VmUnaryOp::Move,
                ty: VmType::P64,
                destination: r.address(depth),
                source: r.value(depth, from),
            }),
            CType::Void => Ok(()),
            CType::Array(_, _) => Ok(()),
            CType::Struct(_) => Ok(()),
        }
    }

    /// A value becomes one of another type.
    #[tactic(auto, unfolding(c_typed_tree::specs::model::View::opens))]
    pub fn convert_value(
        &mut self,
        r: Registers,
        depth: u32,
        from: &CType,
        to: &CType,
    ) -> Result<(), AllocError>
        requires { r.locals + 5 * (depth + 1) < 2 ^ 32 }
        ensures { OnOk result
            (self.new ≡ converted_code r.locals depth (type_view from.now) (type_view to.now) self.old) }
    {
        match from {
            CType::Int { .. } => self.convert_integer(r, depth, from, to),
            CType::Void => Ok(()),
            CType::Pointer(_) => Ok(()),
            CType::Array(_, _) => Ok(()),
            CType::Struct(_) => Ok(()),
        }
    }

    /// A struct is copied.
    pub fn copy(
        &mut self,
        structs: &[StructDef],
        to: u32,
        from: u32,
        ty: &CType,
    ) -> Result<(), AllocError>
        ensures { OnOk result (self.new ≡ copy_code structs.now to from (type_view ty.now) self.old) }
    {
        self.plain(VmInsn::Copy {
            to,
            from,
            size: stride(structs, ty),
            align: alignment_of(align_of(structs, ty)),
        })
    }
}
