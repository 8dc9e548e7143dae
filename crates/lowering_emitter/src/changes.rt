//! The code of changes of a place, behind that of the place and the right side.

ghost use Rattle.std.specs.Prelude.{◌≡◌, ◌+◌, ◌*◌, ◌^◌, ◌<◌, true, false, OnOk};
ghost use Rattle.c_typed_tree.specs.View.{type_view};
ghost use Rattle.lowering_code.specs.Expressions.{stepped_code, step_register_code, step_memory_code, set_scalar_code, set_memory_code, combine_memory_code, place_moved_code};

use crate::code::EmittedCode;
use crate::operations::{one_type, step_operator};
use crate::operators::Depths;
use crate::registers::Registers;
use c_tree::{BinaryOp, StepOp};
use c_typed_tree::{CType, StructDef};
use std::alloc::AllocError;

impl EmittedCode {
    /// `++` and `--`: the old value at a depth becomes the new one.
    fn step(
        &mut self,
        structs: &[StructDef],
        r: Registers,
        op: StepOp,
        depth: u32,
        ty: &CType,
    ) -> Result<(), AllocError>
        requires { r.locals + 5 * (depth + 3) < 2 ^ 32 }
        ensures { OnOk result (self.new ≡ stepped_code r.locals structs.now op depth (type_view ty.now) self.old) }
    {
        let one = one_type(ty);
        let at = Depths {
            left: depth,
            right: depth + 1,
            free: depth + 2,
        };
        self.combine(structs, r, step_operator(op), at, ty, &one)?;
        self.constant(r, depth + 1, &one, 1)
    }

    /// `++` and `--` in front of a register: the new value comes to the depth.
    pub fn step_register(
        &mut self,
        structs: &[StructDef],
        r: Registers,
        op: StepOp,
        depth: u32,
        ty: &CType,
        local: u32,
    ) -> Result<(), AllocError>
        requires { r.locals + 5 * (depth + 5) < 2 ^ 32 }
        ensures { OnOk result
            (self.new ≡ step_register_code r.locals structs.now op false depth (type_view ty.now) local self.old) }
    {
        let value = r.value(depth, ty);
        self.move_value(ty, local, value)?;
        self.step(structs, r, op, depth, ty)?;
        self.move_value(ty, value, local)
    }

    /// `++` and `--` behind a register: the old value comes to the depth.
    pub fn step_register_later(
        &mut self,
        structs: &[StructDef],
        r: Registers,
        op: StepOp,
        depth: u32,
        ty: &CType,
        local: u32,
    ) -> Result<(), AllocError>
        requires { r.locals + 5 * (depth + 5) < 2 ^ 32 }
        ensures { OnOk result
            (self.new ≡ step_register_code r.locals structs.now op true depth (type_view ty.now) local self.old) }
    {
        let value = r.value(depth, ty);
        let new = r.value(depth + 1, ty);
        self.move_value(ty, local, new)?;
        self.step(structs, r, op, depth + 1, ty)?;
        self.move_value(ty, new, value)?;
        self.move_value(ty, value, local)
    }

    /// `++` and `--` in front of a place in memory, to which the pointer at the depth leads.
    pub fn step_memory(
        &mut self,
        structs: &[StructDef],
        r: Registers,
        op: StepOp,
        depth: u32,
        plus: u64,
        ty: &CType,
    ) -> Result<(), AllocError>
        requires at { r.locals + 5 * (depth + 5) < 2 ^ 32 }
        requires plus { plus < 2 ^ 63 }
        ensures { OnOk result
            (self.new ≡ step_memory_code r.locals structs.now op false depth plus (type_view ty.now) self.old) }
    {
        let new = r.value(depth + 1, ty);
        let pointer = r.address(depth);
        self.move_value(ty, r.value(depth, ty), new)?;
        self.store(ty, pointer, plus, new)?;
        self.step(structs, r, op, depth + 1, ty)?;
        self.load_from(ty, new, pointer, plus)
    }

    /// `++` and `--` behind a place in memory, to which the pointer at the depth leads.
    pub fn step_memory_later(
        &mut self,
        structs: &[StructDef],
        r: Registers,
        op: StepOp,
        depth: u32,
        plus: u64,
        ty: &CType,
    ) -> Result<(), AllocError>
        requires at { r.locals + 5 * (depth + 5) < 2 ^ 32 }
        requires plus { plus < 2 ^ 63 }
        ensures { OnOk result
            (self.new ≡ step_memory_code r.locals structs.now op true depth plus (type_view ty.now) self.old) }
    {
        let old = r.value(depth + 1, ty);
        let new = r.value(depth + 2, ty);
        let pointer = r.address(depth);
        self.move_value(ty, r.value(depth, ty), old)?;
        self.store(ty, pointer, plus, new)?;
        self.step(structs, r, op, depth + 2, ty)?;
        self.move_value(ty, new, old)?;
        self.load_from(ty, old, pointer, plus)
    }

    /// An assignment to memory: the pointer stands at the depth, the right side above it.
    #[tactic(auto, unfolding(c_typed_tree::specs::model::View::opens))]
    pub fn set_memory(
        &mut self,
        structs: &[StructDef],
        r: Registers,
        depth: u32,
        plus: u64,
        ty: &CType,
    ) -> Result<(), AllocError>
        requires at { r.locals + 5 * (depth + 5) < 2 ^ 32 }
        requires plus { plus < 2 ^ 63 }
        ensures { OnOk result (self.new ≡ set_memory_code r.locals structs.now depth plus (type_view ty.now) self.old) }
    {
        match ty {
            CType::Struct(_) => self.copy(structs, r.address(depth), r.address(depth + 1), ty),
            CType::Void => self.set_scalar(r, depth, plus, ty),
            CType::Int { .. } => self.set_scalar(r, depth, plus, ty),
            CType::Pointer(_) => self.set_scalar(r, depth, plus, ty),
            CType::Array(_, _) => self.set_scalar(r, depth, plus, ty),
        }
    }

    fn set_scalar(
        &mut self,
        r: Registers,
        depth: u32,
        plus: u64,
        ty: &CType,
    ) -> Result<(), AllocError>
        requires at { r.locals + 5 * (depth + 5) < 2 ^ 32 }
        requires plus { plus < 2 ^ 63 }
        ensures { OnOk result (self.new ≡ set_scalar_code r.locals depth plus (type_view ty.now) self.old) }
    {
        let value = r.value(depth + 1, ty);
        self.move_value(ty, r.value(depth, ty), value)?;
        self.store(ty, r.address(depth), plus, value)
    }

    /// A compound assignment to memory: the pointer stands at the depth, the right side above it.
    pub fn combine_memory(
        &mut self,
        structs: &[StructDef],
        r: Registers,
        op: BinaryOp,
        depth: u32,
        plus: u64,
        left: &CType,
        right: &CType,
    ) -> Result<(), AllocError>
        requires at { r.locals + 5 * (depth + 5) < 2 ^ 32 }
        requires plus { plus < 2 ^ 63 }
        ensures { OnOk result
            (self.new ≡ combine_memory_code r.locals structs.now op depth plus (type_view left.now)
            (type_view right.now) self.old) }
    {
        let value = r.value(depth + 2, left);
        let pointer = r.address(depth);
        let at = Depths {
            left: depth + 2,
            right: depth + 1,
            free: depth + 3,
        };
        self.move_value(left, r.value(depth, left), value)?;
        self.store(left, pointer, plus, value)?;
        self.combine(structs, r, op, at, left, right)?;
        self.load_from(left, value, pointer, plus)
    }

    /// The pointer to a struct is moved before it is copied to.
    #[tactic(auto, unfolding(c_typed_tree::specs::model::View::opens))]
    pub fn move_place(
        &mut self,
        r: Registers,
        depth: u32,
        plus: u64,
        ty: &CType,
    ) -> Result<(), AllocError>
        requires { r.locals + 5 * (depth + 5) < 2 ^ 32 }
        ensures { OnOk result (self.new ≡ place_moved_code r.locals (type_view ty.now) depth plus self.old) }
    {
        match ty {
            CType::Struct(_) => self.move_pointer(r, depth, plus),
            CType::Void => Ok(()),
            CType::Int { .. } => Ok(()),
            CType::Pointer(_) => Ok(()),
            CType::Array(_, _) => Ok(()),
        }
    }
}
