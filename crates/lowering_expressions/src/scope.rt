//! What the numbers in a function name.

ghost use Rattle.std.specs.Prelude.{◌≡◌, ℕ, IfOk, get_or, length, ◌<◌, ◌^◌};
ghost use Rattle.lowering_code.specs.Registers.{object_index};

use c_typed_tree::{Local, StructDef};
use lowering_emitter::registers::Registers;
use std::alloc::{AllocError, Global};

/// The structs of a unit, and the locals of a function with their registers and objects.
#[derive(Drop)]
pub struct LoweringScope<'a> {
    pub structs: &'a [StructDef],
    pub locals: &'a [Local],
    pub registers: Registers,
    /// For each local, how many of those before it are objects.
    pub objects: Vec<u32>,
    /// The number of objects.
    pub object_count: u32,
    pub ghost objects_are: { (k : ℕ) → get_or objects.items k object_count ≡ object_index locals.now k },
}

impl<'a> LoweringScope<'a> {
    /// The scope of a function with these locals. It fails only where memory is short.
    pub fn new(
        alloc: Global,
        structs: &'a [StructDef],
        locals: &'a [Local],
    ) -> Result<LoweringScope<'a>, AllocError>
        requires { length locals.now < 2 ^ 32 }
        ensures structs { IfOk result (λ s. s.structs.now ≡ structs.now) }
        ensures locals { IfOk result (λ s. s.locals.now ≡ locals.now) }
        ensures registers { IfOk result (λ s. s.registers.locals ≡ length locals.now) }
    {
        let mut objects = Vec::new(alloc);
        let mut object_count = 0u32;
        for local in locals {
            objects.push(object_count)?;
            object_count += u32::from(local.in_memory);
        }
        Ok(LoweringScope {
            structs,
            locals,
            registers: Registers {
                locals: locals.len() as u32,
            },
            objects,
            object_count,
        })
    }

    /// The object of a memory local.
    pub fn object(&self, local: u32) -> u32
        ensures { result ≡ object_index self.now.locals.now local }
    {
        match self.objects.get(local as usize) {
            Some(object) => *object,
            None => self.object_count,
        }
    }
}
