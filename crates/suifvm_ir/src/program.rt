//! Programs.

ghost use Rattle.std.specs.Prelude.{◌≡◌, ◌<◌, ◌^◌, All, length};
ghost use Rattle.mem_objects.specs.Globals.{AreLawful};
ghost use Rattle.suifvm_ir.specs.Programs.{main_count, IsLawfulFunction};

use crate::insn::VmInsn;
use bk_containers::Seq;
use mem_objects::DataObject;
use pass_core::function::Func;

/// The greatest size of a program, and the most registers of a function and arguments of a call.
pub const MOST_PROGRAM_SIZE: u32 = 1 << 24;

/// A program: its functions and its objects of static storage, by their numbers.
#[derive(Drop)]
pub struct VmProgram {
    pub functions: Seq<Func<VmInsn>>,
    pub globals: Seq<DataObject>,
    pub ghost few_functions: { length functions < 2 ^ 32 },
    pub ghost globals_lawful: { ∥ AreLawful globals ∥₁ },
    // exactly one function is `main`
    pub ghost one_main: { main_count functions ≡ 1 },
    // what an instruction names is there, a backward jump goes to a mark, and `main` has no parameters
    pub ghost functions_lawful: { All (IsLawfulFunction functions globals) functions },
}
