//! Programs over temporaries.

ghost use Rattle.std.specs.Prelude.{◌≡◌, ◌<◌, ◌^◌, All, length};
ghost use Rattle.mem_objects.specs.Globals.{AreLawful};
ghost use Rattle.temp_ir.specs.Programs.{main_count, IsLawfulTempFn};

use crate::insn::TempInsn;
use bk_containers::Seq;
use mem_objects::DataObject;
use pass_core::function::Func;

/// A program: its functions and its objects of static storage, by their numbers.
#[derive(Drop)]
pub struct TempProgram {
    pub functions: Seq<Func<TempInsn>>,
    pub globals: Seq<DataObject>,
    pub ghost few_functions: { length functions < 2 ^ 32 },
    pub ghost globals_lawful: { ∥ AreLawful globals ∥₁ },
    // exactly one function is `main`
    pub ghost one_main: { main_count functions ≡ 1 },
    // what an instruction names is there, a backward jump goes to a mark, a fixed register that is read was written
    pub ghost functions_lawful: { All (IsLawfulTempFn functions globals) functions },
}
