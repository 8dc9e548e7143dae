//! The text of programs.

ghost use Rattle.std.specs.Prelude.{◌≡◌, IfOk};
ghost use Rattle.temp_ir.specs.Text.{program_text};

use crate::insn::TempInsn;
use crate::program::TempProgram;
use crate::text_parts::put_insn;
use std::alloc::{AllocError, Global};
use suifvm_ir::lines::{InsnText, put_functions};

/// The text of instructions over temporaries.
#[derive(Drop)]
struct TempInsnText;

impl InsnText<TempInsn> for TempInsnText {
    ghost use Rattle.std.specs.Prelude.{codes};
    ghost use Rattle.temp_ir.specs.Text.{insn_text};

    ghost text = { λ t i. insn_text (codes "t") i };

    fn put_insn(&self, out: &mut Vec<u8>, insn: &TempInsn) -> Result<(), AllocError> {
        put_insn(out, "t", insn)
    }
}

/// The text of a program: for each function a line with its name, for each block one with its number, and for each
/// instruction one with its number over the whole program and its text. It fails only where memory is short.
pub fn temp_text(alloc: Global, program: &TempProgram) -> Result<Vec<u8>, AllocError>
    ensures { IfOk result (λ bytes. bytes.items ≡ program_text program.now.functions) }
{
    let mut out = Vec::new(alloc);
    put_functions(&mut out, &TempInsnText, program.functions.as_slice())?;
    Ok(out)
}
