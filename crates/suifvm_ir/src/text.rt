//! The text of programs.

ghost use Rattle.std.specs.Prelude.{◌≡◌, ◌<◌, ◌^◌, ◌++◌, IfOk, OnOk, length};
ghost use Rattle.suifvm_ir.specs.Text.{program_text};

use crate::insn::VmInsn;
use crate::lines::{InsnText, put_functions};
use crate::program::VmProgram;
use crate::text_parts::put_insn;
use pass_core::function::Func;
use std::alloc::{AllocError, Global};

/// The text of instructions that call these functions.
#[derive(Drop)]
struct VmInsnText<'a> {
    functions: &'a [Func<VmInsn>],
}

impl<'a> InsnText<VmInsn> for VmInsnText<'a> {
    ghost use Rattle.suifvm_ir.specs.Text.{insn_text};

    ghost text = { λ t i. insn_text t.functions.now i };

    fn put_insn(&self, out: &mut Vec<u8>, insn: &VmInsn) -> Result<(), AllocError> {
        put_insn(out, self.functions, insn)
    }
}

/// Puts the functions of a program.
fn put_program(out: &mut Vec<u8>, functions: &[Func<VmInsn>]) -> Result<(), AllocError>
    requires { length functions.now < 2 ^ 32 }
    ensures { OnOk result (out.new.items ≡ out.old.items ++ program_text functions.now) }
{
    put_functions(out, &VmInsnText { functions }, functions)
}

/// The text of a program: for each function a line with its name, for each block one with its number, and for each
/// instruction one with its number over the whole program and its text. It fails only where memory is short.
pub fn vm_text(alloc: Global, program: &VmProgram) -> Result<Vec<u8>, AllocError>
    ensures { IfOk result (λ bytes. bytes.items ≡ program_text program.now.functions) }
{
    let mut out = Vec::new(alloc);
    put_program(&mut out, program.functions.as_slice())?;
    Ok(out)
}
