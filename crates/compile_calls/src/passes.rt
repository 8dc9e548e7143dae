//! The text of a pass.

ghost use Rattle.std.specs.Prelude.{◌≡◌, IfOk, length};
ghost use Rattle.compile_calls.specs.Texts.{IsTextOfPass};

use crate::allocations::{allocations_text, journals_text};
use alloc_live_lines::lives_text;
use alpha_text::print::print_asm;
use c_tree_text::tree_text;
use call_words::compile_options::PassName;
use cfg::cfg_text::graph_text;
use compiler::Built;
use std::alloc::{AllocError, Global};
use suifvm_ir::vm_text;
use temp_ir::temp_text;

/// The text of a pass, of what was made of a text. It fails only where memory is short.
pub fn pass_text(alloc: Global, built: &Built, pass: PassName) -> Result<Vec<u8>, AllocError>
    // Each function has an allocation, as all that a compile makes has.
    requires { length built.now.allocations.items ≡ length built.now.temps.functions }
    ensures { IfOk result (λ text. IsTextOfPass pass built.now text.items) }
{
    match pass {
        PassName::Tree => tree_text(alloc, &built.unit),
        PassName::Vm => vm_text(alloc, &built.vm),
        PassName::Graph => graph_text(alloc, &built.vm),
        PassName::Select => temp_text(alloc, &built.temps),
        PassName::Live => lives_text(alloc, built.temps.functions.as_slice()),
        PassName::Alloc => allocations_text(alloc, built.allocations.as_slice()),
        PassName::Journal => journals_text(alloc, built.allocations.as_slice()),
        PassName::Asm => print_asm(alloc, &built.asm),
    }
}
