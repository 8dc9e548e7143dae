//! The text of the flow graphs of a program.

ghost use Rattle.std.specs.Prelude.{◌≡◌, ◌++◌, ◌≤◌, ◌^◌, IfOk, OnOk, length};
ghost use Rattle.cfg.specs.cfg_text.Text as text;

use crate::build;
use bk_containers::Seq;
use pass_core::function::Func;
use std::alloc::{AllocError, Global};
use suifvm_ir::insn::VmInsn;
use suifvm_ir::program::VmProgram;
use suifvm_ir::text_parts::{put, put_block};

/// Puts blocks that may follow one.
#[tactic(auto, using(crate::proofs::CfgText::Loops::followers_next, crate::proofs::CfgText::Loops::followers_end))]
fn put_followers(out: &mut Vec<u8>, followers: &[u32]) -> Result<(), AllocError>
    ensures { OnOk result (out.new.items ≡ out.old.items ++ text.followers_text followers.now) }
{
    for block in followers {
        put(out, " ")?;
        put_block(out, *block)?;
    }
    Ok(())
}

/// Puts the line of a block.
fn put_line(out: &mut Vec<u8>, block: u32, followers: &[u32]) -> Result<(), AllocError>
    ensures { OnOk result (out.new.items ≡ out.old.items ++ text.block_line block followers.now) }
{
    put_block(out, block)?;
    put(out, ":")?;
    put_followers(out, followers)?;
    put(out, "\n")
}

/// Puts the lines of the blocks of a function.
#[tactic(auto, using(crate::proofs::CfgText::Loops::lines_next, crate::proofs::CfgText::Loops::lines_end))]
fn put_lines(out: &mut Vec<u8>, followers: &[Seq<u32>]) -> Result<(), AllocError>
    requires { length followers.now ≤ 2 ^ 32 }
    ensures { OnOk result (out.new.items ≡ out.old.items ++ text.lines_text 0 followers.now) }
{
    for at in 0..followers.len() {
        put_line(out, at as u32, followers[at].as_slice())?;
    }
    Ok(())
}

/// Puts the flow graph of a function.
#[tactic(auto, using(crate::proofs::CfgText::Loops::few_lines))]
fn put_graph(alloc: Global, out: &mut Vec<u8>, function: &Func<VmInsn>) -> Result<(), AllocError>
    ensures { OnOk result (out.new.items ≡ out.old.items ++ text.function_graph function.now) }
{
    let graph = build(alloc, function)?;
    put(out, "func ")?;
    out.extend_from_slice(function.name.as_slice())?;
    put(out, "\n")?;
    put_lines(out, graph.succ.as_slice())
}

/// The text of the flow graphs of a program: for each function a line with its name, and for each block one with its
/// number and the blocks that may follow it. It fails only where memory is short.
#[tactic(auto, using(crate::proofs::CfgText::Loops::graphs_next, crate::proofs::CfgText::Loops::graphs_end))]
pub fn graph_text(alloc: Global, program: &VmProgram) -> Result<Vec<u8>, AllocError>
    ensures { IfOk result (λ bytes. bytes.items ≡ text.graphs_text program.now.functions) }
{
    let mut out = Vec::new(alloc);
    for function in program.functions.as_slice() {
        put_graph(alloc, &mut out, function)?;
    }
    Ok(out)
}
