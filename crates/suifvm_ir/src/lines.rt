//! The lines of functions, over instructions of any kind.

ghost use Rattle.std.specs.Prelude.{◌≡◌, ◌+◌, ◌<◌, ◌^◌, ◌++◌, IfOk, OnOk, length};
ghost use Rattle.bk_ilist.specs.Listing.{items};
ghost use Rattle.pass_core.specs.Functions.{count_of};
ghost use Rattle.suifvm_ir.specs.Lines as lines;

use crate::text_parts::{put, put_block, put_number};
use bk_ilist::IndexList;
use pass_core::Insn;
use pass_core::block::Block;
use pass_core::function::Func;
use std::alloc::AllocError;

/// What an instruction is printed as.
pub trait InsnText<I: Insn> {
    ghost use Rattle.std.specs.Prelude.{◌≡◌, ◌++◌, ℕ, List, OnOk};

    ghost text: { Self → I → List ℕ };

    /// Puts the text of an instruction.
    fn put_insn(&self, out: &mut Vec<u8>, insn: &I) -> Result<(), AllocError>
        ensures { OnOk result (out.new.items ≡ out.old.items ++ text self.now insn.now) };
}

/// Puts the line of an instruction.
fn put_line<I: Insn, T: InsnText<I>>(
    out: &mut Vec<u8>,
    insns: &T,
    number: u64,
    insn: &I,
) -> Result<(), AllocError>
    ensures { OnOk result (out.new.items ≡ out.old.items ++ lines.line_text (T.text insns.now) number insn.now) }
{
    put_number(out, number)?;
    put(out, " ")?;
    insns.put_insn(out, insn)?;
    put(out, "\n")
}

/// Puts the lines of instructions from a number on, and answers the number that follows.
#[tactic(auto, using(crate::proofs::TextLoops::insns_next))]
fn put_insns<I: Insn, T: InsnText<I>>(
    out: &mut Vec<u8>,
    insns: &T,
    mut number: u64,
    list: &IndexList<I>,
) -> Result<u64, AllocError>
    requires { number + length (items list.now.pairs) < 2 ^ 64 }
    ensures text { OnOk result
        (out.new.items ≡ out.old.items ++ lines.insns_text (T.text insns.now) number (items list.now.pairs)) }
    ensures number { IfOk result (λ next. next ≡ number + length (items list.now.pairs)) }
{
    for line in list.iter() {
        let (_id, insn) = line;
        put_line(out, insns, number, insn)?;
        number += 1;
    }
    Ok(number)
}

/// Puts a block, and answers the number that follows its instructions.
fn put_whole_block<I: Insn, T: InsnText<I>>(
    out: &mut Vec<u8>,
    insns: &T,
    at: u32,
    number: u64,
    block: &Block<I>,
) -> Result<u64, AllocError>
    requires { number + length block.now < 2 ^ 64 }
    ensures text { OnOk result
        (out.new.items ≡ out.old.items ++ lines.block_text (T.text insns.now) at number block.now) }
    ensures number { IfOk result (λ next. next ≡ number + length block.now) }
{
    put_block(out, at)?;
    put(out, ":\n")?;
    put_insns(out, insns, number, &block.insns)
}

/// Puts the blocks of a function, and answers the number that follows its instructions.
#[tactic(auto, using(crate::proofs::TextLoops::blocks_next, crate::proofs::TextLoops::blocks_end, crate::proofs::TextLoops::blocks_count, crate::proofs::TextLoops::count_end))]
fn put_blocks<I: Insn, T: InsnText<I>>(
    out: &mut Vec<u8>,
    insns: &T,
    mut number: u64,
    blocks: &[Block<I>],
) -> Result<u64, AllocError>
    requires few { length blocks.now < 2 ^ 30 }
    requires fits { number + count_of blocks.now < 2 ^ 64 }
    ensures text { OnOk result
        (out.new.items ≡ out.old.items ++ lines.blocks_text (T.text insns.now) 0 number blocks.now) }
    ensures number { IfOk result (λ next. next ≡ number + count_of blocks.now) }
{
    for at in 0..blocks.len() {
        number = put_whole_block(out, insns, at as u32, number, &blocks[at])?;
    }
    Ok(number)
}

/// Puts a function, and answers the number that follows its instructions.
fn put_function<I: Insn, T: InsnText<I>>(
    out: &mut Vec<u8>,
    insns: &T,
    number: u64,
    function: &Func<I>,
) -> Result<u64, AllocError>
    requires { number + count_of function.now.blocks < 2 ^ 64 }
    ensures text { OnOk result (out.new.items ≡ out.old.items
        ++ lines.function_text (T.text insns.now) function.now.name number function.now.blocks) }
    ensures number { IfOk result (λ next. next ≡ number + count_of function.now.blocks) }
{
    put(out, "func ")?;
    out.extend_from_slice(function.name.as_slice())?;
    put(out, "\n")?;
    put_blocks(out, insns, number, function.blocks.as_slice())
}

/// Puts functions: for each a line with its name, for each block one with its number, and for each instruction one with
/// its number over all of them and its text.
#[tactic(auto, using(crate::proofs::TextLoops::functions_next, crate::proofs::TextLoops::functions_end))]
pub fn put_functions<I: Insn, T: InsnText<I>>(
    out: &mut Vec<u8>,
    insns: &T,
    functions: &[Func<I>],
) -> Result<(), AllocError>
    requires { length functions.now < 2 ^ 32 }
    ensures { OnOk result (out.new.items ≡ out.old.items
        ++ lines.functions_text (T.text insns.now) (λ f. f.name) (λ f. f.blocks) 0 functions.now) }
{
    let mut number = 0;
    for at in 0..functions.len() {
        number = put_function(out, insns, number, &functions[at])?;
    }
    Ok(())
}
