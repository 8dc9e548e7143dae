//! Functions of code.

ghost use Rattle.std.specs.Prelude.{◌≡◌, ◌+◌, ◌*◌, ◌-◌, ◌^◌, ◌<◌, max, length, IfOk, OnOk};
ghost use Rattle.lowering_code.specs.Items.{block_total};
ghost use Rattle.lowering_code.specs.Layout.{with_items, no_block, blocks_of};
ghost use Rattle.lowering_code.specs.Functions.{end_code};
ghost use Rattle.lowering_layout.specs.Good.{IsGood};
ghost use Rattle.lowering_layout.specs.Tops.{blocks_top};
ghost use Rattle.lowering_layout.specs.Views.{layout_view, CountsRegisters, GoesBackToMarks};
ghost use Rattle.lowering_layout.specs.model.Ends.{with_end};

use crate::layout::BlockLayout;
use bk_containers::{Name, Seq};
use lowering_emitter::code::EmittedCode;
use pass_core::block::Block;
use pass_core::function::{Func, MemoryLocal};
use std::alloc::{AllocError, Global};
use suifvm_ir::insn::{TypedRegister, VmInsn};
use suifvm_ir::types::VmType;

/// The blocks of a function, and one more than the greatest register that they name.
#[derive(Drop)]
pub struct FunctionBlocks {
    pub blocks: Seq<Block<VmInsn>>,
    pub temps: u64,
}

/// The end of a call that comes to the end of its function: it gives nothing, but of `main` 0.
fn end(alloc: Global, layout: &mut BlockLayout, locals: u32, main: bool) -> Result<(), AllocError>
    requires { CountsRegisters layout.old }
    ensures is { OnOk result (layout_view layout.new ≡ with_end (end_code locals main) (layout_view layout.old)) }
    ensures counted { OnOk result (CountsRegisters layout.new) }
{
    if main {
        layout.put(VmInsn::LoadConstant {
            ty: VmType::S32,
            destination: locals,
            word: 0,
        })?;
        let value = Some(TypedRegister {
            ty: VmType::S32,
            register: locals,
        });
        return layout.end(alloc, VmInsn::Return { value });
    }
    layout.end(alloc, VmInsn::Return { value: None })
}

/// All items are laid out.
fn items(alloc: Global, code: EmittedCode) -> Result<BlockLayout, AllocError>
    requires { length code < 2 ^ 30 }
    ensures is { IfOk result (λ l. layout_view l ≡ with_items code (no_block (block_total code))) }
    ensures counted { IfOk result (λ l. CountsRegisters l) }
{
    let mut layout = BlockLayout::new(alloc, code.name() as u32);
    let mut items = code.into_items();
    while let Some(item) = items.pop() {
        layout.item(alloc, item)?;
    }
    Ok(layout)
}

/// The blocks of code.
#[tactic(auto, using(crate::proofs::Kept::blocks_done, crate::proofs::Kept::top_done))]
fn code_blocks(
    alloc: Global,
    locals: u32,
    main: bool,
    code: EmittedCode,
) -> Result<FunctionBlocks, AllocError>
    requires { length code < 2 ^ 30 }
    ensures blocks { IfOk result (λ l. l.blocks ≡ blocks_of (end_code locals main) code) }
    ensures temps { IfOk result (λ l. l.temps ≡ blocks_top l.blocks) }
{
    let mut layout = items(alloc, code)?;
    end(alloc, &mut layout, locals, main)?;
    let BlockLayout { blocks, temps, .. } = layout;
    Ok(FunctionBlocks { blocks, temps })
}

/// The function of code, with its name, its number of parameters and its objects. Its number of registers is one more
/// than the greatest that is named, or the number of parameters. It fails only where memory is short.
pub fn function(
    alloc: Global,
    name: Name,
    params: u32,
    objects: Seq<MemoryLocal>,
    locals: u32,
    main: bool,
    code: EmittedCode,
) -> Result<Func<VmInsn>, AllocError>
    requires size { 2 * length code + 3 < 2 ^ 30 }
    requires locals { locals + 1 < 2 ^ 32 }
    requires good { IsGood (2 ^ 32 - 1) 0 code }
    ensures name { IfOk result (λ f. f.name ≡ name) }
    ensures params { IfOk result (λ f. f.params ≡ params) }
    ensures objects { IfOk result (λ f. f.objects ≡ objects) }
    ensures blocks { IfOk result (λ f. f.blocks ≡ blocks_of (end_code locals main) code) }
    ensures temps { IfOk result (λ f. f.temps ≡ max params (blocks_top f.blocks)) }
    ensures marks { IfOk result (λ f. GoesBackToMarks f.blocks) }
{
    let FunctionBlocks { blocks, temps } = code_blocks(alloc, locals, main, code)?;
    Ok(Func {
        name,
        params,
        temps: u64::from(params).max(temps) as u32,
        objects,
        blocks,
    })
}
