//! The graphs of functions, as they are given, without unreachable blocks, and with edges that are split.

ghost use Rattle.std.specs.Prelude.{◌<◌, ◌+◌, ◌*◌, ◌^◌, length};
ghost use Rattle.std.specs.Bool.{OnTrue};
ghost use Rattle.pass_core.specs.Functions.{count_of};

use anyhow::{Result, ensure};
use bk_containers::Seq;
use cfg::{build, linear_order, remove_unreachable};
use cfg_edges::split_edges;
use pass_core::function::Func;
use row_vm_texts::reader::VmReader;
use row_vm_texts::text::{check_text, names_of};
use std::alloc::Global;
use suifvm_checks::size::behind_blocks;
use suifvm_ir::insn::VmInsn;
use suifvm_ir::program::VmProgram;

/// The most blocks of a function whose edges are split, and its most instructions with what counts for them.
const MOST: u64 = 1 << 16;

/// Whether the edges of a function can be split.
fn can_be_split(f: &Func<VmInsn>) -> bool
    ensures { OnTrue result (5 * length f.now.blocks + count_of f.now.blocks < 2 ^ 30) }
{
    let blocks = f.blocks.as_slice();
    if blocks.len() as u64 > MOST {
        return false;
    }
    behind_blocks(MOST, blocks).is_some()
}

/// Puts blocks behind a word.
fn put_numbers(shown: &mut Vec<u8>, alloc: Global, blocks: &[u32]) -> Result<()> {
    for block in blocks {
        shown.extend_from_slice(format!(in alloc; " {block}")?.as_bytes())?;
    }
    shown.push(b'\n')?;
    Ok(())
}

/// Puts a line for each list.
fn put_lists(shown: &mut Vec<u8>, alloc: Global, word: &str, lists: &[Seq<u32>]) -> Result<()> {
    for (block, list) in lists.iter().enumerate() {
        shown.extend_from_slice(format!(in alloc; "{word} {block}:")?.as_bytes())?;
        put_numbers(shown, alloc, list.as_slice())?;
    }
    Ok(())
}

/// Puts the edges of a function and the order of its blocks.
fn put_graph(shown: &mut Vec<u8>, alloc: Global, f: &Func<VmInsn>) -> Result<()> {
    let graph = build(alloc, f)?;
    put_lists(shown, alloc, "succ", graph.succ.as_slice())?;
    put_lists(shown, alloc, "pred", graph.pred.as_slice())?;
    shown.extend_from_slice(b"order")?;
    let order = linear_order(alloc, f)?;
    put_numbers(shown, alloc, order.as_slice())
}

/// Puts the graphs of a function.
fn put_function(shown: &mut Vec<u8>, alloc: Global, f: Func<VmInsn>) -> Result<()> {
    shown.extend_from_slice(b"func ")?;
    shown.extend_from_slice(f.name.as_slice())?;
    shown.push(b'\n')?;
    put_graph(shown, alloc, &f)?;
    let reached = remove_unreachable(alloc, f)?;
    shown.extend_from_slice(b"reached\n")?;
    put_graph(shown, alloc, &reached)?;
    ensure!(can_be_split(&reached), "the function is too large");
    let split = split_edges(alloc, reached)?;
    shown.extend_from_slice(b"split\n")?;
    put_graph(shown, alloc, &split)
}

/// The graphs of the functions of a row.
pub fn answer(alloc: Global, given: &str) -> Result<Vec<u8>> {
    let mut reader = VmReader::new(alloc, names_of(alloc, given)?);
    for line in given.lines() {
        reader.take(line)?;
    }
    let program = reader.program()?;
    check_text(alloc, &program, given)?;
    let VmProgram { functions, .. } = program;
    let mut shown = Vec::new(alloc);
    for f in Seq::into_vec(functions) {
        put_function(&mut shown, alloc, f)?;
    }
    Ok(shown)
}
