//! The text of a function.

ghost use Rattle.std.specs.Prelude.{◌≡◌, ◌++◌, ◌<◌, ◌^◌, length, All, IfOk, OnOk};
ghost use Rattle.bitvector_flow.specs.Flows.{AreBounded};
ghost use Rattle.alloc_live_lines.specs.Text as text;

use crate::lines::{put_ends, put_lifetime};
use alloc_rules::scan::{LifetimePart, Lifetimes};
use bitvector_flow::Flow;
use bk_bits::BitSet;
use bk_containers::Seq;
use pass_core::function::Func;
use std::alloc::{AllocError, Global};
use suifvm_ir::text_parts::put;
use temp_ir::insn::TempInsn;

/// Puts the line with a function's name.
fn put_name(out: &mut Vec<u8>, name: &[u8]) -> Result<(), AllocError>
    ensures { OnOk result (out.new.items ≡ out.old.items ++ text.name_line name.now) }
{
    put(out, "func ")?;
    out.extend_from_slice(name)?;
    put(out, "\n")
}

/// Puts what is live at the ends of each block.
#[tactic(auto, using(crate::proofs::Loops::blocks_next, crate::proofs::Loops::blocks_end))]
fn put_blocks(
    out: &mut Vec<u8>,
    tops: &[BitSet],
    bottoms: &[BitSet],
    count: u32,
) -> Result<(), AllocError>
    requires tops { AreBounded (length tops.now) count tops.now }
    requires bottoms { AreBounded (length tops.now) count bottoms.now }
    requires few { length tops.now < 2 ^ 32 }
    ensures { OnOk result (out.new.items ≡ out.old.items ++ text.live_blocks_text 0 bottoms.now tops.now) }
{
    for block in 0..tops.len() {
        put_ends(out, block as u32, &tops[block], &bottoms[block])?;
    }
    Ok(())
}

/// Puts the lifetimes of temporaries.
#[tactic(auto, using(crate::proofs::Loops::lifetimes_next, crate::proofs::Loops::lifetimes_end))]
fn put_lifetimes(out: &mut Vec<u8>, lists: &[Seq<LifetimePart>]) -> Result<(), AllocError>
    ensures { OnOk result (out.new.items ≡ out.old.items ++ text.lifetimes_text 0 lists.now) }
{
    for temp in 0..lists.len() {
        put_lifetime(out, temp as u64, lists[temp].as_slice())?;
    }
    Ok(())
}

/// Puts the text of a function with sets for its blocks and lists for its temporaries, as `live_text` gives it. It fails
/// only where memory is short.
pub fn put_live(
    out: &mut Vec<u8>,
    f: &Func<TempInsn>,
    live: &Flow,
    lives: &Lifetimes,
) -> Result<(), AllocError>
    requires tops { AreBounded (length f.now.blocks) f.now.temps live.now.top }
    requires bottoms { AreBounded (length f.now.blocks) f.now.temps live.now.bottom }
    ensures { OnOk result (out.new.items
        ≡ out.old.items ++ text.live_function_text f.now.name live.now.top live.now.bottom lives.now.parts) }
{
    put_name(out, f.name.as_slice())?;
    put_blocks(out, live.top.as_slice(), live.bottom.as_slice(), f.temps)?;
    put_lifetimes(out, lives.parts.as_slice())
}

/// The text of a function: its name; for each block the temporaries that are live at its top and at its bottom; for
/// each temporary the parts of its lifetime. It fails only where memory is short.
pub fn live_text(
    alloc: Global,
    f: &Func<TempInsn>,
    live: &Flow,
    lives: &Lifetimes,
) -> Result<Vec<u8>, AllocError>
    requires tops { AreBounded (length f.now.blocks) f.now.temps live.now.top }
    requires bottoms { AreBounded (length f.now.blocks) f.now.temps live.now.bottom }
    ensures { IfOk result (λ bytes.
        bytes.items ≡ text.live_function_text f.now.name live.now.top live.now.bottom lives.now.parts) }
{
    let mut out = Vec::new(alloc);
    put_live(&mut out, f, live, lives)?;
    Ok(out)
}
