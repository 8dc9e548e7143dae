//! The lines of blocks and of lifetimes.

ghost use Rattle.std.specs.Prelude.{◌≡◌, ◌++◌, ◌<◌, ◌^◌, length, OnOk};
ghost use Rattle.alloc_live_lines.specs.Text as text;

use alloc_rules::scan::LifetimePart;
use bk_bits::BitSet;
use std::alloc::AllocError;
use suifvm_ir::text_parts::{put, put_block, put_number};

/// Puts the members of a set.
#[tactic(auto, using(crate::proofs::Loops::members_end, crate::proofs::Loops::member_inside))]
fn put_members(out: &mut Vec<u8>, set: &BitSet) -> Result<(), AllocError>
    requires { length set.now < 2 ^ 32 }
    ensures { OnOk result (out.new.items ≡ out.old.items ++ text.members_text 0 set.now) }
{
    let mut from = 0;
    while let Some(temp) = set.next_from(from) {
        put(out, " t")?;
        put_number(out, u64::from(temp))?;
        from = temp + 1;
    }
    Ok(())
}

/// Puts what is live at the ends of a block.
pub(crate) fn put_ends(
    out: &mut Vec<u8>,
    block: u32,
    top: &BitSet,
    bottom: &BitSet,
) -> Result<(), AllocError>
    requires top { length top.now < 2 ^ 32 }
    requires bottom { length bottom.now < 2 ^ 32 }
    ensures { OnOk result (out.new.items ≡ out.old.items ++ text.live_block_line block top.now bottom.now) }
{
    put_block(out, block)?;
    put(out, " in")?;
    put_members(out, top)?;
    put(out, " out")?;
    put_members(out, bottom)?;
    put(out, "\n")
}

/// Puts a part of a lifetime.
fn put_part(out: &mut Vec<u8>, part: LifetimePart) -> Result<(), AllocError>
    ensures { OnOk result (out.new.items ≡ out.old.items ++ text.part_text part) }
{
    put(out, " ")?;
    put_number(out, u64::from(part.first))?;
    put(out, "-")?;
    put_number(out, u64::from(part.last))
}

/// Puts the parts of a lifetime.
#[tactic(auto, using(crate::proofs::Loops::parts_next, crate::proofs::Loops::parts_end))]
fn put_parts(out: &mut Vec<u8>, parts: &[LifetimePart]) -> Result<(), AllocError>
    ensures { OnOk result (out.new.items ≡ out.old.items ++ text.parts_text parts.now) }
{
    for part in parts {
        put_part(out, *part)?;
    }
    Ok(())
}

/// Puts a temporary with the parts of its lifetime.
pub(crate) fn put_lifetime(
    out: &mut Vec<u8>,
    temp: u64,
    parts: &[LifetimePart],
) -> Result<(), AllocError>
    ensures { OnOk result (out.new.items ≡ out.old.items ++ text.lifetime_line temp parts.now) }
{
    put(out, "t")?;
    put_number(out, temp)?;
    put_parts(out, parts)?;
    put(out, "\n")
}
