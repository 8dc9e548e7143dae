//! Functions without the copies and dead instructions that can go.

use crate::placements::plain_of;
use crate::runs::put_run;
use alloc_model::allocation::Allocation;
use anyhow::Result;
use block_coalescing::coalesce;
use pass_core::function::Func;
use row_temp_texts::reader::TempReader;
use std::alloc::Global;
use temp_ir::insn::TempInsn;
use temp_ir::text_parts::put_insn;

/// The text of a function: a line for each block, and one for each instruction, by their numbers.
fn put_function(shown: &mut Vec<u8>, alloc: Global, f: &Func<TempInsn>) -> Result<()> {
    let mut number: u32 = 0;
    for (block, insns) in f.blocks.as_slice().iter().enumerate() {
        shown.extend_from_slice(format!(in alloc; "B{block}:\n")?.as_bytes())?;
        for (_id, insn) in insns.insns.iter() {
            shown.extend_from_slice(format!(in alloc; "{number} ")?.as_bytes())?;
            put_insn(shown, "t", insn)?;
            shown.push(b'\n')?;
            number = number.wrapping_add(1);
        }
    }
    Ok(())
}

/// The text of each function behind the pass, if it is asked for, and how the program runs before it and behind it.
pub fn answer(alloc: Global, given: &str, with_text: bool) -> Result<Vec<u8>> {
    let TempReader { functions, .. } = TempReader::of(alloc, given)?;
    let mut shown = Vec::new(alloc);
    let mut before: Vec<Allocation> = Vec::new(alloc);
    let mut after = Vec::new(alloc);
    for function in functions {
        before.push(plain_of(alloc, &function)?)?;
        let coalesced = coalesce(alloc, function)?;
        if with_text {
            put_function(&mut shown, alloc, &coalesced)?;
        }
        after.push(plain_of(alloc, &coalesced)?)?;
    }
    put_run(&mut shown, alloc, "before", before.as_slice(), false, given)?;
    put_run(&mut shown, alloc, "after", after.as_slice(), false, given)?;
    Ok(shown)
}
